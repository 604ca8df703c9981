//! The next step of a seat that schedules.
use aio_core::{Aimed, Announced};

/// The next step of a seat that enqueues a handle and notifies.
pub enum Debt {
    Announce,
    Aim(Announced),
    Link(Aimed),
    StoreNotified,
    LoadNotifyMe,
    SetNotifier,
    /// It has ended, and has set the notifier or not.
    Nothing(bool),
}
