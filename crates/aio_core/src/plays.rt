//! The rule of the table, and what each step tells. No value of these types is made.
ghost use Rattle.aio_core.specs.Known.{first_known};
ghost use Rattle.aio_core.specs.Splitting.{seats_known, home_known, first_half, last_half};
ghost use Rattle.aio_core.specs.Joining.{joined_known, spent_known};
ghost use Rattle.aio_core.specs.Plays.{enqueued, head_loaded, next_stored, head_compared, canceled, taken, next_loaded, dequeued, learned, notified_stored, notify_me_loaded, notifier_set, scan_begun, scan_lifted, flags_scanned, armed, tested, disarmed, notifier_cleared, accepted, event_set, event_cleared, event_loaded, notifier_looked_at, flags_told, event_told};

use crate::job::Job;
use crate::sizes::Counts;
use crate::view::View;
use atomic_table::{Join, Play, Split, TableRule};

pub struct LoopRule;

impl<J: Job> TableRule<Option<J>, View, Counts> for LoopRule {
    ghost use Rattle.aio_core.specs.Rule.{Kept};

    ghost holds = { λ k s. Kept J.number_of k s };

    ghost first = { first_known };
}

pub struct Enqueue;

impl<S> Play<S, View> for Enqueue {
    ghost then = { enqueued };
}

pub struct LoadHead;

impl<S> Play<S, View> for LoadHead {
    ghost then = { head_loaded };
}

pub struct StoreNext;

impl<S> Play<S, View> for StoreNext {
    ghost then = { next_stored };
}

pub struct CompareHead;

impl<S> Play<S, View> for CompareHead {
    ghost then = { head_compared };
}

pub struct Cancel;

impl<S> Play<S, View> for Cancel {
    ghost then = { canceled };
}

pub struct Take;

impl<S> Play<S, View> for Take {
    ghost then = { taken };
}

pub struct LoadNext;

impl<S> Play<S, View> for LoadNext {
    ghost then = { next_loaded };
}

pub struct Dequeue;

impl<S> Play<S, View> for Dequeue {
    ghost then = { dequeued };
}

/// The home's number is cut off from those of all seats.
pub struct CutHome;

impl Split<View> for CutHome {
    ghost left = { seats_known };

    ghost right = { home_known };
}

/// The last half of the numbers goes to a new seat.
pub struct Halves;

impl Split<View> for Halves {
    ghost left = { first_half };

    ghost right = { last_half };
}

/// A seat takes in another's numbers, and what it has seen.
pub struct Together;

impl Join<View> for Together {
    ghost both = { joined_known };

    ghost spent = { spent_known };
}

pub struct Learn;

impl<S> Play<S, View> for Learn {
    ghost then = { learned };
}

pub struct StoreNotified;

impl<S> Play<S, View> for StoreNotified {
    ghost then = { notified_stored };
}

pub struct LoadNotifyMe;

impl<S> Play<S, View> for LoadNotifyMe {
    ghost then = { notify_me_loaded };
}

pub struct SetNotifier;

impl<S> Play<S, View> for SetNotifier {
    ghost then = { notifier_set };
}

pub struct BeginScan;

impl<S> Play<S, View> for BeginScan {
    ghost then = { scan_begun };
}

pub struct ScanNext;

impl<S> Play<S, View> for ScanNext {
    ghost then = { scan_lifted };
}

pub struct ScanFlags;

impl<S> Play<S, View> for ScanFlags {
    ghost then = { flags_scanned };
}

pub struct Arm;

impl<S> Play<S, View> for Arm {
    ghost then = { armed };
}

pub struct Test;

impl<S> Play<S, View> for Test {
    ghost then = { tested };
}

pub struct Disarm;

impl<S> Play<S, View> for Disarm {
    ghost then = { disarmed };
}

pub struct ClearNotifier;

impl<S> Play<S, View> for ClearNotifier {
    ghost then = { notifier_cleared };
}

pub struct Accept;

impl<S> Play<S, View> for Accept {
    ghost then = { accepted };
}

pub struct SetEvent;

impl<S> Play<S, View> for SetEvent {
    ghost then = { event_set };
}

pub struct ClearEvent;

impl<S> Play<S, View> for ClearEvent {
    ghost then = { event_cleared };
}

pub struct LoadEvent;

impl<S> Play<S, View> for LoadEvent {
    ghost then = { event_loaded };
}

pub struct LookAtNotifier;

impl<S> Play<S, View> for LookAtNotifier {
    ghost then = { notifier_looked_at };
}

pub struct LookAtFlags;

impl<S> Play<S, View> for LookAtFlags {
    ghost then = { flags_told };
}

pub struct LookAtEvent;

impl<S> Play<S, View> for LookAtEvent {
    ghost then = { event_told };
}

/// A seat of the base crate.
pub type Inner<J> = atomic_table::Seat<Option<J>, View>;

pub struct ClaimLot;

impl<J: Job> Play<Option<J>, View> for ClaimLot {
    ghost use Rattle.aio_core.specs.Plays.{lot_claimed};

    ghost then = { λ st m n w. lot_claimed J.number_of st m n w };
}

pub struct EnqueueLot;

impl<J: Job> Play<Option<J>, View> for EnqueueLot {
    ghost use Rattle.aio_core.specs.Plays.{lot_enqueued};

    ghost then = { λ st m n w. lot_enqueued J.number_of st m n w };
}

pub struct LiftLot;

impl<J: Job> Play<Option<J>, View> for LiftLot {
    ghost use Rattle.aio_core.specs.Plays.{lot_lifted};

    ghost then = { λ st m n w. lot_lifted J.number_of st m n w };
}

pub struct DequeueLot;

impl<J: Job> Play<Option<J>, View> for DequeueLot {
    ghost use Rattle.aio_core.specs.Plays.{lot_dequeued};

    ghost then = { λ st m n w. lot_dequeued J.number_of st m n w };
}

pub struct FreeLot;

impl<J: Job> Play<Option<J>, View> for FreeLot {
    ghost use Rattle.aio_core.specs.Plays.{lot_freed};

    ghost then = { λ st m n w. lot_freed J.number_of st m n w };
}
