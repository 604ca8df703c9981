//! What a schedule hands over.
use aio_model::Cause;

/// What lies in the slot of a coroutine that was scheduled: why, and the state that came with it.
#[derive(Drop)]
pub struct Parcel<C> {
    pub cause: Cause,
    pub state: Option<C>,
}
