//! What a thread has of its loop in a turn.
use crate::rows::Row;
use aio_loop::AioLoop;
use co_schedule::CoHome;
use co_state::Origin;

/// One loop on its thread: its home, and a seat of each loop's tables. Whoever has it is the home thread of both homes.
#[derive(Drop)]
pub struct Station<'a, C: Origin> {
    pub number: usize,
    pub turning: AioLoop<'a, ()>,
    pub coroutines: CoHome<C>,
    pub row: Row<C>,
}
