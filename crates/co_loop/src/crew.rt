//! What a loop keeps of coroutines, beside the run of those that it took.
use crate::leaving::Leaving;
use crate::naps::Nap;
use co_state::{CoStore, Origin};
use co_waits::CoQueue;
use loop_rows::Seats;

/// The coroutines of one loop, by their numbers below `coroutines`, and the seats through which it wakes and sends others.
#[derive(Drop)]
pub struct Crew<C: Origin> {
    /// The number of this loop.
    pub own: u32,
    pub coroutines: u32,
    /// Those that are here and wait.
    pub store: CoStore<C>,
    /// Those of this loop that were woken and aren't entered yet.
    pub woken: CoQueue,
    pub naps: Vec<Nap>,
    /// Those that are to move, and whose post found a mark.
    pub leaving: Vec<Option<Leaving<C>>>,
    /// Those that are done, and those that came while their number was taken.
    pub ended: Vec<Option<C>>,
    /// How many are done. It stays at the greatest u64.
    pub done: u64,
    /// Whether one of them has asked, here, that all loops end.
    pub quits: bool,
    /// A seat of each loop, in their order.
    pub seats: Vec<Seats<C>>,
}
