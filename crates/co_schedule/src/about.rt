//! The sizes of a table, and the origin of its coroutines.
use chosen::Chosen;
use co_state::Origin;

/// What a table is told when it is made.
pub struct About<C: Origin> {
    pub coroutines: u32,
    pub origin: Chosen<C::Source>,
}

impl<C: Origin> Drop for About<C> {
    fn drop(self) {
        let Self {
            coroutines: _,
            origin: _,
        } = self;
    }
}
