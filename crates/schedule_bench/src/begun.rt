//! Counts the coroutines that home begins.
use schedule_fixture::NotesBegun;

/// The coroutines that are woken over and over. The one behind them says that a thread is done.
pub const SHARED: u32 = 32;

/// How many coroutines there are.
pub const COROUTINES: u32 = 33;

/// How many were begun, and whether the one was by which a thread says that it is done.
#[derive(Drop)]
pub struct Begun {
    pub count: u64,
    pub is_last: bool,
}

impl Begun {
    pub fn none() -> Begun {
        Begun {
            count: 0,
            is_last: false,
        }
    }
}

impl NotesBegun for Begun {
    fn note(&mut self, co: u32, _state: Option<u64>) {
        self.count = self.count.wrapping_add(1);
        self.is_last = self.is_last || co == SHARED;
    }
}
