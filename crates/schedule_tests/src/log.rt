//! What home began.
use schedule_fixture::NotesBegun;

/// What was begun: the first four in order, and how often each coroutine was.
#[derive(Drop)]
pub(crate) struct Log {
    pub(crate) first: [(u32, Option<u64>); 4],
    pub(crate) count: usize,
    pub(crate) times: [u64; 34],
}

impl Log {
    pub(crate) fn empty() -> Log {
        Log {
            first: [(0, None); 4],
            count: 0,
            times: [0; 34],
        }
    }
}

impl NotesBegun for Log {
    fn note(&mut self, co: u32, state: Option<u64>) {
        if let Some(place) = self.first.get_mut(self.count) {
            *place = (co, state);
        }
        self.count = self.count.wrapping_add(1);
        if let Some(place) = self.times.get_mut(co as usize) {
            *place = place.wrapping_add(1);
        }
    }
}
