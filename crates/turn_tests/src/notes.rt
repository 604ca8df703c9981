//! A runner that notes what it is entered for.
use aio_bh::{Call, Turn};
use aio_core::{LoopTable, Seat};
use aio_loop::{LoopRunner, Ready, Side, TimerId};

/// What a runner was entered for: a bottom half, a handler with its tag, or a timer.
#[derive(Clone, Copy, Debug, PartialEq, Eq)]
pub enum Entry {
    None,
    Bottom(u32),
    Handler(u64),
    Timer(u32),
}

/// A runner that notes what it is entered for.
#[derive(Drop)]
pub struct Notes {
    pub entries: [Entry; 4],
    pub count: usize,
}

impl Notes {
    pub fn none() -> Notes {
        Notes {
            entries: [Entry::None; 4],
            count: 0,
        }
    }

    pub fn note(&mut self, entry: Entry) {
        if self.count < 4 {
            self.entries[self.count] = entry;
            self.count += 1;
        }
    }
}

impl LoopRunner<u64> for Notes {
    ghost use Rattle.std.specs.Prelude.{◌≡◌, true};

    ghost can_run = { λ _ _ _. true ≡ true };

    ghost does = { λ _ _ _. true ≡ true };

    fn bottom(
        &mut self,
        _table: &LoopTable<u64>,
        _seat: &mut Seat<u64>,
        _side: &mut Side,
        call: &mut Call<u64>,
    ) -> Turn {
        self.note(Entry::Bottom(call.bh));
        Turn::Done
    }

    fn ready(
        &mut self,
        _table: &LoopTable<u64>,
        _seat: &mut Seat<u64>,
        _side: &mut Side,
        ready: Ready,
    ) {
        self.note(Entry::Handler(ready.tag));
    }

    fn expired(
        &mut self,
        _table: &LoopTable<u64>,
        _seat: &mut Seat<u64>,
        _side: &mut Side,
        id: TimerId,
    ) {
        self.note(Entry::Timer(id.number));
    }
}
