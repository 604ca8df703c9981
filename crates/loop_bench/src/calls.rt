//! How many rounds are measured, and a runner that counts calls.
use aio_bh::{Call, Runner, Turn};
use aio_core::{LoopTable, Seat};

/// How many rounds one handle has.
pub const ONE_ROUNDS: u64 = 1_000_000;

/// How many rounds all handles have.
pub const MANY_ROUNDS: u64 = 50_000;

/// How many handles there are.
pub const HANDLES: u32 = 64;

/// How many one-shots may be on their way at a time.
pub const LOTS: u32 = 16;

/// How many callbacks were called.
#[derive(Drop)]
pub struct Calls {
    pub count: u64,
}

impl Runner<u64> for Calls {
    ghost use Rattle.std.specs.Prelude.{◌≡◌, true};

    ghost can_run = { λ _ _. true ≡ true };

    ghost does = { λ _ _ _. true ≡ true };

    fn run(
        &mut self,
        _table: &LoopTable<u64>,
        _seat: &mut Seat<u64>,
        _call: &mut Call<u64>,
    ) -> Turn {
        self.count = self.count.wrapping_add(1);
        Turn::Done
    }
}
