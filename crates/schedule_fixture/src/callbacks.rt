//! A callback of handle 0 that takes the list and begins what it took.
ghost use Rattle.std.specs.Prelude.{◌≡◌, ◌≤◌, []};
ghost use Rattle.co_schedule.specs.Calls.{IsSeatOf};
ghost use Rattle.co_schedule.specs.Homes.{IsIdle};

use aio_bh::{Call, Runner, Turn};
use aio_core::{LoopTable, Seat};
use co_schedule::{CoHome, CoRun, CoTable};

/// Somebody who is told of each coroutine that home begins.
pub trait NotesBegun {
    /// Told of one that was begun, with the state that came with it.
    fn note(&mut self, co: u32, state: Option<u64>);
}

/// Begins all of a run.
fn begin_all<N: NotesBegun>(
    table: &CoTable<u64>,
    home: &mut CoHome<u64>,
    run: &mut CoRun,
    notes: &mut N,
)
    requires home { IsSeatOf table.now home.old }
    requires run { run.old.cos ≡ home.old.known.stage.taken }
    requires room { table.now.coroutines ≤ run.old.room }
    ensures idle { IsIdle table.now home.new run.new }
{
    while let Some((co, state)) = table.begin(home, run) {
        notes.note(co, state);
    }
}

/// Takes the list in a callback of handle 0, and begins all of it. Calls of other handles do nothing.
pub fn take_and_begin<N: NotesBegun>(
    table: &CoTable<u64>,
    home: &mut CoHome<u64>,
    run: &mut CoRun,
    call: &Call<()>,
    notes: &mut N,
)
    requires { IsIdle table.now home.old run.old }
    ensures { IsIdle table.now home.new run.new }
{
    if call.bh == 0 {
        table.take_all(home, run, call);
        begin_all(table, home, run, notes);
    }
}

/// What a home needs for its coroutines.
#[derive(Drop)]
pub struct HomeCallback<'a, N: Drop> {
    pub table: &'a CoTable<u64>,
    pub home: CoHome<u64>,
    pub run: CoRun,
    pub notes: N,
}

impl<'a, N: NotesBegun + Drop> Runner<()> for HomeCallback<'a, N> {
    ghost use Rattle.std.specs.Prelude.{true};
    ghost use Rattle.co_schedule.specs.Homes.{IsIdle};

    ghost can_run = { λ e _. IsIdle e.table.now e.home e.run };

    ghost does = { λ _ _ _. true ≡ true };

    fn run(&mut self, _table: &LoopTable<()>, _seat: &mut Seat<()>, call: &mut Call<()>) -> Turn {
        take_and_begin(
            self.table,
            &mut self.home,
            &mut self.run,
            call,
            &mut self.notes,
        );
        Turn::Done
    }
}
