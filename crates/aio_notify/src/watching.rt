//! A home looks at the events that it watches.
ghost use Rattle.std.specs.Prelude.{◌≡◌, ◌<◌, ◌≤◌, [], length, true, MatchOption};
ghost use Rattle.aio_core.specs.SleepSteps.{scan_in};
ghost use Rattle.aio_core.specs.Scans.{IsAhead};
ghost use Rattle.aio_core.specs.Calls.{IsSeatOf};
ghost use Rattle.aio_notify.specs.Watching.{watches, LooksAt, LooksOn, FindsSet};

use aio_core::{Home, Job, LoopTable};

fn is_watched(watch: u64, event: u32) -> bool
    requires { event < 64 }
    ensures { result ≡ watches watch event }
{
    (watch >> event) % 2 == 1
}

/// Whether the event is watched and set. One that isn't watched is not loaded.
pub fn is_set<J: Job>(table: &LoopTable<J>, home: &mut Home<J>, watch: u64, event: u32) -> bool
    requires seat { IsSeatOf table.now home.old.seat }
    requires event { event < table.now.sizes.events }
    requires low { event < 64 }
    ensures seat { IsSeatOf table.now home.new.seat }
    ensures looks { LooksAt watch event result home.old.seat.known home.new.seat.known }
{
    is_watched(watch, event) && table.load_event(home, event)
}

/// Looks at the watched events in rising order, up to the first that is set.
pub fn first_set<J: Job>(table: &LoopTable<J>, home: &mut Home<J>, watch: u64) -> Option<u32>
    requires seat { IsSeatOf table.now home.old.seat }
    requires scanned { IsAhead [] home.old.seat.known }
    requires fresh { (scan_in home.old.seat.known.sleep).watched ≡ [] }
    ensures seat { IsSeatOf table.now home.new.seat }
    ensures looks { MatchOption result (LooksOn watch table.now.sizes.events home.old.seat.known home.new.seat.known) (λ e. FindsSet watch table.now.sizes.events e home.old.seat.known home.new.seat.known) }
{
    for event in 0..table.events() {
        if is_set(table, home, watch, event) {
            return Some(event);
        }
    }
    None
}
