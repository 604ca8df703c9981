//! The end of a loop. Whoever has its table, its home and the seat of all other numbers knows that nobody else can step on it: home takes
//! in all numbers, and looks once at each index and each event.
ghost use Rattle.std.specs.Prelude.{◌≡◌, true, MatchOption};
ghost use Rattle.aio_model.specs.Loop.InFlight.{AtRest};
ghost use Rattle.aio_core.specs.Words.{index_count};
ghost use Rattle.aio_core.specs.Splitting.{front_known, back_known};
ghost use Rattle.aio_core.specs.Calls.{IsReady, IsSeatOf};
ghost use Rattle.aio_notify.specs.Settling.{is_committed, least_pending, least_set, looked_at, LooksAtFlags, LooksAtEvents, SameButDone, IsWhole, HomeHasAll, NotifierStands, EndsQuiet, FindsPending, FindsSetEvent};
ghost use Rattle.aio_notify.specs.Settled.{MatchSettled};

use crate::loop_end::{LoopEnd, Settled, Unsettled};
use aio_core::{Home, Job, LoopTable, Seat, Whole};

/// Looks at the flags of the indices in rising order, up to the first that is pending.
fn first_pending<J: Job>(table: &LoopTable<J>, whole: &mut Whole<J>) -> Option<u32>
    requires seat { IsSeatOf table.now whole.old.seat }
    ensures seat { IsSeatOf table.now whole.new.seat }
    ensures looks { LooksAtFlags (looked_at (index_count table.now.sizes) result) whole.old.seat.known whole.new.seat.known }
    ensures least { result ≡ least_pending table.now.sizes whole.old.seat.known.seen }
    ensures same { SameButDone whole.old.seat.known whole.new.seat.known }
{
    for bh in 0..table.indices() {
        if table.look_at_flags(whole, bh) {
            return Some(bh);
        }
    }
    None
}

/// Looks at the events in rising order, up to the first that is set.
fn first_event<J: Job>(table: &LoopTable<J>, whole: &mut Whole<J>) -> Option<u32>
    requires seat { IsSeatOf table.now whole.old.seat }
    ensures seat { IsSeatOf table.now whole.new.seat }
    ensures looks { LooksAtEvents (looked_at table.now.sizes.events result) whole.old.seat.known whole.new.seat.known }
    ensures least { result ≡ least_set table.now.sizes whole.old.seat.known.seen }
    ensures same { SameButDone whole.old.seat.known whole.new.seat.known }
{
    for event in 0..table.events() {
        if table.look_at_event(whole, event) {
            return Some(event);
        }
    }
    None
}

/// Joins all numbers, and looks at the notifier.
fn whole_of<J: Job>(table: &LoopTable<J>, home: Home<J>, seat: Seat<J>) -> (Whole<J>, bool)
    requires home { IsReady table.now home.seat }
    requires seat { IsReady table.now seat }
    requires committed { is_committed home.seat.known.sleep ≡ true }
    requires all { (seat.known.first ≡ 0) × (seat.known.count ≡ 64) }
    ensures seat { IsSeatOf table.now result.0.seat }
    ensures whole { IsWhole result.1 seat.known home.seat.known result.0.seat.known }
    ensures at_home { HomeHasAll home.seat.known result.0.seat.known }
    ensures rings { NotifierStands result.1 home.seat.known result.0.seat.known }
{
    let mut whole = table.unite_all(home, seat);
    let notifier = table.look_at_notifier(&mut whole);
    (whole, notifier)
}

/// Cuts home off again.
fn given_back<J: Job>(table: LoopTable<J>, whole: Whole<J>, notifier: bool) -> Unsettled<J>
    requires seat { IsSeatOf table whole.seat }
    ensures table { result.table ≡ table }
    ensures home { IsSeatOf table result.home.seat }
    ensures seat { IsSeatOf table result.seat }
    ensures notifier { result.notifier ≡ notifier }
    ensures back { result.home.seat.known ≡ back_known 64 whole.seat.known }
    ensures front { result.seat.known ≡ front_known 64 whole.seat.known }
{
    let (home, seat) = table.part(whole);
    Unsettled {
        table,
        home,
        seat,
        notifier,
    }
}

/// Ends a loop whose home is committed, where nothing is pending and no event is set. Else all comes back as it was, with whether
/// the notifier was found set: it is where the index is to be called and isn't idle, and where home watched the event. What home
/// is to do then is to disarm, to accept and to poll. Of the seats that were joined, what each had seen is a part of the history.
pub fn settle<J: Job + Drop>(table: LoopTable<J>, home: Home<J>, seat: Seat<J>) -> Settled<J>
    requires home { IsReady table home.seat }
    requires seat { IsReady table seat }
    requires committed { is_committed home.seat.known.sleep ≡ true }
    requires all { (seat.known.first ≡ 0) × (seat.known.count ≡ 64) }
    ensures { MatchSettled result
        (λ end. (end.table ≡ table.table) × EndsQuiet seat.known home.seat.known end.known)
        (λ i left. (left.table ≡ table) × IsSeatOf table left.home.seat × IsSeatOf table left.seat × FindsPending i left.notifier seat.known home.seat.known left.seat.known left.home.seat.known)
        (λ e left. (left.table ≡ table) × IsSeatOf table left.home.seat × IsSeatOf table left.seat × FindsSetEvent e left.notifier seat.known home.seat.known left.seat.known left.home.seat.known) }
{
    let (mut whole, notifier) = whole_of(&table, home, seat);
    if let Some(bh) = first_pending(&table, &mut whole) {
        return Settled::Pending(bh, given_back(table, whole, notifier));
    }
    if let Some(event) = first_event(&table, &mut whole) {
        return Settled::Event(event, given_back(table, whole, notifier));
    }
    Settled::Quiet(LoopEnd::of(whole))
}
