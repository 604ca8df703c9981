//! The table beside plain loops: two seats that enqueue and a home that polls, in each order of their steps, all on one thread.
ghost use Rattle.std.specs.Prelude.{◌≡◌, ◌<◌, true, [], None, IfSome, MatchOption, MatchResult};
ghost use Rattle.aio_model.specs.Loop.InFlight.{AtRest, Announced as announced, Linked};
ghost use Rattle.aio_core.specs.Standing.{may_notify};
ghost use Rattle.aio_core.specs.Calls.{IsSeatOf};
ghost use Rattle.std.proofs.Props.{props};

use crate::calls::notify;
use aio_core::{Aimed, Announced, Built, Home, LoopTable, Seat};
use aio_model::{Flags, Kind, OneLoop};
use std::alloc::Global;
use std::process::Abort;
use std::test::Fail;

/// The plain loops with which the table is compared: one for each handle, which is told of each call when its flags are set,
/// and one for both, which is told of each handle when it is pushed.
#[derive(Drop)]
struct Plain {
    first: OneLoop,
    second: OneLoop,
    order: OneLoop,
    /// The handle that was pushed last and not taken since.
    head: Option<u32>,
    ghost first_sizes: { first.sizes.handles ≡ 1 },
    ghost second_sizes: { second.sizes.handles ≡ 1 },
    ghost order_sizes: { order.sizes.handles ≡ 2 },
}

fn ask(flags: &mut OneLoop, kind: Kind) -> Flags
    requires { flags.old.sizes.handles ≡ 1 }
    ensures { flags.new.sizes ≡ flags.old.sizes }
{
    match kind {
        Kind::Sched => flags.schedule(0),
        Kind::Idle => flags.schedule_idle(0),
        Kind::Del => flags.delete(0),
    }
}

/// The flags that the next dequeue finds.
fn dequeued(flags: &mut OneLoop) -> Option<Flags>
    ensures { flags.new.sizes ≡ flags.old.sizes }
{
    flags.take();
    let (_, found) = flags.dequeue()?;
    Some(found)
}

impl Plain {
    fn build(alloc: Global) -> Result<Plain, Fail> {
        let first = OneLoop::build(alloc, 1, 0, 0)?;
        let second = OneLoop::build(alloc, 1, 0, 0)?;
        let order = OneLoop::build(alloc, 2, 0, 0)?;
        Ok(Plain {
            first,
            second,
            order,
            head: None,
        })
    }

    fn ask(&mut self, bh: u32, kind: Kind) -> Flags {
        if bh == 0 {
            ask(&mut self.first, kind)
        } else {
            ask(&mut self.second, kind)
        }
    }

    fn push(&mut self, bh: u32)
        requires { bh < 2 }
    {
        self.order.schedule(bh);
        self.head = Some(bh);
    }

    fn cancel(&mut self, bh: u32) -> Flags {
        if bh == 0 {
            self.first.cancel(0)
        } else {
            self.second.cancel(0)
        }
    }

    fn take(&mut self) {
        self.order.take();
        self.head = None;
    }

    fn flags_of(&mut self, bh: u32) -> Option<Flags> {
        if bh == 0 {
            dequeued(&mut self.first)
        } else {
            dequeued(&mut self.second)
        }
    }

    /// The next handle that is dequeued, and the flags that it has.
    fn next(&mut self) -> Option<(u32, Flags)> {
        let (bh, _) = self.order.dequeue()?;
        let flags = self.flags_of(bh)?;
        Some((bh, flags))
    }
}

/// What one seat asks, and how far it is.
#[derive(Clone, Copy, Debug)]
struct Asking {
    bh: u32,
    kind: Kind,
    has_begun: bool,
    /// The head that it loaded.
    head: Option<u32>,
    ghost known: { bh < 2 },
}

impl Asking {
    fn of(bh: u32, kind: Kind) -> Asking
        requires { bh < 2 }
    {
        Asking {
            bh,
            kind,
            has_begun: false,
            head: None,
        }
    }
}

/// What a seat has to push: an index to link, or else one to aim.
type Push = Result<Aimed, Announced>;

/// What a seat owes: a push, or else a notify.
type Debt = Option<Option<Push>>;

/// Announces what is asked: the flags that it finds are the plain loop's.
fn begin(
    rt: &impl Abort,
    table: &LoopTable<u64>,
    seat: &mut Seat<u64>,
    asking: &mut Asking,
    plain: &mut Plain,
) -> Option<Push>
    requires seat { IsSeatOf table.now seat.old }
    requires handles { table.now.sizes.handles ≡ 2 }
    requires rest { seat.old.known.phase ≡ AtRest }
    ensures seat { IsSeatOf table.now seat.new }
    ensures owed { MatchOption result (may_notify seat.new.known.phase ≡ true) (λ push. MatchResult push (λ aimed. seat.new.known.phase ≡ Linked aimed.0 aimed.1) (λ owed. seat.new.known.phase ≡ announced owed)) }
{
    asking.has_begun = true;
    let (found, owed) = table.announce(seat, asking.bh, asking.kind);
    assert_eq!(rt; found, plain.ask(asking.bh, asking.kind));
    match owed {
        Some(owed) => Some(Err(owed)),
        None => None,
    }
}

/// Links what was aimed: that is missed exactly where another head is there than the one that was loaded.
fn link(
    rt: &impl Abort,
    table: &LoopTable<u64>,
    seat: &mut Seat<u64>,
    aimed: Aimed,
    asking: &Asking,
    plain: &mut Plain,
) -> Option<Push>
    requires seat { IsSeatOf table.now seat.old }
    requires phase { seat.old.known.phase ≡ Linked aimed.0 aimed.1 }
    ensures seat { IsSeatOf table.now seat.new }
    ensures owed { MatchOption result (may_notify seat.new.known.phase ≡ true) (λ push. MatchResult push (λ aimed. seat.new.known.phase ≡ Linked aimed.0 aimed.1) (λ owed. seat.new.known.phase ≡ announced owed)) }
{
    let is_same = asking.head == plain.head;
    match table.link(seat, aimed) {
        Ok(()) => {
            assert!(rt; is_same);
            plain.push(asking.bh);
            None
        }
        Err(owed) => {
            assert!(rt; !is_same);
            Some(Err(owed))
        }
    }
}

/// The seat's next step, if it has one left.
fn step(
    rt: &impl Abort,
    table: &LoopTable<u64>,
    seat: &mut Seat<u64>,
    debt: Debt,
    asking: &mut Asking,
    plain: &mut Plain,
) -> Debt
    requires seat { IsSeatOf table.now seat.old }
    requires handles { table.now.sizes.handles ≡ 2 }
    requires debt { MatchOption debt (seat.old.known.phase ≡ AtRest) (λ due. MatchOption due (may_notify seat.old.known.phase ≡ true) (λ push. MatchResult push (λ aimed. seat.old.known.phase ≡ Linked aimed.0 aimed.1) (λ owed. seat.old.known.phase ≡ announced owed))) }
    ensures seat { IsSeatOf table.now seat.new }
    ensures debt { MatchOption result (seat.new.known.phase ≡ AtRest) (λ due. MatchOption due (may_notify seat.new.known.phase ≡ true) (λ push. MatchResult push (λ aimed. seat.new.known.phase ≡ Linked aimed.0 aimed.1) (λ owed. seat.new.known.phase ≡ announced owed))) }
{
    match debt {
        None if asking.has_begun => None,
        None => Some(begin(rt, table, seat, asking, plain)),
        Some(None) => {
            notify(rt, table, seat);
            None
        }
        Some(Some(Err(owed))) => {
            asking.head = plain.head;
            Some(Some(Ok(table.aim(seat, owed))))
        }
        Some(Some(Ok(aimed))) => Some(link(rt, table, seat, aimed, asking, plain)),
    }
}

/// A seat, and what it owes.
struct Side {
    seat: Seat<u64>,
    debt: Debt,
    asking: Asking,
    ghost owed: { MatchOption debt (seat.known.phase ≡ AtRest) (λ due. MatchOption due (may_notify seat.known.phase ≡ true) (λ push. MatchResult push (λ aimed. seat.known.phase ≡ Linked aimed.0 aimed.1) (λ owed. seat.known.phase ≡ announced owed))) } by { Prim.hlevel props },
}

impl Side {
    fn of(seat: Seat<u64>, asking: Asking) -> Side
        requires { seat.known.phase ≡ AtRest }
        ensures { result.seat ≡ seat }
    {
        Side {
            seat,
            debt: None,
            asking,
        }
    }

    fn steps(self, rt: &impl Abort, table: &LoopTable<u64>, plain: &mut Plain) -> Side
        requires seat { IsSeatOf table.now self.seat }
        requires handles { table.now.sizes.handles ≡ 2 }
        ensures seat { IsSeatOf table.now result.seat }
    {
        let Side {
            mut seat,
            debt,
            mut asking,
        } = self;
        let debt = step(rt, table, &mut seat, debt, &mut asking, plain);
        Side { seat, debt, asking }
    }

    /// It owes nothing more.
    fn is_done(self, rt: &impl Abort) -> Seat<u64>
        ensures { result ≡ self.seat }
    {
        let Side {
            seat,
            debt,
            asking: _,
        } = self;
        match debt {
            None => (),
            Some(None) => panic!(rt; "home isn't notified"),
            Some(Some(Err(owed))) => panic!(rt; "{} is not aimed", owed.bh()),
            Some(Some(Ok(_aimed))) => panic!(rt; "a handle is not linked"),
        }
        seat
    }
}

/// Home dequeues the handle that the plain loop does, and finds its flags, or nothing is left.
fn compare_next(rt: &impl Abort, table: &LoopTable<u64>, home: &mut Home<u64>, plain: &mut Plain)
    requires seat { IsSeatOf table.now home.old.seat }
    requires free { home.old.seat.known.stage.hand ≡ None }
    ensures seat { IsSeatOf table.now home.new.seat }
    ensures free { home.new.seat.known.stage.hand ≡ None }
{
    let want = plain.next();
    let found = match table.dequeue_next(home) {
        Some(next) => {
            assert!(rt; next.job.is_none());
            Some((next.bh, next.flags))
        }
        None => None,
    };
    assert_eq!(rt; found, want);
}

/// Nothing is left that home took.
fn compare_end(rt: &impl Abort, table: &LoopTable<u64>, home: &mut Home<u64>, plain: &mut Plain)
    requires seat { IsSeatOf table.now home.old.seat }
    requires free { home.old.seat.known.stage.hand ≡ None }
    ensures seat { IsSeatOf table.now home.new.seat }
    ensures free { home.new.seat.known.stage.hand ≡ None }
    ensures empty { home.new.seat.known.stage.slices ≡ [] }
{
    assert!(rt; plain.next().is_none());
    if let Some(next) = table.dequeue_next(home) {
        panic!(rt; "{} is left", next.bh);
    }
}

/// Home takes the list, and dequeues what was in it.
fn poll(rt: &impl Abort, table: &LoopTable<u64>, home: &mut Home<u64>, plain: &mut Plain)
    requires seat { IsSeatOf table.now home.old.seat }
    requires free { home.old.seat.known.stage.hand ≡ None }
    requires empty { home.old.seat.known.stage.slices ≡ [] }
    ensures seat { IsSeatOf table.now home.new.seat }
    ensures free { home.new.seat.known.stage.hand ≡ None }
    ensures empty { home.new.seat.known.stage.slices ≡ [] }
{
    table.take(home);
    plain.take();
    compare_next(rt, table, home, plain);
    compare_next(rt, table, home, plain);
    compare_end(rt, table, home, plain);
}

/// A table of two handles, its home, and two seats that each enqueue one.
struct World {
    table: LoopTable<u64>,
    home: Home<u64>,
    one: Side,
    other: Side,
    ghost handles: { table.sizes.handles ≡ 2 },
    ghost home_of: { IsSeatOf table home.seat },
    ghost one_of: { IsSeatOf table one.seat },
    ghost other_of: { IsSeatOf table other.seat },
    ghost empty: { home.seat.known.stage.slices ≡ [] },
    ghost free: { home.seat.known.stage.hand ≡ None },
}

impl World {
    fn build(alloc: Global, by_one: Asking, by_other: Asking) -> Result<World, Fail> {
        let Ok(
            Built {
                table,
                home,
                mut seat,
            },
        ) = LoopTable::build(alloc, 2, 0, 0)
        else {
            return Err(Fail::from("no memory"));
        };
        let Some(other) = table.split(&mut seat) else {
            return Err(Fail::from("no halves"));
        };
        Ok(World {
            table,
            home,
            one: Side::of(seat, by_one),
            other: Side::of(other, by_other),
        })
    }

    fn one_steps(self, rt: &impl Abort, plain: &mut Plain) -> World {
        let World {
            table,
            home,
            one,
            other,
        } = self;
        let one = one.steps(rt, &table, plain);
        World {
            table,
            home,
            one,
            other,
        }
    }

    fn other_steps(self, rt: &impl Abort, plain: &mut Plain) -> World {
        let World {
            table,
            home,
            one,
            other,
        } = self;
        let other = other.steps(rt, &table, plain);
        World {
            table,
            home,
            one,
            other,
        }
    }

    fn polls(self, rt: &impl Abort, plain: &mut Plain) -> World {
        let World {
            table,
            mut home,
            one,
            other,
        } = self;
        poll(rt, &table, &mut home, plain);
        World {
            table,
            home,
            one,
            other,
        }
    }

    fn steps(self, rt: &impl Abort, is_ones: bool, plain: &mut Plain) -> World {
        if is_ones {
            self.one_steps(rt, plain)
        } else {
            self.other_steps(rt, plain)
        }
    }

    /// Both seats are done: home polls, once more, after a cancel where that is asked.
    fn ends(self, rt: &impl Abort, cancels: Option<u32>, plain: &mut Plain)
        requires { IfSome cancels (λ bh. bh < 2) }
    {
        let World {
            table,
            mut home,
            one,
            other,
        } = self;
        let mut seat = one.is_done(rt);
        let _other = other.is_done(rt);
        if let Some(bh) = cancels {
            let found = table.cancel(&mut seat, bh);
            assert_eq!(rt; found, plain.cancel(bh));
        }
        poll(rt, &table, &mut home, plain);
    }
}

/// Whether the first seat does the step at this place: by the bits, then by turns.
fn is_ones(order: u32, place: u32) -> bool {
    if place < 8 {
        order >> place & 1 == 1
    } else {
        place % 2 == 0
    }
}

/// Both enqueue, in the order of the bits, then by turns; home polls in between, and in the end.
fn compare(
    rt: &impl Abort,
    alloc: Global,
    order: u32,
    polled_at: u32,
    asking: (Asking, Asking),
    cancels: Option<u32>,
) -> Result<(), Fail>
    requires { IfSome cancels (λ bh. bh < 2) }
{
    let (by_one, by_other) = asking;
    let mut plain = Plain::build(alloc)?;
    let mut world = World::build(alloc, by_one, by_other)?;
    for place in 0..24 {
        if place == polled_at {
            world = world.polls(rt, &mut plain);
        }
        world = world.steps(rt, is_ones(order, place), &mut plain);
    }
    world.ends(rt, cancels, &mut plain);
    Ok(())
}

#[test]
fn two_seats_in_each_order_against_a_take_do_what_the_plain_loop_does(
    rt: HostRuntime,
) -> Result<(), Fail> {
    let cases = [
        (Asking::of(0, Kind::Sched), Asking::of(1, Kind::Sched)),
        (Asking::of(0, Kind::Idle), Asking::of(1, Kind::Del)),
        (Asking::of(0, Kind::Sched), Asking::of(0, Kind::Del)),
        (Asking::of(1, Kind::Idle), Asking::of(1, Kind::Sched)),
    ];
    for asking in cases {
        for order in 0..256 {
            for polled_at in 0..9 {
                compare(&rt, rt.alloc(), order, polled_at, asking, None)?;
                compare(&rt, rt.alloc(), order, polled_at, asking, Some(1))?;
            }
        }
    }
    Ok(())
}
