//! Enqueues of each kind, and what a poll of one loop then calls; and a push that lost.
ghost use Rattle.std.specs.Prelude.{◌≡◌, ◌<◌, IfSome, None};
ghost use Rattle.aio_model.specs.Loop.InFlight.{AtRest};
ghost use Rattle.aio_model.specs.Loop.History.{History};
ghost use Rattle.aio_model.specs.Loop.Legal.{IsLegal};
ghost use Rattle.aio_core.specs.Calls.{IsSeatOf};
ghost use Rattle.aio_bh.specs.Running.{SeatComesBack};

use aio_bh::{BottomHalves, Call, Polled, Put, Runner, Turn};
use aio_core::{LoopTable, Seat};
use aio_model::{Flags, Kind};
use loop_fixture::LoopFixture;
use std::alloc::Global;
use std::process::Abort;
use std::sync::Wait;
use std::test::Fail;

/// Schedules a bottom half, where no other thread pushes.
pub(crate) fn push(rt: &impl Abort, table: &LoopTable<()>, seat: &mut Seat<()>, bh: u32)
    requires seat { IsSeatOf table.now seat.old }
    requires rest { seat.old.known.phase ≡ AtRest }
    requires handle { bh < table.now.sizes.handles }
    ensures seat { IsSeatOf table.now seat.new }
    ensures back { (made : History) × SeatComesBack made seat.old.known seat.new.known }
{
    match table.try_schedule(seat, bh) {
        Put::Done(_) => {}
        Put::Owed(_, owed) => panic!(rt; "the head moved on under {}", owed.bh()),
    }
}

/// Enqueues a bottom half by the call of this kind, and answers the flags that it found.
fn enqueue<R: Wait>(rt: &R, fixture: &mut LoopFixture<()>, bh: u32, kind: Kind) -> Flags
    requires handle { bh < fixture.old.table.sizes.handles }
    ensures sizes { fixture.new.table.sizes ≡ fixture.old.table.sizes }
{
    match kind {
        Kind::Sched => fixture.schedule(rt, bh),
        Kind::Idle => fixture.schedule_idle(rt, bh),
        Kind::Del => fixture.delete(rt, bh),
    }
}

/// Callbacks that note which they are, and do the same each: schedule one, or cancel one, or nest.
#[derive(Drop)]
pub(crate) struct Notes<'a, T: Abort> {
    rt: &'a T,
    pub(crate) called: [u32; 8],
    pub(crate) count: usize,
    schedules: Option<u32>,
    cancels: Option<u32>,
    nests: bool,
}

impl<'a, T: Abort> Notes<'a, T> {
    pub(crate) fn of(rt: &'a T) -> Notes<'a, T>
        ensures idle { (result.schedules ≡ None) × (result.cancels ≡ None) }
    {
        Notes {
            rt,
            called: [0; 8],
            count: 0,
            schedules: None,
            cancels: None,
            nests: false,
        }
    }

    pub(crate) fn note(&mut self, bh: u32)
        ensures same { (self.new.schedules ≡ self.old.schedules) × (self.new.cancels ≡ self.old.cancels) }
    {
        if self.count < 8 {
            self.called[self.count] = bh;
            self.count += 1;
        }
    }

    fn act(&self, table: &LoopTable<()>, seat: &mut Seat<()>)
        requires within { IfSome self.now.schedules (λ bh. bh < table.now.sizes.handles) × IfSome self.now.cancels (λ bh. bh < table.now.sizes.handles) }
        requires seat { IsSeatOf table.now seat.old }
        requires some { 0 < seat.old.known.count }
        requires rest { seat.old.known.phase ≡ AtRest }
        requires legal { IsLegal table.now.sizes seat.old.known.seen }
        ensures seat { IsSeatOf table.now seat.new }
        ensures back { (made : History) × SeatComesBack made seat.old.known seat.new.known }
    {
        if let Some(bh) = self.schedules {
            push(self.rt, table, seat, bh);
        } else if let Some(bh) = self.cancels {
            table.cancel(seat, bh);
        }
    }
}

impl<'a, T: Abort> Runner<()> for Notes<'a, T> {
    ghost can_run = { λ r sizes. IfSome r.schedules (λ bh. bh < sizes.handles) × IfSome r.cancels (λ bh. bh < sizes.handles) };

    ghost does = { λ before entered after. (after.schedules ≡ before.schedules) × (after.cancels ≡ before.cancels) };

    fn run(&mut self, table: &LoopTable<()>, seat: &mut Seat<()>, call: &mut Call<()>) -> Turn {
        self.note(call.bh);
        self.act(table, seat);
        if self.nests { Turn::Nest } else { Turn::Done }
    }
}

/// A loop of four handles on one thread.
#[derive(Drop)]
pub(crate) struct Bench {
    fixture: LoopFixture<()>,
    ghost four: { fixture.table.sizes.handles ≡ 4 },
}

impl Bench {
    pub(crate) fn build<R: Wait>(rt: &R, alloc: Global) -> Result<Bench, Fail> {
        let fixture = LoopFixture::build(rt, alloc, 4, 0, 0)?;
        Ok(Bench { fixture })
    }

    pub(crate) fn ask<R: Wait>(&mut self, rt: &R, bh: u32, kind: Kind) -> Flags
        requires { bh < 4 }
    {
        enqueue(rt, &mut self.fixture, bh, kind)
    }

    pub(crate) fn cancel(&mut self, bh: u32) -> Flags
        requires { bh < 4 }
    {
        self.fixture.cancel(bh)
    }

    pub(crate) fn poll<T: Abort, R: Wait>(&mut self, rt: &R, notes: &mut Notes<T>) -> Polled
        requires { IfSome notes.old.schedules (λ bh. bh < 4) × IfSome notes.old.cancels (λ bh. bh < 4) }
        ensures { IfSome notes.new.schedules (λ bh. bh < 4) × IfSome notes.new.cancels (λ bh. bh < 4) }
    {
        self.fixture.poll(rt, notes)
    }
}

#[test]
fn the_last_scheduled_is_called_first(rt: HostRuntime) -> Result<(), Fail> {
    let mut bench = Bench::build(&rt, rt.alloc())?;
    let mut notes = Notes::of(&rt);
    bench.ask(&rt, 0, Kind::Sched);
    bench.ask(&rt, 1, Kind::Sched);
    bench.ask(&rt, 2, Kind::Sched);
    bench.ask(&rt, 1, Kind::Sched);
    let polled = bench.poll(&rt, &mut notes);
    assert_eq!(rt;
        (polled.ran, polled.progress, polled.cut_nests),
        (3, true, 0)
    );
    assert_eq!(rt; notes.called, [2, 1, 0, 0, 0, 0, 0, 0]);
    let polled = bench.poll(&rt, &mut notes);
    assert_eq!(rt; (polled.ran, polled.progress, notes.count), (0, false, 3));
    Ok(())
}

#[test]
fn what_was_deleted_is_not_called(rt: HostRuntime) -> Result<(), Fail> {
    let mut bench = Bench::build(&rt, rt.alloc())?;
    let mut notes = Notes::of(&rt);
    bench.ask(&rt, 0, Kind::Sched);
    bench.ask(&rt, 0, Kind::Del);
    let polled = bench.poll(&rt, &mut notes);
    assert_eq!(rt; (polled.ran, polled.progress, notes.count), (0, false, 0));
    bench.ask(&rt, 0, Kind::Sched);
    bench.ask(&rt, 3, Kind::Idle);
    let polled = bench.poll(&rt, &mut notes);
    assert_eq!(rt;
        (polled.ran, polled.progress, notes.called[0]),
        (1, false, 3)
    );
    Ok(())
}

#[test]
fn what_a_callback_schedules_is_for_the_next_poll(rt: HostRuntime) -> Result<(), Fail> {
    let mut bench = Bench::build(&rt, rt.alloc())?;
    let mut notes = Notes::of(&rt);
    notes.schedules = Some(0);
    bench.ask(&rt, 0, Kind::Sched);
    assert_eq!(rt; bench.poll(&rt, &mut notes).ran, 1);
    assert_eq!(rt; bench.poll(&rt, &mut notes).ran, 1);
    assert_eq!(rt; notes.count, 2);
    Ok(())
}

#[test]
fn one_that_a_callback_cancels_is_not_called(rt: HostRuntime) -> Result<(), Fail> {
    let mut bench = Bench::build(&rt, rt.alloc())?;
    let mut notes = Notes::of(&rt);
    notes.cancels = Some(0);
    notes.nests = true;
    bench.ask(&rt, 0, Kind::Sched);
    bench.ask(&rt, 1, Kind::Sched);
    let polled = bench.poll(&rt, &mut notes);
    assert_eq!(rt;
        (polled.ran, polled.progress, polled.cut_nests),
        (1, true, 1)
    );
    assert_eq!(rt; (notes.count, notes.called[0]), (5, 1));
    Ok(())
}

/// Two seats want to push at once: 0 is aimed at the empty list, and 1 is pushed before it.
fn lose_once<R: Abort + Wait>(
    rt: &R,
    table: &LoopTable<()>,
    seat: &mut Seat<()>,
    other: &mut Seat<()>,
)
    requires handles { table.now.sizes.handles ≡ 4 }
    requires seat { IsSeatOf table.now seat.old }
    requires other { IsSeatOf table.now other.old }
    requires rest { (seat.old.known.phase ≡ AtRest) × (other.old.known.phase ≡ AtRest) }
    ensures other { IsSeatOf table.now other.new }
    ensures first { other.new.known.first ≡ other.old.known.first }
    ensures count { other.new.known.count ≡ other.old.known.count }
    ensures stage { other.new.known.stage ≡ other.old.known.stage }
    ensures rest { other.new.known.phase ≡ AtRest }
{
    let (_, owed) = table.announce(seat, 0, Kind::Sched);
    let Some(owed) = owed else {
        panic!(rt; "0 was pending");
    };
    let aimed = table.aim(seat, owed);
    table.schedule(rt, other, 1);
    match table.link(seat, aimed) {
        Ok(()) => panic!(rt; "0 was pushed in front of a head that had moved on"),
        Err(owed) => {
            assert_eq!(rt; owed.bh(), 0);
            if let Err(owed) = table.push_owed(seat, owed) {
                panic!(rt; "{} is still owed", owed.bh());
            }
        }
    }
}

#[test]
fn a_push_that_lost_is_owed(rt: HostRuntime) -> Result<(), Fail> {
    let LoopFixture {
        table,
        mut home,
        mut seat,
        mut lots,
    } = LoopFixture::build(&rt, rt.alloc(), 4, 0, 0)?;
    let mut notes = Notes::of(&rt);
    lose_once(&rt, &table, &mut seat, &mut home.seat);
    let polled = table.poll(&rt, &lots.pool, &mut lots.home, &mut home, &mut notes);
    assert_eq!(rt; (polled.ran, notes.count), (2, 2));
    assert_eq!(rt; notes.called, [0, 1, 0, 0, 0, 0, 0, 0]);
    Ok(())
}
