//! Polls in polls: who is called, in which order the entries come, and which nests are cut.
ghost use Rattle.std.specs.Prelude.{◌≡◌, ◌<◌, true};
ghost use Rattle.aio_model.specs.Loop.InFlight.{AtRest};
ghost use Rattle.aio_model.specs.Loop.History.{History};
ghost use Rattle.aio_model.specs.Loop.Legal.{IsLegal};
ghost use Rattle.aio_core.specs.Calls.{IsSeatOf};
ghost use Rattle.aio_bh.specs.Running.{SeatComesBack};

use crate::enqueues::push;
use aio_bh::{Call, Polled, Runner, Turn};
use aio_core::{LoopTable, Seat};
use loop_fixture::LoopFixture;
use std::alloc::Global;
use std::process::Abort;
use std::sync::Wait;
use std::test::Fail;

/// One entry into a callback: which it is, whether it is the first, and how many nests it has left.
type Entry = (u32, bool, u32);

/// What a callback does: it schedules so many others at its first entry, and then asks for so many nested polls.
type Script = (Option<u32>, u32);

/// Callbacks with a script each, which note their entries.
#[derive(Drop)]
struct Scripts<'a, T: Abort> {
    rt: &'a T,
    scripts: Vec<Script>,
    entries: Vec<Entry>,
}

impl<'a, T: Abort> Scripts<'a, T> {
    /// What the callback schedules at its first entry.
    fn to_schedule(&self, call: &Call<()>) -> Option<u32> {
        if call.first {
            self.scripts.get(call.bh as usize)?.0
        } else {
            None
        }
    }

    /// Whether the callback asks for another nested poll.
    fn asks(&mut self, bh: u32) -> bool {
        let Some(script) = self.scripts.get_mut(bh as usize) else {
            return false;
        };
        let asks = script.1 > 0;
        script.1 = script.1.saturating_sub(1);
        asks
    }

    fn schedule(&self, table: &LoopTable<()>, seat: &mut Seat<()>, bh: u32)
        requires seat { IsSeatOf table.now seat.old }
        requires rest { seat.old.known.phase ≡ AtRest }
        requires legal { IsLegal table.now.sizes seat.old.known.seen }
        ensures seat { IsSeatOf table.now seat.new }
        ensures back { (made : History) × SeatComesBack made seat.old.known seat.new.known }
    {
        if bh < table.handles() {
            push(self.rt, table, seat, bh);
        }
    }

    fn act(&self, table: &LoopTable<()>, seat: &mut Seat<()>, call: &Call<()>)
        requires seat { IsSeatOf table.now seat.old }
        requires rest { seat.old.known.phase ≡ AtRest }
        requires legal { IsLegal table.now.sizes seat.old.known.seen }
        ensures seat { IsSeatOf table.now seat.new }
        ensures back { (made : History) × SeatComesBack made seat.old.known seat.new.known }
    {
        if let Some(bh) = self.to_schedule(call) {
            self.schedule(table, seat, bh);
        }
    }
}

impl<'a, T: Abort> Runner<()> for Scripts<'a, T> {
    ghost can_run = { λ r sizes. true ≡ true };

    ghost does = { λ before entered after. true ≡ true };

    fn run(&mut self, table: &LoopTable<()>, seat: &mut Seat<()>, call: &mut Call<()>) -> Turn {
        if self
            .entries
            .push((call.bh, call.first, call.nests_left))
            .is_err()
        {
            panic!(self.rt; "no memory for the entries");
        }
        self.act(table, seat, call);
        if self.asks(call.bh) {
            Turn::Nest
        } else {
            Turn::Done
        }
    }
}

/// A shared loop, and its callbacks.
#[derive(Drop)]
struct Shared<'a, T: Abort> {
    fixture: LoopFixture<()>,
    callbacks: Scripts<'a, T>,
}

impl<'a, R: Abort + Wait> Shared<'a, R> {
    fn build(rt: &'a R, alloc: Global, scripts: &[Script]) -> Result<Shared<'a, R>, Fail> {
        if scripts.len() > 64 {
            return Err(Fail::from("too many callbacks"));
        }
        Ok(Shared {
            fixture: LoopFixture::build(rt, alloc, scripts.len() as u32, 0, 0)?,
            callbacks: Scripts {
                rt,
                scripts: scripts.to_vec(alloc)?,
                entries: Vec::new(alloc),
            },
        })
    }

    fn schedule(&mut self, rt: &R, bh: u32) {
        if bh < self.fixture.table.handles() {
            self.fixture.schedule(rt, bh);
        }
    }

    fn poll(&mut self, rt: &R) -> Polled {
        self.fixture.poll(rt, &mut self.callbacks)
    }
}

/// These are scheduled, and then there is one poll: it has just these entries, and cuts so many nests.
fn enters<R: Abort + Wait>(
    rt: &R,
    shared: &mut Shared<'_, R>,
    scheduled: &[u32],
    wanted: &[Entry],
    cut: u64,
) {
    for bh in scheduled {
        shared.schedule(rt, *bh);
    }
    shared.callbacks.entries.clear();
    let polled = shared.poll(rt);
    let firsts = wanted.iter().filter(|entry| entry.1).count();
    assert_eq!(rt; shared.callbacks.entries.as_slice(), wanted);
    assert_eq!(rt; (polled.ran, polled.cut_nests), (firsts as u64, cut));
}

#[test]
fn a_nested_poll_goes_on_with_what_was_left_and_then_takes_anew(
    rt: HostRuntime,
) -> Result<(), Fail> {
    let scripts = [(None, 0), (Some(2), 1), (None, 0)];
    let mut shared = Shared::build(&rt, rt.alloc(), &scripts)?;
    let wanted = [(1, true, 4), (0, true, 4), (2, true, 4), (1, false, 3)];
    enters(&rt, &mut shared, &[0, 1], &wanted, 0);
    Ok(())
}

#[test]
fn the_fifth_nest_of_one_callback_is_cut(rt: HostRuntime) -> Result<(), Fail> {
    let mut shared = Shared::build(&rt, rt.alloc(), &[(None, 5)])?;
    let wanted = [
        (0, true, 4),
        (0, false, 3),
        (0, false, 2),
        (0, false, 1),
        (0, false, 0),
    ];
    enters(&rt, &mut shared, &[0], &wanted, 1);
    Ok(())
}

#[test]
fn the_eighth_poll_in_one_another_nests_no_more(rt: HostRuntime) -> Result<(), Fail> {
    let mut scripts = [(None, 1); 10];
    for bh in 0..9 {
        scripts[bh] = (Some(bh as u32 + 1), 1);
    }
    scripts[9] = (None, 0);
    let mut shared = Shared::build(&rt, rt.alloc(), &scripts)?;
    let mut wanted = [(0, true, 4); 15];
    for bh in 0..7 {
        wanted[bh] = (bh as u32, true, 4);
        wanted[14 - bh] = (bh as u32, false, 3);
    }
    wanted[7] = (7, true, 0);
    enters(&rt, &mut shared, &[0], &wanted, 1);
    let wanted = [(8, true, 4), (9, true, 4), (8, false, 3)];
    enters(&rt, &mut shared, &[], &wanted, 0);
    Ok(())
}
