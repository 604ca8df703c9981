//! How home goes to sleep and what it does once awake, after aio_poll of QEMU's util/aio-posix.c. It first looks at all that could
//! keep it awake, then says that it is about to sleep, and then looks whether anybody has notified it since its last accept. Who
//! enqueues goes the other way round, so one of the two sees the other.
ghost use Rattle.std.specs.Prelude.{◌≡◌, ◌-◌, [], None, Some, IfSome, option_map, if◌then◌else◌, true, false};
ghost use Rattle.aio_model.specs.Loop.Flags.{is_urgent};
ghost use Rattle.aio_core.specs.Known.{is_running};
ghost use Rattle.aio_core.specs.Scans.{IsAhead, SameButSleep};
ghost use Rattle.aio_core.specs.Calls.{IsSeatOf};
ghost use Rattle.aio_notify.specs.Commits.{is_past, least_of, sleep_bound, ArmsAndTests, Commits, IsAwakeBy, urgent_in, AcceptsAll};
ghost use Rattle.aio_notify.specs.Settling.{is_committed, SameButDone};
ghost use Rattle.aio_notify.specs.Waiting.{Waits};

use crate::parking::{wait_for_notifier, wait_until};
use crate::watching::first_set;
use aio_core::{Home, Job, LoopTable};
use aio_model::{Commit, Why};
use aio_words::Clock;
use std::sync::Wait;

/// How long a home sleeps at most while an idle bottom half is due, in nanoseconds.
const IDLE_SLEEP: u64 = 10_000_000;

/// What home does to sleep, and once it is awake.
pub trait Sleeping<J: Job> {
    ghost use Rattle.aio_core.specs.Calls.{TableState};

    ghost table: { Self → TableState };

    /// Commits home to sleep where nothing keeps it awake: no bottom half that is due and not idle, no deadline that has passed,
    /// no event that is set among those whose bits are in `watch`, no notify since the last accept. Bits at or above the number of
    /// events count as not set. After a `Sleep` home may wait on the notifier, and is to disarm then.
    fn commit(&self, home: &mut Home<J>, watch: u64, deadline: Option<u64>, now: u64) -> Commit
        requires seat { IsSeatOf (table self.now) home.old.seat }
        requires running { is_running home.old.seat.known.sleep ≡ true }
        requires free { home.old.seat.known.stage.hand ≡ None }
        ensures seat { IsSeatOf (table self.now) home.new.seat }
        ensures commits { Commits watch (table self.now).sizes.events deadline now result home.old.seat.known home.new.seat.known }
        ensures awake { IsAwakeBy watch (table self.now).sizes.events result home.new.seat.known }
        ensures urgent { IfSome (urgent_in result) (λ i. is_urgent i home.new.seat.known.seen ≡ true) }
        ensures same { SameButSleep home.old.seat.known home.new.seat.known };

    /// Forgets that anybody notified: clears the notifier, and then the mark that a notify leaves. Home runs, and looks at the list
    /// and at the events before it sleeps.
    fn accept(&self, home: &mut Home<J>)
        requires seat { IsSeatOf (table self.now) home.old.seat }
        requires running { is_running home.old.seat.known.sleep ≡ true }
        ensures seat { IsSeatOf (table self.now) home.new.seat }
        ensures steps { AcceptsAll home.old.seat.known home.new.seat.known }
        ensures same { home.new.seat.known ≡ record home.old.seat.known { did = home.new.seat.known.did } };

    /// Waits until the notifier is set, or so many nanoseconds have passed on the clock. Home is still committed, and is to disarm.
    /// Without a bound it sleeps on the notifier and costs no processor time; with one it looks at the notifier at least every
    /// 1,000,000 ns.
    fn wait<R: Wait, C: Clock>(&self, rt: &R, home: &mut Home<J>, left: Option<u64>, clock: &mut C)
        requires seat { IsSeatOf (table self.now) home.old.seat }
        requires committed { is_committed home.old.seat.known.sleep ≡ true }
        ensures seat { IsSeatOf (table self.now) home.new.seat }
        ensures waits { Waits left (C.time clock.old) (C.time clock.new) home.old.seat.known home.new.seat.known }
        ensures same { SameButDone home.old.seat.known home.new.seat.known };
}

fn has_passed(deadline: Option<u64>, now: u64) -> bool
    ensures { result ≡ is_past deadline now }
{
    match deadline {
        Some(deadline) => deadline <= now,
        None => false,
    }
}

fn until(deadline: Option<u64>, now: u64) -> Option<u64>
    requires { is_past deadline now ≡ false }
    ensures { result ≡ option_map (λ d. d - now) deadline }
{
    match deadline {
        Some(deadline) => Some(deadline - now),
        None => None,
    }
}

/// The smaller of the bounds that are there.
fn least(bound: Option<u64>, other: Option<u64>) -> Option<u64>
    ensures { result ≡ least_of bound other }
{
    match (bound, other) {
        (None, other) => other,
        (bound, None) => bound,
        (Some(bound), Some(other)) => Some(bound.min(other)),
    }
}

fn idle_bound(idle: bool) -> Option<u64>
    ensures { result ≡ (if idle then Some 10000000 else None) }
{
    if idle { Some(IDLE_SLEEP) } else { None }
}

fn bound(deadline: Option<u64>, now: u64, idle: bool) -> Option<u64>
    requires { is_past deadline now ≡ false }
    ensures { result ≡ sleep_bound deadline now idle }
{
    least(until(deadline, now), idle_bound(idle))
}

/// Says that home is about to sleep, and looks whether anybody has notified. Home is awake again where somebody has.
fn is_notified<J: Job>(table: &LoopTable<J>, home: &mut Home<J>) -> bool
    requires seat { IsSeatOf table.now home.old.seat }
    requires scanned { IsAhead [] home.old.seat.known }
    ensures seat { IsSeatOf table.now home.new.seat }
    ensures tests { ArmsAndTests result home.old.seat.known home.new.seat.known }
{
    table.arm(home);
    let notified = table.test(home);
    if notified {
        table.disarm(home);
    }
    notified
}

impl<J: Job> Sleeping<J> for LoopTable<J> {
    ghost table = { λ t. t };

    fn commit(&self, home: &mut Home<J>, watch: u64, deadline: Option<u64>, now: u64) -> Commit {
        let scanned = self.scan(home);
        if let Some(bh) = scanned.urgent {
            return Commit::Awake(Why::Urgent(bh));
        }
        if has_passed(deadline, now) {
            return Commit::Awake(Why::Deadline);
        }
        if let Some(event) = first_set(self, home, watch) {
            return Commit::Awake(Why::Event(event));
        }
        if is_notified(self, home) {
            return Commit::Awake(Why::Notified);
        }
        Commit::Sleep(bound(deadline, now, scanned.idle))
    }

    fn accept(&self, home: &mut Home<J>) {
        self.clear_notifier(home);
        self.clear_notified(home);
    }

    fn wait<R: Wait, C: Clock>(
        &self,
        rt: &R,
        home: &mut Home<J>,
        left: Option<u64>,
        clock: &mut C,
    ) {
        match left {
            None => wait_for_notifier(rt, self, home),
            Some(left) => wait_until(rt, self, home, left, clock),
        }
    }
}
