//! What the calls on the shared loop answer: in worked lists of calls, and beside the plain loop of one thread, over lists that a
//! small generator makes.
ghost use Rattle.std.specs.Prelude.{◌≡◌, ◌<◌};

use crate::enqueues::{Bench, Notes};
use aio_bh::Polled;
use aio_model::{Flags, Kind, OneLoop};
use std::alloc::Global;
use std::process::Abort;
use std::sync::Wait;
use std::test::Fail;

/// Pseudo-random numbers.
fn shuffled(seed: u32) -> u32 {
    seed.wrapping_mul(1664525).wrapping_add(1013904223)
}

/// What is called on a handle.
#[derive(Clone, Copy)]
enum Act {
    Schedule,
    ScheduleIdle,
    Cancel,
    Delete,
}

/// One call on the shared loop.
fn act_on<R: Wait>(rt: &R, shared: &mut Bench, act: Act, bh: u32) -> Flags
    requires { bh < 4 }
{
    match act {
        Act::Schedule => shared.ask(rt, bh, Kind::Sched),
        Act::ScheduleIdle => shared.ask(rt, bh, Kind::Idle),
        Act::Cancel => shared.cancel(bh),
        Act::Delete => shared.ask(rt, bh, Kind::Del),
    }
}

/// A plain loop of four handles.
#[derive(Drop)]
struct Plain {
    one: OneLoop,
    ghost four: { one.sizes.handles ≡ 4 },
}

/// One call on the loop, which has as many handles as before.
fn act_plainly(one: &mut OneLoop, act: Act, bh: u32) -> Flags
    requires four { one.old.sizes.handles ≡ 4 }
    requires handle { bh < 4 }
    ensures four { one.new.sizes.handles ≡ 4 }
{
    match act {
        Act::Schedule => one.schedule(bh),
        Act::ScheduleIdle => one.schedule_idle(bh),
        Act::Cancel => one.cancel(bh),
        Act::Delete => one.delete(bh),
    }
}

impl Plain {
    fn build(alloc: Global) -> Result<Plain, Fail> {
        let one = OneLoop::build(alloc, 4, 0, 0)?;
        Ok(Plain { one })
    }

    fn act(&mut self, act: Act, bh: u32) -> Flags
        requires { bh < 4 }
    {
        act_plainly(&mut self.one, act, bh)
    }

    /// Calls the next that is out, where it is due. False where none is out.
    fn call_next<T: Abort>(&mut self, notes: &mut Notes<T>, polled: &mut Polled) -> bool {
        let Some((bh, was)) = self.one.dequeue() else {
            return false;
        };
        if was.scheduled && !was.deleted {
            notes.note(bh);
            polled.ran = polled.ran.wrapping_add(1);
            polled.progress = polled.progress || !was.idle;
        }
        true
    }

    fn poll<T: Abort>(&mut self, notes: &mut Notes<T>) -> Polled {
        let mut polled = Polled {
            progress: false,
            ran: 0,
            cut_nests: 0,
        };
        self.one.take();
        for _ in 0..u64::MAX {
            if !self.call_next(notes, &mut polled) {
                break;
            }
        }
        polled
    }
}

/// One poll of both: they call the same, one after the other.
fn both_poll<R: Abort + Wait>(rt: &R, shared: &mut Bench, plain: &mut Plain) {
    let mut called = Notes::of(rt);
    let mut wanted = Notes::of(rt);
    assert_eq!(rt; shared.poll(rt, &mut called), plain.poll(&mut wanted));
    assert_eq!(rt; called.count, wanted.count);
    assert_eq!(rt; called.called, wanted.called);
}

/// What the number says is to be done; None is a poll. Few are deleted, since nothing more is heard of these.
fn chosen(number: u32) -> Option<Act> {
    match number / 2097152 % 16 {
        0..5 => Some(Act::Schedule),
        5..8 => Some(Act::ScheduleIdle),
        8..11 => Some(Act::Cancel),
        11 => Some(Act::Delete),
        _ => None,
    }
}

/// One call on both, as the number says, answers the same.
fn step<R: Abort + Wait>(rt: &R, shared: &mut Bench, plain: &mut Plain, number: u32) {
    let bh = number / 65536 % 4;
    match chosen(number) {
        Some(act) => assert_eq!(rt; act_on(rt, shared, act, bh), plain.act(act, bh)),
        None => both_poll(rt, shared, plain),
    }
}

/// Thirty calls, one after the other. The numbers go on from the last one.
fn compared<R: Abort + Wait>(rt: &R, alloc: Global, seed: u32) -> Result<u32, Fail> {
    let mut shared = Bench::build(rt, alloc)?;
    let mut plain = Plain::build(alloc)?;
    let mut number = seed;
    for _ in 0..30 {
        number = shuffled(number);
        step(rt, &mut shared, &mut plain, number);
    }
    Ok(number)
}

#[test]
fn answers_as_the_plain_loop_does(rt: HostRuntime) -> Result<(), Fail> {
    let mut number = 1;
    for _ in 0..200 {
        number = compared(&rt, rt.alloc(), number)?;
    }
    Ok(())
}

const BLANK: Flags = Flags {
    pending: false,
    scheduled: false,
    deleted: false,
    oneshot: false,
    idle: false,
};

const TO_CALL: Flags = Flags {
    pending: true,
    scheduled: true,
    ..BLANK
};

const IDLE: Flags = Flags {
    idle: true,
    ..TO_CALL
};

const CANCELED: Flags = Flags {
    pending: true,
    ..BLANK
};

const DELETED: Flags = Flags {
    deleted: true,
    ..BLANK
};

const DELETING: Flags = Flags {
    pending: true,
    ..DELETED
};

/// A row of a worked list: what is called, and what is wanted of it.
#[derive(Clone, Copy)]
enum Row {
    /// The call on the handle finds these flags.
    Finds(Act, u32, Flags),
    /// A poll calls so many, these first; whether that is progress.
    Polls(u64, [u32; 3], bool),
}

/// One poll.
fn polls<R: Abort + Wait>(rt: &R, shared: &mut Bench, ran: u64, calls: [u32; 3], progress: bool) {
    let mut notes = Notes::of(rt);
    let polled = shared.poll(rt, &mut notes);
    assert_eq!(rt;
        (polled.ran, polled.progress, polled.cut_nests),
        (ran, progress, 0)
    );
    assert_eq!(rt;
        (notes.count as u64, notes.called.get(..3)),
        (ran, Some(calls.as_slice()))
    );
}

/// One row after another is as wanted.
fn holds<R: Abort + Wait>(rt: &R, alloc: Global, rows: &[Row]) -> Result<(), Fail> {
    let mut shared = Bench::build(rt, alloc)?;
    for row in rows {
        match *row {
            Row::Finds(act, bh, found) => assert_eq!(rt;
                act_on(rt, &mut shared, act, bh % 4),
                found
            ),
            Row::Polls(ran, calls, progress) => polls(rt, &mut shared, ran, calls, progress),
        }
    }
    Ok(())
}

#[test]
fn the_newest_is_called_first_and_each_once(rt: HostRuntime) -> Result<(), Fail> {
    let rows = [
        Row::Finds(Act::Schedule, 0, BLANK),
        Row::Finds(Act::Schedule, 1, BLANK),
        Row::Finds(Act::Schedule, 2, BLANK),
        Row::Polls(3, [2, 1, 0], true),
        Row::Finds(Act::Schedule, 0, BLANK),
        Row::Finds(Act::Schedule, 0, TO_CALL),
        Row::Polls(1, [0, 0, 0], true),
        Row::Polls(0, [0, 0, 0], false),
    ];
    holds(&rt, rt.alloc(), &rows)
}

#[test]
fn a_canceled_one_is_called_once_it_is_scheduled_again(rt: HostRuntime) -> Result<(), Fail> {
    let rows = [
        Row::Finds(Act::Schedule, 0, BLANK),
        Row::Finds(Act::Cancel, 0, TO_CALL),
        Row::Polls(0, [0, 0, 0], false),
        Row::Finds(Act::Schedule, 0, BLANK),
        Row::Finds(Act::Cancel, 0, TO_CALL),
        Row::Finds(Act::Schedule, 0, CANCELED),
        Row::Polls(1, [0, 0, 0], true),
    ];
    holds(&rt, rt.alloc(), &rows)
}

#[test]
fn a_deleted_one_is_not_called_again(rt: HostRuntime) -> Result<(), Fail> {
    let rows = [
        Row::Finds(Act::Delete, 0, BLANK),
        Row::Finds(Act::Schedule, 0, DELETING),
        Row::Polls(0, [0, 0, 0], false),
        Row::Finds(Act::Schedule, 0, DELETED),
        Row::Polls(0, [0, 0, 0], false),
    ];
    holds(&rt, rt.alloc(), &rows)
}

#[test]
fn a_schedule_after_an_idle_one_is_no_progress(rt: HostRuntime) -> Result<(), Fail> {
    let rows = [
        Row::Finds(Act::ScheduleIdle, 0, BLANK),
        Row::Finds(Act::Schedule, 0, IDLE),
        Row::Polls(1, [0, 0, 0], false),
    ];
    holds(&rt, rt.alloc(), &rows)
}
