//! Worked calls on queues, readers and writers, and the same beside a plain table.
ghost use Rattle.std.specs.Prelude.{◌≡◌, ◌<◌, ◌≤◌};

use super::{CoQueue, Hold, Moved, RwAnswer, RwState};
use crate::plain::Plain;
use std::alloc::{AllocError, Global};
use std::process::Abort;
use std::test::Fail;

#[derive(Clone, Copy, Debug, PartialEq, Eq)]
enum Call {
    Rdlock,
    Wrlock,
    Unlock,
    Upgrade,
    Downgrade,
    Woken,
}

/// Makes a call, where the hold is one that it may be made with.
fn made(state: &mut RwState, call: Call, who: u32) -> Option<(RwAnswer, Option<u32>)>
    requires { who < state.old.room }
    ensures { state.new.room ≡ state.old.room }
{
    let hold = state.hold(who);
    match (call, hold) {
        (Call::Rdlock, Hold::Free) => Some((state.rdlock(who), None)),
        (Call::Wrlock, Hold::Free) => Some((state.wrlock(who), None)),
        (Call::Unlock, Hold::Reads) => Some((RwAnswer::Got, state.unlock(who))),
        (Call::Unlock, Hold::Writes) => Some((RwAnswer::Got, state.unlock(who))),
        (Call::Woken, Hold::Reads) => Some((RwAnswer::Got, state.woken(who))),
        (Call::Woken, Hold::Writes) => Some((RwAnswer::Got, state.woken(who))),
        (Call::Downgrade, Hold::Writes) => Some((RwAnswer::Got, state.downgrade(who))),
        (Call::Upgrade, Hold::Reads) => {
            let Moved { answer, woken } = state.upgrade(who);
            Some((answer, woken))
        }
        _ => None,
    }
}

/// Calls with what they answer and whom they wake. A call that only wakes stands with `Got`.
const ROW: [(Call, u32, RwAnswer, Option<u32>); 12] = [
    (Call::Rdlock, 0, RwAnswer::Got, None),
    (Call::Rdlock, 1, RwAnswer::Got, None),
    (Call::Wrlock, 2, RwAnswer::Queued, None),
    (Call::Rdlock, 3, RwAnswer::Queued, None),
    (Call::Unlock, 0, RwAnswer::Got, None),
    (Call::Unlock, 1, RwAnswer::Got, Some(2)),
    (Call::Downgrade, 2, RwAnswer::Got, Some(3)),
    (Call::Woken, 3, RwAnswer::Got, None),
    (Call::Wrlock, 0, RwAnswer::Queued, None),
    (Call::Unlock, 3, RwAnswer::Got, None),
    (Call::Upgrade, 2, RwAnswer::Queued, Some(0)),
    (Call::Unlock, 0, RwAnswer::Got, Some(2)),
];

/// What each of the four owners has after each call of the row.
const HOLDS: [[Hold; 4]; 12] = [
    [Hold::Reads, Hold::Free, Hold::Free, Hold::Free],
    [Hold::Reads, Hold::Reads, Hold::Free, Hold::Free],
    [Hold::Reads, Hold::Reads, Hold::WaitsWrite, Hold::Free],
    [Hold::Reads, Hold::Reads, Hold::WaitsWrite, Hold::WaitsRead],
    [Hold::Free, Hold::Reads, Hold::WaitsWrite, Hold::WaitsRead],
    [Hold::Free, Hold::Free, Hold::Writes, Hold::WaitsRead],
    [Hold::Free, Hold::Free, Hold::Reads, Hold::Reads],
    [Hold::Free, Hold::Free, Hold::Reads, Hold::Reads],
    [Hold::WaitsWrite, Hold::Free, Hold::Reads, Hold::Reads],
    [Hold::WaitsWrite, Hold::Free, Hold::Reads, Hold::Free],
    [Hold::Writes, Hold::Free, Hold::WaitsWrite, Hold::Free],
    [Hold::Free, Hold::Free, Hold::Writes, Hold::Free],
];

/// Makes the calls of a row, and compares what each answers and leaves.
fn follows(
    rt: &impl Abort,
    state: &mut RwState,
    row: &[(Call, u32, RwAnswer, Option<u32>)],
    holds: &[[Hold; 4]],
)
    requires { 4 ≤ state.old.room }
{
    for ((call, who, answer, woken), after) in row.iter().zip(holds) {
        if *who < 4 {
            assert_eq!(rt; made(state, *call, *who), Some((*answer, *woken)));
        }
        for owner in 0..4 {
            assert_eq!(rt; state.hold(owner), after[owner as usize]);
        }
    }
}

#[test]
fn four_owners_read_write_and_change(rt: HostRuntime) -> Result<(), Fail> {
    let mut state = RwState::build(rt.alloc(), 4).or(Err("no memory"))?;
    follows(&rt, &mut state, &ROW, &HOLDS);
    Ok(())
}

#[test]
fn the_first_to_wait_is_the_first_to_go(rt: HostRuntime) -> Result<(), Fail> {
    let mut queue = CoQueue::build(rt.alloc(), 4).or(Err("no memory"))?;
    queue.wait(3);
    queue.wait(1);
    assert_eq!(rt; queue.next(), Some(3));
    queue.wait(2);
    let mut out = [0; 64];
    assert_eq!(rt; queue.all(&mut out), 2);
    assert_eq!(rt; out[0], 1);
    assert_eq!(rt; out[1], 2);
    assert_eq!(rt; queue.next(), None);
    Ok(())
}

/// Pseudo-random numbers.
fn shuffled(seed: u32) -> u32 {
    seed.wrapping_mul(1664525).wrapping_add(1013904223)
}

/// A call of an owner that reads.
fn reader_step(
    rt: &impl Abort,
    state: &mut RwState,
    plain: &mut Plain,
    who: u32,
    coin: u32,
) -> Result<(), AllocError>
    ensures { state.new.room ≡ state.old.room }
{
    if state.hold(who) == Hold::Reads {
        if coin == 0 {
            let Moved { answer, woken } = state.upgrade(who);
            assert_eq!(rt; (answer, woken), plain.upgrade(who)?);
        } else if coin == 1 {
            assert_eq!(rt; state.woken(who), plain.wake_one()?);
        } else {
            assert_eq!(rt; state.unlock(who), plain.unlock(who)?);
        }
    }
    Ok(())
}

/// A call of an owner that writes.
fn writer_step(
    rt: &impl Abort,
    state: &mut RwState,
    plain: &mut Plain,
    who: u32,
    coin: u32,
) -> Result<(), AllocError>
    ensures { state.new.room ≡ state.old.room }
{
    if state.hold(who) == Hold::Writes {
        if coin == 0 {
            assert_eq!(rt; state.downgrade(who), plain.downgrade()?);
        } else if coin == 1 {
            assert_eq!(rt; state.woken(who), plain.wake_one()?);
        } else {
            assert_eq!(rt; state.unlock(who), plain.unlock(who)?);
        }
    }
    Ok(())
}

/// A call of an owner that is free.
fn free_step(
    rt: &impl Abort,
    state: &mut RwState,
    plain: &mut Plain,
    who: u32,
    coin: u32,
) -> Result<(), AllocError>
    requires { who < state.old.room }
    ensures { state.new.room ≡ state.old.room }
{
    if state.hold(who) == Hold::Free {
        if coin == 0 {
            assert_eq!(rt; state.wrlock(who), plain.wrlock(who)?);
        } else {
            assert_eq!(rt; state.rdlock(who), plain.rdlock(who)?);
        }
    }
    Ok(())
}

/// Makes some calls one after the other, and compares what they answer and leave. The numbers go on from the last.
fn compared(rt: &impl Abort, alloc: Global, owners: u32, calls: u32, seed: u32) -> Result<u32, Fail>
    requires { 0 < owners }
{
    let mut state = RwState::build(alloc, owners).or(Err("no memory"))?;
    let mut plain = Plain::build(alloc);
    let mut number = seed;
    for _ in 0..calls {
        number = shuffled(number);
        let who = number / 65536 % owners;
        let coin = number / 4194304 % 3;
        match plain.hold(who) {
            Hold::Free => free_step(rt, &mut state, &mut plain, who, coin)?,
            Hold::Reads => reader_step(rt, &mut state, &mut plain, who, coin)?,
            Hold::Writes => writer_step(rt, &mut state, &mut plain, who, coin)?,
            Hold::WaitsRead | Hold::WaitsWrite => {}
        }
        for owner in 0..owners {
            assert_eq!(rt; state.hold(owner), plain.hold(owner));
        }
    }
    Ok(number)
}

#[test]
fn is_what_plain_lists_are(rt: HostRuntime) -> Result<(), Fail> {
    let mut number = 1;
    for _ in 0..3000 {
        number = compared(&rt, rt.alloc(), 5, 40, number)?;
    }
    for _ in 0..20 {
        number = compared(&rt, rt.alloc(), 64, 400, number)?;
    }
    Ok(())
}

/// Lets some wait and go, and compares with a plain list.
fn queued(rt: &impl Abort, alloc: Global, seed: u32) -> Result<u32, Fail> {
    let mut queue = CoQueue::build(alloc, 64).or(Err("no memory"))?;
    let mut plain: Vec<u32> = Vec::new(alloc);
    let mut number = seed;
    for _ in 0..60 {
        number = shuffled(number);
        let who = number / 65536 % 64;
        if number / 4194304 % 16 == 0 {
            let mut out = [0; 64];
            let taken = queue.all(&mut out) as usize;
            assert_eq!(rt; taken, plain.len());
            if taken <= 64 {
                assert_eq!(rt; &out[..taken], plain.as_slice());
            }
            plain.clear();
        } else if number / 4194304 % 3 == 0 {
            assert_eq!(rt; queue.next(), plain.first().copied());
            if !plain.is_empty() {
                let _ = plain.remove(0);
            }
        } else if !queue.has(who) {
            queue.wait(who);
            plain.push(who)?;
        }
    }
    Ok(number)
}

#[test]
fn the_queue_is_what_a_plain_list_is(rt: HostRuntime) -> Result<(), Fail> {
    let mut number = 1;
    for _ in 0..1000 {
        number = queued(&rt, rt.alloc(), number)?;
    }
    Ok(())
}
