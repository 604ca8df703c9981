//! Timers and runs, beside what their calls leave.
ghost use Rattle.std.specs.Prelude.{◌≡◌, ◌+◌};

use aio_model::{TimerCall, timer_state};
use aio_timers::{TimerId, Timers};
use std::alloc::Global;
use std::process::Abort;
use std::test::Fail;

fn made(rt: &impl Abort, timers: &mut Timers) -> TimerId
    ensures numbered { result.number ≡ timers.old.made }
    ensures made { timers.new.made ≡ timers.old.made + 1 }
{
    timers.add().expect(rt, "there is room")
}

#[test]
fn a_run_gives_what_was_armed_at_its_begin(rt: HostRuntime) -> Result<(), Fail> {
    let mut timers = Timers::build(rt.alloc(), 3).or(Err("no memory"))?;
    let a = made(&rt, &mut timers);
    let b = made(&rt, &mut timers);
    let c = made(&rt, &mut timers);
    assert_eq!(rt; timers.add(), None);
    timers.arm(a, 100);
    timers.arm(b, 100);
    timers.arm(c, -5);
    assert_eq!(rt; timers.first(), Some(0));
    timers.run_begin(100);
    assert_eq!(rt; timers.run_next(), Some(c));
    assert_eq!(rt; timers.run_next(), Some(a));
    timers.arm(a, 50);
    assert_eq!(rt; timers.run_next(), Some(b));
    assert_eq!(rt; timers.run_next(), None);
    timers.run_begin(100);
    assert_eq!(rt; timers.run_next(), Some(a));
    assert_eq!(rt; timers.first(), None);
    Ok(())
}

#[test]
fn the_least_and_the_greatest_expiry(rt: HostRuntime) -> Result<(), Fail> {
    let mut timers = Timers::build(rt.alloc(), 2).or(Err("no memory"))?;
    let a = made(&rt, &mut timers);
    let b = made(&rt, &mut timers);
    timers.arm(a, i64::MAX);
    timers.arm(b, i64::MIN);
    assert_eq!(rt; timers.first(), Some(0));
    timers.run_begin(u64::MAX);
    assert_eq!(rt; timers.run_next(), Some(b));
    assert_eq!(rt; timers.run_next(), Some(a));
    assert_eq!(rt; timers.run_next(), None);
    Ok(())
}

#[test]
fn a_disarmed_timer_is_not_given(rt: HostRuntime) -> Result<(), Fail> {
    let mut timers = Timers::build(rt.alloc(), 2).or(Err("no memory"))?;
    let a = made(&rt, &mut timers);
    let b = made(&rt, &mut timers);
    assert!(rt; !timers.disarm(a));
    timers.arm(a, 7);
    timers.arm(b, 8);
    timers.run_begin(8);
    assert!(rt; timers.disarm(a));
    assert_eq!(rt; timers.run_next(), Some(b));
    assert_eq!(rt; timers.run_next(), None);
    Ok(())
}

/// Pseudo-random numbers.
fn shuffled(seed: u32) -> u32 {
    seed.wrapping_mul(1664525).wrapping_add(1013904223)
}

/// The given timer is marked, and stands before each other marked one.
fn check_given(rt: &impl Abort, calls: &[TimerCall], given: u32) {
    let mine = timer_state(calls, given);
    assert!(rt; mine.is_marked);
    for other in 0..3 {
        let theirs = timer_state(calls, other);
        let is_before = mine.expiry < theirs.expiry
            || (mine.expiry == theirs.expiry && mine.place < theirs.place);
        assert!(rt; other == given || !theirs.is_marked || is_before);
    }
}

fn check_none_marked(rt: &impl Abort, calls: &[TimerCall]) {
    for timer in 0..3 {
        assert!(rt; !timer_state(calls, timer).is_marked);
    }
}

/// The earliest expiry, looked up slowly.
fn earliest(calls: &[TimerCall]) -> Option<u64> {
    let mut least = None;
    for timer in 0..3 {
        let state = timer_state(calls, timer);
        if state.is_armed {
            least = match least {
                Some(expire) if expire <= state.expiry => least,
                _ => Some(state.expiry),
            };
        }
    }
    least
}

/// Makes one call, as the number says, and compares its answer.
fn step(
    rt: &impl Abort,
    timers: &mut Timers,
    calls: &mut Vec<TimerCall>,
    number: u32,
) -> Result<(), Fail>
    requires { timers.old.made ≡ 3 }
    ensures { timers.new.made ≡ 3 }
{
    let timer = number / 65536 % 3;
    let time = number / 262144 % 8;
    let call = match number / 2097152 % 6 {
        0 | 1 | 2 => {
            let expire = i64::from(time) - 2;
            timers.arm(TimerId { number: timer }, expire);
            TimerCall::Arm { timer, expire }
        }
        3 => {
            let was_armed = timers.disarm(TimerId { number: timer });
            assert_eq!(rt; was_armed, timer_state(calls, timer).is_armed);
            TimerCall::Disarm { timer }
        }
        4 => {
            let now = u64::from(time);
            timers.run_begin(now);
            TimerCall::RunBegin { now }
        }
        _ => match timers.run_next() {
            Some(id) => {
                check_given(rt, calls, id.number);
                TimerCall::Give { timer: id.number }
            }
            None => {
                check_none_marked(rt, calls);
                timers.run_begin(0);
                TimerCall::RunBegin { now: 0 }
            }
        },
    };
    calls.push(call)?;
    Ok(())
}

/// Makes some calls one after the other, and compares all that they answer. The numbers go on from the last one.
fn compared(rt: &impl Abort, alloc: Global, seed: u32) -> Result<u32, Fail> {
    let mut timers = Timers::build(alloc, 3).or(Err("no memory"))?;
    let mut calls = Vec::new(alloc);
    let _ = made(rt, &mut timers);
    let _ = made(rt, &mut timers);
    let _ = made(rt, &mut timers);
    let mut number = seed;
    for _ in 0..40 {
        number = shuffled(number);
        step(rt, &mut timers, &mut calls, number)?;
        assert_eq!(rt; timers.first(), earliest(&calls));
    }
    Ok(number)
}

#[test]
fn answers_as_the_slow_look_up_says(rt: HostRuntime) -> Result<(), Fail> {
    let mut number = 1;
    for _ in 0..2000 {
        number = compared(&rt, rt.alloc(), number)?;
    }
    Ok(())
}
