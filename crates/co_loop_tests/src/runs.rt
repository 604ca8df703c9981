//! Two loops on one thread: what becomes of players that are posted to them.
use crate::carried::played;
use crate::players::{Act, Player};
use co_state::CoId;
use std::process::Abort;
use std::test::Fail;

/// A player of two acts.
fn acts(first: Act, second: Act) -> Option<Player> {
    Some(Player::of(first, second))
}

/// A wake of a player of the first loop.
fn wake(co: u32) -> Act {
    Act::Wake(CoId { co, home: 0 })
}

/// One that was begun first and yields goes on as soon as the one that wakes it has yielded, before the third is begun.
#[test]
fn a_wake_at_home_comes_before_the_next_one_of_the_list(rt: HostRuntime) -> Result<(), Fail> {
    let players = [
        (2, acts(Act::Yield, Act::Done)),
        (0, acts(wake(2), Act::Done)),
        (1, acts(wake(0), Act::Done)),
    ];
    let (here, _) = played(&rt, rt.alloc(), &players, &[], 1, false)?;
    assert_eq!(rt; here.ended, [Some((2, 5)), None, Some((2, 3))]);
    assert_eq!(rt; here.done, 2);
    Ok(())
}

/// A sleep lasts as long as was asked, on the clock of the loop where it was asked for, and the quit mark ends both loops.
#[test]
fn a_sleep_lasts_and_the_quit_mark_ends_all(rt: HostRuntime) -> Result<(), Fail> {
    let players = [(1, acts(Act::Sleep(1000), Act::Quit))];
    let (here, there) = played(&rt, rt.alloc(), &players, &[], 3, true)?;
    assert_eq!(rt; here.ended, [None, Some((2, 2)), None]);
    assert_eq!(rt; (here.now, here.slept, here.is_ended), (1000, 1, true));
    assert_eq!(rt; (there.now, there.slept, there.is_ended), (0, 0, true));
    Ok(())
}

/// One that sleeps and is woken goes on at once, and its timer does nothing when it expires.
#[test]
fn a_wake_ends_a_sleep(rt: HostRuntime) -> Result<(), Fail> {
    let players = [
        (0, acts(Act::Sleep(1000), Act::Yield)),
        (1, acts(Act::Sleep(10), wake(0))),
    ];
    let (here, _) = played(&rt, rt.alloc(), &players, &[], 3, true)?;
    assert_eq!(rt; (here.now, here.slept, here.done), (1000, 2, 0));
    Ok(())
}

/// One moves to the other loop, goes on there, and wakes one that stayed.
#[test]
fn one_moves_and_wakes_one_that_stayed(rt: HostRuntime) -> Result<(), Fail> {
    let players = [
        (0, acts(Act::Move(1), wake(1))),
        (1, acts(Act::Yield, Act::Done)),
    ];
    let (here, _) = played(&rt, rt.alloc(), &players, &[], 2, false)?;
    assert_eq!(rt; here.ended, [None, Some((2, 4)), None]);
    Ok(())
}

/// Where a wake of the one that moves has come before it, it is kept, and goes there a turn later.
#[test]
fn one_that_finds_its_number_scheduled_moves_later(rt: HostRuntime) -> Result<(), Fail> {
    let players = [(0, acts(Act::Move(1), Act::Done))];
    let (here, there) = played(&rt, rt.alloc(), &players, &[(0, None)], 2, true)?;
    assert_eq!(rt; there.ended, [Some((2, 2)), None, None]);
    assert_eq!(rt; (here.done, here.slept, there.done), (0, 0, 1));
    Ok(())
}

/// A wake of a number that no coroutine or no loop has does nothing, and one that moves to a loop that doesn't exist comes back.
#[test]
fn nobody_is_woken_and_nowhere_is_here(rt: HostRuntime) -> Result<(), Fail> {
    let players = [
        (0, acts(wake(4), Act::Done)),
        (1, acts(Act::Wake(CoId { co: 0, home: 2 }), Act::Done)),
        (2, acts(Act::Move(2), Act::Done)),
    ];
    let (here, _) = played(&rt, rt.alloc(), &players, &[], 2, false)?;
    assert_eq!(rt; here.ended, [None, None, Some((2, 4))]);
    Ok(())
}

/// A state that comes while its number is taken is handed to the ended as it came, and the one that is here is entered.
#[test]
fn a_second_state_of_a_number_is_handed_on(rt: HostRuntime) -> Result<(), Fail> {
    let here = [(0, acts(Act::Yield, Act::Yield))];
    let there = [(0, acts(Act::Move(0), Act::Done))];
    let (here, _) = played(&rt, rt.alloc(), &here, &there, 2, false)?;
    assert_eq!(rt; here.ended, [Some((1, 2)), None, None]);
    assert_eq!(rt; here.done, 0);
    Ok(())
}
