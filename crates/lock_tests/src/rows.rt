//! Calls of two passes, and of 64, on one thread.
ghost use Rattle.std.specs.Prelude.{◌≡◌, ◌<◌, ◌≤◌, vec_len};
ghost use Rattle.lock_tests.specs.Crews.{ArePlayersOf};

use crate::closing::{built, closed};
use crate::crew::{dealt, play, returned};
use crate::hand::{Answer, Turn};
use crate::number::Number;
use crate::player::Player;
use co_mutex::CoMutex;
use co_state::CoId;
use std::alloc::Global;
use std::process::Abort;
use std::sync::Wait;

/// A call of the pass of this number, and its answer.
type Row = (usize, Turn, Answer);

const FIRST: CoId = CoId { co: 0, home: 0 };

const SECOND: CoId = CoId { co: 1, home: 0 };

const THIRD: CoId = CoId { co: 2, home: 0 };

fn play_all<R: Wait + Abort>(
    rt: &R,
    lock: &CoMutex<Number>,
    players: &mut Vec<Option<Player>>,
    rows: &[Row],
)
    requires each { ArePlayersOf lock.now (vec_len players.old) players.old.items }
    ensures each { ArePlayersOf lock.now (vec_len players.new) players.new.items }
    ensures count { vec_len players.new ≡ vec_len players.old }
{
    for row in rows {
        let (number, turn, answer) = *row;
        assert_eq!(rt;
            play(rt, lock, players, number, turn),
            answer,
            "{turn:?} of pass {number}"
        );
    }
}

/// What a lock holds that was built with 5 and so many passes, after these calls.
fn after_rows<R: Wait + Abort>(rt: &R, alloc: Global, passes: u32, rows: &[Row]) -> u64
    requires { (1 ≤ passes) × (passes ≤ 64) }
{
    let (lock, passes) = built::<Number, R>(rt, alloc, 5, passes);
    let mut players = dealt(rt, alloc, &lock, passes);
    play_all(rt, &lock, &mut players, rows);
    let passes = returned(rt, alloc, &lock, players);
    closed(lock, passes)
}

/// Busy changes nothing; who is queued is named by the unlock, and holds when it is resumed, and not before.
const QUEUED: [Row; 8] = [
    (0, Turn::TryLock, Answer::Held(5)),
    (1, Turn::TryLock, Answer::Busy(1)),
    (1, Turn::Lock, Answer::Queued(None)),
    (1, Turn::Resumed, Answer::Queued(None)),
    (0, Turn::Unlock(2), Answer::Unlocked(Some(SECOND))),
    (1, Turn::Resumed, Answer::Held(7)),
    (1, Turn::Unlock(4), Answer::Unlocked(None)),
    (0, Turn::Resumed, Answer::OutOfTurn),
];

/// Who is counted and not yet pushed takes the hand-off that was published meanwhile.
const HANDED: [Row; 7] = [
    (0, Turn::TryLock, Answer::Held(5)),
    (1, Turn::BeginLock, Answer::Later),
    (0, Turn::Unlock(2), Answer::Unlocked(None)),
    (0, Turn::TryLock, Answer::Busy(1)),
    (1, Turn::FinishLock, Answer::Held(7)),
    (0, Turn::TryLock, Answer::Busy(1)),
    (1, Turn::Unlock(4), Answer::Unlocked(None)),
];

/// Who is pushed before the unlock is granted by it, though another was counted first.
const OVERTAKEN: [Row; 10] = [
    (0, Turn::Lock, Answer::Held(5)),
    (1, Turn::BeginLock, Answer::Later),
    (2, Turn::Lock, Answer::Queued(None)),
    (0, Turn::Unlock(1), Answer::Unlocked(Some(THIRD))),
    (1, Turn::FinishLock, Answer::Queued(None)),
    (1, Turn::Resumed, Answer::Queued(None)),
    (2, Turn::Resumed, Answer::Held(6)),
    (2, Turn::Unlock(1), Answer::Unlocked(Some(SECOND))),
    (1, Turn::Resumed, Answer::Held(7)),
    (1, Turn::Unlock(1), Answer::Unlocked(None)),
];

/// Of two who are counted at a published hand-off, the first to be pushed takes it. The other is granted by the unlock.
const TWO_LATER: [Row; 9] = [
    (0, Turn::BeginLock, Answer::Held(5)),
    (1, Turn::BeginLock, Answer::Later),
    (2, Turn::BeginLock, Answer::Later),
    (0, Turn::Unlock(1), Answer::Unlocked(None)),
    (2, Turn::FinishLock, Answer::Held(6)),
    (1, Turn::FinishLock, Answer::Queued(None)),
    (2, Turn::Unlock(1), Answer::Unlocked(Some(SECOND))),
    (1, Turn::Resumed, Answer::Held(7)),
    (1, Turn::Unlock(1), Answer::Unlocked(None)),
];

/// Waiters are granted in the order of their pushes, and who comes again is behind them.
const IN_ORDER: [Row; 12] = [
    (2, Turn::Lock, Answer::Held(5)),
    (1, Turn::Lock, Answer::Queued(None)),
    (0, Turn::Lock, Answer::Queued(None)),
    (2, Turn::Unlock(1), Answer::Unlocked(Some(SECOND))),
    (2, Turn::Lock, Answer::Queued(None)),
    (0, Turn::Resumed, Answer::Queued(None)),
    (1, Turn::Resumed, Answer::Held(6)),
    (1, Turn::Unlock(1), Answer::Unlocked(Some(FIRST))),
    (0, Turn::Resumed, Answer::Held(7)),
    (0, Turn::Unlock(1), Answer::Unlocked(Some(THIRD))),
    (2, Turn::Resumed, Answer::Held(8)),
    (2, Turn::Unlock(1), Answer::Unlocked(None)),
];

#[test]
fn who_is_queued_is_named_by_the_unlock(rt: HostRuntime) {
    assert_eq!(rt; after_rows(&rt, rt.alloc(), 2, &QUEUED), 11);
    assert_eq!(rt; after_rows(&rt, rt.alloc(), 3, &IN_ORDER), 9);
}

#[test]
fn who_is_counted_takes_the_hand_off(rt: HostRuntime) {
    assert_eq!(rt; after_rows(&rt, rt.alloc(), 2, &HANDED), 11);
    assert_eq!(rt; after_rows(&rt, rt.alloc(), 3, &OVERTAKEN), 8);
    assert_eq!(rt; after_rows(&rt, rt.alloc(), 3, &TWO_LATER), 8);
}

/// The first pass holds, and all others queue behind it.
fn all_queue<R: Wait + Abort>(rt: &R, lock: &CoMutex<Number>, players: &mut Vec<Option<Player>>)
    requires each { ArePlayersOf lock.now (vec_len players.old) players.old.items }
    ensures each { ArePlayersOf lock.now (vec_len players.new) players.new.items }
    ensures count { vec_len players.new ≡ vec_len players.old }
{
    assert_eq!(rt; play(rt, lock, players, 0, Turn::Lock), Answer::Held(5));
    for number in 1..64usize {
        let answer = play(rt, lock, players, number, Turn::Lock);
        assert_eq!(rt; answer, Answer::Queued(None), "of pass {number}");
    }
}

/// Each pass adds 1 and unlocks, which names the next.
fn all_take<R: Wait + Abort>(rt: &R, lock: &CoMutex<Number>, players: &mut Vec<Option<Player>>)
    requires each { ArePlayersOf lock.now (vec_len players.old) players.old.items }
    ensures each { ArePlayersOf lock.now (vec_len players.new) players.new.items }
    ensures count { vec_len players.new ≡ vec_len players.old }
{
    for next in 1..64u32 {
        let number = next as usize;
        let named = CoId { co: next, home: 0 };
        let answer = play(rt, lock, players, number - 1, Turn::Unlock(1));
        assert_eq!(rt; answer, Answer::Unlocked(Some(named)), "before {number}");
        let answer = play(rt, lock, players, number, Turn::Resumed);
        assert_eq!(rt;
            answer,
            Answer::Held(u64::from(next) + 5),
            "of pass {number}"
        );
    }
    assert_eq!(rt;
        play(rt, lock, players, 63, Turn::Unlock(1)),
        Answer::Unlocked(None)
    );
}

#[test]
fn each_of_64_passes_is_named_in_its_turn(rt: HostRuntime) {
    let (lock, passes) = built::<Number, _>(&rt, rt.alloc(), 5, 64);
    let mut players = dealt(&rt, rt.alloc(), &lock, passes);
    all_queue(&rt, &lock, &mut players);
    all_take(&rt, &lock, &mut players);
    let passes = returned(&rt, rt.alloc(), &lock, players);
    assert_eq!(rt; closed(lock, passes), 69);
}
