//! All players of a lock.
ghost use Rattle.std.specs.Prelude.{◌≡◌, ◌<◌, ◌≤◌, ◌+◌, vec_len};
ghost use Rattle.co_mutex.specs.Places.{AtRest};
ghost use Rattle.co_mutex.specs.Passes.{passes_of, known};
ghost use Rattle.co_mutex.specs.Decks.{IsResting, AreResting};
ghost use Rattle.lock_tests.specs.Crews.{ArePlayersOf};

use crate::hand::{Answer, Hand, Turn};
use crate::number::Number;
use crate::player::Player;
use co_mutex::{CoMutex, Pass};
use co_state::CoId;
use std::alloc::Global;
use std::mem;
use std::process::Abort;
use std::sync::Wait;

fn number_of<R: Abort>(rt: &R, count: usize) -> u32 {
    match u32::try_from(count) {
        Ok(number) => number,
        Err(_) => panic!(rt; "{count} is no number of a pass"),
    }
}

/// A player for each pass, the last pass first. The coroutine of each has its number.
pub fn dealt<R: Abort>(
    rt: &R,
    alloc: Global,
    lock: &CoMutex<Number>,
    passes: Vec<Pass<Number>>,
) -> Vec<Option<Player>>
    requires each { AreResting lock.now passes.items }
    ensures each { ArePlayersOf lock.now (vec_len passes) result.items }
    ensures count { vec_len result ≡ vec_len passes }
{
    let mut passes = passes;
    let mut players = match Vec::with_capacity(alloc, passes.len()) {
        Ok(players) => players,
        Err(_) => panic!(rt; "there is memory"),
    };
    while let Some(pass) = passes.pop() {
        let co = CoId {
            co: number_of(rt, passes.len()),
            home: 0,
        };
        players.push_reserved(Some(Player::of(pass, co)));
    }
    players
}

/// Where the player of this number stands among so many.
fn place_of<R: Abort>(rt: &R, count: usize, number: usize) -> usize
    ensures { result < count }
{
    assert!(rt; number < count);
    count - 1 - number
}

/// A call of the pass of this number.
pub fn play<R: Wait + Abort>(
    rt: &R,
    lock: &CoMutex<Number>,
    players: &mut Vec<Option<Player>>,
    number: usize,
    turn: Turn,
) -> Answer
    requires each { ArePlayersOf lock.now (vec_len players.old) players.old.items }
    ensures each { ArePlayersOf lock.now (vec_len players.new) players.new.items }
    ensures count { vec_len players.new ≡ vec_len players.old }
{
    let place = place_of(rt, players.len(), number);
    let Some(player) = mem::replace(&mut players[place], None) else {
        panic!(rt; "pass {number} is gone")
    };
    let (player, answer) = player.plays(rt, lock, turn);
    match mem::replace(&mut players[place], Some(player)) {
        None => answer,
        Some(_player) => panic!(rt; "pass {number} is here twice"),
    }
}

/// The player's pass, which has to be at rest.
fn into_pass<R: Abort>(rt: &R, player: Player) -> Pass<Number>
    ensures pass { result ≡ player.pass }
    ensures rest { (known result).place ≡ AtRest }
{
    let Player { pass, hand, co } = player;
    match hand {
        Hand::Rests => pass,
        Hand::Counted(_waiting) => panic!(rt; "{} is still to be queued", co.co),
        Hand::Queued => panic!(rt; "{} waits", co.co),
        Hand::Holds(_guard) => panic!(rt; "{} holds the lock", co.co),
    }
}

/// The passes of all players, which have to be at rest.
pub fn returned<R: Abort>(
    rt: &R,
    alloc: Global,
    lock: &CoMutex<Number>,
    players: Vec<Option<Player>>,
) -> Vec<Pass<Number>>
    requires each { ArePlayersOf lock.now (vec_len players) players.items }
    ensures each { AreResting lock.now result.items }
    ensures count { vec_len result ≡ vec_len players }
{
    let mut players = players;
    let mut passes = match Vec::with_capacity(alloc, players.len()) {
        Ok(passes) => passes,
        Err(_) => panic!(rt; "there is memory"),
    };
    while let Some(seat) = players.pop() {
        let Some(player) = seat else {
            panic!(rt; "each player is there")
        };
        passes.push_reserved(into_pass(rt, player));
    }
    players.destroy_empty();
    passes
}
