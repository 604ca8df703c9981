//! The stamps of arms, by which timers of one expiry are in order.
ghost use Rattle.std.specs.Prelude.{◌≡◌, ◌+◌, ◌%◌, ◌<◌, ◌≤◌, ℕ, length, count_by, slice_index, slice_set};
ghost use Rattle.aio_timers.specs.Keys.{key_at, joint, stamps, AreStamped};
ghost use Rattle.aio_timers.specs.Restamping.{is_older, rank_in, restamped, Restamps};

use crate::key_tree::{KeyTree, NONE};
use crate::keys::{expiry_of, key_of, stamp_of};

/// More than there are armed timers.
const ABOVE_RANKS: u64 = 1 << 34;

fn count_older(keys: &[u128], stamp: u64) -> usize
    ensures { result ≡ count_by (is_older stamp) keys.now }
{
    let mut count = 0;
    for key in keys {
        if stamp_of(*key) < stamp {
            count += 1;
        }
    }
    count
}

/// The key of a timer that is in one of two rows.
fn joint_key(due: &KeyTree, waiting: &KeyTree, place: usize) -> u128
    requires in_due { place < length due.now }
    requires in_waiting { place < length waiting.now }
    ensures { result ≡ joint due.now waiting.now place }
{
    let key = due.key(place);
    if key < NONE { key } else { waiting.key(place) }
}

/// How many stamps are below that of a timer.
fn rank(due: &KeyTree, waiting: &KeyTree, place: usize) -> u64
    requires in_due { place < length due.now }
    requires in_waiting { place < length waiting.now }
    requires fits { length due.now + length waiting.now ≤ 8589934592 }
    ensures { result ≡ rank_in due.now waiting.now (joint due.now waiting.now place % stamps) }
{
    let stamp = stamp_of(joint_key(due, waiting, place));
    let in_due = count_older(due.keys(), stamp);
    let in_waiting = count_older(waiting.keys(), stamp);
    in_due as u64 + in_waiting as u64
}

fn count_ranks(due: &KeyTree, waiting: &KeyTree, ranks: &mut [u64])
    requires in_due { length ranks.old ≡ length due.now }
    requires in_waiting { length ranks.old ≡ length waiting.now }
    requires fits { length due.now + length waiting.now ≤ 8589934592 }
    ensures { (place : ℕ) → place < length ranks.new → slice_index ranks.new place ≡ rank_in due.now waiting.now (joint due.now waiting.now place % stamps) }
{
    for place in 0..ranks.len() {
        ranks[place] = rank(due, waiting, place);
    }
}

/// Gives a key another stamp, where there is one.
fn restamp_one(keys: &mut KeyTree, place: usize, stamp: u64)
    requires { place < length keys.old }
    ensures { keys.new ≡ slice_set keys.old place (restamped (key_at keys.old place) stamp) }
{
    let key = keys.key(place);
    if key < NONE {
        keys.set(place, key_of(expiry_of(key), stamp));
    }
}

/// Gives each key of a row the stamp at its place.
fn restamp(keys: &mut KeyTree, stamps: &[u64])
    requires { length stamps.now ≡ length keys.old }
    ensures sized { length keys.new ≡ length keys.old }
    ensures each { (place : ℕ) → key_at keys.new place ≡ restamped (key_at keys.old place) (slice_index stamps.now place) }
{
    for place in 0..stamps.len() {
        restamp_one(keys, place, stamps[place]);
    }
}

/// The stamp of the next arm. Where the numbers are used up, the armed timers get small ones in the order of their own.
pub(crate) fn fresh_stamp(
    due: &mut KeyTree,
    waiting: &mut KeyTree,
    ranks: &mut [u64],
    next: u64,
) -> u64
    requires in_due { length ranks.old ≡ length due.old }
    requires in_waiting { length ranks.old ≡ length waiting.old }
    requires fits { length ranks.old ≤ 4294967296 }
    ensures restamps { Restamps due.old waiting.old due.new waiting.new }
    ensures stamped { (made : ℕ) → AreStamped (joint due.old waiting.old) made next → AreStamped (joint due.new waiting.new) made result }
    ensures more { result < 18446744073709551615 }
{
    if next < u64::MAX {
        return next;
    }
    count_ranks(due, waiting, ranks);
    restamp(due, ranks);
    restamp(waiting, ranks);
    ABOVE_RANKS
}
