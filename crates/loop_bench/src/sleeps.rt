//! A home commits to sleep and is awake again, over and over: with nothing in its list, and with 64 idle handles in it. And a home
//! that accepts.
ghost use Rattle.std.specs.Prelude.{◌≡◌, IfOk};
ghost use Rattle.loop_bench.specs.Awake.{IsAwake};
ghost use Rattle.aio_core.specs.Calls.{IsReady};

use crate::calls::{HANDLES, MANY_ROUNDS, ONE_ROUNDS};
use aio_bh::BottomHalves;
use aio_core::{Built, Home, LoopTable, Seat};
use aio_model::Commit;
use aio_notify::Sleeping;
use std::alloc::Global;
use std::io;
use std::sync::Wait;

/// Commits once, and tells whether home might sleep. It is awake again.
fn commit_once(table: &LoopTable<u64>, home: &mut Home<u64>) -> bool
    requires awake { IsAwake table.now home.old.seat }
    ensures awake { IsAwake table.now home.new.seat }
{
    match table.commit(home, 0, None, 0) {
        Commit::Sleep(_) => {
            table.disarm(home);
            true
        }
        Commit::Awake(_) => false,
    }
}

/// How often home might sleep.
fn commit_all(table: &LoopTable<u64>, home: &mut Home<u64>, rounds: u64) -> u64
    requires awake { IsAwake table.now home.old.seat }
    ensures awake { IsAwake table.now home.new.seat }
{
    let mut sleeps = 0u64;
    for _ in 0..rounds {
        if commit_once(table, home) {
            sleeps = sleeps.wrapping_add(1);
        }
    }
    sleeps
}

fn accept_all(table: &LoopTable<u64>, home: &mut Home<u64>, rounds: u64)
    requires awake { IsAwake table.now home.old.seat }
    ensures awake { IsAwake table.now home.new.seat }
{
    for _ in 0..rounds {
        table.accept(home);
    }
}

fn schedule_idle_all<R: Wait>(rt: &R, table: &LoopTable<u64>, seat: Seat<u64>)
    requires ready { IsReady table.now seat }
    requires handles { table.now.sizes.handles ≡ 64 }
{
    let mut seat = seat;
    for bh in 0..HANDLES {
        table.schedule_idle(rt, &mut seat, bh);
    }
}

fn build(alloc: Global) -> io::Result<Built<u64>>
    ensures { IfOk result (λ b. (b.table.sizes.handles ≡ 64) × IsReady b.table b.seat × IsAwake b.table b.home.seat) }
{
    match LoopTable::<u64>::build(alloc, HANDLES, 0, 0) {
        Ok(built) => Ok(built),
        Err(_) => Err(io::Error::from(io::ErrorKind::OutOfMemory)),
    }
}

pub fn over_an_empty_list<R: Print>(rt: &R, alloc: Global) -> io::Result<()> {
    let Built {
        table,
        mut home,
        seat: _,
    } = build(alloc)?;
    let sleeps = commit_all(&table, &mut home, ONE_ROUNDS);
    println!(rt; "commits over an empty list: {ONE_ROUNDS} rounds, {sleeps} calls")
}

pub fn over_idle_ones<R: Wait + Print>(rt: &R, alloc: Global) -> io::Result<()> {
    let Built {
        table,
        mut home,
        seat,
    } = build(alloc)?;
    schedule_idle_all(rt, &table, seat);
    table.accept(&mut home);
    let sleeps = commit_all(&table, &mut home, MANY_ROUNDS);
    println!(rt; "commits over {HANDLES} idle handles: {MANY_ROUNDS} rounds, {sleeps} calls")
}

pub fn accepts<R: Print>(rt: &R, alloc: Global) -> io::Result<()> {
    let Built {
        table,
        mut home,
        seat: _,
    } = build(alloc)?;
    accept_all(&table, &mut home, ONE_ROUNDS);
    println!(rt; "accepts: {ONE_ROUNDS} rounds, {ONE_ROUNDS} calls")
}
