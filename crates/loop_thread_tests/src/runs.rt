//! Runs of one to sixteen loops.
ghost use Rattle.std.specs.Prelude.{◌≡◌, ◌≤◌, IfOk, length, vec_len};
ghost use Rattle.loop_rows.specs.Rows.{IsRow, HasNumbers};
ghost use Rattle.loop_thread_tests.specs.Walkers.{HaveRoomForWalkers};

use crate::walkers::{Ring, Walker};
use aio_model::Cause;
use aio_words::StepClock;
use co_loop::CoWork;
use loop_rows::{LoopShared, Opened, Row, open};
use loop_threads::{LoopRun, new_hands, prepare, reserve};
use std::alloc::Global;
use std::process::Abort;
use std::sync::Wait;
use std::sync::atomic::AtomicU64;
use std::test::Fail;
use std::thread::Threads;

/// Numbers of walkers.
const WALKERS: u32 = 16;

/// How often each walker goes to the next loop.
const MOVES: u32 = 50;

fn clocks(alloc: Global, loops: usize) -> Result<Vec<StepClock>, Fail>
    ensures { IfOk result (λ clocks. vec_len clocks ≡ loops) }
{
    Ok(vec![in alloc; StepClock { now: 0 }; loops]?)
}

/// Posts a walker to each loop.
fn post_all<R: Wait>(rt: &R, shared: &[LoopShared<Walker>], row: &mut Row<Walker>) -> usize
    requires row { IsRow shared.now row.old }
    requires few { length shared.now ≤ 16 }
    requires room { HaveRoomForWalkers shared.now }
    ensures { IsRow shared.now row.new × HasNumbers row.old.first row.old.count row.new }
{
    let mut posted: usize = 0;
    for to in 0..shared.len() {
        let walker = Walker {
            at: to as u32,
            left: MOVES,
        };
        let done = row.post(rt, shared, to, to as u32, Cause::Begin, Some(walker));
        posted = posted.wrapping_add(usize::from(done.is_ok()));
    }
    posted
}

/// Runs so many loops to their ends, with a walker that begins on each.
fn run<R: Threads + Wait + Sync>(
    rt: &R,
    alloc: Global,
    loops: usize,
) -> Result<Vec<LoopRun<Walker, CoWork<Walker, StepClock>>>, Fail>
    requires { loops ≤ 16 }
    ensures { IfOk result (λ runs. vec_len runs ≡ loops) }
{
    let clocks = clocks(alloc, loops)?;
    let (Ok(opened), Ok(reserved), Ok(hands)) = (
        open::<Walker, R>(rt, alloc, loops, WALKERS),
        reserve(alloc, loops),
        new_hands::<Walker, StepClock>(alloc, WALKERS, clocks),
    ) else {
        return Err(Fail::from("no memory"));
    };
    let Opened {
        shared,
        homes,
        mut row,
    } = opened;
    let walkers = post_all(rt, &shared, &mut row) as u64;
    let prepared = prepare(reserved, &shared, homes, hands, row);
    let ring = Ring {
        loops: loops as u32,
        walkers,
        arrived: AtomicU64::new(0),
    };
    let crew = prepared.run(rt, &ring, &shared);
    Ok(crew.end(rt, shared))
}

/// Where the walker of this number has ended: on its last loop, and nowhere else.
fn has_ended(run: &LoopRun<Walker, CoWork<Walker, StepClock>>, number: usize) -> Option<Walker> {
    match run.work.crew.ended.get(number) {
        Some(Some(walker)) => Some(*walker),
        _ => None,
    }
}

/// Each walker goes round the loops, and ends where so many moves lead. Every loop has found the event that ends it.
#[test]
fn walkers_go_round_one_to_sixteen_loops(rt: HostRuntime) -> Result<(), Fail> {
    for loops in 1..17usize {
        let runs = run(&rt, rt.alloc(), loops)?;
        for (at, run) in runs.iter().enumerate() {
            assert!(rt; run.work.is_ended);
            for number in 0..loops {
                let last = number.wrapping_add(MOVES as usize) % loops;
                let here = Walker {
                    at: last as u32,
                    left: 0,
                };
                let wanted = if last == at { Some(here) } else { None };
                assert_eq!(rt; has_ended(run, number), wanted);
            }
        }
    }
    Ok(())
}
