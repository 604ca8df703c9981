//! The run of a script.
ghost use Rattle.std.specs.Prelude.{◌≡◌, ◌+◌, ◌<◌, ◌≤◌, ℕ, None, length, map, replicate, slice_index_or, vec_len, vec_capacity, []};
ghost use Rattle.std.specs.List.{AllByRecursion};
ghost use Rattle.aio_model.specs.Serving.SerialHistory.{eios_of};
ghost use Rattle.aio_script.specs.Image.Bounds.{IsBounded};
ghost use Rattle.aio_words.specs.Called.{failures_in, sizes_asked};
ghost use Rattle.aio_words.specs.Faults.{HasRisenBy};
ghost use Rattle.co_loop.specs.Rows.{AreOfOrigin};
ghost use Rattle.co_loop.specs.Working.{CanWork};
ghost use Rattle.img_streams.specs.Streams.{IsStreamAt, source};
ghost use Rattle.loop_rows.specs.Opening.{HomesEach};
ghost use Rattle.loop_rows.specs.Rows.{IsRow, HasNumbers};
ghost use Rattle.loop_rows.specs.Stepping.{CoroutinesStay};
ghost use Rattle.loop_threads.specs.declared.ending.LoopRun.{LoopRun};
ghost use Rattle.loop_threads.specs.Reserving.{IsReserved};
ghost use Rattle.loop_threads.specs.Running.{CanBeginEach};
ghost use Rattle.stream_ends.specs.Images.{device_behind, homes_of};
ghost use Rattle.stream_ends.specs.Stops.{HaveStopped, IsScriptServed};
ghost use Rattle.aio_run.specs.Berths.{BerthsAreOf, AreBerthed};
ghost use Rattle.aio_run.specs.declared.running.RunEnd.{RunEnd};
ghost use Rattle.aio_run.specs.Ends.{IsOver, end_of_run};
ghost use Rattle.aio_run.specs.Posting.{HaveBegunAlone, HaveCoroutines, HaveSet, HaveSizes};
ghost use Rattle.aio_run.specs.Readiness.{AreQuiet, ArePosted, HaveEntered, HasPostedAll, coroutines_of};
ghost use Rattle.aio_run.specs.Serving.{HasServed};
ghost use Rattle.aio_run.specs.Turned.{HasTurned};

use crate::carrying::carry;
use crate::opening::Loops;
use crate::posting::end_each;
use crate::preparing::{Prepared, ScriptRun};
use crate::returning::{all_back, see_asked, take_back};
use aio_model::{Placed, Script};
use aio_notify::LoopEnd;
use aio_words::{Clock, Device, Gate};
use co_loop::{CoWork, Crew};
use co_mutex::CoMutex;
use co_schedule::CoEnd;
use co_state::Origin;
use img_streams::{ImageRule, ServeEnv, StreamCo};
use loop_rows::{LoopShared, Opened, Row};
use loop_threads::{Hand, LoopRun, Reserved};
use std::collections::VecDeque;
use std::sync::Wait;
use std::thread::Threads;
use stream_ends::{Finished, finish};

/// One loop whose run is over: its whole history, and that of its coroutines.
#[derive(Drop)]
pub struct RunEnd<C: Origin> {
    pub calls: LoopEnd<()>,
    pub coroutines: CoEnd<C>,
}

/// What a run came to.
#[derive(Drop)]
pub struct Outcome<D, C: Origin> {
    pub device: D,
    /// The replies, each at its place.
    pub served: Vec<Placed>,
    /// The loops, in order.
    pub loops: Vec<RunEnd<C>>,
}

/// Those that have ended on a loop.
fn ended_in<C: Origin + Drop, K: Drop>(work: CoWork<C, K>) -> Vec<Option<C>>
    ensures { result ≡ work.crew.ended }
{
    let CoWork {
        crew,
        run: _,
        clock: _,
        is_ended: _,
    } = work;
    let Crew {
        own: _,
        coroutines: _,
        store: _,
        woken: _,
        naps: _,
        leaving: _,
        ended,
        done: _,
        quits: _,
        seats: _,
    } = crew;
    ended
}

/// Takes the streams that have ended on one loop, and keeps its two histories.
fn end_one<D: Device, K: Drop, R: Wait>(
    rt: &R,
    lock: &CoMutex<ImageRule<D>>,
    script: &Script,
    run: LoopRun<StreamCo<D>, CoWork<StreamCo<D>, K>>,
    berths: &mut Vec<Option<StreamCo<D>>>,
) -> RunEnd<StreamCo<D>>
    requires ended { BerthsAreOf D.bytes script.now lock.now run.work.crew.ended.items }
    requires berths { AreBerthed D.bytes script.now lock.now berths.old.items }
    ensures berths { AreBerthed D.bytes script.now lock.now berths.new.items }
    ensures ends { result ≡ end_of_run run }
{
    let LoopRun {
        calls,
        coroutines,
        side: _,
        lot_pass: _,
        work,
    } = run;
    take_back(rt, lock, script, ended_in(work), berths);
    RunEnd { calls, coroutines }
}

/// The same of all loops, in their order.
fn end_loops<D: Device, K: Drop, R: Wait>(
    rt: &R,
    lock: &CoMutex<ImageRule<D>>,
    script: &Script,
    runs: Vec<LoopRun<StreamCo<D>, CoWork<StreamCo<D>, K>>>,
    berths: &mut Vec<Option<StreamCo<D>>>,
    ends: &mut Vec<RunEnd<StreamCo<D>>>,
)
    requires runs { AllByRecursion (λ run. BerthsAreOf D.bytes script.now lock.now run.work.crew.ended.items) runs.items }
    requires berths { AreBerthed D.bytes script.now lock.now berths.old.items }
    requires room { (ends.old.items ≡ []) × (length runs.items ≤ vec_capacity ends.old) }
    ensures berths { AreBerthed D.bytes script.now lock.now berths.new.items }
    ensures kept { ends.new.items ≡ map end_of_run runs.items }
{
    let mut runs = VecDeque::from_vec(runs);
    while let Some(run) = runs.pop_front() {
        ends.push_reserved(end_one(rt, lock, script, run, berths));
    }
}

/// What comes back of the loops.
#[derive(Drop)]
struct Gathered<C: Origin> {
    streams: Vec<C>,
    ends: Vec<RunEnd<C>>,
}

/// Takes all streams back from the loops, in the order of the stream lines, and keeps the loops' histories.
fn gather<D: Device, K: Drop, R: Wait>(
    rt: &R,
    lock: &CoMutex<ImageRule<D>>,
    script: &Script,
    runs: Vec<LoopRun<StreamCo<D>, CoWork<StreamCo<D>, K>>>,
    mut berths: Vec<Option<StreamCo<D>>>,
    streams: Vec<StreamCo<D>>,
    mut ends: Vec<RunEnd<StreamCo<D>>>,
) -> Gathered<StreamCo<D>>
    requires ended { AllByRecursion (λ run. BerthsAreOf D.bytes script.now lock.now run.work.crew.ended.items) runs.items }
    requires berths { berths.items ≡ replicate (length script.now.streams) None }
    requires streams { (streams.items ≡ []) × (length script.now.streams ≤ vec_capacity streams) }
    requires ends { (ends.items ≡ []) × (length runs.items ≤ vec_capacity ends) }
    ensures streams { HaveStopped D.bytes script.now lock.now result.streams.items }
    ensures kept { result.ends.items ≡ map end_of_run runs.items }
{
    end_loops(rt, lock, script, runs, &mut berths, &mut ends);
    Gathered {
        streams: all_back(rt, lock, script, berths, streams),
        ends,
    }
}

/// Where the script has no stream, nobody else ends the loops' runs.
fn end_if_none<D: Device>(
    script: &Script,
    shared: &[LoopShared<StreamCo<D>>],
    row: &mut Row<StreamCo<D>>,
)
    requires row { IsRow shared.now row.old × HasNumbers 0 64 row.old }
    ensures row { IsRow shared.now row.new × HasNumbers 0 64 row.new }
    ensures coroutines { CoroutinesStay row.old.seats.items row.new.seats.items }
    ensures set { length script.now.streams ≡ 0 → HaveSet (length shared.now) row.new.seats.items }
{
    if script.streams.as_slice().is_empty() {
        end_each(shared, row);
    }
}

/// Carries the loops of a script, until all streams have ended and each loop is quiet. It waits for ever where no stream asked that
/// the loops end, and there are streams.
fn carry_streams<
    D: Device + Send,
    K: Clock + Drop + Send,
    G: Gate + Sync,
    R: Threads + Wait + Sync,
>(
    env: &ServeEnv<'_, D, G, R>,
    opened: Opened<StreamCo<D>>,
    hands: Vec<Hand<CoWork<StreamCo<D>, K>>>,
    reserved: Reserved<StreamCo<D>, CoWork<StreamCo<D>, K>>,
) -> Vec<LoopRun<StreamCo<D>, CoWork<StreamCo<D>, K>>>
    requires bounded { IsBounded env.now.script.now }
    requires loops { env.now.script.now.loops ≡ length opened.shared.items }
    requires few { length opened.shared.items ≤ 16 }
    requires of { AreOfOrigin (source env.now.lock.now env.now.script.now) opened.shared.items }
    requires tables { HaveCoroutines (coroutines_of env.now.script.now) opened.shared.items × HaveSizes opened.shared.items }
    requires homes { (vec_len opened.homes ≡ length opened.shared.items) × HomesEach (length opened.shared.items) opened.shared.items opened.homes.items }
    requires hands { (vec_len hands ≡ length opened.shared.items) × CanBeginEach (CanWork (λ k c o. IsStreamAt D.bytes k c o)) opened.shared.items opened.homes.items hands.items }
    requires none_entered { HaveEntered (length opened.shared.items) (coroutines_of env.now.script.now) opened.homes.items }
    requires quiet { AreQuiet (length opened.shared.items) hands.items }
    requires reserved { IsReserved (length opened.shared.items) reserved }
    requires row { IsRow opened.shared.items opened.row × HasNumbers 0 64 opened.row }
    requires some { 0 < length opened.shared.items }
    requires begun { HaveBegunAlone (length env.now.script.now.streams) (homes_of env.now.script.now.streams) (length opened.shared.items) opened.row.seats.items }
    requires set { length env.now.script.now.streams ≡ 0 → HaveSet (length opened.shared.items) opened.row.seats.items }
    ensures long { length result.items ≡ length opened.shared.items }
    ensures ended { AllByRecursion (λ run. BerthsAreOf D.bytes env.now.script.now env.now.lock.now run.work.crew.ended.items) result.items }
    ensures over { AllByRecursion (λ run. IsOver (coroutines_of env.now.script.now) run.calls.known run.coroutines) result.items }
    ensures served { (k : ℕ) (r : LoopRun _ _ _) → k < length result.items → HasServed env.now.script.now k (slice_index_or result.items k r).coroutines.history }
    ensures turned { (k : ℕ) (r : LoopRun _ _ _) → k < length result.items → HasTurned env.now.script.now k (slice_index_or result.items k r).calls.known.seen }
{
    let Opened { shared, homes, row } = opened;
    let runs = carry(env.rt, env, shared, reserved, homes, hands, row);
    see_asked(env.rt, env.script, &runs);
    runs
}

/// Runs the loops of a script, and takes all streams back.
fn serve_streams<
    D: Device + Send,
    K: Clock + Drop + Send,
    G: Gate + Sync,
    R: Threads + Wait + Sync,
>(env: &ServeEnv<'_, D, G, R>, loops: Loops<StreamCo<D>, K>) -> Gathered<StreamCo<D>>
    requires bounded { IsBounded env.now.script.now }
    requires posted { ArePosted (CanWork (λ k c o. IsStreamAt D.bytes k c o)) env.now.script.now (source env.now.lock.now env.now.script.now) loops }
    ensures streams { HaveStopped D.bytes env.now.script.now env.now.lock.now result.streams.items }
    ensures ends { (length result.ends.items ≡ env.now.script.now.loops) × AllByRecursion (λ end. IsOver (coroutines_of env.now.script.now) end.calls.known end.coroutines) result.ends.items }
    ensures served { (k : ℕ) (end : RunEnd _ _) → k < env.now.script.now.loops → HasServed env.now.script.now k (slice_index_or result.ends.items k end).coroutines.history }
    ensures turned { (k : ℕ) (end : RunEnd _ _) → k < env.now.script.now.loops → HasTurned env.now.script.now k (slice_index_or result.ends.items k end).calls.known.seen }
{
    let Loops {
        mut opened,
        hands,
        reserved,
        berths,
        streams,
        ends,
    } = loops;
    end_if_none(env.script, &opened.shared, &mut opened.row);
    let runs = carry_streams(env, opened, hands, reserved);
    gather(env.rt, env.lock, env.script, runs, berths, streams, ends)
}

/// Serves the script: each loop on a thread of its own, or, where a thread can't be started, by the caller, in turns that don't block.
/// Every loop is given turns until each stream's coroutine has ended, and the loop is quiet. All replies and the device come back, with
/// the whole histories of the loops.
pub fn run<D: Device + Send, K: Clock + Drop + Send, G: Gate + Sync, R: Threads + Wait + Sync>(
    rt: &R,
    script: &Script,
    prepared: ScriptRun<D, K>,
    gate: &G,
) -> Outcome<D, StreamCo<D>>
    requires bounded { IsBounded script.now }
    requires fits { script.now.image ≤ D.extent (device_behind prepared.lock) }
    requires ready { HasPostedAll (CanWork (λ k c o. IsStreamAt D.bytes k c o)) script.now (λ lock. source lock script.now) prepared }
    ensures serves { IsScriptServed script.now (D.bytes (device_behind prepared.lock)) (D.bytes result.device) result.served.items }
    ensures few { length result.served.items ≤ 4096 }
    ensures loops { (length result.loops.items ≡ script.now.loops) × AllByRecursion (λ end. IsOver (coroutines_of script.now) end.calls.known end.coroutines) result.loops.items }
    ensures began { (k : ℕ) (end : RunEnd _ _) → k < script.now.loops → HasServed script.now k (slice_index_or result.loops.items k end).coroutines.history }
    ensures turned { (k : ℕ) (end : RunEnd _ _) → k < script.now.loops → HasTurned script.now k (slice_index_or result.loops.items k end).calls.known.seen }

    // What it came to at the device.
    ensures extent { D.extent result.device ≡ D.extent (device_behind prepared.lock) }
    ensures counted { D.faults (device_behind prepared.lock) ≤ D.faults result.device }
    ensures eios { HasRisenBy (eios_of result.served.items) (D.faults (device_behind prepared.lock)) (D.faults result.device) }
    ensures sizes { D.size_faults result.device ≡ D.size_faults (device_behind prepared.lock) }
    ensures asked { sizes_asked (D.calls result.device) ≡ sizes_asked (D.calls (device_behind prepared.lock)) }
    ensures failures { failures_in (D.calls result.device) ≡ failures_in (D.calls (device_behind prepared.lock)) + eios_of result.served.items }
{
    let Prepared { lock, room, loops } = prepared;
    let env = ServeEnv {
        rt,
        lock: &lock,
        script,
        gate,
    };
    let Gathered {
        streams,
        ends: loops,
    } = serve_streams(&env, loops);
    let Finished { device, served } = finish(lock, streams, script, room);
    Outcome {
        device,
        served,
        loops,
    }
}
