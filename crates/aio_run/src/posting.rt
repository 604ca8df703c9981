//! Each stream is posted to its home.
ghost use Rattle.std.specs.Prelude.{◌≡◌, ◌<◌, ◌≤◌, ◌+◌, ◌∷◌, ℕ, true, false, length, slice_index, slice_index_or};
ghost use Rattle.aio_model.specs.declared.coroutines.causes.Cause.TheVariants.{Begin};
ghost use Rattle.aio_model.specs.Coroutines.History.{Schedule, Push};
ghost use Rattle.co_loop.specs.Rows.{AreOfOrigin};
ghost use Rattle.co_schedule.specs.Standing.{was_scheduled_by};
ghost use Rattle.img_streams.specs.Streams.{IsStreamAt, source};
ghost use Rattle.loop_rows.specs.declared.shared.LoopShared.{LoopShared};
ghost use Rattle.loop_rows.specs.declared.seats.Seats.{Seats};
ghost use Rattle.loop_rows.specs.Rows.{IsRow, HasNumbers};
ghost use Rattle.loop_rows.specs.Stepping.{OthersStay, CoroutinesStay};
ghost use Rattle.stream_ends.specs.Images.{homes_of};
ghost use Rattle.stream_ends.specs.Starts.{HaveStarted};
ghost use Rattle.aio_run.specs.Posting.{HaveBegun, HaveCoroutines, AllHaveOwn, HaveSet};
ghost use Rattle.aio_run.specs.Readiness.{coroutines_of};

use aio_model::{Cause, Script};
use aio_words::Device;
use co_mutex::CoMutex;
use img_streams::{ImageRule, StreamCo};
use loop_rows::{LoopShared, Row};
use std::collections::VecDeque;
use std::sync::Wait;

/// Posts a stream's coroutine, which never was, to a loop. The row has all numbers, so no mark is found.
fn post_one<D: Device, R: Wait>(
    rt: &R,
    shared: &[LoopShared<StreamCo<D>>],
    row: &mut Row<StreamCo<D>>,
    to: usize,
    co: u32,
    stream: StreamCo<D>,
)
    requires row { IsRow shared.now row.old × HasNumbers 0 64 row.old }
    requires to { to < length shared.now }
    requires below { (t : LoopShared _ _) → co < (slice_index_or shared.now to t).coroutines.coroutines }
    requires of { (t : LoopShared _ _) → IsStreamAt D.bytes co stream (slice_index_or shared.now to t).coroutines.origin }
    requires fresh { (s : Seats _ _) → was_scheduled_by co (slice_index_or row.old.seats.items to s).coroutines.known.mine ≡ false }
    ensures row { IsRow shared.now row.new × HasNumbers 0 64 row.new }
    ensures others { OthersStay to row.old.seats.items row.new.seats.items }
    ensures made { (b a : Seats _ _) → (slice_index_or row.new.seats.items to a).coroutines.known.mine ≡ Push co 0 ∷ Schedule co Begin true 0 ∷ (slice_index_or row.old.seats.items to b).coroutines.known.mine }
    ensures own { (loops : ℕ) → AllHaveOwn loops row.old.seats.items → AllHaveOwn loops row.new.seats.items }
{
    match row.post(rt, shared, to, co, Cause::Begin, Some(stream)) {
        Ok(()) => {}
        Err(_) => unreachable!(),
    }
}

fn take_first<T>(queue: &mut VecDeque<T>) -> T
    requires { 0 < length queue.old.items }
    ensures { queue.old.items ≡ result ∷ queue.new.items }
{
    let Some(first) = queue.pop_front() else {
        unreachable!()
    };
    first
}

/// Posts each stream's coroutine to the loop on which it begins, in the order of the stream lines.
pub(crate) fn post_each<D: Device, R: Wait>(
    rt: &R,
    shared: &[LoopShared<StreamCo<D>>],
    row: &mut Row<StreamCo<D>>,
    lock: &CoMutex<ImageRule<D>>,
    script: &Script,
    streams: Vec<StreamCo<D>>,
)
    requires few { length script.now.streams ≤ 64 }
    requires homes { (k : ℕ) → k < length script.now.streams → slice_index (homes_of script.now.streams) k < length shared.now }
    requires tables { HaveCoroutines (coroutines_of script.now) shared.now }
    requires of { AreOfOrigin (source lock.now script.now) shared.now }
    requires started { HaveStarted D.bytes script.now lock.now streams.items }
    requires row { IsRow shared.now row.old × HasNumbers 0 64 row.old }
    requires none { HaveBegun 0 (homes_of script.now.streams) (length shared.now) row.old.seats.items }
    ensures row { IsRow shared.now row.new × HasNumbers 0 64 row.new }
    ensures begun { HaveBegun (length script.now.streams) (homes_of script.now.streams) (length shared.now) row.new.seats.items }
    ensures own { AllHaveOwn (length shared.now) row.old.seats.items → AllHaveOwn (length shared.now) row.new.seats.items }
{
    let _ = lock;
    let mut streams = VecDeque::from_vec(streams);
    let lines = script.streams.as_slice();
    for number in 0..lines.len() {
        let home = lines[number].home;
        let stream = take_first(&mut streams);
        post_one(rt, shared, row, home as usize, number as u32, stream);
    }
}

/// Sets the event by which the run of each loop ends.
pub(crate) fn end_each<D: Device>(shared: &[LoopShared<StreamCo<D>>], row: &mut Row<StreamCo<D>>)
    requires row { IsRow shared.now row.old × HasNumbers 0 64 row.old }
    ensures row { IsRow shared.now row.new × HasNumbers 0 64 row.new }
    ensures coroutines { CoroutinesStay row.old.seats.items row.new.seats.items }
    ensures set { HaveSet (length shared.now) row.new.seats.items }
{
    for to in 0..shared.len() {
        row.set_event(shared, to);
    }
}
