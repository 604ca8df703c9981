//! Whom each resume wakes, where one stream waits for the other's hold.
ghost use Rattle.std.specs.Prelude.{◌≤◌};
ghost use Rattle.aio_script.specs.Image.Bounds.{IsBounded};
ghost use Rattle.stream_ends.specs.Stops.{AreGoing};

use crate::by_hand::{begin_on, serve_rest};
use crate::stage::{script_of, zeros};
use aio_model::Script;
use aio_words::{Device, MemDevice, OpenGate};
use co_state::{CoStep, Cx};
use img_streams::{ServeEnv, StreamCo};
use std::alloc::Global;
use std::process::Abort;
use std::sync::Wait;
use std::test::Fail;
use stream_carrier::resume_at;
use stream_ends::{Begun, Finished};

const SCRIPT: &[u8] = b"image 8192\nloops 1\nstream 0 0\nstream 1 0\n0 zero 0 5000\n1 read 0 1\n";

/// A resume of a stream, what it answers, whom it wakes, in order, and whether it asks its home to quit.
type Row = (u32, CoStep, &'static [u32], bool);

/// Stream 1 waits for its hold, and doesn't wake itself meanwhile. Its second resume finds no hold; no wake asked for it. Stream 0
/// names it as it leaves, and the resume that takes up its hold serves the one piece of its request. So it takes three resumes:
/// to enter, to take up its hold with the piece, and to leave.
const ROWS: [Row; 11] = [
    (0, CoStep::Yield, &[0], false),
    (1, CoStep::Yield, &[], false),
    (1, CoStep::Yield, &[], false),
    (0, CoStep::Yield, &[0], false),
    (0, CoStep::Yield, &[0], false),
    (0, CoStep::Yield, &[1, 0], false),
    (1, CoStep::Yield, &[1], false),
    (0, CoStep::Done, &[], false),
    (1, CoStep::Yield, &[1], false),
    (0, CoStep::Done, &[], false),
    (1, CoStep::Done, &[], true),
];

/// The coroutine wakes just these.
fn assert_wakes<R: Abort>(rt: &R, cx: &mut Cx, row: Row) {
    assert_eq!(rt; cx.quits(), row.3, "stream {}", row.0);
    for wanted in row.2 {
        match cx.taken() {
            Some(co) => assert_eq!(rt; co.co, *wanted, "of stream {}", row.0),
            None => panic!(rt; "stream {} wakes stream {wanted}", row.0),
        }
    }
    assert!(rt; cx.taken().is_none(), "of stream {}", row.0);
}

fn play<D: Device, R: Wait + Abort>(
    env: &ServeEnv<'_, D, OpenGate, R>,
    streams: &mut Vec<StreamCo<D>>,
    rows: &[Row],
)
    requires going { AreGoing D.bytes env.now.script.now env.now.lock.now streams.old.items }
    ensures going { AreGoing D.bytes env.now.script.now env.now.lock.now streams.new.items }
{
    for row in rows {
        let place = row.0 as usize;
        if place < streams.len() {
            let mut cx = Cx::fresh();
            let step = resume_at(env, streams, place, &mut cx);
            assert_eq!(env.rt; step, row.1, "stream {place}");
            assert_wakes(env.rt, &mut cx, *row);
        }
    }
}

fn serve_by_rows<D: Device, R: Wait + Abort>(
    rt: &R,
    alloc: Global,
    script: &Script,
    device: D,
) -> Finished<D>
    requires bounded { IsBounded script.now }
    requires fits { script.now.image ≤ D.extent device }
{
    let Begun {
        lock,
        mut streams,
        ends,
    } = begin_on(rt, alloc, script, device);
    let env = ServeEnv {
        rt,
        lock: &lock,
        script,
        gate: &OpenGate,
    };
    play(&env, &mut streams, &ROWS);
    serve_rest(rt, lock, streams, script, ends)
}

#[test]
fn whom_lock_and_image_named_and_itself(rt: HostRuntime) -> Result<(), Fail> {
    let alloc = rt.alloc();
    let script = script_of(&rt, alloc, SCRIPT);
    let opening = zeros(alloc, script.image)?;
    let device = MemDevice::build(alloc, opening.as_slice(), &[])?;
    let done = serve_by_rows(&rt, alloc, &script, device);
    assert_eq!(rt; done.served.len(), 2);
    Ok(())
}
