//! A long read and a long zeroing, whose coroutines are resumed in every order.
ghost use Rattle.std.specs.Prelude.{◌≡◌, ◌≤◌, IfOk, length};
ghost use Rattle.aio_script.specs.Image.Bounds.{IsBounded};
ghost use Rattle.stream_ends.specs.Stops.{AreGoing};

use crate::by_hand::{begin_on, serve_rest};
use crate::stage::script_of;
use aio_model::{Placed, Reply, Script};
use aio_words::{Device, MemDevice, OpenGate};
use co_state::Cx;
use img_streams::{ServeEnv, StreamCo};
use std::alloc::Global;
use std::process::Abort;
use std::sync::Wait;
use std::test::Fail;
use stream_carrier::resume_at;
use stream_ends::{Begun, Finished};

/// Each request has three pieces. It takes five resumes, besides those that find no hold.
const SCRIPT: &[u8] =
    b"image 8200\nloops 1\nstream 0 0\nstream 1 0\n0 zero 0 8200\n1 read 0 8200\n";

/// How many of the resumes are chosen. The rest come in rounds.
const CHOSEN: u32 = 10;

/// Bit i of the order says whom resume i is of.
fn resume_by<D: Device, R: Wait>(
    env: &ServeEnv<'_, D, OpenGate, R>,
    streams: &mut Vec<StreamCo<D>>,
    order: u32,
)
    requires going { AreGoing D.bytes env.now.script.now env.now.lock.now streams.old.items }
    ensures going { AreGoing D.bytes env.now.script.now env.now.lock.now streams.new.items }
{
    for i in 0..CHOSEN {
        let place = (order >> i & 1) as usize;
        if place < streams.len() {
            let mut cx = Cx::fresh();
            resume_at(env, streams, place, &mut cx);
        }
    }
}

fn serve_by<D: Device, R: Wait + Abort>(
    rt: &R,
    alloc: Global,
    script: &Script,
    device: D,
    order: u32,
) -> Finished<D>
    requires bounded { IsBounded script.now }
    requires fits { script.now.image ≤ D.extent device }
{
    let Begun {
        lock,
        mut streams,
        ends,
    } = begin_on(rt, alloc, script, device);
    let env = ServeEnv {
        rt,
        lock: &lock,
        script,
        gate: &OpenGate,
    };
    resume_by(&env, &mut streams, order);
    serve_rest(rt, lock, streams, script, ends)
}

/// Whether the read found this value at all places.
fn found_all(served: &[Placed], value: u8) -> bool {
    served.iter().any(|placed| match &placed.reply {
        Reply::Got(bytes) => bytes.len() == 8200 && are_all(bytes.as_slice(), value),
        _ => false,
    })
}

fn are_all(bytes: &[u8], value: u8) -> bool {
    let mut all = true;
    for byte in bytes {
        all = all & (*byte == value);
    }
    all
}

/// The read finds what was there at first or what the zeroing left, by whose place is the first. Whether it is the read's.
fn check<R: Wait + Abort>(
    rt: &R,
    alloc: Global,
    script: &Script,
    opening: &[u8],
    order: u32,
) -> Result<bool, Fail>
    requires bounded { IsBounded script.now }
    requires fits { script.now.image ≤ length opening.now }
{
    let device = MemDevice::build(alloc, opening, &[])?;
    let done = serve_by(rt, alloc, script, device, order);
    let served = done.served.as_slice();
    assert_eq!(rt; served.len(), 2);
    let reads_first = served.first().is_some_and(|placed| placed.stream == 1);
    let wanted = if reads_first { 7 } else { 0 };
    assert!(rt; found_all(served, wanted), "order {order}");
    assert!(rt; are_all(done.device.bytes(), 0), "order {order}");
    Ok(reads_first)
}

/// What the image has at first: sevens.
fn opening_for(alloc: Global, script: &Script) -> Result<Vec<u8>, Fail>
    ensures { IfOk result (λ bytes. length bytes.items ≡ script.now.image) }
{
    Ok(vec![in alloc; 7; script.image as usize]?)
}

#[test]
fn a_read_is_never_torn(rt: HostRuntime) -> Result<(), Fail> {
    let alloc = rt.alloc();
    let script = script_of(&rt, alloc, SCRIPT);
    let opening = opening_for(alloc, &script)?;
    let mut first: u32 = 0;
    for order in 0..1 << CHOSEN {
        let reads_first = check(&rt, alloc, &script, opening.as_slice(), order)?;
        first = first.wrapping_add(u32::from(reads_first));
    }
    // Whoever enters first comes first, and in half of the orders that is the read.
    assert_eq!(rt; first, 1 << (CHOSEN - 1));
    Ok(())
}
