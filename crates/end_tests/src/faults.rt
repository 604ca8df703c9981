//! A device fails at each of its calls in turn.
ghost use Rattle.std.specs.Prelude.{◌≤◌, length};
ghost use Rattle.aio_script.specs.Image.Bounds.{IsBounded};

use crate::stage::{is_lawful, script_of, serve, zeros};
use aio_model::{Placed, Reply, Script};
use aio_words::MemDevice;
use std::alloc::Global;
use std::process::Abort;
use std::sync::Wait;
use std::test::Fail;

/// Three streams. A request of 9,000 bytes has three pieces, and the last one of stream 0 is refused.
const SCRIPT: &[u8] = b"image 9000
loops 1
stream 0 0
stream 1 0
stream 2 0
0 zero 0 9000
1 read 0 9000
2 flush
0 write 4090 0102030405060708
1 read 4000 200
2 zero 8000 1000
1 flush
2 flush
0 read 9000 1
";

/// How many calls a device has of them.
const CALLS: u32 = 12;

fn is_eio(placed: &Placed) -> bool {
    matches!(placed.reply, Reply::Eio(_))
}

/// The call of this number fails: one reply says so, and the replies are a serial history, which leaves what the device has.
fn assert_served<R: Wait + Abort>(
    rt: &R,
    alloc: Global,
    script: &Script,
    opening: &[u8],
    call: u32,
) -> Result<(), Fail>
    requires bounded { IsBounded script.now }
    requires fits { script.now.image ≤ length opening.now }
{
    let device = MemDevice::build(alloc, opening, &[call])?;
    let done = serve(rt, alloc, script, device);
    let served = done.served.as_slice();
    assert!(rt;
        is_lawful(alloc, script, served, done.device.bytes())?,
        "call {call}"
    );
    let eios = served.iter().filter(|placed| is_eio(placed)).count();
    assert_eq!(rt; eios, usize::from(call < CALLS), "call {call}");
    Ok(())
}

#[test]
fn each_call_of_the_device_in_turn(rt: HostRuntime) -> Result<(), Fail> {
    let script = script_of(&rt, rt.alloc(), SCRIPT);
    let opening = zeros(rt.alloc(), script.image)?;
    for call in 0..CALLS + 1 {
        assert_served(&rt, rt.alloc(), &script, opening.as_slice(), call)?;
    }
    Ok(())
}
