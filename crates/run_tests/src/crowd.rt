//! Many streams that move at every request.
ghost use Rattle.std.specs.Prelude.{◌≡◌, length, IfOk};

use crate::stage::{run, sixteen};
use aio_cli::Answer;
use aio_script::read_script;
use aio_words::{MemDevice, OpenGate, StepClock};
use served_check::check_served;
use std::alloc::Global;
use std::test::Fail;

const STREAMS: u32 = 64;

const LOOPS: u32 = 16;

const RUNS: u32 = 100;

const IMAGE: u32 = 4_096;

/// How many bytes a script may have.
const LONGEST: usize = 1_048_576;

fn zeros(alloc: Global, len: u64) -> Result<Vec<u8>, Fail>
    ensures { IfOk result (λ bytes. length bytes.items ≡ len) }
{
    Ok(vec![in alloc; 0; len as usize]?)
}

/// 64 streams on 16 loops, each of which writes, moves on by one loop, reads, and moves on by three.
fn crowd(alloc: Global) -> Result<String, Fail> {
    let mut text = String::new(alloc);
    text.push_str("image 4096\nloops 16\n")?;
    for stream in 0..STREAMS {
        let home = stream % LOOPS;
        text.push_str(format!(in alloc; "stream {stream} {home}\n")?.as_str())?;
    }
    for stream in 0..STREAMS {
        let at = 16 * (stream % 7);
        let next = (stream + 1) % LOOPS;
        let far = (stream + 4) % LOOPS;
        let lines = format!(in alloc;
            "{stream} write {at} 0{next:x}\n{stream} move {next}\n{stream} read {at} 1\n{stream} move {far}\n{stream} flush\n"
        )?;
        text.push_str(lines.as_str())?;
    }
    Ok(text)
}

#[test]
fn streams_that_move_at_every_request(rt: HostRuntime) -> Result<(), Fail> {
    let alloc = rt.alloc();
    let text = crowd(alloc)?;
    assert!(rt; text.len() <= LONGEST);
    let Ok(script) = read_script(alloc, text.as_bytes()) else {
        return Err(Fail::from("no script"));
    };
    let opening = zeros(alloc, script.image)?;
    for _ in 0..RUNS {
        let device = MemDevice::zeros(alloc, IMAGE)?;
        let clocks = sixteen(alloc, StepClock { now: 0 })?;
        let seen = run(&rt, alloc, text.as_bytes(), device, clocks, &OpenGate)?;
        assert_eq!(rt; seen.answer, Answer::Done);
        assert_eq!(rt; seen.loops, 16);
        let is_lawful = check_served(alloc, &script, opening.as_slice(), seen.served.as_slice())?;
        assert!(rt; is_lawful);
    }
    Ok(())
}
