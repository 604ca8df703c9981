//! Requests of one piece and of more, and pieces that fail.
use crate::run::{Ends, SOUND, run};
use aio_cli::Answer::{Done, Errors};
use std::alloc::Global;
use std::test::Fail;

/// So many bytes ff, as data of a script.
fn data(alloc: Global, n: u32) -> Result<String, Fail> {
    let mut text = String::new(alloc);
    if n == 0 {
        text.push_str("-")?;
    }
    for _ in 0..n {
        text.push_str("ff")?;
    }
    Ok(text)
}

#[test]
fn requests_of_one_piece_and_of_two(rt: HostRuntime) -> Result<(), Fail> {
    let alloc = rt.alloc();
    for n in [0u32, 1, 4095, 4096, 4097] {
        let bytes = data(alloc, n)?;
        let text = format!(in alloc;
            "image 1048576\nloops 1\nstream 0 0\n0 write 5 {bytes}\n0 read 5 {n}\n"
        )?;
        let replies = format!(in alloc; "0 0 write ok {n}\n1 0 read ok {bytes}\nend 2 0\n")?;
        let seen = run(&rt, alloc, SOUND, &[], text.as_bytes())?;
        assert_eq!(rt; seen.answer, Done);
        assert_eq!(rt; seen.printed.as_slice(), replies.as_bytes(), "at {n}");
        let written = seen.device.iter().filter(|b| **b == 255).count();
        assert_eq!(rt; written, n as usize);
    }
    Ok(())
}

/// The one call of the device that fails, the bytes that were written before it, and those that stayed zero.
const CASES: [(&[u32], usize, usize); 3] = [
    (&[1], 0, 1_048_576),
    (&[2], 4_096, 1_044_480),
    (&[3], 8_192, 1_040_384),
];

#[test]
fn a_failed_piece_keeps_those_before_it(rt: HostRuntime) -> Result<(), Fail> {
    let alloc = rt.alloc();
    let bytes = data(alloc, 9000)?;
    let text = format!(in alloc; "image 1048576\nloops 1\nstream 0 0\n0 write 0 {bytes}\n")?;
    for (calls, good, rest) in CASES {
        let ends = Ends { calls, ..SOUND };
        let seen = run(&rt, alloc, ends, &[], text.as_bytes())?;
        let replies = format!(in alloc; "0 0 write eio {good}\nend 1 1\n")?;
        assert_eq!(rt; seen.answer, Errors(1));
        assert_eq!(rt; seen.printed.as_slice(), replies.as_bytes());
        let put = seen.device.iter().take_while(|b| **b == 255).count();
        let zeros = seen.device.iter().filter(|b| **b == 0).count();
        assert_eq!(rt; put, good);
        assert_eq!(rt; zeros, rest);
    }
    Ok(())
}
