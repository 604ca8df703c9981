//! Runs of the generated script. The sums were worked out from its definition, apart from the program.
use crate::run::{Ends, Row, SOUND, assert_runs, run};
use aio_cli::Answer::{DeviceFault, Done, Errors, TooLarge, WriteFault};
use std::test::Fail;

/// The text would be refused, if it were read.
const SUMS: [Row; 6] = [
    (
        &["--gen=8", "--from=1"],
        "no script",
        Errors(1),
        "gen 8 1\nbegun 8 moved 0\nbytes 192 192 0\nend 8 1\n",
    ),
    // The first number is 1 where no word says it.
    (
        &["--gen=8"],
        "",
        Errors(1),
        "gen 8 1\nbegun 8 moved 0\nbytes 192 192 0\nend 8 1\n",
    ),
    (
        &["--gen=1", "--mode=run", "--from=0"],
        "",
        Done,
        "gen 1 0\nbegun 8 moved 0\nbytes 64 0 0\nend 1 0\n",
    ),
    // The first move stands behind the sixteenth request.
    (
        &["--gen=15"],
        "",
        Errors(1),
        "gen 15 1\nbegun 8 moved 0\nbytes 384 384 8192\nend 15 1\n",
    ),
    (
        &["--from=1", "--gen=16"],
        "",
        Errors(1),
        "gen 16 1\nbegun 8 moved 1\nbytes 384 384 8192\nend 16 1\n",
    ),
    (
        &["--gen=0040", "--from=65535", "--image=x"],
        "",
        Done,
        "gen 40 65535\nbegun 8 moved 2\nbytes 960 960 40960\nend 40 0\n",
    ),
];

#[test]
fn sums_are_printed(rt: HostRuntime) -> Result<(), Fail> {
    assert_runs(&rt, rt.alloc(), SOUND, &SUMS)
}

#[test]
fn two_runs_of_the_largest_print_the_same(rt: HostRuntime) -> Result<(), Fail> {
    let text = "gen 4096 7\nbegun 8 moved 256\nbytes 98304 98304 4169728\nend 4096 3\n";
    for _ in 0..2 {
        let seen = run(&rt, rt.alloc(), SOUND, &["--gen=4096", "--from=7"], b"")?;
        assert_eq!(rt; seen.answer, Errors(3));
        assert_eq!(rt; seen.printed.as_slice(), text.as_bytes());
        assert_eq!(rt; seen.served.len(), 4096);
        assert_eq!(rt; seen.loops, 4);
    }
    Ok(())
}

const SMALL: [Row; 1] = [(&["--gen=8"], "", TooLarge(1_048_576, 1_048_575), "")];

const UNTOLD: [Row; 1] = [(&["--gen=8"], "", DeviceFault, "")];

#[test]
fn the_generated_image_is_a_mebibyte(rt: HostRuntime) -> Result<(), Fail> {
    let small = Ends {
        len: 1_048_575,
        ..SOUND
    };
    let untold = Ends {
        calls: &[0],
        ..SOUND
    };
    assert_runs(&rt, rt.alloc(), small, &SMALL)?;
    assert_runs(&rt, rt.alloc(), untold, &UNTOLD)
}

/// The source would fail, if it were read.
#[test]
fn sums_that_find_no_room(rt: HostRuntime) -> Result<(), Fail> {
    let ends = Ends {
        room: 20,
        reads: &[0],
        ..SOUND
    };
    let seen = run(&rt, rt.alloc(), ends, &["--gen=8"], b"")?;
    assert_eq!(rt; seen.answer, WriteFault);
    assert_eq!(rt; seen.status, 7);
    let text: &[u8] = b"gen 8 1\nbegun 8 moved 0\nbytes 192 192 0\nend 8 1\n";
    assert!(rt; text.starts_with(seen.printed.as_slice()));
    assert_eq!(rt; seen.served.len(), 8);
    Ok(())
}
