//! Runs of image scripts, and what is no script.
use crate::run::{Ends, Row, SOUND, assert_runs, run};
use aio_cli::Answer::{BadScript, DeviceFault, Done, Errors, TooLarge, TooLong, Usage};
use aio_script::ScriptRefusal::{BadLine, BadNumber, NoHeader, OutOfLimit, UnknownStream};
use std::alloc::Global;
use std::test::Fail;

const SERVED: [Row; 8] = [
    (
        &[],
        "image 16\nloops 1\nstream 0 0\n0 write 2 6869\n0 read 0 6\n0 flush",
        Done,
        "0 0 write ok 2\n1 0 read ok 000068690000\n2 0 flush ok\nend 3 0\n",
    ),
    // Past the end of an image of 16 bytes.
    (
        &[],
        "image 16\nloops 1\nstream 0 0\n0 read 8 8\n0 read 9 8",
        Errors(1),
        "0 0 read ok 0000000000000000\n1 0 read einval\nend 2 1\n",
    ),
    (
        &[],
        "image 16\nloops 1\nstream 0 0\n0 read 16 0\n0 read 17 0",
        Errors(1),
        "0 0 read ok -\n1 0 read einval\nend 2 1\n",
    ),
    (
        &[],
        "image 16\nloops 1\nstream 0 0\n0 write 18446744073709551615 ff\n0 read 18446744073709551615 65536\n0 read 0 1",
        Errors(2),
        "0 0 write einval\n1 0 read einval\n2 0 read ok 00\nend 3 2\n",
    ),
    (&[], "image 16\nloops 1\nstream 0 0\n", Done, "end 0 0\n"),
    (&["--mode=run"], "image 16\nloops 1\n", Done, "end 0 0\n"),
    // Which device the image is on is the caller's affair.
    (&["--image=x"], "image 16\nloops 1\n", Done, "end 0 0\n"),
    (
        &["--image=x", "--mode=run"],
        "image 16\nloops 1\n",
        Done,
        "end 0 0\n",
    ),
];

#[test]
fn scripts_are_served(rt: HostRuntime) -> Result<(), Fail> {
    assert_runs(&rt, rt.alloc(), SOUND, &SERVED)
}

const REFUSED: [Row; 17] = [
    (&[], "", BadScript(NoHeader), ""),
    (
        &[],
        "image 16\nloops 1\n0 flush",
        BadScript(UnknownStream(3)),
        "",
    ),
    (
        &[],
        "image 16\nloops 1\nstream 0 0\n0 wash",
        BadScript(BadLine(4)),
        "",
    ),
    (&[], "image 16\nloops 0", BadScript(OutOfLimit(2)), ""),
    (&[], "image x\nloops 1", BadScript(BadNumber(1)), ""),
    (
        &["--mode=run"],
        "loop 1 0 0\nschedule 0\npoll\n",
        BadScript(NoHeader),
        "",
    ),
    (
        &["--mode=run", "--mode=bh"],
        "loop 1 0 0\nschedule 0\npoll\n",
        Usage,
        "",
    ),
    (
        &["--mode=bh", "--mode=bh"],
        "loop 1 0 0\nschedule 0\npoll\n",
        Usage,
        "",
    ),
    (&["--help"], "image 16\nloops 1\n", Usage, ""),
    (&["--mode"], "image 16\nloops 1\n", Usage, ""),
    (&["--mode=bh "], "loop 1 0 0\nschedule 0\npoll\n", Usage, ""),
    (&[""], "image 16\nloops 1\n", Usage, ""),
    (&["--loops=2"], "image 16\nloops 1\n", Usage, ""),
    (&["--gen=0"], "image 16\nloops 1\n", Usage, ""),
    (
        &["--mode=bh", "--image=x"],
        "loop 1 0 0\nschedule 0\npoll\n",
        Usage,
        "",
    ),
    (&["--gen=4097"], "image 16\nloops 1\n", Usage, ""),
    (&["--from=1"], "image 16\nloops 1\n", Usage, ""),
];

#[test]
fn what_is_no_script_is_refused(rt: HostRuntime) -> Result<(), Fail> {
    assert_runs(&rt, rt.alloc(), SOUND, &REFUSED)
}

/// On a device of sevens.
const ZEROED: [Row; 2] = [
    (&[], "image 16\nloops 3", Done, "end 0 0\n"),
    (
        &[],
        "image 1048576\nloops 4\nstream 5 2\n5 zero 0 65536\n5 write 510 55aa\n5 move 3\n5 delay 1000\n5 flush\n5 read 508 4",
        Done,
        "0 5 zero ok 65536\n1 5 write ok 2\n2 5 flush ok\n3 5 read ok 000055aa\nend 4 0\n",
    ),
];

const SEVENS: Ends = Ends { byte: 7, ..SOUND };

#[test]
fn streams_of_any_number_and_zeroings(rt: HostRuntime) -> Result<(), Fail> {
    assert_runs(&rt, rt.alloc(), SEVENS, &ZEROED)
}

const FLUSH_FAILS: [Row; 1] = [(
    &[],
    "image 1048576\nloops 1\nstream 0 0\n0 flush\n0 read 0 5000\n0 read 0 1\n",
    Errors(2),
    "0 0 flush eio 0\n1 0 read eio 4096\n2 0 read ok 07\nend 3 2\n",
)];

const FIRST_AND_THIRD: Ends = Ends {
    byte: 7,
    calls: &[1, 3],
    ..SOUND
};

#[test]
fn failed_reads_and_flushes(rt: HostRuntime) -> Result<(), Fail> {
    assert_runs(&rt, rt.alloc(), FIRST_AND_THIRD, &FLUSH_FAILS)
}

const LARGER: [Row; 1] = [(&[], "image 17\nloops 1", TooLarge(17, 16), "")];

const UNTOLD: [Row; 1] = [(&[], "image 17\nloops 1", DeviceFault, "")];

const AS_LARGE: [Row; 1] = [(&[], "image 17\nloops 1", Done, "end 0 0\n")];

#[test]
fn an_image_larger_than_the_device_is_refused(rt: HostRuntime) -> Result<(), Fail> {
    let alloc = rt.alloc();
    let sixteen = Ends { len: 16, ..SOUND };
    let untold = Ends {
        len: 16,
        calls: &[0],
        ..SOUND
    };
    let seventeen = Ends { len: 17, ..SOUND };
    assert_runs(&rt, alloc, sixteen, &LARGER)?;
    assert_runs(&rt, alloc, untold, &UNTOLD)?;
    assert_runs(&rt, alloc, seventeen, &AS_LARGE)
}

/// A script, and a comment behind it up to so many bytes.
fn long_text(alloc: Global, script: &[u8], len: usize) -> Result<Vec<u8>, Fail> {
    let mut text = Vec::from_slice(alloc, script)?;
    text.extend_from_slice(b"\n#")?;
    text.resize(len, b'x')?;
    Ok(text)
}

#[test]
fn a_text_may_have_1048576_bytes(rt: HostRuntime) -> Result<(), Fail> {
    let alloc = rt.alloc();
    let first = SERVED[0].1.as_bytes();
    let none: &[u8] = b"";
    let cases = [
        (first, 1_048_576usize, Done),
        (first, 1_048_577, TooLong),
        (none, 1_048_576, BadScript(NoHeader)),
    ];
    for (script, len, answer) in cases {
        let text = long_text(alloc, script, len)?;
        let seen = run(&rt, alloc, SOUND, &[], text.as_slice())?;
        assert_eq!(rt; seen.answer, answer);
        assert_eq!(rt; seen.printed.is_empty(), answer != Done);
    }
    Ok(())
}
