//! What standard error gets of an answer.
use aio_cli::{Answer, print_fault};
use aio_script::{ScriptRefusal, WriteFault};
use aio_words::MemSink;
use std::test::Fail;

/// Each answer beside its text.
const TEXTS: [(Answer, &str); 15] = [
    (Answer::Done, ""),
    (Answer::Errors(3), ""),
    (
        Answer::Usage,
        "usage: aioloops [--mode=run or bh] [--gen=N] [--from=M] [--image=PATH]\n",
    ),
    (
        Answer::BadScript(ScriptRefusal::BadLine(1)),
        "script: line 1: bad line\n",
    ),
    (
        Answer::BadScript(ScriptRefusal::BadNumber(20)),
        "script: line 20: bad number\n",
    ),
    (
        Answer::BadScript(ScriptRefusal::OutOfLimit(4294967295)),
        "script: line 4294967295: out of limit\n",
    ),
    (
        Answer::BadScript(ScriptRefusal::UnknownStream(300)),
        "script: line 300: unknown stream\n",
    ),
    (
        Answer::BadScript(ScriptRefusal::NoHeader),
        "script: no header\n",
    ),
    (Answer::TooLong, "script: longer than 1048576 bytes\n"),
    (
        Answer::TooLarge(17, 16),
        "image: 17 bytes asked, device has 16\n",
    ),
    (
        Answer::TooLarge(18446744073709551615, 0),
        "image: 18446744073709551615 bytes asked, device has 0\n",
    ),
    (Answer::ReadFault, "script: read fault\n"),
    (Answer::WriteFault, "output: write fault\n"),
    (Answer::NoMemory, "out of memory\n"),
    (Answer::DeviceFault, "image: device fault\n"),
];

#[test]
fn each_answer_has_its_text(rt: HostRuntime) -> Result<(), Fail> {
    for (answer, text) in TEXTS {
        let mut sink = MemSink::build(rt.alloc(), 100, &[])?;
        assert_eq!(rt; print_fault(&mut sink, &answer), Ok(()));
        assert_eq!(rt; sink.bytes(), text.as_bytes(), "at {answer:?}");
    }
    Ok(())
}

#[test]
fn a_sink_that_fails_gets_a_front(rt: HostRuntime) -> Result<(), Fail> {
    let fronts = ["", "image: 17 bytes asked, device has "];
    for (call, front) in (0u32..2).zip(fronts) {
        let mut sink = MemSink::build(rt.alloc(), 100, &[call])?;
        let printed = print_fault(&mut sink, &Answer::TooLarge(17, 16));
        assert_eq!(rt; printed, Err(WriteFault));
        assert_eq!(rt; sink.bytes(), front.as_bytes(), "at {call}");
    }
    Ok(())
}

/// Each answer beside the exit status of a program that ends so.
const STATUSES: [(Answer, u8); 10] = [
    (Answer::Done, 0),
    (Answer::Errors(3), 1),
    (Answer::Usage, 2),
    (Answer::BadScript(ScriptRefusal::NoHeader), 3),
    (Answer::TooLong, 4),
    (Answer::TooLarge(17, 16), 5),
    (Answer::ReadFault, 6),
    (Answer::WriteFault, 7),
    (Answer::NoMemory, 8),
    (Answer::DeviceFault, 9),
];

#[test]
fn each_answer_has_its_status(rt: HostRuntime) -> Result<(), Fail> {
    for (answer, status) in STATUSES {
        assert_eq!(rt; answer.status(), status, "at {answer:?}");
    }
    Ok(())
}
