//! What the reader says of loop scripts.
use crate::refused::{Kind, Many, Row, assert_many_refused, assert_refused};
use aio_script::ScriptRefusal::{BadLine, BadNumber, NoHeader, OutOfLimit};
use aio_script::{Act, ActKind, Command, read_loop_script};
use std::test::Fail;

/// Whole texts.
const HEADERS: [Row; 38] = [
    ("", Some(NoHeader)),
    ("\n\n#\n", Some(NoHeader)),
    ("#loop 1 0 0\n", Some(NoHeader)),
    ("schedule 0\nloop 1 0 0\n", Some(NoHeader)),
    ("Loop 1 0 0\n", Some(NoHeader)),
    ("loops 1 0 0\n", Some(NoHeader)),
    ("image 16\nloops 1\n", Some(NoHeader)),
    ("poll", Some(NoHeader)),
    ("loop\n", Some(BadLine(1))),
    ("loop 1\n", Some(BadLine(1))),
    ("loop 1 0\n", Some(BadLine(1))),
    ("loop 1 0 0 0\n", Some(BadLine(1))),
    ("loop x\n", Some(BadLine(1))),
    ("loop  1 0 0\n", Some(BadLine(1))),
    (" loop 1 0 0\n", Some(BadLine(1))),
    ("loop 1 0 0 \n", Some(BadLine(1))),
    ("loop 1 0 0\r\n", Some(BadLine(1))),
    ("loop\t1 0 0\n", Some(BadLine(1))),
    (" \n", Some(BadLine(1))),
    ("loop x 0 0\n", Some(BadNumber(1))),
    ("loop 1 x 0\n", Some(BadNumber(1))),
    ("loop 1 0 x\n", Some(BadNumber(1))),
    ("loop 0 65 x\n", Some(BadNumber(1))),
    ("loop -1 0 0\n", Some(BadNumber(1))),
    ("loop +1 0 0\n", Some(BadNumber(1))),
    ("loop 1 0 -\n", Some(BadNumber(1))),
    ("loop 000000000000000000001 0 0\n", Some(BadNumber(1))),
    ("loop 18446744073709551616 0 0\n", Some(BadNumber(1))),
    ("loop 18446744073709551615 0 0\n", Some(OutOfLimit(1))),
    ("loop 0 0 0\n", Some(OutOfLimit(1))),
    ("loop 65 0 0\n", Some(OutOfLimit(1))),
    ("loop 1 65 0\n", Some(OutOfLimit(1))),
    ("loop 1 0 65\n", Some(OutOfLimit(1))),
    ("\n#\nloop 0 0 0\npolls\n", Some(OutOfLimit(3))),
    ("loop 1 0 0", None),
    ("loop 64 64 64\n", None),
    ("loop 00000000000000000001 00 0\n", None),
    ("# a\n\nloop 1 0 0\n#\n\n", None),
];

/// Lines behind a header of three lines.
const LINES: [Row; 71] = [
    ("schedule 1", None),
    ("schedule 2", Some(OutOfLimit(4))),
    ("idle 2", Some(OutOfLimit(4))),
    ("delete 2", Some(OutOfLimit(4))),
    ("cancel 2", Some(OutOfLimit(4))),
    ("schedule", Some(BadLine(4))),
    ("schedule 0 0", Some(BadLine(4))),
    ("schedule  0", Some(BadLine(4))),
    ("schedule x", Some(BadNumber(4))),
    ("idle -", Some(BadNumber(4))),
    ("schedule 00000000000000000001", None),
    ("schedule 000000000000000000001", Some(BadNumber(4))),
    ("schedule 18446744073709551615", Some(OutOfLimit(4))),
    ("schedule 18446744073709551616", Some(BadNumber(4))),
    ("Schedule 0", Some(BadLine(4))),
    ("scheduled 0", Some(BadLine(4))),
    ("0 schedule", Some(BadLine(4))),
    ("once 999", None),
    ("once 1000", Some(OutOfLimit(4))),
    ("once o7", Some(BadNumber(4))),
    ("once", Some(BadLine(4))),
    ("once 1 1", Some(BadLine(4))),
    ("poll", None),
    ("poll 1", Some(BadLine(4))),
    ("poll ", Some(BadLine(4))),
    (" poll", Some(BadLine(4))),
    ("poll\x7f", Some(BadLine(4))),
    ("poll\u{80}", Some(BadLine(4))),
    ("po\0ll", Some(BadLine(4))),
    ("polls", Some(BadLine(4))),
    ("commit", None),
    ("commit 0", Some(BadLine(4))),
    ("set 2", None),
    ("set 3", Some(OutOfLimit(4))),
    ("set", Some(BadLine(4))),
    ("clear 2", None),
    ("clear 3", Some(OutOfLimit(4))),
    ("clear x", Some(BadNumber(4))),
    ("loop 2 1 3", Some(BadLine(4))),
    ("loop", Some(BadLine(4))),
    ("loop x 99 y", Some(BadLine(4))),
    ("stream 0 0", Some(BadLine(4))),
    ("image 16", Some(BadLine(4))),
    ("nest", Some(BadLine(4))),
    ("nest 0", Some(BadLine(4))),
    ("on", Some(BadLine(4))),
    ("on 0", Some(BadLine(4))),
    ("on nest", Some(BadLine(4))),
    ("on 0 nest", None),
    ("on 0 nest 0", Some(BadLine(4))),
    ("on 2 nest", Some(OutOfLimit(4))),
    ("on x nest", Some(BadNumber(4))),
    ("on 0 schedule 1", None),
    ("on 0 schedule 2", Some(OutOfLimit(4))),
    ("on 2 schedule 0", Some(OutOfLimit(4))),
    ("on 9 schedule x", Some(BadNumber(4))),
    ("on x schedule 9", Some(BadNumber(4))),
    ("on 0 schedule", Some(BadLine(4))),
    ("on schedule 0", Some(BadLine(4))),
    ("on 0 schedule 1 1", Some(BadLine(4))),
    ("on 0 poll", Some(BadLine(4))),
    ("on 0 once 1", Some(BadLine(4))),
    ("on 0 set 1", Some(BadLine(4))),
    ("on 0 idle 1\non 1 delete 0\non 1 cancel 1\npoll", None),
    ("poll\non 0 nest", Some(BadLine(5))),
    ("poll\non x schedule y", Some(BadLine(5))),
    ("commit\n\non 9 nest", Some(BadLine(6))),
    ("on 0 nest\npoll\non 1 nest", Some(BadLine(6))),
    ("on 0 nest\nloop 1 0 0", Some(BadLine(5))),
    ("poll\nset 3\nfoo", Some(OutOfLimit(5))),
    ("schedule 0\n#\n\nschedul 0\nset 9", Some(BadLine(7))),
];

/// Lines behind a header of one line.
const PAST: [Many; 12] = [
    (8, "on 0 nest\n", "", None),
    (8, "on 0 nest\n", "on 0 nest", Some(OutOfLimit(10))),
    (8, "on 1 schedule 0\n", "on 1 idle 0", Some(OutOfLimit(10))),
    (8, "on 0 nest\n", "on 1 nest", None),
    (8, "on 0 nest\n", "on 0 schedule x", Some(BadNumber(10))),
    (8, "on 0 nest\n", "on 0 poll", Some(BadLine(10))),
    (4_096, "poll\n", "", None),
    (4_095, "poll\n", "set 2", None),
    (4_096, "poll\n", "poll", Some(OutOfLimit(4_098))),
    (4_096, "schedule 1\n", "commit", Some(OutOfLimit(4_098))),
    (4_096, "poll\n", "once x", Some(BadNumber(4_098))),
    (4_096, "poll\n", "on 0 nest", Some(BadLine(4_098))),
];

#[test]
fn refuses_loop_texts_by_their_header(rt: HostRuntime) -> Result<(), Fail> {
    assert_refused(&rt, rt.alloc(), Kind::LoopScript, "", &HEADERS)
}

#[test]
fn refuses_lines_of_loop_scripts(rt: HostRuntime) -> Result<(), Fail> {
    assert_refused(
        &rt,
        rt.alloc(),
        Kind::LoopScript,
        "# two handles\nloop 2 1 3\n\n",
        &LINES,
    )
}

#[test]
fn refuses_the_ninth_action_and_the_command_past_the_last(rt: HostRuntime) -> Result<(), Fail> {
    assert_many_refused(&rt, rt.alloc(), Kind::LoopScript, "loop 2 1 3\n", &PAST)
}

#[test]
fn reads_actions_and_commands_in_order(rt: HostRuntime) -> Result<(), Fail> {
    let text =
        "loop 3 2 4\non 1 schedule 2\non 1 idle 0\non 2 delete 1\non 0 cancel 2\non 1 nest\nschedule 0\nidle 1\ndelete 2\ncancel 0\nonce 999\npoll\ncommit\nset 3\nclear 0\n";
    let script = read_loop_script(rt.alloc(), text.as_bytes())?;
    assert_eq!(rt; script.handles, 3);
    assert_eq!(rt; script.lots, 2);
    assert_eq!(rt; script.events, 4);
    let acts = [
        (1, ActKind::Schedule(2)),
        (1, ActKind::Idle(0)),
        (2, ActKind::Delete(1)),
        (0, ActKind::Cancel(2)),
        (1, ActKind::Nest),
    ]
    .map(|(bh, what)| Act { bh, what });
    assert_eq!(rt; script.acts.as_slice(), acts.as_slice());
    let commands = [
        Command::Schedule(0),
        Command::Idle(1),
        Command::Delete(2),
        Command::Cancel(0),
        Command::Once(999),
        Command::Poll,
        Command::Commit,
        Command::Set(3),
        Command::Clear(0),
    ];
    assert_eq!(rt; script.commands.as_slice(), commands.as_slice());
    Ok(())
}
