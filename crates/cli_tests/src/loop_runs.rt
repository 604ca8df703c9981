//! Runs of loop scripts.
use crate::run::{Ends, Row, SOUND, assert_runs, run};
use aio_cli::Answer::{BadScript, Done, WriteFault};
use aio_script::ScriptRefusal::{BadLine, NoHeader};
use std::alloc::Global;
use std::test::Fail;

const BELLS: &[&str] = &["--mode=bh"];

/// The newest is called first; a second schedule finds the first; a cancel leaves the index pending, and a deletion
/// stays; who schedules itself is called in the next poll; a nested poll comes before the rest of its callback; an idle
/// one notifies once and is no progress; events; lots; the fifth nest is cut. A script without commands prints nothing.
const RUNG: [Row; 11] = [
    (
        BELLS,
        "loop 3 0 0\nschedule 0\nschedule 1\nschedule 2\npoll\n",
        Done,
        "schedule 0 was -----\nschedule 1 was -----\nschedule 2 was -----\npoll ran 2 1 0 progress yes cut 0\n",
    ),
    (
        BELLS,
        "loop 1 0 0\nschedule 0\nschedule 0\npoll\npoll\n",
        Done,
        "schedule 0 was -----\nschedule 0 was PS---\npoll ran 0 progress yes cut 0\npoll ran - progress no cut 0\n",
    ),
    (
        BELLS,
        "loop 1 0 0\nschedule 0\ncancel 0\npoll\nschedule 0\ncancel 0\nschedule 0\npoll\n",
        Done,
        "schedule 0 was -----\ncancel 0 was PS---\npoll ran - progress no cut 0\nschedule 0 was -----\ncancel 0 was PS---\nschedule 0 was P----\npoll ran 0 progress yes cut 0\n",
    ),
    (
        BELLS,
        "loop 1 0 0\ndelete 0\nschedule 0\npoll\nschedule 0\npoll\n",
        Done,
        "delete 0 was -----\nschedule 0 was P-D--\npoll ran - progress no cut 0\nschedule 0 was --D--\npoll ran - progress no cut 0\n",
    ),
    (
        BELLS,
        "loop 1 0 0\non 0 schedule 0\nschedule 0\npoll\npoll\n",
        Done,
        "schedule 0 was -----\npoll ran 0 progress yes cut 0\npoll ran 0 progress yes cut 0\n",
    ),
    (
        BELLS,
        "loop 3 0 0\non 1 schedule 2\non 1 nest\nschedule 0\nschedule 1\npoll\n",
        Done,
        "schedule 0 was -----\nschedule 1 was -----\npoll ran 1 0 2 progress yes cut 0\n",
    ),
    (
        BELLS,
        "loop 1 0 0\nidle 0\nschedule 0\ncommit\ncommit\npoll\n",
        Done,
        "idle 0 was -----\nschedule 0 was PS--I\ncommit awake notified\ncommit sleep 10000000\npoll ran 0 progress no cut 0\n",
    ),
    (
        BELLS,
        "loop 1 0 4\nschedule 0\ncommit\npoll\ncommit\nset 3\ncommit\nclear 3\ncommit\n",
        Done,
        "schedule 0 was -----\ncommit awake urgent 0\npoll ran 0 progress yes cut 0\ncommit sleep forever\nset 3\ncommit awake event 3\nclear 3 was 1\ncommit sleep forever\n",
    ),
    (
        BELLS,
        "loop 1 1 0\nonce 7\nonce 8\npoll\nonce 8\n",
        Done,
        "once 7 put\nonce 8 noroom\npoll ran o7 progress yes cut 0\nonce 8 put\n",
    ),
    (
        BELLS,
        "loop 1 0 0\non 0 nest\non 0 nest\non 0 nest\non 0 nest\non 0 nest\nschedule 0\npoll\n",
        Done,
        "schedule 0 was -----\npoll ran 0 progress yes cut 1\n",
    ),
    (BELLS, "loop 1 0 0\n", Done, ""),
];

#[test]
fn commands_print_what_they_find(rt: HostRuntime) -> Result<(), Fail> {
    assert_runs(&rt, rt.alloc(), SOUND, &RUNG)
}

/// Callbacks that delete, schedule, cancel and nest as much as they may.
const HOSTILE: [Row; 4] = [
    (
        BELLS,
        "loop 1 0 0\non 0 delete 0\non 0 schedule 0\nschedule 0\npoll\npoll\nschedule 0\npoll\n",
        Done,
        "schedule 0 was -----\npoll ran 0 progress yes cut 0\npoll ran - progress no cut 0\nschedule 0 was --D--\npoll ran - progress no cut 0\n",
    ),
    (
        BELLS,
        "loop 10 0 0\non 0 schedule 1\non 0 nest\non 1 schedule 2\non 1 nest\non 2 schedule 3\non 2 nest\non 3 schedule 4\non 3 nest\non 4 schedule 5\non 4 nest\non 5 schedule 6\non 5 nest\non 6 schedule 7\non 6 nest\non 7 schedule 8\non 7 nest\non 8 schedule 9\non 8 nest\nschedule 0\npoll\npoll\n",
        Done,
        "schedule 0 was -----\npoll ran 0 1 2 3 4 5 6 7 progress yes cut 1\npoll ran 8 9 progress yes cut 0\n",
    ),
    (
        BELLS,
        "loop 2 0 0\non 1 cancel 0\nschedule 0\nschedule 1\npoll\n",
        Done,
        "schedule 0 was -----\nschedule 1 was -----\npoll ran 1 progress yes cut 0\n",
    ),
    (
        BELLS,
        "loop 1 0 0\nidle 0\ncancel 0\ncommit\ncommit\n",
        Done,
        "idle 0 was -----\ncancel 0 was PS--I\ncommit awake notified\ncommit sleep forever\n",
    ),
];

#[test]
fn hostile_callbacks_do_no_more_than_they_may(rt: HostRuntime) -> Result<(), Fail> {
    assert_runs(&rt, rt.alloc(), SOUND, &HOSTILE)
}

const REFUSED: [Row; 2] = [
    (BELLS, "image 16\nloops 1\n", BadScript(NoHeader), ""),
    (
        BELLS,
        "loop 1 0 0\npoll\non 0 nest\n",
        BadScript(BadLine(3)),
        "",
    ),
];

#[test]
fn what_is_no_loop_script_is_refused(rt: HostRuntime) -> Result<(), Fail> {
    assert_runs(&rt, rt.alloc(), SOUND, &REFUSED)
}

/// The lines of a run go to the sink together.
const CUT: [Row; 1] = [(BELLS, "loop 1 0 0\nschedule 0\npoll\n", WriteFault, "")];

#[test]
fn a_sink_that_is_full_cuts_the_replies(rt: HostRuntime) -> Result<(), Fail> {
    let narrow = Ends { room: 21, ..SOUND };
    assert_runs(&rt, rt.alloc(), narrow, &CUT)
}

/// A script of 4,096 commands in which each of 64 handles schedules the eight that follow it.
fn crowd(alloc: Global) -> Result<Vec<u8>, Fail> {
    let mut text = Vec::from_slice(alloc, b"loop 64 0 0\n")?;
    for i in 0..64u32 {
        for k in 1..9u32 {
            let j = (i + k) % 64;
            let line = format!(in alloc; "on {i} schedule {j}\n")?;
            text.extend_from_slice(line.as_bytes())?;
        }
    }
    text.extend_from_slice(b"schedule 0\n")?;
    for _ in 0..4095 {
        text.extend_from_slice(b"poll\n")?;
    }
    Ok(text)
}

#[test]
fn a_crowd_of_handles_comes_to_an_end(rt: HostRuntime) -> Result<(), Fail> {
    let alloc = rt.alloc();
    let text = crowd(alloc)?;
    let seen = run(&rt, alloc, SOUND, BELLS, text.as_slice())?;
    assert_eq!(rt; seen.answer, Done);
    let lines = seen.printed.iter().filter(|byte| **byte == b'\n').count();
    assert_eq!(rt; lines, 4096);
    let second =
        b"schedule 0 was -----\npoll ran 0 progress yes cut 0\npoll ran 8 7 6 5 4 3 2 1 progress yes cut 0\n";
    assert!(rt; seen.printed.starts_with(second));
    Ok(())
}
