//! Loop scripts, and what they print.
ghost use Rattle.std.specs.Prelude.{◌≤◌, length};

use aio_script::read_loop_script;
use aio_words::MemSink;
use bell_script::run_loop_script;
use std::alloc::Global;
use std::process::Abort;
use std::sync::Wait;
use std::test::Fail;

/// What the commands of a text print.
pub(crate) fn printed<R: Wait>(rt: &R, alloc: Global, text: &[u8]) -> Result<Vec<u8>, Fail>
    requires { length text.now ≤ 4294967295 }
{
    let Ok(script) = read_loop_script(alloc, text) else {
        return Err(Fail::from("no loop script"));
    };
    let mut sink = MemSink::build(alloc, 65_536, &[])?;
    let Ok(run) = run_loop_script(rt, alloc, &script, &mut sink) else {
        return Err(Fail::from("no memory"));
    };
    if run.written.is_err() {
        return Err(Fail::from("a reply was not printed"));
    }
    Ok(Vec::from_slice(alloc, sink.bytes())?)
}

type Row = (&'static str, &'static str);

/// The newest is called first; a second schedule finds the first; a cancel leaves the index pending, and a deletion stays; who schedules
/// itself is called in the next poll; a nested poll comes before the rest of its callback; an idle one is no progress; lots are free
/// again after the poll; the fifth nest of a callback is cut, and the first of the eighth poll in one another.
const ROWS: [Row; 15] = [
    (
        "loop 3 0 0\nschedule 0\nschedule 1\nschedule 2\npoll\n",
        "schedule 0 was -----\nschedule 1 was -----\nschedule 2 was -----\npoll ran 2 1 0 progress yes cut 0\n",
    ),
    (
        "loop 1 0 0\nschedule 0\nschedule 0\npoll\npoll\n",
        "schedule 0 was -----\nschedule 0 was PS---\npoll ran 0 progress yes cut 0\npoll ran - progress no cut 0\n",
    ),
    (
        "loop 1 0 0\nschedule 0\ncancel 0\npoll\nschedule 0\ncancel 0\nschedule 0\npoll\n",
        "schedule 0 was -----\ncancel 0 was PS---\npoll ran - progress no cut 0\nschedule 0 was -----\ncancel 0 was PS---\nschedule 0 was P----\npoll ran 0 progress yes cut 0\n",
    ),
    (
        "loop 1 0 0\ndelete 0\nschedule 0\npoll\nschedule 0\npoll\n",
        "delete 0 was -----\nschedule 0 was P-D--\npoll ran - progress no cut 0\nschedule 0 was --D--\npoll ran - progress no cut 0\n",
    ),
    (
        "loop 1 0 0\non 0 schedule 0\nschedule 0\npoll\npoll\n",
        "schedule 0 was -----\npoll ran 0 progress yes cut 0\npoll ran 0 progress yes cut 0\n",
    ),
    (
        "loop 3 0 0\non 1 schedule 2\non 1 nest\nschedule 0\nschedule 1\npoll\n",
        "schedule 0 was -----\nschedule 1 was -----\npoll ran 1 0 2 progress yes cut 0\n",
    ),
    (
        "loop 1 0 0\nidle 0\nschedule 0\npoll\n",
        "idle 0 was -----\nschedule 0 was PS--I\npoll ran 0 progress no cut 0\n",
    ),
    (
        "loop 1 0 4\nset 3\nclear 3\nclear 3\n",
        "set 3\nclear 3 was 1\nclear 3 was 0\n",
    ),
    (
        "loop 1 0 0\nidle 0\nschedule 0\ncommit\ncommit\npoll\n",
        "idle 0 was -----\nschedule 0 was PS--I\ncommit awake notified\ncommit sleep 10000000\npoll ran 0 progress no cut 0\n",
    ),
    (
        "loop 1 0 4\nschedule 0\ncommit\npoll\ncommit\nset 3\ncommit\nclear 3\ncommit\n",
        "schedule 0 was -----\ncommit awake urgent 0\npoll ran 0 progress yes cut 0\ncommit sleep forever\nset 3\ncommit awake event 3\nclear 3 was 1\ncommit sleep forever\n",
    ),
    (
        "loop 1 0 0\nidle 0\ncancel 0\ncommit\ncommit\n",
        "idle 0 was -----\ncancel 0 was PS--I\ncommit awake notified\ncommit sleep forever\n",
    ),
    (
        "loop 1 1 0\nonce 7\nonce 8\npoll\nonce 8\n",
        "once 7 put\nonce 8 noroom\npoll ran o7 progress yes cut 0\nonce 8 put\n",
    ),
    (
        "loop 1 0 0\non 0 nest\non 0 nest\non 0 nest\non 0 nest\non 0 nest\nschedule 0\npoll\n",
        "schedule 0 was -----\npoll ran 0 progress yes cut 1\n",
    ),
    (
        "loop 1 0 0\non 0 delete 0\non 0 schedule 0\nschedule 0\npoll\npoll\nschedule 0\npoll\n",
        "schedule 0 was -----\npoll ran 0 progress yes cut 0\npoll ran - progress no cut 0\nschedule 0 was --D--\npoll ran - progress no cut 0\n",
    ),
    (
        "loop 10 0 0\non 0 schedule 1\non 0 nest\non 1 schedule 2\non 1 nest\non 2 schedule 3\non 2 nest\non 3 schedule 4\non 3 nest\non 4 schedule 5\non 4 nest\non 5 schedule 6\non 5 nest\non 6 schedule 7\non 6 nest\non 7 schedule 8\non 7 nest\non 8 schedule 9\non 8 nest\nschedule 0\npoll\npoll\n",
        "schedule 0 was -----\npoll ran 0 1 2 3 4 5 6 7 progress yes cut 1\npoll ran 8 9 progress yes cut 0\n",
    ),
];

#[test]
fn rows(rt: HostRuntime) -> Result<(), Fail> {
    for (text, wanted) in ROWS.as_slice() {
        if text.len() <= 1_000 {
            let text_printed = printed(&rt, rt.alloc(), text.as_bytes())?;
            assert_eq!(rt; text_printed.as_slice(), wanted.as_bytes(), "{text}");
        }
    }
    Ok(())
}
