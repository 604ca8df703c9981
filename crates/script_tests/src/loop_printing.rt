//! Lines of replies of the loop.
ghost use Rattle.std.specs.Prelude.{◌≡◌, length};
ghost use Rattle.aio_model.specs.Scripts.LoopLines.{HasLine};

use aio_model::{Commit, Flags, Why};
use aio_script::{Called, Command, LoopReply, Page, RanList, WriteFault, hand_over, print_reply};
use aio_words::MemSink;
use std::alloc::Global;
use std::process::Abort;
use std::test::Fail;

const ROOM: u32 = 4_000;

/// The line of a reply is as it is expected.
fn assert_line(rt: &impl Abort, alloc: Global, answer: &LoopReply, line: &[u8]) -> Result<(), Fail>
    requires { HasLine answer.now }
{
    let mut sink = MemSink::build(alloc, ROOM, &[])?;
    let mut page = Page::build(alloc)?;
    print_reply(&mut sink, &mut page, answer)?;
    hand_over(&mut sink, &mut page)?;
    assert_eq!(rt; sink.bytes(), line);
    Ok(())
}

const NONE: Flags = Flags {
    pending: false,
    scheduled: false,
    deleted: false,
    oneshot: false,
    idle: false,
};

const ALL: Flags = Flags {
    pending: true,
    scheduled: true,
    deleted: true,
    oneshot: true,
    idle: true,
};

const PENDING_DELETED: Flags = Flags {
    pending: true,
    scheduled: false,
    deleted: true,
    oneshot: false,
    idle: false,
};

const SCHEDULED_IDLE: Flags = Flags {
    pending: false,
    scheduled: true,
    deleted: false,
    oneshot: false,
    idle: true,
};

#[test]
fn prints_calls(rt: HostRuntime) -> Result<(), Fail> {
    let alloc = rt.alloc();
    let answer = LoopReply::Flagged(Command::Schedule(0), NONE);
    assert_line(&rt, alloc, &answer, b"schedule 0 was -----\n")?;
    let answer = LoopReply::Flagged(Command::Idle(63), ALL);
    assert_line(&rt, alloc, &answer, b"idle 63 was PSDOI\n")?;
    let answer = LoopReply::Flagged(Command::Delete(1), PENDING_DELETED);
    assert_line(&rt, alloc, &answer, b"delete 1 was P-D--\n")?;
    let answer = LoopReply::Flagged(Command::Cancel(10), SCHEDULED_IDLE);
    assert_line(&rt, alloc, &answer, b"cancel 10 was -S--I\n")?;
    Ok(())
}

#[test]
fn prints_one_shots_and_events(rt: HostRuntime) -> Result<(), Fail> {
    let alloc = rt.alloc();
    assert_line(&rt, alloc, &LoopReply::Placed(7, true), b"once 7 put\n")?;
    assert_line(
        &rt,
        alloc,
        &LoopReply::Placed(999, false),
        b"once 999 noroom\n",
    )?;
    assert_line(&rt, alloc, &LoopReply::WasSet(3), b"set 3\n")?;
    assert_line(&rt, alloc, &LoopReply::Cleared(3, true), b"clear 3 was 1\n")?;
    assert_line(
        &rt,
        alloc,
        &LoopReply::Cleared(0, false),
        b"clear 0 was 0\n",
    )?;
    Ok(())
}

#[test]
fn prints_commits(rt: HostRuntime) -> Result<(), Fail> {
    let alloc = rt.alloc();
    let answer = LoopReply::Committed(Commit::Awake(Why::Urgent(65)));
    assert_line(&rt, alloc, &answer, b"commit awake urgent 65\n")?;
    let answer = LoopReply::Committed(Commit::Awake(Why::Event(3)));
    assert_line(&rt, alloc, &answer, b"commit awake event 3\n")?;
    let answer = LoopReply::Committed(Commit::Awake(Why::Notified));
    assert_line(&rt, alloc, &answer, b"commit awake notified\n")?;
    let answer = LoopReply::Committed(Commit::Sleep(None));
    assert_line(&rt, alloc, &answer, b"commit sleep forever\n")?;
    let answer = LoopReply::Committed(Commit::Sleep(Some(10_000_000)));
    assert_line(&rt, alloc, &answer, b"commit sleep 10000000\n")?;
    Ok(())
}

/// As many calls of the one-shot 7 as a list has room for.
fn full_list() -> RanList
    ensures { length result ≡ 256 }
{
    let mut list = RanList::build();
    for _i in 0..256u32 {
        list.push(Called::Once(7));
    }
    list
}

fn two_called() -> RanList
    ensures { length result ≡ 2 }
{
    let mut list = RanList::build();
    list.push(Called::Once(999));
    list.push(Called::Handle(12));
    list
}

/// The line of a poll that called a full list, and one more.
fn full_line(alloc: Global) -> Result<Vec<u8>, Fail> {
    let mut text = Vec::from_slice(alloc, b"poll ran")?;
    for _ in 0..256 {
        text.extend_from_slice(b" o7")?;
    }
    text.extend_from_slice(b" more 1 progress yes cut 2\n")?;
    Ok(text)
}

#[test]
fn prints_polls(rt: HostRuntime) -> Result<(), Fail> {
    let alloc = rt.alloc();
    let answer = LoopReply::Ran(RanList::build(), 0, false, 0);
    assert_line(&rt, alloc, &answer, b"poll ran - progress no cut 0\n")?;
    let answer = LoopReply::Ran(two_called(), 0, true, 18_446_744_073_709_551_615);
    let line = b"poll ran o999 12 progress yes cut 18446744073709551615\n";
    assert_line(&rt, alloc, &answer, line)?;
    let answer = LoopReply::Ran(full_list(), 1, true, 2);
    assert_line(&rt, alloc, &answer, full_line(alloc)?.as_slice())?;
    Ok(())
}

#[test]
fn a_sink_that_fails_at_a_list_is_a_fault(rt: HostRuntime) -> Result<(), Fail> {
    let mut sink = MemSink::build(rt.alloc(), 13, &[])?;
    let mut page = Page::build(rt.alloc())?;
    let answer = LoopReply::Ran(two_called(), 0, true, 0);
    print_reply(&mut sink, &mut page, &answer)?;
    assert_eq!(rt; hand_over(&mut sink, &mut page), Err(WriteFault));
    assert!(rt; sink.bytes().is_empty());
    Ok(())
}
