//! Worked calls on the loop of one thread.
use aio_model::{Commit, Flags, OneLoop, Why};
use std::test::Fail;

const NONE: u64 = 0;

const ASKED: u64 = Flags::PENDING + Flags::SCHEDULED;

#[test]
fn the_newest_is_next(rt: HostRuntime) -> Result<(), Fail> {
    let mut run = OneLoop::build(rt.alloc(), 3, 0, 0)?;
    assert_eq!(rt; run.schedule(0).word(), NONE);
    assert_eq!(rt; run.schedule(1).word(), NONE);
    assert_eq!(rt; run.schedule(2).word(), NONE);
    assert_eq!(rt; run.take(), 3);
    assert_eq!(rt; run.dequeue().map(|next| next.0), Some(2));
    assert_eq!(rt; run.dequeue().map(|next| next.0), Some(1));
    assert_eq!(rt; run.dequeue().map(|next| next.0), Some(0));
    assert_eq!(rt; run.dequeue().map(|next| next.0), None);
    Ok(())
}

#[test]
fn a_canceled_one_stays_pending(rt: HostRuntime) -> Result<(), Fail> {
    let mut run = OneLoop::build(rt.alloc(), 1, 0, 0)?;
    assert_eq!(rt; run.schedule(0).word(), NONE);
    assert_eq!(rt; run.cancel(0).word(), ASKED);
    assert_eq!(rt; run.schedule(0).word(), Flags::PENDING);
    assert_eq!(rt; run.take(), 1);
    assert_eq!(rt; run.dequeue().map(|next| next.1.word()), Some(ASKED));
    Ok(())
}

#[test]
fn a_deletion_outlasts_the_round(rt: HostRuntime) -> Result<(), Fail> {
    let mut run = OneLoop::build(rt.alloc(), 1, 0, 0)?;
    assert_eq!(rt; run.delete(0).word(), NONE);
    assert_eq!(rt; run.schedule(0).word(), Flags::PENDING + Flags::DELETED);
    assert_eq!(rt; run.take(), 1);
    let found = run.dequeue().map(|next| next.1.word());
    assert_eq!(rt; found, Some(ASKED + Flags::DELETED));
    assert_eq!(rt; run.schedule(0).word(), Flags::DELETED);
    Ok(())
}

#[test]
fn a_commit_tells_why(rt: HostRuntime) -> Result<(), Fail> {
    let mut run = OneLoop::build(rt.alloc(), 2, 0, 4)?;
    assert_eq!(rt; run.schedule_idle(0).word(), NONE);
    assert_eq!(rt; run.commit(), Commit::Awake(Why::Notified));
    assert_eq!(rt; run.commit(), Commit::Sleep(Some(10_000_000)));
    assert_eq!(rt; run.schedule(1).word(), NONE);
    run.set(3);
    assert_eq!(rt; run.commit(), Commit::Awake(Why::Urgent(1)));
    assert_eq!(rt; run.take(), 2);
    assert_eq!(rt; run.dequeue().is_some(), true);
    assert_eq!(rt; run.dequeue().is_some(), true);
    assert_eq!(rt; run.commit(), Commit::Awake(Why::Event(3)));
    assert_eq!(rt; run.clear(3), true);
    assert_eq!(rt; run.clear(3), false);
    assert_eq!(rt; run.commit(), Commit::Sleep(None));
    Ok(())
}

#[test]
fn a_lot_has_one_life_at_a_time(rt: HostRuntime) -> Result<(), Fail> {
    let mut run = OneLoop::build(rt.alloc(), 1, 1, 0)?;
    assert_eq!(rt; run.once(7), Some(1));
    assert_eq!(rt; run.once(8), None);
    assert_eq!(rt; run.take(), 1);
    let found = run.dequeue().map(|next| next.1.word());
    assert_eq!(rt; found, Some(ASKED + Flags::ONESHOT));
    run.free(1);
    assert_eq!(rt; run.once(8), Some(1));
    Ok(())
}

#[test]
fn a_word_gives_its_flags_back(rt: HostRuntime) -> Result<(), Fail> {
    let flags = Flags::from_word(21);
    assert_eq!(rt;
        (flags.pending, flags.deleted, flags.idle),
        (true, true, true)
    );
    assert_eq!(rt; (flags.scheduled, flags.oneshot), (false, false));
    assert_eq!(rt; flags.word(), 21);
    Ok(())
}
