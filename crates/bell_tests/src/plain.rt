//! A loop script on the plain loop of one thread, to compare with. The script has four handles, one lot and three events. The lot is
//! the fifth handle of the plain loop.
ghost use Rattle.std.specs.Prelude.{◌≡◌, IfSome};
ghost use Rattle.aio_model.specs.Scripts.LoopLines.{HasLine, HasNoDeadline};

use aio_model::{ActKind, Called, Command, Commit, Flags, LoopReply, OneLoop, RanList, Why};
use aio_script::{Page, print_poll, print_reply};
use aio_words::MemSink;
use std::alloc::Global;
use std::test::Fail;

/// The index of the lot.
const LOT: u32 = 4;

/// How many polls may be nested in one of depth 1.
const DEEPER: u32 = 7;

/// How many nests a callback may have done where there is a depth below its own.
const NESTS: u32 = 4;

/// A run of a loop script, and what its present poll has done.
#[derive(Drop)]
pub(crate) struct Plain {
    one: OneLoop,
    lists: Vec<Vec<ActKind>>,
    /// The tag of the one-shot that waits for its call.
    placed: Option<u32>,
    ran: RanList,
    more: u64,
    progress: bool,
    cut: u64,
    ghost handles: { one.sizes.handles ≡ 5 },
    ghost events: { one.sizes.events ≡ 3 },
}

/// A call on a handle.
#[derive(Clone, Copy)]
enum Ask {
    Schedule,
    Idle,
    Delete,
    Cancel,
}

/// The call, where there is such a handle.
fn ask_one(one: &mut OneLoop, bh: u32, ask: Ask) -> Flags
    requires { one.old.sizes.handles ≡ 5 }
    ensures { one.new.sizes ≡ one.old.sizes }
{
    let bh = bh % 5;
    match ask {
        Ask::Schedule => one.schedule(bh),
        Ask::Idle => one.schedule_idle(bh),
        Ask::Delete => one.delete(bh),
        Ask::Cancel => one.cancel(bh),
    }
}

/// What a commit answers that has no deadline.
fn undated(commit: Commit) -> Option<Commit>
    ensures { IfSome result HasNoDeadline }
{
    match commit {
        Commit::Sleep(bound) => Some(Commit::Sleep(bound)),
        Commit::Awake(why) => match why {
            Why::Urgent(bh) => Some(Commit::Awake(Why::Urgent(bh))),
            Why::Event(event) => Some(Commit::Awake(Why::Event(event))),
            Why::Notified => Some(Commit::Awake(Why::Notified)),
            Why::Deadline => None,
        },
    }
}

impl Plain {
    pub(crate) fn build(alloc: Global, lists: Vec<Vec<ActKind>>) -> Result<Plain, Fail> {
        let one = OneLoop::build(alloc, 5, 0, 3)?;
        Ok(Plain {
            one,
            lists,
            placed: None,
            ran: RanList::build(),
            more: 0,
            progress: false,
            cut: 0,
        })
    }

    fn ask(&mut self, bh: u32, what: Ask) -> Flags {
        ask_one(&mut self.one, bh, what)
    }

    fn note(&mut self, called: Called) {
        if self.ran.is_full() {
            self.more = self.more.wrapping_add(1);
        } else {
            self.ran.push(called);
        }
    }

    /// What is to be done at this place of a handle's list.
    fn act_at(&self, bh: u32, place: usize) -> Option<ActKind> {
        let list = self.lists.get(bh as usize)?;
        list.as_slice().get(place).copied()
    }

    /// The next that is out, and whether it is called.
    fn next(&mut self) -> Option<(u32, bool)> {
        let (bh, was) = self.one.dequeue()?;
        let ran = was.scheduled && !was.deleted;
        self.progress = self.progress || (ran && !was.idle);
        Some((bh, ran))
    }

    /// Names who is called, and whether it is a one-shot.
    fn is_one_shot(&mut self, bh: u32) -> bool {
        if bh != LOT {
            self.note(Called::Handle(bh));
            return false;
        }
        if let Some(tag) = self.placed {
            self.note(Called::Once(tag));
        }
        self.placed = None;
        true
    }

    /// A callback, with so many depths below its own. At a nest it waits for the nested poll, and a nest that isn't
    /// allowed ends it.
    #[cycle(polls)]
    fn call(&mut self, bh: u32, deeper: u32) {
        if self.is_one_shot(bh) {
            return;
        }
        let mut nests = if deeper == 0 { 0 } else { NESTS };
        for place in 0..8 {
            match self.act_at(bh, place) {
                None => return,
                Some(ActKind::Schedule(other)) => {
                    self.ask(other, Ask::Schedule);
                }
                Some(ActKind::Idle(other)) => {
                    self.ask(other, Ask::Idle);
                }
                Some(ActKind::Delete(other)) => {
                    self.ask(other, Ask::Delete);
                }
                Some(ActKind::Cancel(other)) => {
                    self.ask(other, Ask::Cancel);
                }
                Some(ActKind::Nest) => {
                    if nests == 0 || deeper == 0 {
                        self.cut = self.cut.wrapping_add(1);
                        return;
                    }
                    nests -= 1;
                    self.frame(deeper - 1);
                }
            }
        }
    }

    /// Takes what was pushed, and calls until nothing is out.
    #[cycle(polls)]
    fn frame(&mut self, deeper: u32) {
        self.one.take();
        for _ in 0..u64::MAX {
            match self.next() {
                Some((bh, true)) => self.call(bh, deeper),
                Some((_, false)) => {}
                None => return,
            }
        }
    }

    fn poll(&mut self) {
        self.ran = RanList::build();
        self.more = 0;
        self.progress = false;
        self.cut = 0;
        self.frame(DEEPER);
    }

    /// Whether the one-shot was placed.
    fn once(&mut self, tag: u32) -> bool {
        if self.placed.is_some() {
            return false;
        }
        self.placed = Some(tag);
        self.ask(LOT, Ask::Schedule);
        true
    }

    /// The reply of a command other than a poll.
    fn reply(&mut self, command: Command) -> Option<LoopReply>
        ensures { IfSome result HasLine }
    {
        match command {
            Command::Schedule(i) => {
                let was = self.ask(i, Ask::Schedule);
                Some(LoopReply::Flagged(Command::Schedule(i), was))
            }
            Command::Idle(i) => {
                let was = self.ask(i, Ask::Idle);
                Some(LoopReply::Flagged(Command::Idle(i), was))
            }
            Command::Delete(i) => {
                let was = self.ask(i, Ask::Delete);
                Some(LoopReply::Flagged(Command::Delete(i), was))
            }
            Command::Cancel(i) => {
                let was = self.ask(i, Ask::Cancel);
                Some(LoopReply::Flagged(Command::Cancel(i), was))
            }
            Command::Once(tag) => Some(LoopReply::Placed(tag, self.once(tag))),
            Command::Commit => Some(LoopReply::Committed(undated(self.one.commit())?)),
            Command::Set(event) => {
                self.one.set(event % 3);
                Some(LoopReply::WasSet(event))
            }
            Command::Clear(event) => Some(LoopReply::Cleared(event, self.one.clear(event % 3))),
            Command::Poll => None,
        }
    }

    /// Does a command, and prints its reply.
    pub(crate) fn ring(
        &mut self,
        command: Command,
        sink: &mut MemSink,
        page: &mut Page,
    ) -> Result<(), Fail> {
        let printed = match self.reply(command) {
            Some(reply) => print_reply(sink, page, &reply),
            None => {
                self.poll();
                print_poll(sink, page, &self.ran, self.more, self.progress, self.cut)
            }
        };
        if printed.is_err() {
            return Err(Fail::from("the plain loop's reply was not printed"));
        }
        Ok(())
    }
}
