//! A shared loop on which the commands of a loop script are done by home alone.
ghost use Rattle.std.specs.Prelude.{◌≡◌, ◌+◌, ◌≤◌, ◌<◌, ◌||◌, ℕ, false, [], length, map, IfOk};
ghost use Rattle.bell_loop.specs.Entering.{CanRun};
ghost use Rattle.aio_model.specs.declared.scripts.loop_replies.LoopReply.{LoopReply};
ghost use Rattle.aio_model.specs.declared.scripts.loop_scripts.Command.{Command};
ghost use Rattle.aio_model.specs.Loop.Flags.{is_pending};
ghost use Rattle.aio_model.specs.Scripts.LoopLines.{HasNoDeadline};
ghost use Rattle.aio_model.specs.Loop.Log.{Log};
ghost use Rattle.bell_loop.specs.Running.{Calm, IsAlone};
ghost use Rattle.bell_loop.specs.Machines.{Answers, IsNew, Ready, KeepsLog, machine_state_of, ran_in, more_in, enqueue_command};
ghost use Rattle.bell_loop.specs.Ending.{clearing, clearings, EndsBy, Leads};

use crate::callbacks::Callbacks;
use crate::marks::Marks;
use crate::steps;
use crate::tag::Tag;
use crate::verdict::verdict;
use aio_bh::{LotBuilt, LotPass, LotPool, Polled};
use aio_core::{Built, Home, LoopTable, Seat};
use aio_model::{ActKind, Commit, Flags, Kind, NoMemory, RanList};
use aio_notify::LoopEnd;
use std::alloc::Global;
use std::sync::Wait;

/// A loop on which the commands of a loop script are done. It takes memory when it is built, and never again.
#[derive(Drop)]
pub struct Machine<'a, R: Wait> {
    rt: &'a R,
    table: LoopTable<Tag>,
    home: Home<Tag>,
    /// The seat of all other numbers. Nothing is done through it.
    others: Seat<Tag>,
    pool: LotPool,
    /// Gives lots back in a poll.
    giving: LotPass,
    /// Takes lots for one-shots.
    placing: LotPass,
    callbacks: Callbacks<'a, R>,
    living: u32,
    /// Which events are set.
    marks: Marks,
}

fn either(one: bool, other: bool) -> bool
    ensures { result ≡ (one || other) }
{
    one || other
}

impl<'a, R: Wait> Machine<'a, R> {
    /// A machine with these lists of actions, one for each handle.
    pub fn build(
        rt: &'a R,
        alloc: Global,
        lists: &'a [Vec<ActKind>],
        lots: u32,
        events: u32,
    ) -> Result<Machine<'a, R>, NoMemory>
        requires few { length lists.now + lots ≤ 4096 }
        requires few_events { events ≤ 64 }
        requires can { CanRun (length lists.now) (map (λ l. l.items) lists.now) [] }
        ensures ready { IfOk result (λ built. Ready built) }
        ensures new { IfOk result (λ built. IsNew (record { handles = length lists.now; lots = lots; events = events }) (map (λ l. l.items) lists.now) (machine_state_of built)) }
    {
        let handles = lists.len() as u32;
        let Ok(
            LotBuilt {
                pool,
                home: giving,
                pass: placing,
            },
        ) = LotPool::build(rt, alloc, handles, lots)
        else {
            return Err(NoMemory);
        };
        let Ok(
            Built {
                table,
                home,
                seat: others,
            },
        ) = LoopTable::<Tag>::build(alloc, handles, lots, events)
        else {
            return Err(NoMemory);
        };
        let callbacks = Callbacks::build(rt, alloc, lists)?;
        let marks = Marks::build(alloc, events)?;
        Ok(Machine {
            rt,
            table,
            home,
            others,
            pool,
            giving,
            placing,
            callbacks,
            living: 0,
            marks,
        })
    }

    pub fn handles(&self) -> u32
        ensures { result ≡ (machine_state_of self.now).sizes.handles }
    {
        self.table.handles()
    }

    pub fn events(&self) -> u32
        ensures { result ≡ (machine_state_of self.now).sizes.events }
    {
        self.table.events()
    }

    /// Who was called in the last poll, and how many besides.
    pub fn called(&self) -> (&RanList, u64)
        ensures { (result.0.now ≡ ran_in self.now) × (result.1 ≡ more_in self.now) }
    {
        (&self.callbacks.ran, self.callbacks.more)
    }

    /// An enqueue of a handle. The answer is the flags found.
    pub fn enqueue(&mut self, bh: u32, kind: Kind) -> Flags
        requires ready { Ready self.old }
        requires handle { bh < (machine_state_of self.old).sizes.handles }
        ensures ready { Ready self.new }
        ensures answers { Answers (enqueue_command kind bh) (LoopReply.Flagged (enqueue_command kind bh) result) (machine_state_of self.old) (machine_state_of self.new) }
    {
        let was = steps::enqueue(self.rt, &self.table, &mut self.home.seat, bh, kind);
        self.callbacks.rang = true;
        was
    }

    /// Cancels a handle. The answer is the flags found.
    pub fn cancel(&mut self, bh: u32) -> Flags
        requires ready { Ready self.old }
        requires handle { bh < (machine_state_of self.old).sizes.handles }
        ensures ready { Ready self.new }
        ensures answers { Answers (Command.Cancel bh) (LoopReply.Flagged (Command.Cancel bh) result) (machine_state_of self.old) (machine_state_of self.new) }
    {
        steps::cancel(&self.table, &mut self.home.seat, bh)
    }

    pub fn set(&mut self, event: u32)
        requires ready { Ready self.old }
        requires event { event < (machine_state_of self.old).sizes.events }
        ensures ready { Ready self.new }
        ensures answers { Answers (Command.Set event) (LoopReply.WasSet event) (machine_state_of self.old) (machine_state_of self.new) }
    {
        steps::set(&self.table, &mut self.home.seat, event);
        self.marks.mark(event, true);
        self.callbacks.rang = true;
    }

    /// Whether the event was set.
    pub fn clear(&mut self, event: u32) -> bool
        requires ready { Ready self.old }
        requires event { event < (machine_state_of self.old).sizes.events }
        ensures ready { Ready self.new }
        ensures answers { Answers (Command.Clear event) (LoopReply.Cleared event result) (machine_state_of self.old) (machine_state_of self.new) }
    {
        let was = steps::clear(&self.table, &mut self.home, event);
        self.marks.mark(event, false);
        was
    }

    /// Whether a one-shot with this tag was placed. It wasn't where every lot lives.
    pub fn once(&mut self, tag: u32) -> bool
        requires ready { Ready self.old }
        ensures ready { Ready self.new }
        ensures answers { Answers (Command.Once tag) (LoopReply.Placed tag result) (machine_state_of self.old) (machine_state_of self.new) }
    {
        let placed = steps::once(
            self.rt,
            &self.table,
            &self.pool,
            &mut self.placing,
            &mut self.home.seat,
            tag,
            &mut self.living,
        );
        self.callbacks.rang = either(self.callbacks.rang, placed);
        placed
    }

    /// A poll. What it called, and how many it called besides, is with the callbacks.
    pub fn poll(&mut self) -> Polled
        requires ready { Ready self.old }
        ensures ready { Ready self.new }
        ensures answers { Answers Command.Poll (LoopReply.Ran (ran_in self.new) (more_in self.new) result.progress result.cut_nests) (machine_state_of self.old) (machine_state_of self.new) }
        ensures quiet { (machine_state_of self.old).lists ≡ [] → IsAlone (machine_state_of self.new).seen → Calm (machine_state_of self.old).seen → (i : ℕ) → is_pending i (machine_state_of self.new).seen ≡ false }
    {
        self.callbacks.begin_poll();
        let polled = steps::poll(
            self.rt,
            &self.table,
            &self.pool,
            &mut self.giving,
            &mut self.home,
            &mut self.callbacks,
        );
        self.living = 0;
        polled
    }

    /// A commit that watches all events and has no deadline, the end of the sleep where it came to one, and an accept. The answer is
    /// told from what a scan finds, and from what home itself set and enqueued since the last accept.
    pub fn commit(&mut self) -> Commit
        requires ready { Ready self.old }
        ensures ready { Ready self.new }
        ensures answers { Answers Command.Commit (LoopReply.Committed result) (machine_state_of self.old) (machine_state_of self.new) }
        ensures line { HasNoDeadline result }
    {
        let scanned = steps::look(&self.table, &mut self.home);
        let rang = self.callbacks.rang;
        let answer = verdict(scanned.urgent, self.marks.first(), rang, scanned.idle);
        steps::sleep_and_accept(&self.table, &mut self.home);
        self.callbacks.rang = false;
        answer
    }

    /// Clears the event where it is set.
    fn clear_if_set(&mut self, event: u32)
        requires ready { Ready self.old }
        requires event { event < (machine_state_of self.old).sizes.events }
        requires none { (machine_state_of self.old).lists ≡ [] }
        ensures ready { Ready self.new }
        ensures leads { Leads (clearing event) (machine_state_of self.old) (machine_state_of self.new) }
    {
        if self.marks.is_marked(event) {
            self.clear(event);
        }
    }

    /// Clears each event that is set, in rising order.
    fn clear_all(&mut self)
        requires ready { Ready self.old }
        requires none { (machine_state_of self.old).lists ≡ [] }
        ensures ready { Ready self.new }
        ensures leads { Leads (clearings (machine_state_of self.old).sizes.events) (machine_state_of self.old) (machine_state_of self.new) }
    {
        for event in 0..self.events() {
            self.clear_if_set(event);
        }
    }

    /// Ends the loop: a poll whose callbacks do nothing, the clearing of each event that is set, an accept and a commit, and the
    /// settling. Home alone made the history then, so all that was answered before was answered as `Answers` says.
    pub fn end(mut self) -> LoopEnd<Tag>
        requires ready { Ready self }
        requires stands { IsAlone (machine_state_of self).seen → (log : Log) × KeepsLog (machine_state_of self) log }
        ensures ends { EndsBy (machine_state_of self.entry) result.known.seen }
    {
        self.callbacks.forget_lists();
        self.poll();
        self.clear_all();
        let Machine {
            rt,
            table,
            mut home,
            others,
            ..
        } = self;
        steps::fall_asleep(rt, &table, &mut home);
        steps::settled(table, home, others)
    }
}
