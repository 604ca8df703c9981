//! The pool: how it is made, a pop, a push, and how a pass is divided.
ghost use Rattle.std.specs.Prelude.{◌≡◌, ◌<◌, ◌≤◌, ◌+◌, ◌-◌, ◌/◌, [], ◌∷◌, ◌++◌, length, true, false, None, MatchBool, IfOk, MatchOption, set, get_or};
ghost use Rattle.crossbeam_queue.specs.Passes.{ruled_capacity, view, IsSamePass};
ghost use Rattle.crossbeam_queue.specs.Passes.{IsPassOf as IsPassOfQueue};
ghost use Rattle.lot_pool.specs.PoolRule.{stepped, newcomer, opening_with};
ghost use Rattle.lot_pool.specs.Pools.{IsPassOf, IsHomeOf, IsNew, IsLot, FindsEmpty, FindsFull, GivesBack, GivesAll, kept_lots, knows, room_of};
ghost use Rattle.lot_pool.specs.declared.view.PoolStep.TheVariants.{Pushed, Popped};

use crate::pass::LotPass;
use crate::steps::{LotQueue, fill, halve, open_to_second, put_back, take_out};
use aio_model::NoMemory;
use std::alloc::Global;
use std::marker::Model;
use std::sync::Wait;

/// The free lots of a loop, for all threads.
#[derive(Drop)]
pub struct LotPool {
    queue: LotQueue,
    alloc: Global,
    handles: u32,
    lots: u32,
}

impl Model for LotPool {
    ghost use Rattle.std.specs.Prelude.{◌≡◌, ◌≤◌, ◌+◌};
    ghost use Rattle.crossbeam_queue.specs.Passes.{ruled_capacity};
    ghost use Rattle.lot_pool.specs.Pools.{PoolState, room_of};

    ghost Value = { PoolState };

    ghost view = { λ p. record { queue = p.queue.table.shared.table_id; handles = p.handles; lots = p.lots } };

    ghost invariant = { λ p. (ruled_capacity p.queue ≡ room_of p.lots) × (p.handles + p.lots ≤ 4096) };
}

/// A pool, the home's pass and one that has all other numbers.
#[derive(Drop)]
pub struct LotBuilt {
    pub pool: LotPool,
    pub home: LotPass,
    pub pass: LotPass,
}

impl LotPool {
    /// A pool for the lots of a loop with so many handles and lots: its queue holds each lot once, in rising order.
    pub fn build<R: Wait>(
        rt: &R,
        alloc: Global,
        handles: u32,
        lots: u32,
    ) -> Result<LotBuilt, NoMemory>
        requires { handles + lots ≤ 4096 }
        ensures { IfOk result (λ built. IsNew handles lots built.pool built.home built.pass) }
    {
        let Ok(keeps) = vec![in alloc; false; lots as usize] else {
            return Err(NoMemory);
        };
        let Ok((queue, mut pass)) = LotQueue::ruled(alloc, lots.max(1) as usize) else {
            return Err(NoMemory);
        };
        fill(rt, &queue, &mut pass, handles, lots);
        let home = open_to_second(&queue, &mut pass);
        Ok(LotBuilt {
            pool: LotPool {
                queue,
                alloc,
                handles,
                lots,
            },
            home: LotPass {
                inner: home,
                first: 64,
                count: 1,
                keeps,
                kept: 0,
            },
            pass: LotPass {
                inner: pass,
                first: 0,
                count: 64,
                keeps: Vec::new(alloc),
                kept: 0,
            },
        })
    }

    fn cut(&self, pass: &mut LotPass) -> LotPass
        requires pass { IsPassOf self.now pass.old }
        requires many { 1 < pass.old.count }
        ensures first { pass.new ≡ record pass.old { count = pass.old.count - pass.old.count / 2 } }
        ensures last { result ≡ record { queue = self.now.queue; first = pass.old.first + (pass.old.count - pass.old.count / 2); count = pass.old.count / 2; known = newcomer pass.old.known; keeps = [] } }
    {
        let last = pass.count / 2;
        pass.count -= last;
        let inner = halve(&self.queue, &mut pass.inner);
        LotPass {
            inner,
            first: pass.first + pass.count,
            count: last,
            keeps: Vec::new(self.alloc),
            kept: 0,
        }
    }

    /// A pass with the last half of the numbers, rounded down, for another thread. None, where there is but one number.
    pub fn split(&self, pass: &mut LotPass) -> Option<LotPass>
        requires pass { IsPassOf self.now pass.old }
        ensures pass { IsPassOf self.now pass.new }
        ensures split { MatchOption result ((pass.old.count ≡ 1) × (pass.new ≡ pass.old)) (λ other. (1 < pass.old.count) × IsPassOf self.now other × (pass.new ≡ record pass.old { count = pass.old.count - pass.old.count / 2 }) × (other ≡ record { queue = self.now.queue; first = pass.old.first + (pass.old.count - pass.old.count / 2); count = pass.old.count / 2; known = newcomer pass.old.known; keeps = [] })) }
    {
        if pass.count == 1 {
            return None;
        }
        Some(self.cut(pass))
    }

    /// Takes out a lot. None where the queue was found empty.
    pub fn pop<R: Wait>(&self, rt: &R, pass: &mut LotPass) -> Option<u32>
        requires pass { IsPassOf self.now pass.old }
        ensures pass { IsPassOf self.now pass.new }
        ensures popped { MatchOption result (FindsEmpty pass.old pass.new) (λ lot. (pass.new ≡ knows (stepped (Popped lot) pass.old.known) pass.old) × IsLot self.now lot) }
    {
        take_out(rt, &self.queue, &mut pass.inner)
    }

    /// Puts a lot back. False where the queue was found full.
    pub fn push<R: Wait>(&self, rt: &R, pass: &mut LotPass, lot: u32) -> bool
        requires pass { IsPassOf self.now pass.old }
        requires lot { IsLot self.now lot }
        ensures pass { IsPassOf self.now pass.new }
        ensures pushed { MatchBool result (pass.new ≡ knows (stepped (Pushed lot) pass.old.known) pass.old) (FindsFull (room_of self.now.lots) pass.old pass.new) }
    {
        put_back(rt, &self.queue, &mut pass.inner, lot)
    }

    /// Sets or clears the mark that the home's pass keeps the lot.
    fn mark(&self, home: &mut LotPass, lot: u32, kept: bool)
        requires home { IsHomeOf self.now home.old }
        requires lot { IsLot self.now lot }
        ensures home { IsHomeOf self.now home.new }
        ensures kept { home.new ≡ record home.old { keeps = set home.old.keeps (lot - self.now.handles) kept } }
    {
        let index = (lot - self.handles) as usize;
        if kept && !home.keeps[index] {
            home.keeps[index] = true;
            home.kept += 1;
        }
        if !kept && home.keeps[index] {
            home.keeps[index] = false;
            home.kept -= 1;
        }
    }

    /// Puts a lot back, or keeps it where the queue was found full. The home's pass alone.
    pub fn give_back<R: Wait>(&self, rt: &R, home: &mut LotPass, lot: u32)
        requires home { IsHomeOf self.now home.old }
        requires lot { IsLot self.now lot }
        ensures home { IsHomeOf self.now home.new }
        ensures given { GivesBack self.now lot home.old home.new }
    {
        let pushed = self.push(rt, home, lot);
        self.mark(home, lot, !pushed);
    }

    /// Gives the lot of this index back, if the home's pass keeps it.
    fn give_if_kept<R: Wait>(&self, rt: &R, home: &mut LotPass, index: u32)
        requires home { IsHomeOf self.now home.old }
        requires lot { index < self.now.lots }
        ensures home { IsHomeOf self.now home.new }
        ensures given { MatchBool (get_or home.old.keeps index false) (GivesBack self.now (self.now.handles + index) home.old home.new) (home.new ≡ home.old) }
    {
        if home.keeps[index as usize] {
            self.give_back(rt, home, self.handles + index);
        }
    }

    /// Gives back the lots that the home's pass keeps. Rare: the pool was found full.
    #[cold]
    fn give_each_kept<R: Wait>(&self, rt: &R, home: &mut LotPass)
        requires home { IsHomeOf self.now home.old }
        ensures home { IsHomeOf self.now home.new }
        ensures given { GivesAll self.now (kept_lots self.now home.old) home.old home.new }
    {
        for index in 0..self.lots {
            self.give_if_kept(rt, home, index);
        }
    }

    /// Gives back each lot that the home's pass keeps, in rising order.
    #[inline(always)]
    #[tactic(auto, using(crate::proofs::Passes::gives_none))]
    pub fn give_kept<R: Wait>(&self, rt: &R, home: &mut LotPass)
        requires home { IsHomeOf self.now home.old }
        ensures home { IsHomeOf self.now home.new }
        ensures given { GivesAll self.now (kept_lots self.now home.old) home.old home.new }
    {
        if home.kept != 0 {
            self.give_each_kept(rt, home);
        }
    }
}
