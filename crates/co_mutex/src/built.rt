//! How a lock is built and closed.
ghost use Rattle.std.specs.Prelude.{◌≡◌, ℕ, ◌+◌, ◌<◌, ◌≤◌, Some, IfOk, IfErr, [], ◌∷◌, length, slice_index, vec_len, vec_capacity};
ghost use mathlib.Core.Option.{some};
ghost use lib.ListN.{get_elem?};
ghost use Rattle.co_mutex.specs.LockWords.{word_count};
ghost use Rattle.co_mutex.specs.Opening.{first_view_of};
ghost use Rattle.co_mutex.specs.Passes.{built_of, passes_of, IsNew};

use crate::lock::{CoMutex, Pass, Unmade};
use crate::popped::Popped;
use crate::rule::{CutOff, LockRule, Opened};
use crate::slot::Slot;
use crate::view::View;
use atomic_table::{Refused, Seat, Table};
use std::alloc::{AllocError, Global};
use std::snapshot::Snapshot;

fn zero_words(alloc: Global, passes: u32) -> Result<Vec<u64>, AllocError>
    requires { passes ≤ 64 }
    ensures { IfOk result (λ words. (length words.items ≡ word_count passes) × ((k : ℕ) → slice_index words.items k ≡ 0)) }
{
    vec![in alloc; 0; 3 + 3 * passes as usize]
}

impl<P: LockRule> CoMutex<P> {
    /// A pass for each number, each with a seat of its own.
    fn deal(
        &self,
        mut seat: Seat<Slot<P::Value>, View<P::Value>>,
        passes: &mut Vec<Pass<P>>,
        coroutines: u32,
    )
        requires seat { (seat.table_id ≡ self.now.table.shared.table_id) × (seat.me ≡ (first_view_of self.now.table.shared.key, [])) }
        requires count { (1 ≤ coroutines) × (passes_of self.now ≡ coroutines) }
        requires room { (passes.old.items ≡ []) × (coroutines ≤ vec_capacity passes.old) }
        ensures count { vec_len passes.new ≡ coroutines }
        ensures each { (k : ℕ) (p : _) → get_elem? passes.new.items k ≡ some p → IsNew self.now k p }
    {
        for number in 1..coroutines {
            let one = self.table.shared.split_seat::<CutOff>(&mut seat);
            passes.push_reserved(Pass {
                seat: one,
                number: number - 1,
            });
        }
        passes.push_reserved(Pass {
            seat,
            number: coroutines - 1,
        });
    }

    /// A lock with this value, and a pass for each of so many coroutines: pass k has number k. Want of memory hands the
    /// value back.
    pub fn build(
        alloc: Global,
        value: P::Value,
        coroutines: u32,
    ) -> Result<(CoMutex<P>, Vec<Pass<P>>), Unmade<P::Value>>
        requires { (1 ≤ coroutines) × (coroutines ≤ 64) }
        ensures built { IfOk result (λ r. (built_of r.0 ≡ value) × (passes_of r.0 ≡ coroutines)) }
        ensures passes { IfOk result (λ r. (vec_len r.1 ≡ coroutines) × ((k : ℕ) (p : _) → get_elem? r.1.items k ≡ some p → IsNew r.0 k p)) }
        ensures unmade { IfErr result (λ u. u.back ≡ value) }
    {
        let Ok(mut passes) = Vec::with_capacity(alloc, coroutines as usize) else {
            return Err(Unmade { back: value });
        };
        let Ok(words) = zero_words(alloc, coroutines) else {
            return Err(Unmade { back: value });
        };
        let Ok(list) = Popped::with_room(alloc) else {
            return Err(Unmade { back: value });
        };
        let Ok(mut slots) = Vec::with_capacity(alloc, 2) else {
            return Err(Unmade { back: value });
        };
        let about = Opened {
            value: Snapshot::of(&value),
            passes: u64::from(coroutines),
        };
        slots.push_reserved(Slot::Value(value));
        slots.push_reserved(Slot::Waiters(list));
        match Table::new(alloc, &words, slots, &about) {
            Ok((table, seat)) => {
                let lock = CoMutex { table };
                lock.deal(seat, &mut passes, coroutines);
                Ok((lock, passes))
            }
            Err(Refused { mut slots }) => {
                let Some(second) = slots.pop() else {
                    unreachable!()
                };
                let Slot::Waiters(_) = second else {
                    unreachable!()
                };
                let Some(first) = slots.pop() else {
                    unreachable!()
                };
                let Slot::Value(value) = first else {
                    unreachable!()
                };
                slots.destroy_empty();
                Err(Unmade { back: value })
            }
        }
    }
}
