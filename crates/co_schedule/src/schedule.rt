//! Scheduling a coroutine into its home, from any thread, after aio_co_schedule of QEMU's util/async.c. The mark, whose compare admits
//! one scheduler at a time, is that of QEMU's `scheduled`; it stands in the table of the home.
ghost use Rattle.std.specs.Prelude.{◌≡◌, ◌≢◌, ◌<◌, ◌≤◌, ◌+◌, ℕ, ◌==◌, MatchBool, MatchResult, MatchOption, [], ◌∷◌, drop, None, Some, true, false, Option};
ghost use Rattle.co_schedule.specs.Words.{mark_at};
ghost use Rattle.co_schedule.specs.Known.{MarkCompare, AtRest, Marked, HeadLoaded, Linked};
ghost use Rattle.co_schedule.specs.Standing.{IsMarkOf, Looks, PushesOnce, MissesOnce, PushesAtLast};
ghost use Rattle.co_schedule.specs.Parcels.{given_in, IsParcelOf, IsStateOf, has_some};
ghost use Rattle.co_schedule.specs.Calls.{IsSeatOf, HasScheduled};

use crate::parcel::Parcel;
use crate::plays::Inner;
use crate::seat::CoSeat;
use crate::table::CoTable;
use aio_model::Cause;
use co_state::Origin;
use std::sync::Wait;

/// What a schedule answers that found a mark: the coroutine was scheduled and not entered since. Nothing was changed.
#[derive(Debug, PartialEq, Eq, Drop)]
pub struct Already<C> {
    /// One more than the number of the seat that scheduled it.
    pub mark: u64,
    /// What the caller had given.
    pub state: Option<C>,
}

/// What comes out of a slot.
pub(crate) fn state_of<C>(parcel: Option<Parcel<C>>) -> Option<C>
    ensures { MatchOption parcel (result ≡ None) (λ p. result ≡ p.state) }
{
    match parcel {
        Some(Parcel { cause: _, state }) => state,
        None => None,
    }
}

fn is_given<C>(state: &Option<C>) -> bool
    ensures { result ≡ has_some state.now }
{
    match state {
        Some(_) => true,
        None => false,
    }
}

impl<C: Origin + Drop> CoTable<C> {
    /// One more try to push.
    pub(crate) fn try_to_push(&self, inner: &mut Inner<C>, co: u32, given: bool) -> bool
        requires table { inner.old.table_id ≡ self.now.table }
        requires numbers { 0 < inner.old.me.0.known.count }
        requires below { co < self.now.coroutines }
        requires phase { inner.old.me.0.known.phase ≡ Marked co given }
        requires slot { (x : Option (Parcel C)) × (inner.old.me.1 ≡ (co, x) ∷ []) × (given_in x ≡ given) × IsParcelOf C.is_of self.now.origin co x }
        ensures seat { (inner.new.table_id ≡ inner.old.table_id) × (inner.new.id ≡ inner.old.id) × (inner.new.me.0.origin ≡ inner.old.me.0.origin) }
        ensures step { MatchBool result (PushesOnce co inner.old.me.0.known inner.new.me.0.known × (inner.new.me.1 ≡ [])) (MissesOnce co inner.old.me.0.known inner.new.me.0.known × (inner.new.me.1 ≡ inner.old.me.1)) }
    {
        let head = self.load_head(inner, co, given);
        self.store_next(inner, co, given, head);
        self.compare_head(inner, co, given, head) == head
    }

    /// Pushes the coroutine that the seat has marked, trying until it succeeds.
    pub(crate) fn push<R: Wait>(&self, rt: &R, inner: &mut Inner<C>, co: u32, given: bool)
        requires table { inner.old.table_id ≡ self.now.table }
        requires numbers { 0 < inner.old.me.0.known.count }
        requires below { co < self.now.coroutines }
        requires phase { inner.old.me.0.known.phase ≡ Marked co given }
        requires slot { (x : Option (Parcel C)) × (inner.old.me.1 ≡ (co, x) ∷ []) × (given_in x ≡ given) × IsParcelOf C.is_of self.now.origin co x }
        ensures seat { (inner.new.table_id ≡ inner.old.table_id) × (inner.new.id ≡ inner.old.id) × (inner.new.me.0.origin ≡ inner.old.me.0.origin) × (inner.new.me.1 ≡ []) }
        ensures pushed { PushesAtLast co inner.old.me.0.known inner.new.me.0.known }
    {
        for _ in rt.forever() {
            if self.try_to_push(inner, co, given) {
                return;
            }
        }
        unreachable!()
    }

    /// Schedules the coroutine, where it has no mark, with its state, if it has one.
    fn schedule_inner<R: Wait>(
        &self,
        rt: &R,
        inner: &mut Inner<C>,
        co: u32,
        own: u64,
        cause: Cause,
        state: Option<C>,
    ) -> Result<(), Already<C>>
        requires table { inner.old.table_id ≡ self.now.table }
        requires numbers { (0 < inner.old.me.0.known.count) × (own ≡ inner.old.me.0.known.first + 1) }
        requires seat { inner.old.me.0.known.first < 64 }
        requires below { co < self.now.coroutines }
        requires rest { inner.old.me.0.known.phase ≡ AtRest }
        requires slots { inner.old.me.1 ≡ [] }
        requires state { IsStateOf C.is_of co self.now.origin state }
        ensures seat { (inner.new.table_id ≡ inner.old.table_id) × (inner.new.id ≡ inner.old.id) × (inner.new.me.0.origin ≡ inner.old.me.0.origin) × (inner.new.me.1 ≡ []) }
        ensures scheduled { MatchResult result (λ _. HasScheduled co cause (has_some state) inner.old.me.0.known inner.new.me.0.known) (λ already. (already.mark ≢ 0) × (already.state ≡ state) × Looks MarkCompare (mark_at co) already.mark inner.old.me.0.known inner.new.me.0.known × IsMarkOf co already.mark inner.old.me.0.known) }
    {
        let given = is_given(&state);
        let parcel = Some(Parcel { cause, state });
        let found = self.compare_mark(inner, co, own, &parcel);
        if found != 0 {
            return Err(Already {
                mark: found,
                state: state_of(parcel),
            });
        }
        // Whoever has set the mark finds the slot empty.
        let _empty = self.table.shared.exchange(inner, co as usize, parcel);
        self.push(rt, inner, co, given);
        Ok(())
    }

    /// Schedules a coroutine into the home of this table, which enters it after all that were pushed before. A state that is given
    /// goes with it. Where the coroutine has a mark, since it was scheduled and not entered yet, the state comes back and nothing
    /// was changed. Any thread, with a seat of its own; it may try again as long as other threads push. It takes no memory.
    pub fn schedule<R: Wait>(
        &self,
        rt: &R,
        seat: &mut CoSeat<C>,
        co: u32,
        cause: Cause,
        state: Option<C>,
    ) -> Result<(), Already<C>>
        requires seat { IsSeatOf self.now seat.old }
        requires below { co < self.now.coroutines }
        requires state { IsStateOf C.is_of co self.now.origin state }
        ensures seat { IsSeatOf self.now seat.new }
        ensures scheduled { MatchResult result (λ _. HasScheduled co cause (has_some state) seat.old.known seat.new.known) (λ already. (already.mark ≢ 0) × (already.state ≡ state) × Looks MarkCompare (mark_at co) already.mark seat.old.known seat.new.known × IsMarkOf co already.mark seat.old.known) }
    {
        let own = u64::from(seat.first) + 1;
        self.schedule_inner(rt, &mut seat.inner, co, own, cause, state)
    }
}
