//! The steps, each in a function without branches.
ghost use Rattle.std.specs.Prelude.{◌≡◌, ◌≢◌, ◌<◌, ◌≤◌, ◌+◌, ℕ, ◌==◌, MatchBool, [], ◌∷◌, drop, None, Some, true, false, Option};
ghost use Rattle.co_schedule.specs.Words.{mark_at};
ghost use Rattle.co_schedule.specs.Known.{MarkCompare, AtRest, Marked, HeadLoaded, Linked, IsHomes};
ghost use Rattle.co_schedule.specs.Standing.{Schedules, Looks, IsMarkOf, HeadIsLoaded, NextIsStored, Pushes, Misses, Takes, WalksOn, Opens, IsFirstEntered};
ghost use Rattle.co_schedule.specs.Parcels.{cause_in, given_in, IsParcelOf, has_some};

use crate::parcel::Parcel;
use crate::plays::{
    ClearMark, CompareHead, Inner, LoadHead, LoadNext, Mark, OpenMark, StoreNext, Take,
};
use crate::table::CoTable;
use crate::words::{HEAD, mark_word, next_word};
use co_state::Origin;

impl<C: Origin + Drop> CoTable<C> {
    /// Marks the coroutine, where it has no mark, for what is to lie in its slot.
    pub(crate) fn compare_mark(
        &self,
        inner: &mut Inner<C>,
        co: u32,
        own: u64,
        said: &Option<Parcel<C>>,
    ) -> u64
        requires table { inner.old.table_id ≡ self.now.table }
        requires numbers { (0 < inner.old.me.0.known.count) × (own ≡ inner.old.me.0.known.first + 1) }
        requires seat { inner.old.me.0.known.first < 64 }
        requires rest { inner.old.me.0.known.phase ≡ AtRest }
        requires below { co < self.now.coroutines }
        ensures seat { (inner.new.table_id ≡ inner.old.table_id) × (inner.new.id ≡ inner.old.id) × (inner.new.me.0.origin ≡ inner.old.me.0.origin) }
        ensures told { MatchBool (result == 0) (Schedules co (cause_in said.now) (given_in said.now) inner.old.me.0.known inner.new.me.0.known × ((x : Option (Parcel C)) × (given_in x ≡ false) × (inner.new.me.1 ≡ (co, x) ∷ inner.old.me.1))) (Looks MarkCompare (mark_at co) result inner.old.me.0.known inner.new.me.0.known × IsMarkOf co result inner.old.me.0.known × (inner.new.me.1 ≡ inner.old.me.1)) }
    {
        self.table
            .shared
            .compare_exchange_with::<Mark<C>>(inner, mark_word(co), 0, own, said)
    }

    pub(crate) fn load_head(&self, inner: &mut Inner<C>, co: u32, given: bool) -> u64
        requires table { inner.old.table_id ≡ self.now.table }
        requires numbers { 0 < inner.old.me.0.known.count }
        requires phase { inner.old.me.0.known.phase ≡ Marked co given }
        ensures seat { (inner.new.table_id ≡ inner.old.table_id) × (inner.new.id ≡ inner.old.id) × (inner.new.me.0.origin ≡ inner.old.me.0.origin) × (inner.new.me.1 ≡ inner.old.me.1) }
        ensures told { HeadIsLoaded co given result inner.old.me.0.known inner.new.me.0.known }
    {
        let _given = given;
        let _co = co;
        self.table.shared.load::<LoadHead>(inner, HEAD)
    }

    pub(crate) fn store_next(&self, inner: &mut Inner<C>, co: u32, given: bool, head: u64)
        requires table { inner.old.table_id ≡ self.now.table }
        requires numbers { 0 < inner.old.me.0.known.count }
        requires below { co < self.now.coroutines }
        requires phase { inner.old.me.0.known.phase ≡ HeadLoaded co given head }
        ensures seat { (inner.new.table_id ≡ inner.old.table_id) × (inner.new.id ≡ inner.old.id) × (inner.new.me.0.origin ≡ inner.old.me.0.origin) × (inner.new.me.1 ≡ inner.old.me.1) }
        ensures told { NextIsStored co given head inner.old.me.0.known inner.new.me.0.known }
    {
        let _given = given;
        self.table
            .shared
            .store::<StoreNext>(inner, next_word(co), head)
    }

    /// A push, which gives the slot back with what lies there.
    pub(crate) fn compare_head(&self, inner: &mut Inner<C>, co: u32, given: bool, head: u64) -> u64
        requires table { inner.old.table_id ≡ self.now.table }
        requires numbers { 0 < inner.old.me.0.known.count }
        requires phase { inner.old.me.0.known.phase ≡ Linked co given head }
        requires slot { (x : Option (Parcel C)) × (inner.old.me.1 ≡ (co, x) ∷ []) × (given_in x ≡ given) × IsParcelOf C.is_of self.now.origin co x }
        ensures seat { (inner.new.table_id ≡ inner.old.table_id) × (inner.new.id ≡ inner.old.id) × (inner.new.me.0.origin ≡ inner.old.me.0.origin) }
        ensures told { MatchBool (result == head) (Pushes co result inner.old.me.0.known inner.new.me.0.known × (inner.new.me.1 ≡ [])) (Misses co given result inner.old.me.0.known inner.new.me.0.known × (inner.new.me.1 ≡ inner.old.me.1)) }
    {
        let _given = given;
        self.table
            .shared
            .compare_exchange::<CompareHead>(inner, HEAD, head, u64::from(co) + 1)
    }

    pub(crate) fn swap_head(&self, inner: &mut Inner<C>) -> u64
        requires table { inner.old.table_id ≡ self.now.table }
        requires numbers { IsHomes inner.old.me.0.known }
        requires free { (inner.old.me.0.known.stage.word ≡ 0) × (inner.old.me.0.known.stage.run ≡ []) × (inner.old.me.0.known.stage.hand ≡ None) }
        ensures seat { (inner.new.table_id ≡ inner.old.table_id) × (inner.new.id ≡ inner.old.id) × (inner.new.me.0.origin ≡ inner.old.me.0.origin) × (inner.new.me.1 ≡ inner.old.me.1) }
        ensures told { Takes result inner.old.me.0.known inner.new.me.0.known }
    {
        self.table.shared.swap::<Take>(inner, HEAD, 0)
    }

    pub(crate) fn load_next(&self, inner: &mut Inner<C>, co: u32) -> u64
        requires table { inner.old.table_id ≡ self.now.table }
        requires numbers { IsHomes inner.old.me.0.known }
        requires below { co < self.now.coroutines }
        requires word { (inner.old.me.0.known.stage.word ≡ co + 1) × (inner.old.me.0.known.stage.hand ≡ None) }
        ensures seat { (inner.new.table_id ≡ inner.old.table_id) × (inner.new.id ≡ inner.old.id) × (inner.new.me.0.origin ≡ inner.old.me.0.origin) × (inner.new.me.1 ≡ inner.old.me.1) }
        ensures told { WalksOn co result inner.old.me.0.known inner.new.me.0.known }
    {
        self.table.shared.load::<LoadNext>(inner, next_word(co))
    }

    /// The slot of the first coroutine of the run comes out with home.
    pub(crate) fn load_mark(&self, inner: &mut Inner<C>, co: u32) -> u64
        requires table { inner.old.table_id ≡ self.now.table }
        requires numbers { IsHomes inner.old.me.0.known }
        requires below { co < self.now.coroutines }
        requires run { (inner.old.me.0.known.stage.run ≡ co ∷ drop 1 inner.old.me.0.known.stage.run) × (inner.old.me.0.known.stage.word ≡ 0) × (inner.old.me.0.known.stage.hand ≡ None) }
        requires origin { inner.old.me.0.origin ≡ Some self.now.origin }
        ensures seat { (inner.new.table_id ≡ inner.old.table_id) × (inner.new.id ≡ inner.old.id) × (inner.new.me.0.origin ≡ inner.old.me.0.origin) }
        ensures told { (x : Option (Parcel C)) × IsParcelOf C.is_of self.now.origin co x × (inner.new.me.1 ≡ (co, x) ∷ inner.old.me.1) × Opens co result (given_in x) inner.old.me.0.known inner.new.me.0.known }
    {
        self.table.shared.load::<OpenMark<C>>(inner, mark_word(co))
    }

    /// The first coroutine of the run is entered, and its slot goes back.
    pub(crate) fn clear_mark(&self, inner: &mut Inner<C>, co: u32)
        requires table { inner.old.table_id ≡ self.now.table }
        requires numbers { IsHomes inner.old.me.0.known }
        requires below { co < self.now.coroutines }
        requires run { (inner.old.me.0.known.stage.run ≡ co ∷ drop 1 inner.old.me.0.known.stage.run) × (inner.old.me.0.known.stage.word ≡ 0) × (inner.old.me.0.known.stage.hand ≡ Some co) }
        requires slot { inner.old.me.1 ≡ (co, None) ∷ [] }
        ensures seat { (inner.new.table_id ≡ inner.old.table_id) × (inner.new.id ≡ inner.old.id) × (inner.new.me.0.origin ≡ inner.old.me.0.origin) × (inner.new.me.1 ≡ []) }
        ensures told { IsFirstEntered co (drop 1 inner.old.me.0.known.stage.run) inner.old.me.0.known inner.new.me.0.known }
    {
        self.table
            .shared
            .store::<ClearMark>(inner, mark_word(co), 0)
    }
}
