//! What the home does: it takes the list whole, and enters the coroutines that it took, after co_schedule_bh_cb of QEMU's util/async.c.
//! A walk over the list meets the newest first, so the run is filled from its end.
ghost use Rattle.std.specs.Prelude.{◌≡◌, ◌<◌, ◌≤◌, ◌+◌, [], ◌∷◌, None, Some, drop, true, MatchOption};
ghost use Rattle.co_schedule.specs.Parcels.{IsStateOf, has_some};
ghost use Rattle.co_schedule.specs.Calls.{are_within, IsSeatOf, HasTaken, HasBegunFirst};
ghost use Rattle.co_schedule.specs.Known.{IsHomes};

use crate::counting::count_state;
use crate::homes::CoHome;
use crate::plays::Inner;
use crate::runs::CoRun;
use crate::schedule::state_of;
use crate::table::CoTable;
use aio_bh::Call;
use co_state::Origin;

impl<C: Origin + Drop> CoTable<C> {
    /// The coroutine to which a word of the list leads.
    pub(crate) fn co_of(&self, word: u64) -> u32
        requires some { 0 < word }
        requires below { word ≤ self.now.coroutines }
        ensures { result + 1 ≡ word }
    {
        let _coroutines = self.coroutines;
        (word - 1) as u32
    }

    /// Takes all that was pushed by one swap, and walks over it.
    pub(crate) fn take_list(&self, inner: &mut Inner<C>, run: &mut CoRun)
        requires table { (inner.old.table_id ≡ self.now.table) × (inner.old.me.0.known.coroutines ≡ self.now.coroutines) }
        requires numbers { IsHomes inner.old.me.0.known }
        requires free { (inner.old.me.0.known.stage.word ≡ 0) × (inner.old.me.0.known.stage.run ≡ []) × (inner.old.me.0.known.stage.hand ≡ None) }
        requires run { (run.old.cos ≡ []) × (self.now.coroutines ≤ run.old.room) }
        ensures seat { (inner.new.table_id ≡ inner.old.table_id) × (inner.new.id ≡ inner.old.id) × (inner.new.me.0.origin ≡ inner.old.me.0.origin) × (inner.new.me.1 ≡ inner.old.me.1) }
        ensures taken { HasTaken inner.old.me.0.known inner.new.me.0.known }
        ensures over { (inner.new.me.0.known.stage.word ≡ 0) × (inner.new.me.0.known.stage.hand ≡ None) × (inner.new.me.0.known.stage.run ≡ inner.new.me.0.known.stage.taken) }
        ensures within { are_within inner.new.me.0.known.coroutines inner.new.me.0.known.stage.taken ≡ true }
        ensures run { run.new ≡ record run.old { cos = inner.new.me.0.known.stage.taken } }
    {
        let mut word = self.swap_head(inner);
        while word != 0 {
            let co = self.co_of(word);
            run.push(co);
            word = self.load_next(inner, co);
        }
    }

    /// Enters the first coroutine of the run: its state comes out, and then its mark is cleared.
    fn begin_first(&self, inner: &mut Inner<C>, co: u32) -> Option<C>
        requires table { inner.old.table_id ≡ self.now.table }
        requires numbers { IsHomes inner.old.me.0.known }
        requires below { co < self.now.coroutines }
        requires run { (inner.old.me.0.known.stage.run ≡ co ∷ drop 1 inner.old.me.0.known.stage.run) × (inner.old.me.0.known.stage.word ≡ 0) × (inner.old.me.0.known.stage.hand ≡ None) }
        requires taken { inner.old.me.0.known.stage.run ≡ inner.old.me.0.known.stage.taken }
        requires within { are_within inner.old.me.0.known.coroutines inner.old.me.0.known.stage.taken ≡ true }
        requires origin { inner.old.me.0.origin ≡ Some self.now.origin }
        requires slots { inner.old.me.1 ≡ [] }
        ensures seat { (inner.new.table_id ≡ inner.old.table_id) × (inner.new.id ≡ inner.old.id) × (inner.new.me.0.origin ≡ inner.old.me.0.origin) × (inner.new.me.1 ≡ []) }
        ensures of { IsStateOf C.is_of co self.now.origin result }
        ensures begun { HasBegunFirst co (has_some result) inner.old.me.0.known inner.new.me.0.known }
        ensures over { (inner.new.me.0.known.stage.word ≡ 0) × (inner.new.me.0.known.stage.hand ≡ None) × (inner.new.me.0.known.stage.run ≡ inner.new.me.0.known.stage.taken) }
        ensures within { are_within inner.new.me.0.known.coroutines inner.new.me.0.known.stage.taken ≡ true }
    {
        self.load_mark(inner, co);
        let parcel = self.table.shared.exchange(inner, co as usize, None);
        self.clear_mark(inner, co);
        state_of(parcel)
    }

    /// Takes all that was pushed, by one atomic step, as the run of those to begin, in order of pushing. The home thread, in the
    /// callback of handle 0 of its loop. It takes no memory.
    pub fn take_all<J>(&self, home: &mut CoHome<C>, run: &mut CoRun, call: &Call<J>)
        requires home { IsSeatOf self.now home.old }
        requires none_taken { home.old.known.stage.taken ≡ [] }
        requires empty { run.old.cos ≡ [] }
        requires room { self.now.coroutines ≤ run.old.room }
        requires handle { call.now.bh ≡ 0 }
        ensures home { IsSeatOf self.now home.new }
        ensures taken { HasTaken home.old.known home.new.known }
        ensures run { run.new ≡ record run.old { cos = home.new.known.stage.taken } }
    {
        let _call = call;
        self.take_list(&mut home.inner, run);
    }

    /// Enters the next coroutine of the run that this home has taken: its state, if its schedule gave one, comes out, and it may be
    /// scheduled again. None at the end of the run. The home thread.
    pub fn begin(&self, home: &mut CoHome<C>, run: &mut CoRun) -> Option<(u32, Option<C>)>
        requires home { IsSeatOf self.now home.old }
        requires run { run.old.cos ≡ home.old.known.stage.taken }
        ensures home { IsSeatOf self.now home.new }
        ensures run { run.new ≡ record run.old { cos = home.new.known.stage.taken } }
        ensures begun { MatchOption result ((home.old.known.stage.taken ≡ []) × (home.new ≡ home.old)) (λ begun. (begun.0 < self.now.coroutines) × HasBegunFirst begun.0 (has_some begun.1) home.old.known home.new.known × IsStateOf C.is_of begun.0 self.now.origin begun.1) }
    {
        let co = run.pop()?;
        let state = self.begin_first(&mut home.inner, co);
        home.states = count_state(home.states, &state);
        Some((co, state))
    }
}
