//! A new table, with the home's seat and one that has all other numbers.
ghost use Rattle.std.specs.Prelude.{◌≡◌, ◌≤◌, None, [], Some, true, IfOk};
ghost use Rattle.co_schedule.specs.Known.{first_known, AtRest};
ghost use Rattle.co_schedule.specs.Seating.{front_known, back_known};
ghost use Rattle.co_schedule.specs.Calls.{are_within, IsSeatOf, IsNew};
ghost use Rattle.co_schedule.specs.States.{states_taken};
ghost use Rattle.aio_model.specs.Counts.{counted};

use crate::about::About;
use crate::homes::CoHome;
use crate::plays::{CutHome, Inner};
use crate::seat::CoSeat;
use crate::table::CoTable;
use aio_model::NoMemory;
use atomic_table::Table;
use chosen::Chosen;
use co_state::Origin;
use std::alloc::{AllocError, Global};

/// A table, the seat of its home thread, and one that owns all other numbers.
#[derive(Drop)]
pub struct CoBuilt<C: Origin> {
    pub table: CoTable<C>,
    pub home: CoHome<C>,
    pub seat: CoSeat<C>,
}

impl<C: Origin + Drop> CoTable<C> {
    /// A table of so many coroutines, none of them scheduled, of the origin that the caller picks.
    fn lay(alloc: Global, coroutines: u32) -> Result<(CoTable<C>, Inner<C>), AllocError>
        ghost origin: { C.Source }
        requires { coroutines ≤ 64 }
        ensures { IfOk result (λ laid. (laid.0.coroutines ≡ coroutines) × (laid.0.origin ≡ origin) × (laid.1.table_id ≡ laid.0.table) × (laid.1.me ≡ (record { known = first_known coroutines; origin = Some origin }, []))) }
    {
        let words = vec![in alloc; 0; 1 + 2 * coroutines as usize]?;
        let about = About {
            coroutines,
            origin: Chosen::pick(),
        };
        let (table, seat) = Table::vacant(alloc, &words, coroutines as usize, &about)?;
        Ok((CoTable { table, coroutines }, seat))
    }

    /// Cuts the home's number off from a seat that has all. So many coroutines were entered with a state.
    pub(crate) fn open(self, mut inner: Inner<C>, states: u64) -> CoBuilt<C>
        requires table { inner.table_id ≡ self.table }
        requires sized { inner.me.0.known.coroutines ≡ self.coroutines }
        requires origin { inner.me.0.origin ≡ Some self.origin }
        requires numbers { (inner.me.0.known.first ≡ 0) × (inner.me.0.known.count ≡ 65) }
        requires rest { (inner.me.0.known.phase ≡ AtRest) × (inner.me.1 ≡ []) }
        requires over { (inner.me.0.known.stage.word ≡ 0) × (inner.me.0.known.stage.hand ≡ None) × (inner.me.0.known.stage.run ≡ inner.me.0.known.stage.taken) }
        requires within { are_within inner.me.0.known.coroutines inner.me.0.known.stage.taken ≡ true }
        requires states { states ≡ counted (states_taken inner.me.0.known.seen) }
        ensures table { result.table ≡ self }
        ensures home { IsSeatOf self result.home × (result.home.known ≡ back_known 64 inner.me.0.known) }
        ensures seat { IsSeatOf self result.seat × (result.seat.known ≡ front_known 64 inner.me.0.known) }
    {
        let home = self.table.shared.split_seat::<CutHome>(&mut inner);
        CoBuilt {
            table: self,
            home: CoHome::of(home, states),
            seat: CoSeat::of(inner, 0, 64),
        }
    }

    /// A table for so many coroutines, of an origin that the caller chooses and that never changes. None of them is scheduled. No later
    /// call takes memory.
    pub fn build(alloc: Global, coroutines: u32) -> Result<CoBuilt<C>, NoMemory>
        ghost origin: { C.Source }
        requires { coroutines ≤ 64 }
        ensures { IfOk result (λ built. IsNew coroutines origin built.table built.home built.seat) }
    {
        let Ok((table, seat)) = CoTable::lay(alloc, coroutines) else {
            return Err(NoMemory);
        };
        Ok(table.open(seat, 0))
    }
}
