//! The table itself. Its calls stand in the files beside this one.
use crate::about::About;
use crate::parcel::Parcel;
use crate::plays::CoRule;
use crate::view::View;
use atomic_table::Table;
use co_state::Origin;
use std::alloc::Global;
use std::marker::Model;

/// The table of the coroutines that are scheduled into one home. Contracts see which table it is, how many coroutines it has,
/// and their origin.
#[derive(Drop)]
pub struct CoTable<C: Origin> {
    pub(crate) table: Table<Option<Parcel<C>>, View<C::Source>, About<C>, CoRule<C>, Global>,
    pub(crate) coroutines: u32,
}

impl<C: Origin> Model for CoTable<C> {
    ghost use Rattle.std.specs.Prelude.{◌≡◌, ◌≤◌};
    ghost use Rattle.co_schedule.specs.Words.{word_count};
    ghost use Rattle.co_schedule.specs.Calls.{TableState};

    ghost Value = { TableState C.Source };

    ghost view = { λ t. record { table = t.table.shared.table_id; coroutines = t.table.shared.key.coroutines; origin = t.table.shared.key.origin.value } };

    ghost invariant = { λ t. (t.coroutines ≡ t.table.shared.key.coroutines) × (t.table.shared.table_id.words ≡ word_count t.table.shared.key.coroutines) × (t.table.shared.table_id.slots ≡ t.table.shared.key.coroutines) × (t.table.shared.key.coroutines ≤ 64) };
}
