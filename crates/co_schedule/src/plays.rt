//! The rule of the table, and what each step tells. No value of these types is made.
use crate::about::About;
use crate::parcel::Parcel;
use crate::view::View;
use atomic_table::{Join, Play, Split, TableRule};
use co_state::Origin;
use std::marker::PhantomData;

/// What lies in a slot.
pub type Slot<C> = Option<Parcel<C>>;

/// A seat of the base crate.
pub type Inner<C> = atomic_table::Seat<Option<Parcel<C>>, View<<C as Origin>::Source>>;

pub struct CoRule<C: Origin> {
    coroutine: PhantomData<C>,
}

impl<C: Origin> TableRule<Option<Parcel<C>>, View<C::Source>, About<C>> for CoRule<C> {
    ghost use Rattle.std.specs.Prelude.{Some};
    ghost use Rattle.co_schedule.specs.Known.{first_known};
    ghost use Rattle.co_schedule.specs.Held.{AllOfOrigin};
    ghost use Rattle.co_schedule.specs.Slots.{Kept};
    ghost use Rattle.co_schedule.specs.Parcels.{given_in, IsParcelOf};

    ghost holds = { λ k s. AllOfOrigin (Kept given_in (IsParcelOf C.is_of k.origin.value) k.coroutines) k.origin.value s };

    ghost first = { λ k. record { known = first_known k.coroutines; origin = Some k.origin.value } };
}

pub struct Mark<C: Origin> {
    coroutine: PhantomData<C>,
}

impl<C: Origin> Play<Option<Parcel<C>>, View<C::Source>> for Mark<C> {
    ghost use Rattle.co_schedule.specs.Held.{TellsHeld};
    ghost use Rattle.co_schedule.specs.Plays.{marked};
    ghost use Rattle.co_schedule.specs.Parcels.{cause_in, given_in};

    ghost then = { TellsHeld (marked cause_in given_in) };
}

pub struct LoadHead;

impl<S, O> Play<S, View<O>> for LoadHead {
    ghost use Rattle.co_schedule.specs.Held.{TellsHeld};
    ghost use Rattle.co_schedule.specs.Plays.{head_loaded};

    ghost then = { TellsHeld head_loaded };
}

pub struct StoreNext;

impl<S, O> Play<S, View<O>> for StoreNext {
    ghost use Rattle.co_schedule.specs.Held.{TellsHeld};
    ghost use Rattle.co_schedule.specs.Plays.{next_stored};

    ghost then = { TellsHeld next_stored };
}

pub struct CompareHead;

impl<S, O> Play<S, View<O>> for CompareHead {
    ghost use Rattle.co_schedule.specs.Held.{TellsHeld};
    ghost use Rattle.co_schedule.specs.Plays.{head_compared};

    ghost then = { TellsHeld head_compared };
}

pub struct Take;

impl<S, O> Play<S, View<O>> for Take {
    ghost use Rattle.co_schedule.specs.Held.{TellsHeld};
    ghost use Rattle.co_schedule.specs.Plays.{taken};

    ghost then = { TellsHeld taken };
}

pub struct LoadNext;

impl<S, O> Play<S, View<O>> for LoadNext {
    ghost use Rattle.co_schedule.specs.Held.{TellsHeld};
    ghost use Rattle.co_schedule.specs.Plays.{next_loaded};

    ghost then = { TellsHeld next_loaded };
}

/// The load of a mark in `begin`, by which the slot comes out.
pub struct OpenMark<C: Origin> {
    coroutine: PhantomData<C>,
}

impl<C: Origin> Play<Option<Parcel<C>>, View<C::Source>> for OpenMark<C> {
    ghost use Rattle.co_schedule.specs.Held.{TellsHeld};
    ghost use Rattle.co_schedule.specs.Plays.{opened};
    ghost use Rattle.co_schedule.specs.Parcels.{given_in, IsOfSome};

    ghost then = { λ st m n w. TellsHeld (opened given_in (IsOfSome C.is_of m.0.origin)) st m n w };
}

pub struct ClearMark;

impl<S, O> Play<S, View<O>> for ClearMark {
    ghost use Rattle.co_schedule.specs.Held.{TellsHeld};
    ghost use Rattle.co_schedule.specs.Plays.{entered};

    ghost then = { TellsHeld entered };
}

/// The home's number goes to a seat of its own.
pub struct CutHome;

impl<O> Split<View<O>> for CutHome {
    ghost use Rattle.co_schedule.specs.Held.{seats_of, home_of};

    ghost left = { seats_of };

    ghost right = { home_of };
}

/// The last half of the numbers goes to a new seat.
pub struct Halves;

impl<O> Split<View<O>> for Halves {
    ghost use Rattle.co_schedule.specs.Held.{first_half, last_half};

    ghost left = { first_half };

    ghost right = { last_half };
}

/// A seat takes in another's numbers, and what it has seen.
pub struct Together;

impl<O> Join<View<O>> for Together {
    ghost use Rattle.co_schedule.specs.Held.{joined_of, spent_held};

    ghost both = { joined_of };

    ghost spent = { spent_held };
}

/// The load by which a seat learns what a join has told.
pub struct Learn;

impl<S, O> Play<S, View<O>> for Learn {
    ghost use Rattle.co_schedule.specs.Held.{TellsHeld};
    ghost use Rattle.co_schedule.specs.Plays.{learned};

    ghost then = { TellsHeld learned };
}

/// The load of a mark by who owns all numbers.
pub struct LookAtMark;

impl<S, O> Play<S, View<O>> for LookAtMark {
    ghost use Rattle.co_schedule.specs.Held.{TellsHeld};
    ghost use Rattle.co_schedule.specs.Plays.{mark_seen};

    ghost then = { TellsHeld mark_seen };
}
