//! What the rule says of each seat.
use chosen::Chosen;
use std::marker::Model;

/// What a seat knows. No value of it is ever made: it stands for what proofs say.
pub struct View<O> {
    origin: Chosen<O>,
}

impl<O> Model for View<O> {
    ghost use Rattle.std.specs.Prelude.{Some};
    ghost use Rattle.co_schedule.specs.Held.{Held};
    ghost use Rattle.co_schedule.specs.Known.{Known, first_known};

    ghost Value = { Held O };

    ghost view = { λ v. record { known = first_known 0; origin = Some v.origin.value } };
}
