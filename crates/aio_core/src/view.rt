//! What the rule says of each seat.
use std::marker::Model;

/// What a seat knows. No value of it is ever made: it stands for what proofs say.
pub struct View {
    nothing: (),
}

impl Model for View {
    ghost use Rattle.aio_model.specs.Loop.History.{Sizes};
    ghost use Rattle.aio_core.specs.Known.{Known, first_known};

    ghost Value = { Known };

    ghost view = { λ _. first_known (record { handles = 0; lots = 0; events = 0 }) };
}
