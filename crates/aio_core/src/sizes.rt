//! The sizes of a table, as its rule is told them.
use std::marker::Model;

/// How many handles, lots and events a loop has.
#[derive(Clone, Copy, Debug)]
pub struct Counts {
    pub handles: u32,
    pub lots: u32,
    pub events: u32,
}

impl Model for Counts {
    ghost use Rattle.aio_model.specs.Loop.History.{Sizes};

    ghost Value = { Sizes };

    ghost view = { λ c. record { handles = c.handles; lots = c.lots; events = c.events } };

    ghost inverse = { λ s. record { handles = s.handles; lots = s.lots; events = s.events } };
}
