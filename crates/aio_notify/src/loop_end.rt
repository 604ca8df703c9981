//! What settling a loop answers.
ghost use Rattle.std.specs.Prelude.{◌≡◌};
ghost use Rattle.aio_notify.specs.Settling.{IsEnd};

use aio_core::{Home, Job, LoopTable, Seat, Whole};
use std::marker::Model;

/// A loop that has come to its end, with its whole history. `settle` alone makes one. Contracts see its table, and what its one seat
/// knows, which has all numbers: nothing is pending in that history, and no event is set.
#[derive(Drop)]
pub struct LoopEnd<J: Job> {
    whole: Whole<J>,
}

impl<J: Job> Model for LoopEnd<J> {
    ghost use Rattle.aio_core.specs.Calls.{SeatState};
    ghost use Rattle.aio_notify.specs.Settling.{IsEnd};

    ghost Value = { SeatState };

    ghost view = { λ e. e.whole.seat };

    ghost invariant = { λ e. IsEnd e.whole.seat.known };
}

impl<J: Job> LoopEnd<J> {
    pub(crate) fn of(whole: Whole<J>) -> LoopEnd<J>
        requires { IsEnd whole.seat.known }
        ensures { result ≡ whole.seat }
    {
        LoopEnd { whole }
    }

    /// An end is one: the facts of its type, for whoever was handed it.
    pub fn is_end(&self)
        ensures { IsEnd self.now.known }
    {
        let _ = &self.whole;
    }
}

/// A loop that isn't at its end, as it was: home is still committed.
#[derive(Drop)]
pub struct Unsettled<J: Job> {
    pub table: LoopTable<J>,
    pub home: Home<J>,
    pub seat: Seat<J>,
    /// Whether the notifier was found set, so that a wait returns.
    pub notifier: bool,
}

/// What settling a loop answers.
#[derive(Drop)]
pub enum Settled<J: Job> {
    /// Nothing is pending, and no event is set.
    Quiet(LoopEnd<J>),
    /// The least index that is pending.
    Pending(u32, Unsettled<J>),
    /// The least event that is set, where nothing is pending.
    Event(u32, Unsettled<J>),
}
