//! A seat that schedules step by step.
ghost use Rattle.std.specs.Prelude.{◌≡◌, ◌<◌};
ghost use Rattle.aio_model.specs.Loop.InFlight.{AtRest, Linked, ToLoad, flight_of};
ghost use Rattle.aio_core.specs.Calls.{IsSeatOf};
ghost use Rattle.order_tests.specs.Phases.{phase_after};

use crate::debt::Debt;
use aio_core::{Aimed, LoopTable, Seat};
use aio_model::Kind;

/// A seat that schedules a handle, step by step.
pub struct Side {
    seat: Seat<u64>,
    debt: Debt,
    bh: u32,
    ghost handle: { bh < 2 },
    ghost phase: { seat.known.phase ≡ phase_after debt seat.known.phase },
}

fn announce(table: &LoopTable<u64>, seat: &mut Seat<u64>, bh: u32) -> Debt
    requires seat { IsSeatOf table.now seat.old }
    requires rest { seat.old.known.phase ≡ AtRest }
    requires handle { bh < table.now.sizes.handles }
    ensures seat { IsSeatOf table.now seat.new }
    ensures phase { seat.new.known.phase ≡ phase_after result seat.new.known.phase }
{
    let (_, owed) = table.announce(seat, bh, Kind::Sched);
    match owed {
        Some(owed) => Debt::Aim(owed),
        None => Debt::StoreNotified,
    }
}

fn link(table: &LoopTable<u64>, seat: &mut Seat<u64>, aimed: Aimed) -> Debt
    requires seat { IsSeatOf table.now seat.old }
    requires phase { seat.old.known.phase ≡ Linked aimed.0 aimed.1 }
    ensures seat { IsSeatOf table.now seat.new }
    ensures phase { seat.new.known.phase ≡ phase_after result seat.new.known.phase }
{
    match table.link(seat, aimed) {
        Ok(()) => Debt::StoreNotified,
        Err(owed) => Debt::Aim(owed),
    }
}

fn load_notify_me(table: &LoopTable<u64>, seat: &mut Seat<u64>) -> Debt
    requires seat { IsSeatOf table.now seat.old }
    requires phase { seat.old.known.phase ≡ ToLoad (flight_of seat.old.known.phase) }
    ensures seat { IsSeatOf table.now seat.new }
    ensures phase { seat.new.known.phase ≡ phase_after result seat.new.known.phase }
{
    if table.load_notify_me(seat) {
        Debt::SetNotifier
    } else {
        Debt::Nothing(false)
    }
}

/// One step.
fn step(table: &LoopTable<u64>, seat: &mut Seat<u64>, debt: Debt, bh: u32) -> Debt
    requires seat { IsSeatOf table.now seat.old }
    requires handle { bh < table.now.sizes.handles }
    requires phase { seat.old.known.phase ≡ phase_after debt seat.old.known.phase }
    ensures seat { IsSeatOf table.now seat.new }
    ensures phase { seat.new.known.phase ≡ phase_after result seat.new.known.phase }
{
    match debt {
        Debt::Announce => announce(table, seat, bh),
        Debt::Aim(owed) => Debt::Link(table.aim(seat, owed)),
        Debt::Link(aimed) => link(table, seat, aimed),
        Debt::StoreNotified => {
            table.store_notified(seat);
            Debt::LoadNotifyMe
        }
        Debt::LoadNotifyMe => load_notify_me(table, seat),
        Debt::SetNotifier => {
            table.set_notifier(seat);
            Debt::Nothing(true)
        }
        Debt::Nothing(woke) => Debt::Nothing(woke),
    }
}

impl Side {
    pub fn of(seat: Seat<u64>, bh: u32) -> Side
        requires rest { seat.known.phase ≡ AtRest }
        requires handle { bh < 2 }
        ensures { result.seat ≡ seat }
    {
        Side {
            seat,
            debt: Debt::Announce,
            bh,
        }
    }

    /// The next step, if there is one left.
    pub fn steps(self, table: &LoopTable<u64>) -> Side
        requires seat { IsSeatOf table.now self.seat }
        requires handles { table.now.sizes.handles ≡ 2 }
        ensures seat { IsSeatOf table.now result.seat }
    {
        let Side { mut seat, debt, bh } = self;
        let debt = step(table, &mut seat, debt, bh);
        Side { seat, debt, bh }
    }

    /// Its notify has ended.
    pub fn has_ended(&self) -> bool {
        matches!(self.debt, Debt::Nothing(_))
    }

    /// Its notify has ended, and has set the notifier.
    pub fn has_woken(&self) -> bool {
        matches!(self.debt, Debt::Nothing(true))
    }
    /// What it is still to do.
    pub fn into_debt(self) -> Debt {
        let Side {
            seat: _,
            debt,
            bh: _,
        } = self;
        debt
    }
}
