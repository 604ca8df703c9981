//! Two seats that schedule step by step, in every order.
ghost use Rattle.std.specs.Prelude.{◌≡◌};
ghost use Rattle.aio_core.specs.Calls.{IsSeatOf};

use crate::order::Order;
use crate::side::Side;
use aio_core::LoopTable;

/// Two seats, each of which schedules a handle.
pub struct Sides {
    pub one: Side,
    pub other: Side,
}

impl Sides {
    /// A step of one of the two, if there is one left.
    pub fn step(self, table: &LoopTable<u64>, order: &mut Order) -> Sides
        requires one { IsSeatOf table.now self.one.seat }
        requires other { IsSeatOf table.now self.other.seat }
        requires handles { table.now.sizes.handles ≡ 2 }
        ensures one { IsSeatOf table.now result.one.seat }
        ensures other { IsSeatOf table.now result.other.seat }
    {
        let Sides { one, other } = self;
        let is_others = one.has_ended() || (!other.has_ended() && order.is_others());
        if is_others {
            Sides {
                one,
                other: other.steps(table),
            }
        } else {
            Sides {
                one: one.steps(table),
                other,
            }
        }
    }

    /// So many steps.
    pub fn steps(self, table: &LoopTable<u64>, order: &mut Order, count: u32) -> Sides
        requires one { IsSeatOf table.now self.one.seat }
        requires other { IsSeatOf table.now self.other.seat }
        requires handles { table.now.sizes.handles ≡ 2 }
        ensures one { IsSeatOf table.now result.one.seat }
        ensures other { IsSeatOf table.now result.other.seat }
    {
        let mut sides = self;
        for _ in 0..count {
            sides = sides.step(table, order);
        }
        sides
    }

    /// Whether the notify of one has ended.
    pub fn has_one_ended(&self) -> bool {
        self.one.has_ended() || self.other.has_ended()
    }

    /// Whether the notify of one has set the notifier.
    pub fn has_one_woken(&self) -> bool {
        self.one.has_woken() || self.other.has_woken()
    }
}
