//! The actions of a callback, done through the seat that it is lent.
ghost use Rattle.std.specs.Prelude.{◌≡◌, None, Some, MatchOption};
ghost use Rattle.aio_model.specs.declared.loops.flags.Flags.{Flags};
ghost use Rattle.aio_model.specs.Scripts.LoopActs as Spec;
ghost use Rattle.aio_model.specs.Scripts.LoopActs.{before_nest, behind_nest};
ghost use Rattle.aio_core.specs.Calls.{IsSeatOf};
ghost use Rattle.bell_loop.specs.Actions as Plain;
ghost use Rattle.bell_loop.specs.Actions.{some_asks, Acts, ActsAll, AreWithin, IsLent};
ghost use Rattle.aio_script.specs.Loop.Bounds.{CallsHandle};

use crate::Tag;
use aio_bh::BottomHalves;
use aio_core::{LoopTable, Seat};
use aio_model::ActKind;
use std::sync::Wait;

pub(crate) fn is_nest(what: ActKind) -> bool
    ensures { result ≡ Spec.is_nest what }
{
    match what {
        ActKind::Nest => true,
        _ => false,
    }
}

fn asks_one(what: ActKind) -> bool
    ensures { result ≡ Plain.is_notifying what }
{
    match what {
        ActKind::Schedule(_) | ActKind::Idle(_) | ActKind::Delete(_) => true,
        ActKind::Cancel(_) | ActKind::Nest => false,
    }
}

/// Whether some action before the next nest notifies the loop.
pub(crate) fn asks(todo: &[ActKind]) -> bool
    ensures { result ≡ some_asks (before_nest todo.now) }
{
    match todo {
        [] => false,
        [what, later @ ..] => {
            if is_nest(*what) {
                return false;
            }
            asks_one(*what) || asks(later)
        }
    }
}

/// Does one action; a nest is for the caller to do.
fn act<R: Wait>(rt: &R, table: &LoopTable<Tag>, seat: &mut Seat<Tag>, what: ActKind)
    requires within { CallsHandle table.now.sizes.handles what }
    requires lent { IsLent table.now seat.old }
    ensures seat { IsSeatOf table.now seat.new }
    ensures acts { Acts what seat.old.known seat.new.known }
{
    match what {
        ActKind::Schedule(i) => {
            table.schedule(rt, seat, i);
        }
        ActKind::Idle(i) => {
            table.schedule_idle(rt, seat, i);
        }
        ActKind::Delete(i) => {
            table.delete(rt, seat, i);
        }
        ActKind::Cancel(i) => {
            table.cancel(seat, i);
        }
        ActKind::Nest => {}
    }
}

/// Does one action, after which the seat can be lent again.
fn act_once<R: Wait>(rt: &R, table: &LoopTable<Tag>, seat: &mut Seat<Tag>, what: ActKind)
    requires within { CallsHandle table.now.sizes.handles what }
    requires lent { IsLent table.now seat.old }
    ensures lent { IsLent table.now seat.new }
    ensures acts { Acts what seat.old.known seat.new.known }
{
    act(rt, table, seat, what);
}

/// Does the actions before the next nest, and gives those behind it.
pub fn act_until_nest<'a, R: Wait>(
    rt: &R,
    table: &LoopTable<Tag>,
    seat: &mut Seat<Tag>,
    todo: &'a [ActKind],
) -> Option<&'a [ActKind]>
    requires within { AreWithin table.now.sizes.handles todo.now }
    requires lent { IsLent table.now seat.old }
    ensures lent { IsLent table.now seat.new }
    ensures acts { ActsAll (before_nest todo.now) seat.old.known seat.new.known }
    ensures later { MatchOption result (behind_nest todo.now ≡ None) (λ later. behind_nest todo.now ≡ Some later.now) }
{
    match todo {
        [] => None,
        [what, later @ ..] => {
            if is_nest(*what) {
                return Some(later);
            }
            act_once(rt, table, seat, *what);
            act_until_nest(rt, table, seat, later)
        }
    }
}
