//! Handlers by their events: an event has one live handler at most.
ghost use Rattle.std.specs.Prelude.{◌≡◌, ◌<◌, [], filter, IfSome};
ghost use Rattle.aio_chain.specs.LinkList.{without, IsLinked};
ghost use Rattle.aio_model.specs.Handlers.Calls.{has_event};
ghost use Rattle.aio_handlers.specs.Slots.{slot_of, event_named};
ghost use Rattle.aio_handlers.specs.Placing.{AllHaveSlots};

use crate::places::Places;
use crate::watch::has_event;
use aio_chain::Links;

/// The event whose handler has this number.
pub(crate) fn event_named(places: &Places, live: &Links, id: u32) -> Option<u32>
    requires { AllHaveSlots places.now live.now.items }
    ensures named { result ≡ event_named (slot_of places.now) id live.now.items }
    ensures below { IfSome result (λ event. event < live.now.room) }
    ensures linked { IsLinked live.now }
{
    let mut at = live.first();
    while let Some(event) = at {
        if places.at(event).id == id {
            return Some(event);
        }
        at = live.next(event);
    }
    None
}

/// Takes all out of a list.
pub(crate) fn clear(links: &mut Links)
    ensures items { links.new.items ≡ [] }
    ensures room { links.new.room ≡ links.old.room }
{
    while let Some(first) = links.first() {
        links.unlink(first);
    }
}

/// Takes an event out of a list, where it is in it.
pub(crate) fn take_out(links: &mut Links, event: u32)
    ensures items { links.new.items ≡ without event links.old.items }
    ensures room { links.new.room ≡ links.old.room }
{
    if links.has(event) {
        links.unlink(event);
    }
}

/// Fills an empty list with the events of the live handlers that were found, in their order.
pub(crate) fn fill(waiting: &mut Links, live: &Links, found: u64)
    requires empty { waiting.old.items ≡ [] }
    requires room { waiting.old.room ≡ 64 }
    requires live_room { live.now.room ≡ 64 }
    ensures items { waiting.new.items ≡ filter (has_event found) live.now.items }
    ensures room { waiting.new.room ≡ 64 }
{
    let mut at = live.first();
    while let Some(event) = at {
        if has_event(found, event) {
            waiting.push_back(event);
        }
        at = live.next(event);
    }
}
