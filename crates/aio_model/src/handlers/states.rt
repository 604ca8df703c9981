//! What calls leave of a set of event handlers, looked up slowly.
ghost use Rattle.std.specs.Prelude.{◌≡◌, ◌≤◌, ◌<◌, ◌+◌, ◌∷◌, List, IfOk, filter, reverse, is_some};
ghost use Rattle.aio_model.specs.Handlers.Calls.{has_event, named, others};
ghost use Rattle.aio_model.specs.Handlers.States.{Tells};
ghost use Rattle.aio_model.specs.declared.handlers.calls.HandlerCall.{HandlerCall};

use crate::{Handler, HandlerCall};
use std::alloc::{AllocError, Global};

/// What calls left of a set of event handlers.
#[derive(Debug, Drop)]
pub struct HandlerState {
    /// How many were added.
    pub added: usize,
    /// Those that weren't removed, in order of adding.
    pub live: Vec<Handler>,
    pub is_walking: bool,
    /// Those that the walk has yet to give.
    pub waiting: Vec<Handler>,
    /// How many were removed in the walk.
    pub marked: usize,
}

/// Whether the bit of an event is set.
fn has_event(events: u64, event: u32) -> bool
    ensures { result ≡ has_event events event }
{
    event < 64 && events >> event & 1 == 1
}

/// All but the handler with this number.
fn others(alloc: Global, handlers: &[Handler], id: u32) -> Result<Vec<Handler>, AllocError>
    ensures { IfOk result (λ kept. kept.items ≡ others id handlers.now) }
{
    handlers
        .iter()
        .copied()
        .filter(|handler| handler.id != id)
        .collect(alloc)
}

/// The handlers whose events were found.
fn found_among(alloc: Global, handlers: &[Handler], found: u64) -> Result<Vec<Handler>, AllocError>
    ensures { IfOk result (λ kept. kept.items ≡ filter (λ handler. has_event found handler.event) handlers.now) }
{
    handlers
        .iter()
        .copied()
        .filter(|handler| has_event(found, handler.event))
        .collect(alloc)
}

/// Whether a handler has this number.
fn is_named(handlers: &[Handler], id: u32) -> bool
    ensures { result ≡ is_some (named id handlers.now) }
{
    for handler in handlers {
        if handler.id == id {
            return true;
        }
    }
    false
}

/// What one call more leaves.
fn after(alloc: Global, state: HandlerState, call: HandlerCall) -> Result<HandlerState, AllocError>
    requires added { state.added < usize.MAX }
    requires marked { state.marked < usize.MAX }
    ensures tells { IfOk result (λ later. (calls : List HandlerCall) → Tells state calls → Tells later (call ∷ calls)) }
    ensures added { IfOk result (λ later. later.added ≤ state.added + 1) }
    ensures marked { IfOk result (λ later. later.marked ≤ state.marked + 1) }
{
    let HandlerState {
        added,
        mut live,
        is_walking,
        waiting,
        marked,
    } = state;
    match call {
        HandlerCall::Add { id, event, tag } => {
            live.push(Handler { id, event, tag })?;
            Ok(HandlerState {
                added: added + 1,
                live,
                is_walking,
                waiting,
                marked,
            })
        }
        HandlerCall::Remove { id } => {
            let is_marked = is_walking && is_named(&live, id);
            Ok(HandlerState {
                added,
                live: others(alloc, &live, id)?,
                is_walking,
                waiting: others(alloc, &waiting, id)?,
                marked: if is_marked { marked + 1 } else { marked },
            })
        }
        HandlerCall::WalkBegin { found } => {
            let waiting = found_among(alloc, &live, found)?;
            Ok(HandlerState {
                added,
                live,
                is_walking: true,
                waiting,
                marked: 0,
            })
        }
        HandlerCall::Give { id } => Ok(HandlerState {
            added,
            live,
            is_walking,
            waiting: others(alloc, &waiting, id)?,
            marked,
        }),
        HandlerCall::WalkEnd => Ok(HandlerState {
            added,
            live,
            is_walking: false,
            waiting: Vec::new(alloc),
            marked: 0,
        }),
    }
}

/// What calls left of a set of handlers, the oldest call first: looked up slowly, for tests to compare with.
pub fn handler_state(alloc: Global, calls: &[HandlerCall]) -> Result<HandlerState, AllocError>
    ensures { IfOk result (λ state. Tells state (reverse calls.now)) }
{
    let mut state = HandlerState {
        added: 0,
        live: Vec::new(alloc),
        is_walking: false,
        waiting: Vec::new(alloc),
        marked: 0,
    };
    for call in calls {
        state = after(alloc, state, *call)?;
    }
    Ok(state)
}
