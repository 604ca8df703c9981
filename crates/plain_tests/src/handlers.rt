//! Handlers and walks, beside what their calls leave.
ghost use Rattle.std.specs.Prelude.{◌≡◌, ◌<◌, IsTrue, IsFalse, IfOk};

use aio_handlers::{AddRefusal, HandlerId, Handlers, Ready, Removed};
use aio_model::{HandlerCall, HandlerState, handler_state};
use std::alloc::Global;
use std::process::Abort;
use std::test::Fail;

const FIRST: HandlerId = HandlerId { number: 0 };

const SECOND: HandlerId = HandlerId { number: 1 };

const THIRD: HandlerId = HandlerId { number: 2 };

fn built(rt: &impl Abort, alloc: Global, room: u32) -> Handlers
    ensures { IsFalse result.walking }
{
    Handlers::build(alloc, room).expect(rt, "there is memory")
}

#[test]
fn a_handler_removed_in_a_walk_is_not_given(rt: HostRuntime) {
    let mut handlers = built(&rt, rt.alloc(), 2);
    assert_eq!(rt; handlers.add(0, 10), Ok(FIRST));
    assert_eq!(rt; handlers.add(1, 11), Ok(SECOND));
    assert_eq!(rt; handlers.add(0, 12), Err(AddRefusal::Taken(FIRST)));
    assert_eq!(rt; handlers.add(2, 12), Err(AddRefusal::Full));
    assert_eq!(rt; handlers.watch(), 3);
    handlers.walk_begin(3);
    assert_eq!(rt;
        handlers.next_ready(),
        Some(Ready {
            id: FIRST,
            event: 0,
            tag: 10
        })
    );
    assert_eq!(rt; handlers.remove(FIRST), Removed::Marked(10));
    assert_eq!(rt; handlers.remove(SECOND), Removed::Marked(11));
    assert_eq!(rt; handlers.add(2, 12), Err(AddRefusal::Full));
    assert_eq!(rt; handlers.next_ready(), None);
    assert_eq!(rt; handlers.walk_end(), 2);
    assert_eq!(rt; handlers.remove(FIRST), Removed::Gone);
    assert_eq!(rt; handlers.watch(), 0);
}

#[test]
fn a_handler_added_in_a_walk_is_not_given(rt: HostRuntime) {
    let mut handlers = built(&rt, rt.alloc(), 4);
    assert_eq!(rt; handlers.add(0, 10), Ok(FIRST));
    assert_eq!(rt; handlers.add(1, 11), Ok(SECOND));
    assert_eq!(rt; handlers.add(2, 12), Ok(THIRD));
    handlers.walk_begin(7);
    assert_eq!(rt;
        handlers.next_ready(),
        Some(Ready {
            id: FIRST,
            event: 0,
            tag: 10
        })
    );
    assert_eq!(rt; handlers.remove(SECOND), Removed::Marked(11));
    assert_eq!(rt; handlers.add(1, 21), Ok(HandlerId { number: 3 }));
    assert_eq!(rt;
        handlers.next_ready(),
        Some(Ready {
            id: THIRD,
            event: 2,
            tag: 12
        })
    );
    assert_eq!(rt; handlers.next_ready(), None);
    assert_eq!(rt; handlers.walk_end(), 1);
}

#[test]
fn a_walk_gives_found_events_in_order_of_adding(rt: HostRuntime) {
    let mut handlers = built(&rt, rt.alloc(), 3);
    assert_eq!(rt; handlers.add(63, 5), Ok(FIRST));
    assert_eq!(rt; handlers.add(4, 6), Ok(SECOND));
    assert_eq!(rt; handlers.add(9, 7), Ok(THIRD));
    handlers.walk_begin(1 << 63 | 1 << 9);
    assert_eq!(rt;
        handlers.next_ready(),
        Some(Ready {
            id: FIRST,
            event: 63,
            tag: 5
        })
    );
    assert_eq!(rt;
        handlers.next_ready(),
        Some(Ready {
            id: THIRD,
            event: 9,
            tag: 7
        })
    );
    assert_eq!(rt; handlers.next_ready(), None);
    assert_eq!(rt; handlers.walk_end(), 0);
    assert_eq!(rt; handlers.remove(SECOND), Removed::Freed(6));
    assert_eq!(rt; handlers.add(4, 8), Ok(HandlerId { number: 3 }));
}

/// How many handlers there may be in the generated calls.
const ROOM: u32 = 4;

/// Pseudo-random numbers.
fn shuffled(seed: u32) -> u32 {
    seed.wrapping_mul(1664525).wrapping_add(1013904223)
}

/// What an add answers after calls that left this.
fn add_answer(state: &HandlerState, event: u32) -> Result<HandlerId, AddRefusal> {
    for handler in &state.live {
        if handler.event == event {
            return Err(AddRefusal::Taken(HandlerId { number: handler.id }));
        }
    }
    if state.live.len().saturating_add(state.marked) >= ROOM as usize {
        return Err(AddRefusal::Full);
    }
    match u32::try_from(state.added) {
        Ok(number) => Ok(HandlerId { number }),
        Err(_) => Err(AddRefusal::Worn),
    }
}

fn remove_answer(state: &HandlerState, id: u32) -> Removed {
    for handler in &state.live {
        if handler.id == id {
            return if state.is_walking {
                Removed::Marked(handler.tag)
            } else {
                Removed::Freed(handler.tag)
            };
        }
    }
    Removed::Gone
}

fn next_answer(state: &HandlerState) -> Option<Ready> {
    let handler = state.waiting.first()?;
    Some(Ready {
        id: HandlerId { number: handler.id },
        event: handler.event,
        tag: handler.tag,
    })
}

fn watch_answer(state: &HandlerState) -> u64 {
    let mut bits = 0;
    for handler in &state.live {
        bits |= 1u64.checked_shl(handler.event).unwrap_or(0);
    }
    bits
}

/// Adds a handler, and compares the answer. The call, where it changed anything.
fn added(
    rt: &impl Abort,
    handlers: &mut Handlers,
    state: &HandlerState,
    event: u32,
    tag: u64,
) -> Option<HandlerCall>
    requires { event < 64 }
    ensures { handlers.new.walking ≡ handlers.old.walking }
{
    let answer = handlers.add(event, tag);
    assert_eq!(rt; answer, add_answer(state, event));
    let id = answer.ok()?;
    Some(HandlerCall::Add {
        id: id.number,
        event,
        tag,
    })
}

fn removed(
    rt: &impl Abort,
    handlers: &mut Handlers,
    state: &HandlerState,
    id: u32,
) -> Option<HandlerCall>
    ensures { handlers.new.walking ≡ handlers.old.walking }
{
    let answer = handlers.remove(HandlerId { number: id });
    assert_eq!(rt; answer, remove_answer(state, id));
    Some(HandlerCall::Remove { id })
}

fn given(rt: &impl Abort, handlers: &mut Handlers, state: &HandlerState) -> Option<HandlerCall>
    requires { IsTrue handlers.old.walking }
    ensures { IsTrue handlers.new.walking }
{
    let ready = handlers.next_ready();
    assert_eq!(rt; ready, next_answer(state));
    let ready = ready?;
    Some(HandlerCall::Give {
        id: ready.id.number,
    })
}

fn ended(rt: &impl Abort, handlers: &mut Handlers, state: &HandlerState) -> Option<HandlerCall>
    requires { IsTrue handlers.old.walking }
    ensures { IsFalse handlers.new.walking }
{
    let freed = handlers.walk_end();
    assert_eq!(rt; freed as usize, state.marked);
    Some(HandlerCall::WalkEnd)
}

fn begun(handlers: &mut Handlers, found: u64) -> Option<HandlerCall>
    requires { IsFalse handlers.old.walking }
    ensures { IsTrue handlers.new.walking }
{
    handlers.walk_begin(found);
    Some(HandlerCall::WalkBegin { found })
}

/// Makes one call, as the number says, and compares its answer. Whether a walk is under way then.
fn step(
    rt: &impl Abort,
    alloc: Global,
    handlers: &mut Handlers,
    calls: &mut Vec<HandlerCall>,
    is_walking: bool,
    number: u32,
) -> Result<bool, Fail>
    requires { handlers.old.walking ≡ is_walking }
    ensures { IfOk result (λ walks. handlers.new.walking ≡ walks) }
{
    let state = handler_state(alloc, calls)?;
    assert_eq!(rt; handlers.watch(), watch_answer(&state));
    let part = number / 65536;
    let newest = u32::try_from(state.added).unwrap_or(0);
    let (call, walks) = match number / 2097152 % 8 {
        0 | 1 => {
            let call = added(rt, handlers, &state, 58 + part % 6, u64::from(number));
            (call, is_walking)
        }
        2 | 3 => {
            let call = removed(rt, handlers, &state, newest.saturating_sub(part % 6));
            (call, is_walking)
        }
        4 if is_walking => (ended(rt, handlers, &state), false),
        _ if is_walking => (given(rt, handlers, &state), true),
        _ => (begun(handlers, u64::from(part / 256 % 64) << 58), true),
    };
    if let Some(call) = call {
        calls.push(call)?;
    }
    Ok(walks)
}

/// Makes some calls one after the other, and compares all that they answer. The numbers go on from the last one.
fn compared(rt: &impl Abort, alloc: Global, seed: u32) -> Result<u32, Fail> {
    let mut handlers = built(rt, alloc, ROOM);
    let mut calls = Vec::new(alloc);
    let mut number = seed;
    let mut is_walking = false;
    for _ in 0..40 {
        number = shuffled(number);
        is_walking = step(rt, alloc, &mut handlers, &mut calls, is_walking, number)?;
    }
    Ok(number)
}

#[test]
fn answers_as_the_slow_look_up_says(rt: HostRuntime) -> Result<(), Fail> {
    let mut number = 1;
    for _ in 0..2000 {
        number = compared(&rt, rt.alloc(), number)?;
    }
    Ok(())
}
