//! What calls leave of one timer, looked up slowly.
ghost use Rattle.std.specs.Prelude.{◌≡◌, ◌∷◌, List, length, reverse};
ghost use Rattle.aio_model.specs.Timers.States.{Tells};
ghost use Rattle.aio_model.specs.declared.timers.calls.TimerCall.{TimerCall};
ghost use Rattle.aio_model.specs.Timers.Calls.{from_zero};

use crate::TimerCall;

/// What calls left of one timer.
#[derive(Clone, Copy, Debug, PartialEq, Eq)]
pub struct TimerState {
    pub is_armed: bool,
    pub is_marked: bool,
    pub expiry: u64,
    /// How many calls stood before its last arm.
    pub place: usize,
}

fn from_zero(expire: i64) -> u64
    ensures { result ≡ from_zero expire }
{
    if expire < 0 { 0 } else { expire as u64 }
}

/// What one call more leaves.
fn after(state: TimerState, call: TimerCall, timer: u32, place: usize) -> TimerState
    ensures { (calls : List TimerCall) → length calls ≡ place → Tells state timer calls → Tells result timer (call ∷ calls) }
{
    match call {
        TimerCall::Arm {
            timer: other,
            expire,
        } => {
            if other == timer {
                TimerState {
                    is_armed: true,
                    is_marked: false,
                    expiry: from_zero(expire),
                    place,
                }
            } else {
                state
            }
        }
        TimerCall::Disarm { timer: other } | TimerCall::Give { timer: other } => {
            if other == timer {
                TimerState {
                    is_armed: false,
                    is_marked: false,
                    expiry: state.expiry,
                    place: state.place,
                }
            } else {
                state
            }
        }
        TimerCall::RunBegin { now } => TimerState {
            is_armed: state.is_armed,
            is_marked: state.is_armed && state.expiry <= now,
            expiry: state.expiry,
            place: state.place,
        },
        TimerCall::Add => state,
    }
}

/// What calls left of a timer, the oldest call first: looked up slowly, for tests to compare with.
pub fn timer_state(calls: &[TimerCall], timer: u32) -> TimerState
    ensures { Tells result timer (reverse calls.now) }
{
    let mut state = TimerState {
        is_armed: false,
        is_marked: false,
        expiry: 0,
        place: 0,
    };
    for (place, call) in calls.iter().enumerate() {
        state = after(state, *call, timer, place);
    }
    state
}
