//! A notice board that many read and one edits: a small user of `co_waits`, to read beside docs/CONTRACTS.md. What it
//! promises is proved by the clauses of `RwState` alone.
#![tactic(auto)]

ghost use Rattle.std.specs.Prelude.{◌≡◌, ◌≢◌, ℕ, ◌<◌, Some, IfSome};
ghost use Rattle.aio_model.specs.Holds.{Has};
ghost use Rattle.aio_model.specs.Holds.WhoHolds.{hold_of};
ghost use Rattle.co_waits.specs.declared.rw_state.RwState.{RwState};
ghost use Rattle.aio_model.specs.declared.holds.Hold.TheVariants.{Free, Reads, Writes, WaitsRead, WaitsWrite};

use co_waits::{Hold, RwAnswer, RwState};

/// Asks to edit while another edits. The answer is never Got, and the other goes on.
pub fn ask_beside(state: &mut RwState, editor: u32, who: u32)
    requires below { who < state.old.room }
    requires edits { hold_of state.old editor ≡ Writes }
    requires free { hold_of state.old who ≡ Free }
    ensures waits { hold_of state.new who ≡ WaitsWrite }
    ensures edits { hold_of state.new editor ≡ Writes }
    ensures room { state.new.room ≡ state.old.room }
{
    let answer = state.wrlock(who);
    let _ = state.hold(who);
    match answer {
        RwAnswer::Got | RwAnswer::Queued => {}
    }
}

/// Ends an edit. Whoever is named may go on: it waited, and now it reads or edits.
pub fn end(state: &mut RwState, editor: u32) -> Option<u32>
    requires { hold_of state.old editor ≡ Writes }
    ensures free { hold_of state.new editor ≡ Free }
    ensures another { IfSome result (λ who. Has (hold_of state.new who) × (who ≢ editor)) }
    ensures others { (other : ℕ) → other ≢ editor → result ≢ Some other → hold_of state.new other ≡ hold_of state.old other }
{
    state.unlock(editor)
}
