//! A coroutine on its way to another loop.
ghost use Rattle.std.specs.Prelude.{◌≡◌, None, Some, MatchOption};

/// A coroutine that is to move to a loop where its number was scheduled and not entered yet.
#[derive(Debug, PartialEq, Eq, Drop)]
pub struct Leaving<C> {
    pub to: u32,
    pub state: C,
}

/// What a post handed back is kept for the same loop.
pub(crate) fn kept<C>(to: u32, state: Option<C>) -> Option<Leaving<C>>
    ensures { MatchOption state (result ≡ None) (λ co. result ≡ Some (record { to = to; state = co })) }
{
    match state {
        Some(state) => Some(Leaving { to, state }),
        None => None,
    }
}
