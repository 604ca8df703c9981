//! Those that are kept because their number had a mark where they are to go.
ghost use Rattle.std.specs.Prelude.{◌≡◌, ◌<◌, length, Some, None, MatchOption, slice_index_or, slice_set};
ghost use Rattle.std.specs.FinMap as map;
ghost use Rattle.co_loop.specs.Crews.{far, IsCrew, SameCrew};
ghost use Rattle.co_loop.specs.Again.{is_kept, PostsAgain, PostsEachAgain};

use crate::crew::Crew;
use crate::entering::send_on;
use crate::leaving::Leaving;
use co_state::Origin;
use loop_rows::LoopShared;
use std::sync::Wait;

/// Takes what leaves out of its place, where it is kept.
fn take_leaving<C: Origin + Drop>(
    shared: &[LoopShared<C>],
    crew: &mut Crew<C>,
    co: u32,
) -> Option<Leaving<C>>
    requires crew { IsCrew C.is_of shared.now crew.old }
    requires below { co < crew.old.coroutines }
    ensures crew { IsCrew C.is_of shared.now crew.new }
    ensures same { SameCrew crew.old crew.new }
    ensures store { crew.new.store ≡ crew.old.store }
    ensures taken { result ≡ slice_index_or crew.old.leaving.items co None }
    ensures left { far crew.new ≡ record (far crew.old) { leaving = slice_set crew.old.leaving.items co None } }
    ensures fits { MatchOption result (Unit {0}) (λ left. C.is_of co left.state crew.new.store.origin × (left.to < length shared.now) × (map.get crew.new.store.held co ≡ None)) }
{
    let _shared = shared;
    crew.leaving[co as usize].take()
}

/// Posts one again that is kept.
fn post_kept<C: Origin + Drop, W: Wait>(
    rt: &W,
    shared: &[LoopShared<C>],
    crew: &mut Crew<C>,
    co: u32,
)
    requires crew { IsCrew C.is_of shared.now crew.old }
    requires below { co < crew.old.coroutines }
    ensures crew { IsCrew C.is_of shared.now crew.new }
    ensures same { SameCrew crew.old crew.new }
    ensures store { crew.new.store ≡ crew.old.store }
    ensures posts { PostsAgain co (far crew.old) (far crew.new) }
{
    if let Some(Leaving { to, state }) = take_leaving(shared, crew, co) {
        send_on(rt, shared, crew, co, state, to);
    }
}

/// Posts each again that is kept.
fn post_each_kept<C: Origin + Drop, W: Wait>(rt: &W, shared: &[LoopShared<C>], crew: &mut Crew<C>)
    requires crew { IsCrew C.is_of shared.now crew.old }
    ensures crew { IsCrew C.is_of shared.now crew.new }
    ensures same { SameCrew crew.old crew.new }
    ensures store { crew.new.store ≡ crew.old.store }
    ensures posts { PostsEachAgain crew.old.coroutines (far crew.old) (far crew.new) }
{
    for co in 0..crew.coroutines {
        post_kept(rt, shared, crew, co);
    }
}

/// Posts all again that are kept. Those whose number still has a mark are kept on.
pub(crate) fn post_all_kept<C: Origin + Drop, W: Wait>(
    rt: &W,
    shared: &[LoopShared<C>],
    crew: &mut Crew<C>,
)
    requires crew { IsCrew C.is_of shared.now crew.old }
    ensures crew { IsCrew C.is_of shared.now crew.new }
    ensures same { SameCrew crew.old crew.new }
    ensures store { crew.new.store ≡ crew.old.store }
    ensures posts { PostsEachAgain crew.old.coroutines (far crew.old) (far crew.new) }
{
    if keeps(&crew.leaving) {
        post_each_kept(rt, shared, crew);
    }
}

/// Whether any is kept.
pub(crate) fn keeps<C>(leaving: &[Option<Leaving<C>>]) -> bool
    ensures { result ≡ is_kept leaving.now }
{
    leaving.iter().any(|left| left.is_some())
}
