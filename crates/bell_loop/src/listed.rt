//! The lists of actions of a loop script's handles.
ghost use Rattle.std.specs.Prelude.{◌≡◌, map, [], IfOk};
ghost use Rattle.aio_model.specs.Scripts.LoopActs as Spec;
ghost use Rattle.bell_loop.specs.Entering.{AreListsOf};

use aio_model::{Act, ActKind};
use std::alloc::{AllocError, Global};

/// The actions of a handle's callback, in order.
fn acts_of(alloc: Global, acts: &[Act], bh: u32) -> Result<Vec<ActKind>, AllocError>
    ensures { IfOk result (λ v. v.items ≡ Spec.acts_of acts.now bh) }
{
    acts.iter()
        .filter(|act| act.bh == bh)
        .map(|act| act.what)
        .collect(alloc)
}

/// The actions of each handle's callback.
pub fn lists_of(alloc: Global, acts: &[Act], handles: u32) -> Result<Vec<Vec<ActKind>>, AllocError>
    ensures { IfOk result (λ lists. AreListsOf handles acts.now (map (λ list. list.items) lists.items)) }
{
    let mut lists = Vec::new(alloc);
    for bh in 0..handles {
        lists.push(acts_of(alloc, acts, bh)?)?;
    }
    Ok(lists)
}
