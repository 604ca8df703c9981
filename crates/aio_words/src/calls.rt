//! What the objects in memory have in common: counts of calls, and lists of those that fail.

// What the objects in memory share: calls are numbered from 0, and those of listed numbers fail.
ghost use Rattle.std.specs.Prelude.{◌≡◌, IfOk};
ghost use Rattle.aio_words.specs.Calls.{is_listed};
ghost use Rattle.aio_model.specs.Counts.{one_more};

use crate::NoMemory;
use std::alloc::Global;

/// Whether the call of this number is to fail.
pub(crate) fn is_listed(fails: &[u32], call: u64) -> bool
    ensures { result ≡ is_listed fails.now call }
{
    fails.iter().any(|listed| u64::from(*listed) == call)
}

pub(crate) fn one_more(count: u64) -> u64
    ensures { result ≡ one_more count }
{
    count.saturating_add(1)
}

pub(crate) fn copy_of<T: Copy>(alloc: Global, items: &[T]) -> Result<Vec<T>, NoMemory>
    ensures { IfOk result (λ copy. copy.items ≡ items.now) }
{
    match Vec::from_slice(alloc, items) {
        Ok(copy) => Ok(copy),
        Err(_) => Err(NoMemory),
    }
}
