//! The steps on a list of indices, looked up slowly, for the tests to compare with.
ghost use Rattle.std.specs.Prelude.{◌≡◌, IfOk};
ghost use Rattle.aio_chain.specs.LinkList.{contains, next_after, put_before, without};

use std::alloc::{AllocError, Global};

pub(crate) fn is_in(items: &[u32], i: u32) -> bool
    ensures { result ≡ contains i items.now }
{
    for item in items {
        if i == *item {
            return true;
        }
    }
    false
}

pub(crate) fn next_after(items: &[u32], i: u32) -> Option<u32>
    ensures { result ≡ next_after i items.now }
{
    let mut is_found = false;
    for item in items {
        if is_found {
            return Some(*item);
        }
        is_found = i == *item;
    }
    None
}

pub(crate) fn put_before(
    alloc: Global,
    items: &[u32],
    at: u32,
    i: u32,
) -> Result<Vec<u32>, AllocError>
    ensures { IfOk result (λ more. more.items ≡ put_before at i items.now) }
{
    let mut more = Vec::new(alloc);
    let mut is_put = false;
    for item in items {
        if !is_put && at == *item {
            more.push(i)?;
            is_put = true;
        }
        more.push(*item)?;
    }
    Ok(more)
}

pub(crate) fn without(alloc: Global, items: &[u32], i: u32) -> Result<Vec<u32>, AllocError>
    ensures { IfOk result (λ fewer. fewer.items ≡ without i items.now) }
{
    let mut fewer = Vec::new(alloc);
    for item in items {
        if i != *item {
            fewer.push(*item)?;
        }
    }
    Ok(fewer)
}
