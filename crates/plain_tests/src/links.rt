//! Linked indices, beside a plain list.
ghost use Rattle.std.specs.Prelude.{◌≡◌};

use crate::slow_lists::{is_in, next_after, put_before, without};
use aio_chain::Links;
use std::alloc::{AllocError, Global};
use std::process::Abort;
use std::test::Fail;

#[test]
fn keeps_the_order_of_its_calls(rt: HostRuntime) -> Result<(), Fail> {
    let mut links = match Links::build(rt.alloc(), 4) {
        Ok(links) => links,
        Err(_) => return Err(Fail::from("no memory")),
    };
    assert_eq!(rt; links.first(), None);
    links.push_back(2);
    links.push_back(0);
    links.insert_before(2, 3);
    links.insert_before(0, 1);
    assert_eq!(rt; links.first(), Some(3));
    assert_eq!(rt; links.next(3), Some(2));
    assert_eq!(rt; links.next(2), Some(1));
    assert_eq!(rt; links.next(1), Some(0));
    assert_eq!(rt; links.next(0), None);
    Ok(())
}

#[test]
fn an_unlinked_index_may_come_back(rt: HostRuntime) -> Result<(), Fail> {
    let mut links = match Links::build(rt.alloc(), 3) {
        Ok(links) => links,
        Err(_) => return Err(Fail::from("no memory")),
    };
    links.push_back(0);
    links.push_back(1);
    links.push_back(2);
    links.unlink(1);
    assert!(rt; !links.has(1));
    assert!(rt; !links.has(3));
    assert_eq!(rt; links.next(0), Some(2));
    links.unlink(0);
    links.push_back(0);
    assert_eq!(rt; links.first(), Some(2));
    assert_eq!(rt; links.next(2), Some(0));
    assert!(rt; links.has(0));
    Ok(())
}

const ROOM: u32 = 6;

/// Pseudo-random numbers.
fn shuffled(seed: u32) -> u32 {
    seed.wrapping_mul(1664525).wrapping_add(1013904223)
}

/// The list has the items, in their order.
fn check_same(rt: &impl Abort, links: &Links, items: &[u32]) {
    assert_eq!(rt; links.first(), items.first().copied());
    for i in 0..8 {
        let is_linked = links.has(i);
        assert_eq!(rt; is_linked, is_in(items, i));
        if is_linked {
            assert_eq!(rt; links.next(i), next_after(items, i));
        }
    }
}

/// Takes an index out, or puts it before another one or at the end, as the number says.
fn step(
    alloc: Global,
    links: &mut Links,
    items: &mut Vec<u32>,
    number: u32,
) -> Result<(), AllocError>
    requires { links.old.room ≡ 6 }
    ensures { links.new.room ≡ 6 }
{
    let i = number / 65536 % ROOM;
    let at = number / 524288 % ROOM;
    if links.has(i) {
        links.unlink(i);
        *items = without(alloc, items, i)?;
    } else if number / 8388608 % 3 != 0 && links.has(at) {
        links.insert_before(at, i);
        *items = put_before(alloc, items, at, i)?;
    } else {
        links.push_back(i);
        items.push(i)?;
    }
    Ok(())
}

/// Makes some calls one after the other, and compares what they leave. The numbers go on from the last one.
fn compared(rt: &impl Abort, alloc: Global, seed: u32) -> Result<u32, Fail> {
    let mut links = Links::build(alloc, ROOM).or(Err("no memory"))?;
    let mut items = Vec::new(alloc);
    let mut number = seed;
    for _ in 0..40 {
        number = shuffled(number);
        step(alloc, &mut links, &mut items, number)?;
        check_same(rt, &links, &items);
    }
    Ok(number)
}

#[test]
fn is_the_list_that_the_slow_steps_leave(rt: HostRuntime) -> Result<(), Fail> {
    let mut number = 1;
    for _ in 0..2000 {
        number = compared(&rt, rt.alloc(), number)?;
    }
    Ok(())
}
