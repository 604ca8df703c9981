//! Pools of no, one and many lots.
ghost use Rattle.std.specs.Prelude.{◌≡◌, ◌≤◌, ◌+◌};
ghost use Rattle.lot_pool.specs.Pools.{IsPassOf};

use crate::{LotPass, LotPool};
use std::process::Abort;
use std::sync::Wait;
use std::test::Fail;

/// Pops so many lots in rising order, and then finds the queue empty.
fn pops_all<R: Wait + Abort>(rt: &R, pool: &LotPool, pass: &mut LotPass, first: u32, count: u32)
    requires pass { IsPassOf pool.now pass.old }
    requires few { first + count ≤ 4096 }
    ensures { IsPassOf pool.now pass.new }
{
    for lot in first..first + count {
        assert_eq!(rt; pool.pop(rt, pass), Some(lot));
    }
    assert_eq!(rt; pool.pop(rt, pass), None);
}

#[test]
fn the_greatest_pool_has_each_lot_once(rt: HostRuntime) -> Result<(), Fail> {
    let Ok(mut built) = LotPool::build(&rt, rt.alloc(), 0, 4096) else {
        return Err(Fail::from("no memory"));
    };
    pops_all(&rt, &built.pool, &mut built.pass, 0, 4096);
    Ok(())
}

#[test]
fn a_pool_of_no_lots_is_empty(rt: HostRuntime) -> Result<(), Fail> {
    let Ok(mut built) = LotPool::build(&rt, rt.alloc(), 4096, 0) else {
        return Err(Fail::from("no memory"));
    };
    built.pool.give_kept(&rt, &mut built.home);
    pops_all(&rt, &built.pool, &mut built.pass, 4096, 0);
    Ok(())
}

#[test]
fn a_lot_is_kept_while_the_queue_is_full(rt: HostRuntime) -> Result<(), Fail> {
    let Ok(mut built) = LotPool::build(&rt, rt.alloc(), 2, 1) else {
        return Err(Fail::from("no memory"));
    };
    built.pool.give_back(&rt, &mut built.home, 2);
    assert_eq!(rt; built.home.kept(), 1);
    built.pool.give_kept(&rt, &mut built.home);
    assert_eq!(rt; built.home.kept(), 1);
    pops_all(&rt, &built.pool, &mut built.pass, 2, 1);
    built.pool.give_kept(&rt, &mut built.home);
    assert_eq!(rt; built.home.kept(), 0);
    pops_all(&rt, &built.pool, &mut built.pass, 2, 1);
    Ok(())
}

#[test]
fn a_pass_with_one_number_is_not_split(rt: HostRuntime) -> Result<(), Fail> {
    let Ok(mut built) = LotPool::build(&rt, rt.alloc(), 0, 1) else {
        return Err(Fail::from("no memory"));
    };
    assert!(rt; built.pool.split(&mut built.home).is_none());
    let Some(mut other) = built.pool.split(&mut built.pass) else {
        return Err(Fail::from("no second pass"));
    };
    pops_all(&rt, &built.pool, &mut other, 0, 1);
    assert_eq!(rt; built.pool.pop(&rt, &mut built.pass), None);
    Ok(())
}
