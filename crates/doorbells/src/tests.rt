//! Rings from two threads and from callbacks.
use crate::{
    Devices, Rung, answer, answer_twice, ring, ring_from_two_and_answer, ring_twice_and_answer,
};
use aio_bh::LotPool;
use aio_core::{Built, LoopTable};
use std::test::Fail;

const BELLS: u32 = 4;

#[test]
fn rings_from_two_threads(rt: HostRuntime) -> Result<(), Fail> {
    let Ok(built) = LoopTable::<()>::build(rt.alloc(), BELLS, 0, 0) else {
        return Err(Fail::from("no memory"));
    };
    let Built {
        table,
        mut home,
        seat,
    } = built;
    let Ok(mut lots) = LotPool::build(&rt, rt.alloc(), BELLS, 0) else {
        return Err(Fail::from("no memory"));
    };
    let Ok(mut devices) = Devices::build(&rt, rt.alloc(), BELLS, 0, 1) else {
        return Err(Fail::from("no memory"));
    };
    let (seat, both) = ring_from_two_and_answer(
        &rt,
        &table,
        &mut lots,
        &mut home,
        seat,
        &mut devices,
        2,
        3,
    );
    assert!(rt; both.is_some());
    assert_eq!(rt; (seat.first(), seat.count()), (0, 64));
    assert_eq!(rt; devices.answered.as_slice(), [0, 0, 1, 1].as_slice());
    let (_, again) = ring_from_two_and_answer(
        &rt,
        &table,
        &mut lots,
        &mut home,
        seat,
        &mut devices,
        3,
        3,
    );
    let Some(Rung { low, high }) = again else {
        return Err(Fail::from("64 numbers are not split"));
    };
    assert!(rt; low.pending != high.pending);
    assert_eq!(rt; devices.answered.as_slice(), [0, 0, 1, 2].as_slice());
    Ok(())
}

#[test]
fn a_ring_of_a_callback_is_answered_by_the_next_poll(rt: HostRuntime) -> Result<(), Fail> {
    let Ok(built) = LoopTable::<()>::build(rt.alloc(), BELLS, 0, 0) else {
        return Err(Fail::from("no memory"));
    };
    let Built {
        table,
        mut home,
        mut seat,
    } = built;
    let Ok(mut lots) = LotPool::build(&rt, rt.alloc(), BELLS, 0) else {
        return Err(Fail::from("no memory"));
    };
    let Ok(mut devices) = Devices::build(&rt, rt.alloc(), BELLS, 0, 1) else {
        return Err(Fail::from("no memory"));
    };
    ring_twice_and_answer(&rt, &table, &mut lots, &mut home, &mut devices, 0);
    assert_eq!(rt; devices.answered.as_slice(), [1, 0, 0, 0].as_slice());
    assert_eq!(rt; devices.passed_on, 1);
    answer(&table, &mut lots, &mut home, &mut devices);
    assert_eq!(rt; devices.answered.as_slice(), [1, 1, 0, 0].as_slice());
    ring(&rt, &table, &mut seat, 0);
    answer_twice(&table, &mut lots, &mut home, &mut devices);
    assert_eq!(rt; devices.answered.as_slice(), [2, 2, 0, 0].as_slice());
    Ok(())
}
