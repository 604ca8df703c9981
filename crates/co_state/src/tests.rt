//! Worked calls on stores and on what is asked in a resume.
ghost use Rattle.std.specs.Prelude.{◌≡◌};

use super::{Co, CoId, CoStep, CoStore, Cx, Entered, Origin};
use std::alloc::{AllocError, Global};
use std::process::Abort;

/// Does as it is told: counts the resume, and answers the step that is lent.
impl Co<CoStep> for u64 {
    ghost source_of = { λ _. tt };

    ghost resumes = { λ _ _ _ _ _. Unit {0} };

    fn resume(&mut self, env: &CoStep, _cx: &mut Cx) -> CoStep {
        *self = self.wrapping_add(1);
        *env
    }
}

/// Yields so many times.
#[derive(Clone, Copy, Debug, PartialEq, Eq)]
struct Countdown {
    left: u32,
}

impl Origin for Countdown {
    type Source = ();

    ghost is_of = { λ _ _ _. Unit {0} };
}

impl Co<()> for Countdown {
    ghost source_of = { λ _. tt };

    ghost resumes = { λ _ _ _ _ _. Unit {0} };

    fn resume(&mut self, _env: &(), _cx: &mut Cx) -> CoStep {
        if self.left == 0 {
            return CoStep::Done;
        }
        self.left -= 1;
        CoStep::Yield
    }
}

/// Wakes the coroutines 1 to 4 of loop 9, and asks to quit.
impl Co<()> for () {
    ghost source_of = { λ _. tt };

    ghost resumes = { λ _ _ _ _ _. Unit {0} };

    fn resume(&mut self, _env: &(), cx: &mut Cx) -> CoStep {
        cx.wake(CoId { co: 1, home: 9 });
        cx.wake(CoId { co: 2, home: 9 });
        cx.wake(CoId { co: 3, home: 9 });
        cx.wake(CoId { co: 4, home: 9 });
        cx.quit();
        CoStep::Done
    }
}

fn built<C: Origin<Source = ()>>(rt: &impl Abort, alloc: Global, room: u32) -> CoStore<C> {
    CoStore::build(alloc, room).expect(rt, "there is memory")
}

#[test]
fn a_full_store_hands_the_second_back(rt: HostRuntime) {
    let mut store: CoStore<u64> = built(&rt, rt.alloc(), 1);
    assert_eq!(rt; store.put(0, 70), Ok(()));
    assert_eq!(rt; store.put(1, 71), Err(71));
    assert_eq!(rt;
        store.enter(1, &CoStep::Done, &mut Cx::fresh()),
        Entered::Absent
    );
    assert_eq!(rt; store.put(0, 72), Err(72));
    assert_eq!(rt;
        store.enter(0, &CoStep::Sleep(5), &mut Cx::fresh()),
        Entered::Slept(5)
    );
    assert_eq!(rt;
        store.enter(0, &CoStep::Done, &mut Cx::fresh()),
        Entered::Done(72)
    );
    assert_eq!(rt; store.put(1, 73), Ok(()));
}

#[test]
fn one_yields_a_thousand_times(rt: HostRuntime) {
    let mut store: CoStore<Countdown> = built(&rt, rt.alloc(), 2);
    assert_eq!(rt; store.put(5, Countdown { left: 1000 }), Ok(()));
    for _ in 0..1000 {
        assert_eq!(rt; store.enter(5, &(), &mut Cx::fresh()), Entered::Yielded);
    }
    assert_eq!(rt;
        store.enter(5, &(), &mut Cx::fresh()),
        Entered::Done(Countdown { left: 0 })
    );
    assert_eq!(rt; store.enter(5, &(), &mut Cx::fresh()), Entered::Absent);
}

#[test]
fn one_moves_to_a_second_store(rt: HostRuntime) {
    let mut first: CoStore<u64> = built(&rt, rt.alloc(), 2);
    let mut second: CoStore<u64> = built(&rt, rt.alloc(), 2);
    assert_eq!(rt; first.put(3, 10), Ok(()));
    let Entered::Moving(co, home) = first.enter(3, &CoStep::Move(7), &mut Cx::fresh()) else {
        panic!(rt; "it moves")
    };
    assert_eq!(rt; (co, home), (11, 7));
    assert_eq!(rt;
        first.enter(3, &CoStep::Yield, &mut Cx::fresh()),
        Entered::Absent
    );
    assert_eq!(rt; second.put(3, co), Ok(()));
    assert_eq!(rt;
        second.enter(3, &CoStep::Done, &mut Cx::fresh()),
        Entered::Done(12)
    );
}

#[test]
fn one_wakes_four_in_order(rt: HostRuntime) {
    let mut store: CoStore<()> = built(&rt, rt.alloc(), 1);
    assert_eq!(rt; store.put(0, ()), Ok(()));
    let mut cx = Cx::fresh();
    assert_eq!(rt; (cx.room(), cx.quits()), (4, false));
    assert_eq!(rt; store.enter(0, &(), &mut cx), Entered::Done(()));
    assert_eq!(rt; (cx.room(), cx.quits()), (0, true));
    for co in 1..5 {
        assert_eq!(rt; cx.taken(), Some(CoId { co, home: 9 }));
    }
    assert_eq!(rt; cx.taken(), None);
}

/// How many coroutines there may be in the generated calls.
const ROOM: u32 = 6;

/// Pseudo-random numbers.
fn shuffled(seed: u32) -> u32 {
    seed.wrapping_mul(1664525).wrapping_add(1013904223)
}

/// The place of a number in a plain list.
fn place(list: &[(u32, u64)], id: u32) -> Option<usize> {
    list.iter().position(|held| held.0 == id)
}

fn put_answer(list: &mut Vec<(u32, u64)>, id: u32, co: u64) -> Result<Result<(), u64>, AllocError> {
    if place(list, id).is_some() || list.len() >= ROOM as usize {
        return Ok(Err(co));
    }
    list.push((id, co))?;
    Ok(Ok(()))
}

fn enter_answer(list: &mut Vec<(u32, u64)>, id: u32, step: CoStep) -> Entered<u64> {
    for at in 0..list.len() {
        let (held, co) = list[at];
        if held == id {
            list[at] = (id, co.wrapping_add(1));
            return match step {
                CoStep::Done => Entered::Done(list.swap_remove(at).1),
                CoStep::Yield => Entered::Yielded,
                CoStep::Sleep(ns) => Entered::Slept(ns),
                CoStep::Move(home) => Entered::Moving(list.swap_remove(at).1, home),
            };
        }
    }
    Entered::Absent
}

/// A step for a number, of which more yield than leave.
fn step_of(number: u32) -> CoStep {
    match number % 8 {
        0 => CoStep::Done,
        1 => CoStep::Move(number),
        2 => CoStep::Sleep(u64::from(number)),
        _ => CoStep::Yield,
    }
}

fn compared(
    rt: &impl Abort,
    store: &mut CoStore<u64>,
    list: &mut Vec<(u32, u64)>,
    seed: u32,
) -> Result<(), AllocError> {
    let id = (seed >> 8) % 10;
    if seed >> 20 & 1 == 0 {
        let co = u64::from(seed);
        assert_eq!(rt; store.put(id, co), put_answer(list, id, co)?);
    } else {
        let step = step_of(seed >> 24);
        let answer = store.enter(id, &step, &mut Cx::fresh());
        assert_eq!(rt; answer, enter_answer(list, id, step));
    }
    Ok(())
}

#[test]
fn the_store_is_as_a_plain_list(rt: HostRuntime) -> Result<(), AllocError> {
    let mut store = built(&rt, rt.alloc(), ROOM);
    let mut list = Vec::new(rt.alloc());
    let mut seed = 1;
    for _ in 0..4000 {
        seed = shuffled(seed);
        compared(&rt, &mut store, &mut list, seed)?;
    }
    Ok(())
}
