//! The examples of docs/CONTRACTS.md on `aio_core` and `aio_bh`, as it has them.
use aio_bh::{BottomHalves, Call, LotPool, Runner, Turn};
use aio_core::{Built, LoopTable, Seat};
use aio_model::Kind;
use std::process::Abort;
use std::test::Fail;

/// A runner that counts its entries.
#[derive(Drop)]
struct Calls {
    count: u64,
}

impl Runner<u64> for Calls {
    ghost use Rattle.std.specs.Prelude.{◌≡◌, true};

    ghost can_run = { λ _ _. true ≡ true };

    ghost does = { λ _ _ _. true ≡ true };

    fn run(
        &mut self,
        _table: &LoopTable<u64>,
        _seat: &mut Seat<u64>,
        _call: &mut Call<u64>,
    ) -> Turn {
        self.count = self.count.wrapping_add(1);
        Turn::Done
    }
}

#[test]
fn steps_of_one_index(rt: HostRuntime) -> Result<(), Fail> {
    let Ok(built) = LoopTable::<u64>::build(rt.alloc(), 2, 0, 0) else {
        return Err(Fail::from("no memory"));
    };
    let Built {
        table,
        mut home,
        mut seat,
    } = built;
    assert_eq!(rt; table.handles(), 2);
    let (found, owed) = table.announce(&mut seat, 1, Kind::Sched);
    assert!(rt; !found.pending);
    if let Some(due) = owed {
        let aimed = table.aim(&mut seat, due);
        if let Err(due) = table.link(&mut seat, aimed) {
            panic!(rt; "another was pushed before {}", due.bh());
        }
    }
    table.store_notified(&mut seat);
    if table.load_notify_me(&mut seat) {
        table.set_notifier(&mut seat);
    }
    table.take(&mut home);
    let Some(next) = table.dequeue_next(&mut home) else {
        return Err(Fail::from("nothing was pushed"));
    };
    assert_eq!(rt; next.bh, 1);
    assert!(rt; next.flags.pending && next.flags.scheduled && !next.flags.deleted);
    Ok(())
}

#[test]
fn one_call(rt: HostRuntime) -> Result<(), Fail> {
    let Ok(built) = LoopTable::<u64>::build(rt.alloc(), 2, 1, 0) else {
        return Err(Fail::from("no memory"));
    };
    let Built {
        table,
        mut home,
        mut seat,
    } = built;
    let Ok(mut lots) = LotPool::build(&rt, rt.alloc(), 2, 1) else {
        return Err(Fail::from("no memory"));
    };
    let mut calls = Calls { count: 0 };
    let found = table.schedule(&rt, &mut seat, 1);
    assert!(rt; !found.pending);
    assert!(rt;
        table
            .once(&rt, &lots.pool, &mut lots.pass, &mut seat, 7)
            .is_ok()
    );
    let polled = table.poll(&rt, &lots.pool, &mut lots.home, &mut home, &mut calls);
    assert_eq!(rt; (polled.ran, polled.progress, calls.count), (2, true, 2));
    Ok(())
}
