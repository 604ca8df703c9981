//! One-shots over pools of one place, of two and of none.
ghost use Rattle.std.specs.Prelude.{◌≡◌, ◌≤◌};

use aio_bh::{Call, Runner, Turn};
use aio_core::{LoopTable, Seat};
use loop_fixture::LoopFixture;
use std::alloc::Global;
use std::process::Abort;
use std::sync::Wait;
use std::test::Fail;

/// An entry into a callback: which, with which job, and whether it is the first.
type Entry = (u32, Option<u64>, bool);

const NO_ENTRY: Entry = (0, None, false);

/// Callbacks that note with what they are entered.
#[derive(Drop)]
struct Entries {
    entries: [Entry; 4],
    count: usize,
}

impl Entries {
    fn note(&mut self, entry: Entry) {
        if self.count < 4 {
            self.entries[self.count] = entry;
            self.count += 1;
        }
    }
}

impl Runner<u64> for Entries {
    ghost use Rattle.std.specs.Prelude.{true};

    ghost can_run = { λ _ _. true ≡ true };

    ghost does = { λ _ _ _. true ≡ true };

    fn run(
        &mut self,
        _table: &LoopTable<u64>,
        _seat: &mut Seat<u64>,
        call: &mut Call<u64>,
    ) -> Turn {
        self.note((call.bh, call.job, call.first));
        Turn::Done
    }
}

/// A loop of one handle, 0, and some lots.
#[derive(Drop)]
struct Lots {
    fixture: LoopFixture<u64>,
    ghost one: { fixture.table.sizes.handles ≡ 1 },
}

impl Lots {
    fn build<R: Wait>(rt: &R, alloc: Global, count: u32) -> Result<Lots, Fail>
        requires { count ≤ 4095 }
    {
        let fixture = LoopFixture::build(rt, alloc, 1, count, 0)?;
        Ok(Lots { fixture })
    }

    /// The job comes back where there is no room.
    fn once<R: Wait>(&mut self, rt: &R, job: u64) -> Option<u64> {
        match self.fixture.once(rt, job) {
            Ok(()) => None,
            Err(refused) => Some(refused.job),
        }
    }

    fn schedule<R: Wait>(&mut self, rt: &R) {
        self.fixture.schedule(rt, 0);
    }

    /// One poll, and what it is to call.
    fn poll<R: Abort + Wait>(&mut self, rt: &R, ran: u64, wanted: [Entry; 4]) {
        let mut entries = Entries {
            entries: [NO_ENTRY; 4],
            count: 0,
        };
        let polled = self.fixture.poll(rt, &mut entries);
        assert_eq!(rt; (polled.ran, polled.progress), (ran, ran > 0));
        assert_eq!(rt; (entries.count as u64, entries.entries), (ran, wanted));
        assert_eq!(rt; self.fixture.lots.home.kept(), 0);
    }
}

fn alone(entry: Entry) -> [Entry; 4] {
    [entry, NO_ENTRY, NO_ENTRY, NO_ENTRY]
}

#[test]
fn one_place_holds_one_job_at_a_time(rt: HostRuntime) -> Result<(), Fail> {
    let mut lots = Lots::build(&rt, rt.alloc(), 1)?;
    assert_eq!(rt; lots.once(&rt, 7), None);
    assert_eq!(rt; lots.once(&rt, 8), Some(8));
    lots.poll(&rt, 1, alone((1, Some(7), true)));
    assert_eq!(rt; lots.once(&rt, 8), None);
    lots.poll(&rt, 1, alone((1, Some(8), true)));
    lots.poll(&rt, 0, [NO_ENTRY; 4]);
    Ok(())
}

#[test]
fn two_places_hold_two_jobs(rt: HostRuntime) -> Result<(), Fail> {
    let mut lots = Lots::build(&rt, rt.alloc(), 2)?;
    lots.schedule(&rt);
    assert_eq!(rt; lots.once(&rt, 7), None);
    assert_eq!(rt; lots.once(&rt, 8), None);
    assert_eq!(rt; lots.once(&rt, 9), Some(9));
    let wanted = [
        (2, Some(8), true),
        (1, Some(7), true),
        (0, None, true),
        NO_ENTRY,
    ];
    lots.poll(&rt, 3, wanted);
    assert_eq!(rt; lots.once(&rt, 9), None);
    Ok(())
}

#[test]
fn no_place_has_no_room(rt: HostRuntime) -> Result<(), Fail> {
    let mut lots = Lots::build(&rt, rt.alloc(), 0)?;
    assert_eq!(rt; lots.once(&rt, 7), Some(7));
    lots.poll(&rt, 0, [NO_ENTRY; 4]);
    Ok(())
}
