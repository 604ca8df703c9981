//! A home on its way to sleep looks at all that was pushed and not dequeued, after aio_compute_bh_timeout of QEMU's util/async.c.
ghost use Rattle.std.specs.Prelude.{◌≡◌, ◌<◌, ◌+◌, ◌∷◌, drop, length, Some, None, true, false, not, ◌&&◌, ◌||◌, if◌then◌else◌, MatchOption, MatchBool, [], ◌⊎◌};
ghost use Rattle.aio_model.specs.Loop.Flags.{are_due, are_urgent};
ghost use Rattle.aio_core.specs.Known.{Scanning, is_running, IsHomes};
ghost use Rattle.aio_core.specs.Words.{index_count};
ghost use Rattle.aio_core.specs.HomeState.{are_within};
ghost use Rattle.aio_core.specs.SleepSteps.{BeginsScan, ScansNext, scan_in};
ghost use Rattle.aio_core.specs.Scans.{Passes, IsAhead, ScansOn, ScanIsOver, ScanMeets, Scans};
ghost use Rattle.aio_core.specs.Plays.{FlagsAreScanned};
ghost use Rattle.aio_core.specs.Calls.{IsSeatOf};

use crate::home::Home;
use crate::job::Job;
use crate::plays::{BeginScan, ScanFlags, ScanNext};
use crate::seat::Seat;
use crate::slices::Slices;
use crate::table::LoopTable;
use crate::words::{HEAD, flags_word, next_word};
use aio_model::Flags;

/// What a scan found.
#[derive(Clone, Copy, Debug)]
pub struct Scanned {
    /// The index at which it ended, which is to be called and isn't idle.
    pub urgent: Option<u32>,
    /// Whether it passed one that is to be called and is idle.
    pub idle: bool,
}

/// An index that was loaded, and its flags.
#[derive(Clone, Copy)]
struct Passed {
    bh: u32,
    flags: Flags,
}

impl Scanned {
    fn nothing() -> Scanned
        ensures { result ≡ record { urgent = None; idle = false } }
    {
        Scanned {
            urgent: None,
            idle: false,
        }
    }

    /// Whether the scan goes on behind this one.
    fn note(&mut self, passed: Passed) -> bool
        ensures goes_on { result ≡ not (are_urgent passed.flags) }
        ensures noted { self.new ≡ record self.old { urgent = (if are_urgent passed.flags then Some passed.bh else self.old.urgent); idle = self.old.idle || (are_due passed.flags && passed.flags.idle) } }
    {
        let due = passed.flags.scheduled && !passed.flags.deleted;
        self.idle = self.idle || (due && passed.flags.idle);
        let urgent = due && !passed.flags.idle;
        if urgent {
            self.urgent = Some(passed.bh);
        }
        !urgent
    }
}

impl<J: Job> LoopTable<J> {
    fn scan_head(&self, seat: &mut Seat<J>) -> u64
        requires seat { IsSeatOf self.now seat.old }
        requires number { IsHomes seat.old.known }
        requires running { is_running seat.old.known.sleep ≡ true }
        requires free { seat.old.known.stage.hand ≡ None }
        ensures seat { IsSeatOf self.now seat.new }
        ensures step { BeginsScan result seat.old.known seat.new.known }
    {
        self.table.shared.load::<BeginScan>(&mut seat.inner, HEAD)
    }

    fn scan_next(&self, seat: &mut Seat<J>, bh: u32) -> u64
        requires seat { IsSeatOf self.now seat.old }
        requires number { IsHomes seat.old.known }
        requires below { bh < index_count self.now.sizes }
        requires scanning { seat.old.known.sleep ≡ Scanning (length seat.old.known.did) (scan_in seat.old.known.sleep) }
        requires first { (scan_in seat.old.known.sleep).stage.slices ≡ (bh + 1) ∷ drop 1 (scan_in seat.old.known.sleep).stage.slices }
        requires free { (scan_in seat.old.known.sleep).stage.hand ≡ None }
        ensures seat { IsSeatOf self.now seat.new }
        ensures step { ScansNext bh result (drop 1 (scan_in seat.old.known.sleep).stage.slices) (scan_in seat.old.known.sleep) seat.old.known seat.new.known }
    {
        self.table
            .shared
            .load::<ScanNext>(&mut seat.inner, next_word(bh))
    }

    fn scan_flags(&self, seat: &mut Seat<J>, bh: u32) -> u64
        requires seat { IsSeatOf self.now seat.old }
        requires number { IsHomes seat.old.known }
        requires below { bh < index_count self.now.sizes }
        requires scanning { seat.old.known.sleep ≡ Scanning (length seat.old.known.did) (scan_in seat.old.known.sleep) }
        requires hand { (scan_in seat.old.known.sleep).stage.hand ≡ Some bh }
        ensures seat { IsSeatOf self.now seat.new }
        ensures step { FlagsAreScanned bh result (scan_in seat.old.known.sleep) seat.old.known seat.new.known }
    {
        self.table
            .shared
            .load::<ScanFlags>(&mut seat.inner, flags_word(bh))
    }

    /// Loads what follows the first index ahead, and its flags. None where nothing is ahead.
    fn pass(&self, seat: &mut Seat<J>, ahead: &mut Slices) -> Option<Passed>
        requires seat { IsSeatOf self.now seat.old }
        requires number { IsHomes seat.old.known }
        requires at { IsAhead ahead.old seat.old.known }
        ensures seat { IsSeatOf self.now seat.new }
        ensures number { IsHomes seat.new.known }
        ensures passed { MatchOption result ((ahead.old ≡ []) × (ahead.new ≡ ahead.old) × (seat.new ≡ seat.old)) (λ passed. Passes (record { index = passed.bh; flags = passed.flags }) seat.old.known seat.new.known × (are_urgent passed.flags ≡ false → IsAhead ahead.new seat.new.known)) }
    {
        let bh = self.index_of(ahead.first()?);
        let word = self.scan_next(seat, bh);
        ahead.lift(word);
        let found = self.scan_flags(seat, bh);
        Some(Passed {
            bh,
            flags: Flags::from_word(found),
        })
    }

    /// One index more of a scan. False where it is over.
    fn scan_on(&self, seat: &mut Seat<J>, ahead: &mut Slices, scanned: &mut Scanned) -> bool
        requires seat { IsSeatOf self.now seat.old }
        requires number { IsHomes seat.old.known }
        requires at { IsAhead ahead.old seat.old.known }
        ensures seat { IsSeatOf self.now seat.new }
        ensures number { IsHomes seat.new.known }
        ensures on { MatchBool result (ScansOn scanned.old.urgent scanned.new.urgent scanned.old.idle scanned.new.idle ahead.new seat.old.known seat.new.known) (ScanIsOver scanned.old.urgent scanned.new.urgent scanned.old.idle scanned.new.idle ahead.old seat.old.known seat.new.known ⊎ ScanMeets scanned.new.urgent scanned.old.idle scanned.new.idle seat.old.known seat.new.known) }
    {
        let Some(passed) = self.pass(seat, ahead) else {
            return false;
        };
        scanned.note(passed)
    }

    /// Goes over the list from its head, and then over the slices.
    fn scan_list(&self, seat: &mut Seat<J>, slices: &Slices) -> Scanned
        requires seat { IsSeatOf self.now seat.old }
        requires number { IsHomes seat.old.known }
        requires running { is_running seat.old.known.sleep ≡ true }
        requires free { seat.old.known.stage.hand ≡ None }
        requires slices { (slices.now ≡ seat.old.known.stage.slices) × (are_within seat.old.known.sizes slices.now ≡ true) × (length slices.now < 9) }
        ensures seat { IsSeatOf self.now seat.new }
        ensures number { IsHomes seat.new.known }
        ensures scans { Scans result.urgent result.idle seat.old.known seat.new.known }
    {
        let head = self.scan_head(seat);
        let mut ahead = slices.behind(head);
        let mut scanned = Scanned::nothing();
        while self.scan_on(seat, &mut ahead, &mut scanned) {}
        scanned
    }

    /// Looks at all that was pushed and not dequeued, index by index: an atomic load of what follows it, and one of its flags.
    /// It ends at the first that is to be called and isn't idle.
    pub fn scan(&self, home: &mut Home<J>) -> Scanned
        requires seat { IsSeatOf self.now home.old.seat }
        requires running { is_running home.old.seat.known.sleep ≡ true }
        requires free { home.old.seat.known.stage.hand ≡ None }
        ensures seat { IsSeatOf self.now home.new.seat }
        ensures scans { Scans result.urgent result.idle home.old.seat.known home.new.seat.known }
    {
        self.scan_list(&mut home.seat, &home.slices)
    }
}
