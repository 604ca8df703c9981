//! All numbers of a loop in one seat, the home's among them. Who has it has seen the loop's whole history, and nobody else can be
//! under way: so what it finds in a word is what the history says.
ghost use Rattle.std.specs.Prelude.{◌≡◌, ◌<◌, ◌≤◌, ◌==◌, ℕ, List, [], length, true, false};
ghost use Rattle.aio_model.specs.Loop.InFlight.{AtRest, Reason};
ghost use Rattle.aio_model.specs.Loop.FlagsWord.{flags_in};
ghost use Rattle.aio_model.specs.Loop.Flags.{is_pending};
ghost use Rattle.aio_model.specs.Loop.Lists.{is_set};
ghost use Rattle.aio_model.specs.Loop.Legal.{IsLegal};
ghost use Rattle.aio_core.specs.Known.{calmed, Committed, NotifierLoad, ScanFlagsLoad, EventLoad};
ghost use Rattle.aio_core.specs.Words.{notifier_at, flags_at, event_at, index_count};
ghost use Rattle.aio_core.specs.Rule.{is_wanted, is_open};
ghost use Rattle.aio_core.specs.HomeState.{are_within, is_handle};
ghost use Rattle.aio_core.specs.Splitting.{front_known, back_known};
ghost use Rattle.aio_core.specs.Joining.{joined_known, told_of, IsJoined};
ghost use Rattle.aio_core.specs.Standing.{Looks};
ghost use Rattle.aio_core.specs.SleepSteps.{OwnsAll};
ghost use Rattle.aio_core.specs.Calls.{IsReady, IsSeatOf};

use crate::home::Home;
use crate::job::Job;
use crate::plays::{CutHome, LookAtEvent, LookAtFlags, LookAtNotifier};
use crate::seat::Seat;
use crate::slices::Slices;
use crate::table::LoopTable;
use crate::words::{NOTIFIER, event_word, flags_word};
use aio_model::Flags;

/// The seat of the home thread and that of all other numbers, as one, with what home has taken.
#[derive(Drop)]
pub struct Whole<J: Job> {
    pub seat: Seat<J>,
    slices: Slices,
    ghost numbers: { OwnsAll seat.known },
    ghost same_slices: { slices ≡ seat.known.stage.slices },
    ghost few_slices: { length slices ≤ 8 },
    ghost slices_within: { are_within seat.known.sizes slices ≡ true },
    ghost hand_is_handle: { is_handle seat.known.sizes seat.known.stage.hand ≡ true },
}

impl<J: Job> LoopTable<J> {
    pub(crate) fn read_notifier(&self, seat: &mut Seat<J>) -> u64
        requires seat { IsSeatOf self.now seat.old }
        ensures seat { IsSeatOf self.now seat.new }
        ensures step { Looks NotifierLoad notifier_at result seat.old.known seat.new.known }
        ensures bit { result ≤ 1 }
        ensures whole { OwnsAll seat.old.known → IsLegal seat.old.known.sizes seat.old.known.seen × (seat.old.known.mine ≡ seat.old.known.seen) }
        ensures told { OwnsAll seat.old.known → seat.old.known.phase ≡ AtRest → (watched : List ℕ) → seat.old.known.sleep ≡ Committed watched → (reason : Reason) → is_wanted reason seat.old.known.seen ≡ true → is_open [] watched reason ≡ false → result ≡ 1 }
    {
        self.table
            .shared
            .load::<LookAtNotifier>(&mut seat.inner, NOTIFIER)
    }

    fn read_flags(&self, seat: &mut Seat<J>, bh: u32) -> u64
        requires seat { IsSeatOf self.now seat.old }
        requires below { bh < index_count self.now.sizes }
        ensures seat { IsSeatOf self.now seat.new }
        ensures step { Looks ScanFlagsLoad (flags_at bh) result seat.old.known seat.new.known }
        ensures told { OwnsAll seat.old.known → is_pending bh seat.old.known.seen ≡ (flags_in result).pending }
    {
        self.table
            .shared
            .load::<LookAtFlags>(&mut seat.inner, flags_word(bh))
    }

    fn read_set(&self, seat: &mut Seat<J>, event: u32) -> u64
        requires seat { IsSeatOf self.now seat.old }
        requires event { event < self.now.sizes.events }
        ensures seat { IsSeatOf self.now seat.new }
        ensures step { Looks EventLoad (event_at event) result seat.old.known seat.new.known }
        ensures told { OwnsAll seat.old.known → is_set event seat.old.known.seen ≡ (result == 1) }
    {
        self.table
            .shared
            .load::<LookAtEvent>(&mut seat.inner, event_word(event))
    }

    /// Joins home and all other numbers, both at rest. What each of them had seen is a part of what both have seen now, and
    /// holds of the entries under its numbers just those that it made.
    pub fn unite_all(&self, home: Home<J>, seat: Seat<J>) -> Whole<J>
        requires home { IsReady self.now home.seat }
        requires seat { IsReady self.now seat }
        requires numbers { (seat.known.first ≡ 0) × (seat.known.count ≡ 64) }
        ensures seat { IsSeatOf self.now result.seat }
        ensures both { result.seat.known ≡ joined_known seat.known home.seat.known }
        ensures at_home { (result.seat.known.stage ≡ home.seat.known.stage) × (result.seat.known.sleep ≡ calmed home.seat.known.sleep) }
        ensures parts { IsJoined self.now.sizes (told_of seat.known home.seat.known) result.seat.known.seen }
    {
        let Home {
            seat: of_home,
            slices,
        } = home;
        let mut seat = seat;
        self.unite(&mut seat, of_home);
        self.learn(&mut seat);
        Whole { seat, slices }
    }

    /// Whether the notifier is set, by one atomic load. Where home is committed, it is set for all that home isn't to sleep over.
    pub fn look_at_notifier(&self, whole: &mut Whole<J>) -> bool
        requires seat { IsSeatOf self.now whole.old.seat }
        ensures seat { IsSeatOf self.now whole.new.seat }
        ensures step { (found : ℕ) × (result ≡ (found == 1)) × Looks NotifierLoad notifier_at found whole.old.seat.known whole.new.seat.known }
        ensures history { IsLegal whole.old.seat.known.sizes whole.old.seat.known.seen × (whole.old.seat.known.mine ≡ whole.old.seat.known.seen) }
        ensures told { whole.old.seat.known.phase ≡ AtRest → (watched : List ℕ) → whole.old.seat.known.sleep ≡ Committed watched → (reason : Reason) → is_wanted reason whole.old.seat.known.seen ≡ true → is_open [] watched reason ≡ false → result ≡ true }
    {
        self.read_notifier(&mut whole.seat) == 1
    }

    /// Whether the index is pending, by one atomic load of its flags.
    pub fn look_at_flags(&self, whole: &mut Whole<J>, bh: u32) -> bool
        requires seat { IsSeatOf self.now whole.old.seat }
        requires below { bh < index_count self.now.sizes }
        ensures seat { IsSeatOf self.now whole.new.seat }
        ensures step { (found : ℕ) × Looks ScanFlagsLoad (flags_at bh) found whole.old.seat.known whole.new.seat.known }
        ensures told { result ≡ is_pending bh whole.old.seat.known.seen }
    {
        self.read_flags(&mut whole.seat, bh) & Flags::PENDING != 0
    }

    /// Whether the event is set, by one atomic load.
    pub fn look_at_event(&self, whole: &mut Whole<J>, event: u32) -> bool
        requires seat { IsSeatOf self.now whole.old.seat }
        requires event { event < self.now.sizes.events }
        ensures seat { IsSeatOf self.now whole.new.seat }
        ensures step { (found : ℕ) × Looks EventLoad (event_at event) found whole.old.seat.known whole.new.seat.known }
        ensures told { result ≡ is_set event whole.old.seat.known.seen }
    {
        self.read_set(&mut whole.seat, event) == 1
    }

    fn cut_home(&self, seat: &mut Seat<J>) -> Seat<J>
        requires seat { IsSeatOf self.now seat.old }
        requires all { OwnsAll seat.old.known }
        ensures seat { IsSeatOf self.now seat.new }
        ensures home { IsSeatOf self.now result }
        ensures front { seat.new.known ≡ front_known 64 seat.old.known }
        ensures back { result.known ≡ back_known 64 seat.old.known }
    {
        seat.count = 64;
        let inner = self.table.shared.split_seat::<CutHome>(&mut seat.inner);
        Seat::of(inner, 64, 1)
    }

    /// Gives the home's seat back, and that of all other numbers. Home is as committed as before; its steps are counted from 0
    /// again, and all that was done since the two were joined counts as done by the other.
    pub fn part(&self, whole: Whole<J>) -> (Home<J>, Seat<J>)
        requires seat { IsSeatOf self.now whole.seat }
        ensures home { IsSeatOf self.now result.0.seat }
        ensures seat { IsSeatOf self.now result.1 }
        ensures back { result.0.seat.known ≡ back_known 64 whole.seat.known }
        ensures front { result.1.known ≡ front_known 64 whole.seat.known }
    {
        let Whole { mut seat, slices } = whole;
        let of_home = self.cut_home(&mut seat);
        (
            Home {
                seat: of_home,
                slices,
            },
            seat,
        )
    }
}
