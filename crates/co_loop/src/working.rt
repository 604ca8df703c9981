//! The coroutines of a loop as the work of its thread.
ghost use Rattle.std.specs.Prelude.{◌≡◌, ◌&&◌, not, false, List};
ghost use Rattle.loop_rows.specs.declared.shared.LoopShared.{LoopShared};
ghost use Rattle.loop_rows.specs.LoopStates.{LoopState, at_loop, IsStation, TurnsOn, KeepsPlace};
ghost use Rattle.co_loop.specs.Rows.{AreOfOrigin};
ghost use Rattle.co_loop.specs.Again.{is_kept};
ghost use Rattle.co_loop.specs.Working.{CrewCanStart, CanWork, Works};

use crate::again::keeps;
use crate::crew::Crew;
use crate::leaving::Leaving;
use crate::on_loop::CoLoop;
use aio_words::Clock;
use co_schedule::CoRun;
use co_state::{Co, Origin};
use loop_rows::{LoopShared, Row, Station};
use std::mem;
use std::sync::Wait;

/// What a loop keeps of its coroutines from turn to turn, and its clock. Its crew has seats in a turn alone: they are those of the row
/// of the thread that carries it.
#[derive(Drop)]
pub struct CoWork<C: Origin, K> {
    pub crew: Crew<C>,
    pub run: CoRun,
    pub clock: K,
    /// Whether event 0 was found set.
    pub is_ended: bool,
}

/// A turn that was done, with what it was lent.
#[derive(Drop)]
pub struct Worked<'a, C: Origin, K> {
    pub work: CoWork<C, K>,
    pub station: Station<'a, C>,
    /// Whether the loop's run has ended: then no other turn follows, but for those in which all loops get quiet.
    pub ended: bool,
}

/// The crew gets the row's seats, and the row what the crew had.
fn exchange_seats<C: Origin>(crew: &mut Crew<C>, row: &mut Row<C>)
    ensures crew { crew.new ≡ record crew.old { seats = row.old.seats } }
    ensures row { row.new ≡ record row.old { seats = crew.old.seats } }
{
    mem::swap(&mut crew.seats, &mut row.seats);
}

/// Whether the run of a loop has ended: event 0 was found set, the last turn found nothing to do, and nothing is kept.
fn has_ended<C>(is_ended: bool, progress: bool, leaving: &[Option<Leaving<C>>]) -> bool
    ensures { result ≡ (is_ended && (not progress && not (is_kept leaving.now))) }
{
    is_ended && !progress && !keeps(leaving)
}

impl<C: Origin + Drop, K: Clock> CoWork<C, K> {
    /// The work of a loop with nobody on it yet. The crew has no seats, and the run has taken nothing.
    pub fn new(crew: Crew<C>, run: CoRun, clock: K) -> CoWork<C, K>
        ensures parts { (result.crew ≡ crew) × (result.run ≡ run) × (result.clock ≡ clock) × (result.is_ended ≡ false) }

        // On the loop of the crew's number, whatever the row of its thread.
        ensures begins { (origin : C.Source) (shared : List (LoopShared C C.Source)) (loop : LoopState C C.Source) → CrewCanStart origin shared loop crew run → CanWork C.is_of result shared loop }
    {
        CoWork {
            crew,
            run,
            clock,
            is_ended: false,
        }
    }

    /// One turn of the loop with its coroutines, between two of which the station's row has the seats. It doesn't block once event 0 was
    /// found set, nor while a coroutine is kept for another loop.
    pub fn turn<'a, E, R: Wait>(
        self,
        rt: &R,
        env: &E,
        shared: &[LoopShared<C>],
        station: Station<'a, C>,
        block: bool,
    ) -> Worked<'a, C, K>
    where
        C: Co<E>,
        requires station { IsStation shared.now (at_loop station.number station.turning.home.seat station.turning.side station.turning.lot_pass station.coroutines station.row) }
        requires turning { TurnsOn shared.now station.number station.turning.table.now station.turning.pool.now }
        requires lent { AreOfOrigin (C.source_of env.now) shared.now }
        requires can_work { CanWork C.is_of self shared.now (at_loop station.number station.turning.home.seat station.turning.side station.turning.lot_pass station.coroutines station.row) }
        ensures station { IsStation shared.now (at_loop result.station.number result.station.turning.home.seat result.station.turning.side result.station.turning.lot_pass result.station.coroutines result.station.row) }
        ensures place { KeepsPlace station.entry.number station.entry.row result.station.number result.station.row }
        ensures can_work { CanWork C.is_of result.work shared.now (at_loop result.station.number result.station.turning.home.seat result.station.turning.side result.station.turning.lot_pass result.station.coroutines result.station.row) }
        ensures does { Works E R C.is_of C.resumes K.time shared.now self (at_loop station.entry.number station.entry.turning.home.seat station.entry.turning.side station.entry.turning.lot_pass station.entry.coroutines station.entry.row) result.ended result.work (at_loop result.station.number result.station.turning.home.seat result.station.turning.side result.station.turning.lot_pass result.station.coroutines result.station.row) }
    {
        let CoWork {
            mut crew,
            run,
            mut clock,
            is_ended,
        } = self;
        let Station {
            number,
            mut turning,
            coroutines,
            mut row,
        } = station;
        exchange_seats(&mut crew, &mut row);
        let mut runner = CoLoop {
            rt,
            env,
            shared,
            crew,
            home: coroutines,
            run,
            is_ended,
        };
        let turned = runner.turn(&mut turning, &mut clock, block && !is_ended);
        let CoLoop {
            rt: _,
            env: _,
            shared: _,
            mut crew,
            home,
            run,
            is_ended,
        } = runner;
        exchange_seats(&mut crew, &mut row);
        let ended = has_ended(is_ended, turned.progress, &crew.leaving);
        Worked {
            work: CoWork {
                crew,
                run,
                clock,
                is_ended,
            },
            station: Station {
                number,
                turning,
                coroutines: home,
                row,
            },
            ended,
        }
    }
}
