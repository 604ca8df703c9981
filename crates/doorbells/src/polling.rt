//! What the home thread does.
ghost use Rattle.std.specs.Prelude.{◌≡◌, ◌<◌, true, ◌⊎◌};
ghost use Rattle.aio_bh.specs.OneShots.{ServesHome};
ghost use Rattle.doorbells.specs.Responding.{is_new, AreFit};
ghost use Rattle.doorbells.specs.Answering.{IsHomeReady, AnswersDoorbells, AnswersTwice, AnswersOne};

use crate::devices::Devices;
use crate::ringing::ring;
use aio_bh::{BottomHalves, LotBuilt, Polled};
use aio_core::{Home, LoopTable};
use aio_model::Flags;
use std::sync::Wait;

/// Answers all that was rung, by one poll.
pub fn answer<R: Wait>(
    table: &LoopTable<()>,
    lots: &mut LotBuilt,
    home: &mut Home<()>,
    devices: &mut Devices<R>,
) -> Polled
    requires lots { ServesHome table.now.sizes lots.old.pool lots.old.home }
    requires home { IsHomeReady table.now home.old.seat }
    requires devices { AreFit table.now.sizes.handles devices.old.answered.items devices.old.to }
    ensures lots { ServesHome table.now.sizes lots.new.pool lots.new.home }
    ensures home { IsHomeReady table.now home.new.seat }
    ensures devices { AreFit table.now.sizes.handles devices.new.answered.items devices.new.to × (devices.new.to ≡ devices.old.to) }
    ensures answers { AnswersDoorbells table.now.sizes devices.old.to home.old.seat.known.seen home.new.seat.known.seen (record { answered = devices.old.answered.items; passed_on = devices.old.passed_on }) (record { answered = devices.new.answered.items; passed_on = devices.new.passed_on }) }
{
    let rt = devices.rt;
    table.poll(rt, &lots.pool, &mut lots.home, home, devices)
}

/// Two polls: the second answers what a device's callback rang in the first.
pub fn answer_twice<R: Wait>(
    table: &LoopTable<()>,
    lots: &mut LotBuilt,
    home: &mut Home<()>,
    devices: &mut Devices<R>,
)
    requires lots { ServesHome table.now.sizes lots.old.pool lots.old.home }
    requires home { IsHomeReady table.now home.old.seat }
    requires devices { AreFit table.now.sizes.handles devices.old.answered.items devices.old.to }
    ensures lots { ServesHome table.now.sizes lots.new.pool lots.new.home }
    ensures home { IsHomeReady table.now home.new.seat }
    ensures devices { AreFit table.now.sizes.handles devices.new.answered.items devices.new.to × (devices.new.to ≡ devices.old.to) }
    ensures answers { AnswersTwice table.now.sizes devices.old.to home.old.seat.known.seen home.new.seat.known.seen (record { answered = devices.old.answered.items; passed_on = devices.old.passed_on }) (record { answered = devices.new.answered.items; passed_on = devices.new.passed_on }) }
{
    answer(table, lots, home, devices);
    answer(table, lots, home, devices);
}

/// The home rings a doorbell twice and polls: where the first ring is new that is one answer.
pub fn ring_twice_and_answer<R: Wait>(
    rt: &R,
    table: &LoopTable<()>,
    lots: &mut LotBuilt,
    home: &mut Home<()>,
    devices: &mut Devices<R>,
    bell: u32,
) -> Flags
    requires lots { ServesHome table.now.sizes lots.old.pool lots.old.home }
    requires home { IsHomeReady table.now home.old.seat }
    requires devices { AreFit table.now.sizes.handles devices.old.answered.items devices.old.to }
    requires handle { bell < table.now.sizes.handles }
    ensures lots { ServesHome table.now.sizes lots.new.pool lots.new.home }
    ensures home { IsHomeReady table.now home.new.seat }
    ensures devices { AreFit table.now.sizes.handles devices.new.answered.items devices.new.to × (devices.new.to ≡ devices.old.to) }
    ensures once { AnswersOne bell (is_new result ≡ true) home.old.seat.known.seen home.new.seat.known.seen (record { answered = devices.old.answered.items; passed_on = devices.old.passed_on }) (record { answered = devices.new.answered.items; passed_on = devices.new.passed_on }) }
{
    let found = ring(rt, table, &mut home.seat, bell);
    ring(rt, table, &mut home.seat, bell);
    answer(table, lots, home, devices);
    found
}
