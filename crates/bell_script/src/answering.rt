//! The commands of a loop script, each with its reply.
ghost use Rattle.std.specs.Prelude.{◌≡◌};
ghost use Rattle.aio_model.specs.Scripts.LoopLines.{HasLine};
ghost use Rattle.aio_script.specs.Loop.Bounds.{IsCommandWithin};
ghost use Rattle.bell_loop.specs.Machines.{Answers, Ready, machine_state_of};

use aio_model::{Command, Kind, LoopReply};
use bell_loop::Machine;
use std::sync::Wait;

/// Does a command other than a poll. Of a poll no reply is made, since one holds a long list by value.
pub(crate) fn answer<R: Wait>(machine: &mut Machine<'_, R>, command: Command) -> LoopReply
    requires ready { Ready machine.old }
    requires other { command ≡ Command.Poll → ⊥ }
    requires within { IsCommandWithin (machine_state_of machine.old).sizes.handles (machine_state_of machine.old).sizes.events command }
    ensures ready { Ready machine.new }
    ensures answers { Answers command result (machine_state_of machine.old) (machine_state_of machine.new) }
    ensures line { HasLine result }
{
    match command {
        Command::Schedule(i) => LoopReply::Flagged(command, machine.enqueue(i, Kind::Sched)),
        Command::Idle(i) => LoopReply::Flagged(command, machine.enqueue(i, Kind::Idle)),
        Command::Delete(i) => LoopReply::Flagged(command, machine.enqueue(i, Kind::Del)),
        Command::Cancel(i) => LoopReply::Flagged(command, machine.cancel(i)),
        Command::Once(tag) => LoopReply::Placed(tag, machine.once(tag)),
        Command::Poll => unreachable!(),
        Command::Commit => LoopReply::Committed(machine.commit()),
        Command::Set(event) => {
            machine.set(event);
            LoopReply::WasSet(event)
        }
        Command::Clear(event) => LoopReply::Cleared(event, machine.clear(event)),
    }
}
