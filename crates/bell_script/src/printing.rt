//! The replies of a loop script's commands, printed one after another.
ghost use Rattle.std.specs.Prelude.{◌++◌, ℕ, Option, List};
ghost use Rattle.aio_model.specs.declared.scripts.loop_replies.LoopReply.{LoopReply};
ghost use Rattle.aio_model.specs.Scripts.LoopLines.{HasLine, reply_text};
ghost use Rattle.aio_script.specs.Loop.Bounds.{IsCommandWithin};
ghost use Rattle.aio_script.specs.Printing.{PutsOnPage};
ghost use Rattle.bell_loop.specs.Machines.{Ready, machine_state_of, ran_in, more_in};
ghost use Rattle.bell_script.specs.Scripts.{Rung};

use crate::answering::answer;
use aio_bh::Polled;
use aio_model::{Command, LoopReply};
use aio_script::{Page, WriteFault, print_poll, print_reply};
use aio_words::Sink;
use bell_loop::Machine;
use std::sync::Wait;

/// Prints a reply, unless a reply before it wasn't printed.
fn print_next<K: Sink>(
    sink: &mut K,
    page: &mut Page,
    written: Result<(), WriteFault>,
    reply: &LoopReply,
) -> Result<(), WriteFault>
    requires { HasLine reply.now }
    ensures { (text first : List ℕ) (before : Option (List ℕ)) (faults : ℕ)
        → PutsOnPage text first page.old before (K.held sink.old) faults (K.faults sink.old) written
        → PutsOnPage (text ++ reply_text reply.now) first page.new before (K.held sink.new) faults (K.faults sink.new) result }
{
    written?;
    print_reply(sink, page, reply)
}

/// Prints the reply of the poll that was done last, unless a reply before it wasn't printed.
fn print_last<R: Wait, K: Sink>(
    machine: &Machine<'_, R>,
    polled: &Polled,
    sink: &mut K,
    page: &mut Page,
    written: Result<(), WriteFault>,
) -> Result<(), WriteFault>
    ensures { (text first : List ℕ) (before : Option (List ℕ)) (faults : ℕ)
        → PutsOnPage text first page.old before (K.held sink.old) faults (K.faults sink.old) written
        → PutsOnPage (text ++ reply_text (LoopReply.Ran (ran_in machine.now) (more_in machine.now) polled.now.progress polled.now.cut_nests)) first page.new before (K.held sink.new) faults (K.faults sink.new) result }
{
    written?;
    let (ran, more) = machine.called();
    print_poll(sink, page, ran, more, polled.progress, polled.cut_nests)
}

/// Does a command, and prints its reply, unless a reply before it wasn't printed.
pub(crate) fn ring<R: Wait, K: Sink>(
    machine: &mut Machine<'_, R>,
    command: Command,
    sink: &mut K,
    page: &mut Page,
    written: Result<(), WriteFault>,
) -> Result<(), WriteFault>
    requires ready { Ready machine.old }
    requires within { IsCommandWithin (machine_state_of machine.old).sizes.handles (machine_state_of machine.old).sizes.events command }
    ensures ready { Ready machine.new }
    ensures rings { Rung command (machine_state_of machine.old) (machine_state_of machine.new) page.old page.new (K.held sink.old) (K.held sink.new) (K.faults sink.old) (K.faults sink.new) written result }
{
    match command {
        Command::Poll => {
            let polled = machine.poll();
            print_last(machine, &polled, sink, page, written)
        }
        _ => {
            let reply = answer(machine, command);
            print_next(sink, page, written, &reply)
        }
    }
}
