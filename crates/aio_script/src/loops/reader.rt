//! Text to loop script, line by line.
ghost use Rattle.std.specs.Prelude.{◌≡◌, [], ◌+◌, ◌≤◌, length, IfOk, OnErr, Err};
ghost use Rattle.aio_script.specs.Loop.Bounds.{IsLoopBounded};
ghost use Rattle.aio_script.specs.Loop.Grammar.{acts_with, commands_with, loop_script_said, script_of, with_lines};
ghost use Rattle.aio_script.specs.Loop.Reading.{GivesLoopScript};
ghost use Rattle.aio_script.specs.Lines.{significant_from};
ghost use Rattle.aio_script.specs.declared.refusals.ScriptFail.TheVariants.{NoMemory};

use crate::image::reader::NO_HEADER;
use crate::loops::form::{LoopHeader, LoopSaid};
use crate::loops::lines::{LoopAbove, read_loop_header, read_loop_line};
use crate::refusals::ScriptFail;
use crate::text::next_line;
use aio_model::{Act, Acts, Command, Commands, LoopScript};
use std::alloc::Global;

/// The loop script that a text says. Takes memory for its actions and commands.
pub fn read_loop_script(alloc: Global, text: &[u8]) -> Result<LoopScript, ScriptFail>
    requires { length text.now ≤ 4294967295 }
    ensures gives { GivesLoopScript (loop_script_said text.now) result }
    ensures bounded { IfOk result IsLoopBounded }
{
    read_loop_text(alloc, text)
}

fn read_loop_text(alloc: Global, text: &[u8]) -> Result<LoopScript, ScriptFail>
    requires { length text.now ≤ 4294967295 }
    ensures { GivesLoopScript (loop_script_said text.now) result }
{
    let Some((number, line, behind)) = next_line(1, text) else {
        return Err(NO_HEADER);
    };
    let header = read_loop_header(number, line)?;
    read_loop_lines(alloc, header, u64::from(number) + 1, behind)
}

fn read_loop_lines(
    alloc: Global,
    header: LoopHeader,
    first: u64,
    text: &[u8],
) -> Result<LoopScript, ScriptFail>
    requires { first + length text.now ≤ 4294967296 }
    ensures { GivesLoopScript (with_lines (script_of header [] []) (significant_from first text.now)) result }
{
    let mut acts = Vec::new(alloc);
    let mut commands = Vec::new(alloc);
    let mut next = first;
    let mut left = text;
    while let Some((number, line, behind)) = next_line(next, left) {
        let above = LoopAbove {
            number,
            handles: header.handles,
            events: header.events,
            acts: acts.as_slice(),
            asked: commands.len(),
        };
        let said = read_loop_line(above, line)?;
        keep(said, &mut acts, &mut commands)?;
        next = u64::from(number) + 1;
        left = behind;
    }
    Ok(LoopScript {
        handles: header.handles,
        lots: header.lots,
        events: header.events,
        acts: Acts::of(acts),
        commands: Commands::of(commands),
    })
}

fn keep(said: LoopSaid, acts: &mut Vec<Act>, commands: &mut Vec<Command>) -> Result<(), ScriptFail>
    ensures acts { IfOk result (λ _. acts.new.items ≡ acts_with acts.old.items said) }
    ensures commands { IfOk result (λ _. commands.new.items ≡ commands_with commands.old.items said) }
    ensures memory { OnErr result (result ≡ Err NoMemory) }
{
    match said {
        LoopSaid::Adds(act) => acts.push(act)?,
        LoopSaid::Asks(command) => commands.push(command)?,
    }
    Ok(())
}
