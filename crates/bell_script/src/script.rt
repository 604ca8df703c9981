//! A run of a whole loop script.
ghost use Rattle.std.specs.Prelude.{◌≡◌, [], map, IfErr, IfOk};
ghost use Rattle.std.specs.List.{AllByRecursion};
ghost use Rattle.aio_model.specs.Scripts.LoopReplies.{sizes_of};
ghost use Rattle.aio_script.specs.Loop.Bounds.{IsCommandWithin, IsLoopBounded};
ghost use Rattle.bell_loop.specs.Entering.{acts_at, AreListsOf};
ghost use Rattle.bell_loop.specs.Machines.{IsNew, Ready, machine_state_of};
ghost use Rattle.bell_loop.specs.Running.{IsScriptOf};
ghost use Rattle.bell_script.specs.Scripts.{Collects, RunTells, Writes};

use crate::printing::ring;
use aio_model::{ActKind, LoopScript, NoMemory};
use aio_notify::LoopEnd;
use aio_script::{Page, WriteFault, hand_over};
use aio_words::Sink;
use bell_loop::{Machine, Tag, lists_of};
use std::alloc::Global;
use std::sync::Wait;

/// What a run of a loop script leaves.
#[derive(Drop)]
pub struct LoopRun {
    /// Whether all replies were printed. The sink failed where they weren't, and has a front of their text.
    pub written: Result<(), WriteFault>,
    /// The end of the loop on which the commands were done.
    pub end: LoopEnd<Tag>,
}

/// Does the commands, and puts their replies on the page. Once a reply couldn't be printed, the others aren't tried,
/// and the commands are done all the same.
fn answer_all<R: Wait, K: Sink>(
    machine: &mut Machine<'_, R>,
    script: &LoopScript,
    sink: &mut K,
    page: &mut Page,
) -> Result<(), WriteFault>
    requires ready { Ready machine.old }
    requires within { AllByRecursion (IsCommandWithin (machine_state_of machine.old).sizes.handles (machine_state_of machine.old).sizes.events) script.now.commands }
    ensures ready { Ready machine.new }
    ensures collects { Collects script.now.commands (machine_state_of machine.old) (machine_state_of machine.new) page.old page.new (K.held sink.old) (K.held sink.new) (K.faults sink.old) (K.faults sink.new) result }
{
    let mut written = Ok(());
    for command in script.commands.as_slice() {
        written = ring(machine, *command, sink, page, written);
    }
    written
}

/// Does the commands, and prints their replies. Done once the page's last text was handed over.
fn print_all<R: Wait, K: Sink>(
    machine: &mut Machine<'_, R>,
    script: &LoopScript,
    sink: &mut K,
    page: &mut Page,
) -> Result<(), WriteFault>
    requires empty { page.old ≡ [] }
    requires ready { Ready machine.old }
    requires within { AllByRecursion (IsCommandWithin (machine_state_of machine.old).sizes.handles (machine_state_of machine.old).sizes.events) script.now.commands }
    ensures ready { Ready machine.new }
    ensures writes { Writes script.now.commands (machine_state_of machine.old) (machine_state_of machine.new) (K.held sink.old) (K.held sink.new) (K.faults sink.old) (K.faults sink.new) result }
{
    answer_all(machine, script, sink, page)?;
    hand_over(sink, page)
}

/// Does the commands on a machine on which nothing was done yet, prints their replies, and ends its loop.
fn run_on<R: Wait, K: Sink>(
    machine: Machine<'_, R>,
    script: &LoopScript,
    sink: &mut K,
    page: Page,
) -> LoopRun
    requires empty { page ≡ [] }
    requires ready { Ready machine }
    requires within { AllByRecursion (IsCommandWithin (machine_state_of machine).sizes.handles (machine_state_of machine).sizes.events) script.now.commands }
    requires new { IsNew (sizes_of script.now) (machine_state_of machine).lists (machine_state_of machine) }
    requires of { IsScriptOf script.now (sizes_of script.now) (acts_at (machine_state_of machine).lists) }
    ensures { RunTells script.now result.end.known.seen (K.held sink.old) (K.held sink.new) (K.faults sink.old) (K.faults sink.new) result.written }
{
    let mut machine = machine;
    let mut page = page;
    let written = print_all(&mut machine, script, sink, &mut page);
    let end = machine.end();
    LoopRun { written, end }
}

/// What a run takes of memory beside its machine.
struct Made {
    lists: Vec<Vec<ActKind>>,
    page: Page,
}

fn make(alloc: Global, script: &LoopScript) -> Result<Made, NoMemory>
    ensures blank { IfOk result (λ made. made.page ≡ []) }
    ensures lists { IfOk result (λ made. AreListsOf script.now.handles script.now.acts (map (λ list. list.items) made.lists.items)) }
{
    let lists = lists_of(alloc, script.acts.as_slice(), script.handles).map_err(|_| NoMemory)?;
    let page = Page::build(alloc).map_err(|_| NoMemory)?;
    Ok(Made { lists, page })
}

/// Does the commands of a loop script on a shared loop, prints their replies, and ends the loop: it polls once more with
/// callbacks that do nothing, clears the events that are set, and settles. Where the sink fails, the commands are done to
/// the end all the same, and the loop is ended. All memory is taken before the first command. Where it is wanting, nothing is
/// done and nothing printed.
pub fn run_loop_script<R: Wait, K: Sink>(
    rt: &R,
    alloc: Global,
    script: &LoopScript,
    sink: &mut K,
) -> Result<LoopRun, NoMemory>
    requires bounded { IsLoopBounded script.now }
    ensures tells { IfOk result (λ run. RunTells script.now run.end.known.seen (K.held sink.old) (K.held sink.new) (K.faults sink.old) (K.faults sink.new) run.written) }
    ensures nothing { IfErr result (λ _. sink.new ≡ sink.old) }
{
    let Made { lists, page } = make(alloc, script)?;
    let machine = Machine::build(rt, alloc, lists.as_slice(), script.lots, script.events)?;
    Ok(run_on(machine, script, sink, page))
}
