//! What is printed of a script that was served: its replies, or the sums of the generated script.
ghost use Rattle.std.specs.Prelude.{◌≡◌, ◌≤◌, ◌<◌, ◌^◌, [], false, length, IfOk};
ghost use Rattle.aio_words.specs.Content.{with_piece, AppendsFront};
ghost use Rattle.aio_words.specs.Faults.{HasRisen};
ghost use Rattle.aio_script.specs.Image.Bounds.{IsBounded};
ghost use Rattle.aio_script.specs.Printing.{Prints};
ghost use Rattle.reply_printing.specs.Standings.{AreInOrder};
ghost use Rattle.aio_cli.specs.Answers.{IsOfPrinting, OnCut, OnWritten, TellsErrors};
ghost use Rattle.aio_cli.specs.Calls.{is_read_fault};
ghost use Rattle.aio_cli.specs.Printed.{sums_printed, text_printed};
ghost use Rattle.aio_cli.specs.Run.{HaveCarried};

use crate::Answer;
use aio_model::{Placed, Script};
use aio_run::{RunEnd, moves_in};
use aio_script::{Page, WriteFault};
use aio_words::Sink;
use co_state::Origin;
use reply_printing::{ReplyOrder, errors_in, print_replies};
use script_generator::{Sums, print_gen};
use std::alloc::{AllocError, Global};

/// How many requests a script may have.
const REQUESTS: usize = 4096;

/// What is printed of a script that was served.
#[derive(Clone, Copy)]
pub(crate) enum Printed {
    /// Its replies, in the order of its requests.
    Replies,
    /// The sums of the generated script of so many requests, whose places begin at the number `from`.
    Sums { requests: u32, from: u32 },
}

/// What printing takes of memory: room to find each request's reply, and the page that the lines are printed on.
#[derive(Drop)]
pub(crate) struct PrintRoom {
    order: ReplyOrder,
    page: Page,
}

pub(crate) fn print_room(alloc: Global) -> Result<PrintRoom, AllocError>
    ensures order { IfOk result (λ room. room.order ≡ 4096) }
    ensures empty { IfOk result (λ room. room.page ≡ []) }
{
    Ok(PrintRoom {
        order: ReplyOrder::build(alloc, REQUESTS)?,
        page: Page::build(alloc)?,
    })
}

/// Prints what is to be printed of a run, and tells how that ended.
pub(crate) fn print_answer<K: Sink, C: Origin>(
    sink: &mut K,
    room: &mut PrintRoom,
    printed: Printed,
    script: &Script,
    served: &[Placed],
    loops: &[RunEnd<C>],
) -> Answer
    requires empty { room.old.page ≡ [] }
    requires room { length served.now ≤ room.old.order }
    requires bounded { IsBounded script.now }
    requires order { AreInOrder script.now.lines served.now }
    requires few { length served.now ≤ 4096 }
    requires carried { HaveCarried script.now loops.now }
    ensures of_run { IsOfPrinting result }
    ensures no_read { is_read_fault result ≡ false }
    ensures written { OnWritten result (K.held sink.new ≡ with_piece (text_printed printed script.now served.now loops.now) (K.held sink.old)) }
    ensures cut { OnCut result (AppendsFront (K.held sink.old) (K.held sink.new) (text_printed printed script.now served.now loops.now)) }
    ensures errors { TellsErrors result served.now }
    ensures counted { K.faults sink.old ≤ K.faults sink.new }
    ensures write_fault { OnCut result (HasRisen (K.faults sink.old) (K.faults sink.new)) }
{
    match print_run(sink, room, printed, script, served, loops) {
        Err(WriteFault) => Answer::WriteFault,
        Ok(()) => match errors_in(served) {
            0 => Answer::Done,
            n => Answer::Errors(n),
        },
    }
}

fn print_run<K: Sink, C: Origin>(
    sink: &mut K,
    room: &mut PrintRoom,
    printed: Printed,
    script: &Script,
    served: &[Placed],
    loops: &[RunEnd<C>],
) -> Result<(), WriteFault>
    requires empty { room.old.page ≡ [] }
    requires room { length served.now ≤ room.old.order }
    requires bounded { IsBounded script.now }
    requires order { AreInOrder script.now.lines served.now }
    requires few { length served.now < 2 ^ 32 }
    requires carried { HaveCarried script.now loops.now }
    ensures { Prints (text_printed printed script.now served.now loops.now) (K.held sink.old) (K.held sink.new) (K.faults sink.old) (K.faults sink.new) result }
{
    match printed {
        Printed::Replies => {
            let lines = script.lines.as_slice();
            print_replies(sink, &mut room.page, &mut room.order, lines, served)
        }
        Printed::Sums { requests, from } => {
            print_sums(sink, requests, from, script, served, loops)
        }
    }
}

/// Prints the sums of the generated script. How often a coroutine moved is what its loops tell.
fn print_sums<K: Sink, C: Origin>(
    sink: &mut K,
    requests: u32,
    from: u32,
    script: &Script,
    served: &[Placed],
    loops: &[RunEnd<C>],
) -> Result<(), WriteFault>
    requires bounded { IsBounded script.now }
    requires few { length served.now < 2 ^ 32 }
    requires carried { HaveCarried script.now loops.now }
    ensures { Prints (sums_printed requests from served.now loops.now) (K.held sink.old) (K.held sink.new) (K.faults sink.old) (K.faults sink.new) result }
{
    let begun = script.streams.as_slice().len() as u32;
    let moved = moves_in(script, loops);
    let sums = Sums::of(requests, from, begun, moved, served);
    print_gen(sink, &sums)
}
