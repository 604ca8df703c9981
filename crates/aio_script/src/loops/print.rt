//! Replies of loop scripts to text, piece by piece.
ghost use Rattle.std.specs.Prelude.{◌≡◌, ◌++◌, [], true, false, ◌≤◌, codes, decimal, OnOk, OnErr, if◌then◌else◌};
ghost use Rattle.std.specs.List.{flat_map};
ghost use Rattle.aio_model.specs.Scripts.LoopLines.{behind_space, call_text, commit_text, flag_text, flags_text, HasLine, HasNoDeadline, IsCall, list_text, more_text, progress_text, reply_text};
ghost use Rattle.aio_model.specs.declared.scripts.loop_replies.LoopReply.TheVariants.{Committed, Flagged, Ran};
ghost use Rattle.aio_model.specs.declared.loops.commits.Commit.TheVariants.{Awake, Sleep};
ghost use Rattle.aio_words.specs.Content.{AppendsFront};
ghost use Rattle.aio_words.specs.Faults.{HasRisen};
ghost use Rattle.aio_script.specs.Printing.{PutsOnPage, HandsOver};

use crate::page::{Page, put, put_counted, put_parts};
use crate::print::WriteFault;
use aio_model::{Called, Command, Commit, Flags, LoopReply, RanList, Why};
use aio_words::Sink;
use itoa::Buffer;

/// Prints the line of a reply of the loop.
pub fn print_reply<K: Sink>(
    sink: &mut K,
    page: &mut Page,
    answer: &LoopReply,
) -> Result<(), WriteFault>
    requires { HasLine answer.now }
    ensures ok { OnOk result (HandsOver (page.old ++ (reply_text answer.now)) page.new (K.held sink.old) (K.held sink.new)) }
    ensures err { OnErr result (AppendsFront (K.held sink.old) (K.held sink.new) (page.old ++ (reply_text answer.now))) }
    ensures counted { K.faults sink.old ≤ K.faults sink.new }
    ensures cause { OnErr result (HasRisen (K.faults sink.old) (K.faults sink.new)) }
{
    match answer {
        LoopReply::Flagged(command, flags) => print_flagged(sink, page, *command, *flags),
        LoopReply::Placed(tag, put) => {
            print_told(
                sink,
                page,
                b"once ",
                *tag,
                either(*put, b" put\n", b" noroom\n"),
            )
        }
        LoopReply::Ran(called, more, progress, cut) => {
            print_poll(sink, page, called, *more, *progress, *cut)
        }
        LoopReply::Committed(commit) => print_commit(sink, page, *commit),
        LoopReply::WasSet(event) => put_counted(sink, page, b"set ", u64::from(*event)),
        LoopReply::Cleared(event, was) => {
            print_told(
                sink,
                page,
                b"clear ",
                *event,
                either(*was, b" was 1\n", b" was 0\n"),
            )
        }
    }
}

fn either(first: bool, one: &'static [u8], other: &'static [u8]) -> &'static [u8]
    ensures { result.now ≡ (if first then one.now else other.now) }
{
    if first { one } else { other }
}

fn print_told<K: Sink>(
    sink: &mut K,
    page: &mut Page,
    word: &[u8],
    n: u32,
    told: &[u8],
) -> Result<(), WriteFault>
    ensures { PutsOnPage (word.now ++ (decimal n ++ told.now)) page.old page.new (K.held sink.old) (K.held sink.new) (K.faults sink.old) (K.faults sink.new) result }
{
    let mut digits = Buffer::new();
    put_parts(sink, page, &[word, digits.format(n).as_bytes(), told])
}

fn print_flagged<K: Sink>(
    sink: &mut K,
    page: &mut Page,
    command: Command,
    flags: Flags,
) -> Result<(), WriteFault>
    requires { IsCall command }
    ensures { PutsOnPage (reply_text (Flagged command flags)) page.old page.new (K.held sink.old) (K.held sink.new) (K.faults sink.old) (K.faults sink.new) result }
{
    let (verb, bh) = verb_and_handle(command);
    let mut digits = Buffer::new();
    put_parts(
        sink,
        page,
        &[
            verb,
            digits.format(bh).as_bytes(),
            b" was ",
            either(flags.pending, b"P", b"-"),
            either(flags.scheduled, b"S", b"-"),
            either(flags.deleted, b"D", b"-"),
            either(flags.oneshot, b"O", b"-"),
            either(flags.idle, b"I", b"-"),
            b"\n",
        ],
    )
}

// The verb with the space behind it, and the handle.
fn verb_and_handle(command: Command) -> (&'static [u8], u32)
    requires { IsCall command }
    ensures { call_text command ≡ result.0.now ++ decimal result.1 }
{
    match command {
        Command::Schedule(bh) => (b"schedule ", bh),
        Command::Idle(bh) => (b"idle ", bh),
        Command::Delete(bh) => (b"delete ", bh),
        Command::Cancel(bh) => (b"cancel ", bh),
        _ => unreachable!(),
    }
}

fn print_commit<K: Sink>(sink: &mut K, page: &mut Page, commit: Commit) -> Result<(), WriteFault>
    requires { HasNoDeadline commit }
    ensures { PutsOnPage (reply_text (Committed commit)) page.old page.new (K.held sink.old) (K.held sink.new) (K.faults sink.old) (K.faults sink.new) result }
{
    match commit {
        Commit::Awake(why) => print_awake(sink, page, why),
        Commit::Sleep(left) => print_sleep(sink, page, left),
    }
}

fn print_awake<K: Sink>(sink: &mut K, page: &mut Page, why: Why) -> Result<(), WriteFault>
    requires { HasNoDeadline (Awake why) }
    ensures { PutsOnPage (reply_text (Committed (Awake why))) page.old page.new (K.held sink.old) (K.held sink.new) (K.faults sink.old) (K.faults sink.new) result }
{
    match why {
        Why::Urgent(bh) => put_counted(sink, page, b"commit awake urgent ", u64::from(bh)),
        Why::Event(event) => put_counted(sink, page, b"commit awake event ", u64::from(event)),
        Why::Notified => put_parts(sink, page, &[b"commit awake notified\n"]),
        Why::Deadline => unreachable!(),
    }
}

fn print_sleep<K: Sink>(sink: &mut K, page: &mut Page, left: Option<u64>) -> Result<(), WriteFault>
    ensures { PutsOnPage (reply_text (Committed (Sleep left))) page.old page.new (K.held sink.old) (K.held sink.new) (K.faults sink.old) (K.faults sink.new) result }
{
    match left {
        None => put_parts(sink, page, &[b"commit sleep forever\n"]),
        Some(ns) => put_counted(sink, page, b"commit sleep ", ns),
    }
}

/// Prints the line of a poll, as of the reply that has this list.
pub fn print_poll<K: Sink>(
    sink: &mut K,
    page: &mut Page,
    called: &RanList,
    more: u64,
    progress: bool,
    cut: u64,
) -> Result<(), WriteFault>
    ensures { PutsOnPage (reply_text (Ran called.now more progress cut)) page.old page.new (K.held sink.old) (K.held sink.new) (K.faults sink.old) (K.faults sink.new) result }
{
    if found_nothing(called, more, progress, cut) {
        return print_idle(sink, page);
    }
    print_ran(sink, page, called, more, progress, cut)
}

fn found_nothing(called: &RanList, more: u64, progress: bool, cut: u64) -> bool
    ensures { result ≡ true → Ran called.now more progress cut ≡ Ran [] 0 false 0 }
{
    called.as_slice().is_empty() && more == 0 && !progress && cut == 0
}

// The line of a poll that called nothing, which a loop with nothing to do prints again and again, in one piece.
fn print_idle<K: Sink>(sink: &mut K, page: &mut Page) -> Result<(), WriteFault>
    ensures { PutsOnPage (reply_text (Ran [] 0 false 0)) page.old page.new (K.held sink.old) (K.held sink.new) (K.faults sink.old) (K.faults sink.new) result }
{
    put(sink, page, b"poll ran - progress no cut 0\n")
}

fn print_ran<K: Sink>(
    sink: &mut K,
    page: &mut Page,
    called: &RanList,
    more: u64,
    progress: bool,
    cut: u64,
) -> Result<(), WriteFault>
    ensures { PutsOnPage (reply_text (Ran called.now more progress cut)) page.old page.new (K.held sink.old) (K.held sink.new) (K.faults sink.old) (K.faults sink.new) result }
{
    put_parts(sink, page, &[b"poll ran"])?;
    print_list(sink, page, called)?;
    print_more(sink, page, more)?;
    print_end_of_poll(sink, page, progress, cut)
}

fn print_end_of_poll<K: Sink>(
    sink: &mut K,
    page: &mut Page,
    progress: bool,
    cut: u64,
) -> Result<(), WriteFault>
    ensures { PutsOnPage (codes " progress " ++ (progress_text progress ++ (codes " cut " ++ (decimal cut ++ codes "\n")))) page.old page.new (K.held sink.old) (K.held sink.new) (K.faults sink.old) (K.faults sink.new) result }
{
    let mut digits = Buffer::new();
    put_parts(
        sink,
        page,
        &[
            b" progress ",
            either(progress, b"yes", b"no"),
            b" cut ",
            digits.format(cut).as_bytes(),
            b"\n",
        ],
    )
}

fn print_list<K: Sink>(sink: &mut K, page: &mut Page, called: &RanList) -> Result<(), WriteFault>
    ensures { PutsOnPage (list_text called.now) page.old page.new (K.held sink.old) (K.held sink.new) (K.faults sink.old) (K.faults sink.new) result }
{
    let members = called.as_slice();
    if members.is_empty() {
        put_parts(sink, page, &[b" -"])
    } else {
        print_each(sink, page, members)
    }
}

fn print_each<K: Sink>(sink: &mut K, page: &mut Page, called: &[Called]) -> Result<(), WriteFault>
    ensures { PutsOnPage (flat_map behind_space called.now) page.old page.new (K.held sink.old) (K.held sink.new) (K.faults sink.old) (K.faults sink.new) result }
{
    for one in called {
        print_called(sink, page, *one)?;
    }
    Ok(())
}

fn print_called<K: Sink>(sink: &mut K, page: &mut Page, called: Called) -> Result<(), WriteFault>
    ensures { PutsOnPage (behind_space called) page.old page.new (K.held sink.old) (K.held sink.new) (K.faults sink.old) (K.faults sink.new) result }
{
    let mut digits = Buffer::new();
    match called {
        Called::Handle(bh) => put_parts(sink, page, &[b" ", digits.format(bh).as_bytes()]),
        Called::Once(tag) => put_parts(sink, page, &[b" o", digits.format(tag).as_bytes()]),
    }
}

fn print_more<K: Sink>(sink: &mut K, page: &mut Page, more: u64) -> Result<(), WriteFault>
    ensures { PutsOnPage (more_text more) page.old page.new (K.held sink.old) (K.held sink.new) (K.faults sink.old) (K.faults sink.new) result }
{
    if more == 0 {
        return Ok(());
    }
    let mut digits = Buffer::new();
    put_parts(sink, page, &[b" more ", digits.format(more).as_bytes()])
}
