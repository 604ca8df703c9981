//! The mode of loop scripts: the commands are done on the shared loop.
ghost use Rattle.std.specs.Prelude.{◌≡◌, ◌≤◌, false};
ghost use Rattle.aio_words.specs.Content.{with_piece, AppendsFront};
ghost use Rattle.aio_words.specs.Faults.{HasRisen};
ghost use Rattle.aio_script.specs.Loop.Bounds.{IsLoopBounded};
ghost use Rattle.aio_cli.specs.Answers.{OnCut, OnUnserved, OnWritten};
ghost use Rattle.aio_cli.specs.Calls.{is_read_fault};
ghost use Rattle.aio_cli.specs.Rings.{AtDone, EndsRings, IsOfBells, LoopTextIsWritten};

use crate::Answer;
use aio_model::{LoopScript, NoMemory};
use aio_notify::LoopEnd;
use aio_script::WriteFault;
use aio_words::Sink;
use bell_loop::Tag;
use bell_script::{LoopRun, run_loop_script};
use std::alloc::Global;
use std::sync::Wait;

/// How a loop script's run ended, and the end of its loop, where all was written.
pub(crate) struct Rung {
    pub(crate) answer: Answer,
    pub(crate) bells: Option<LoopEnd<Tag>>,
}

/// Does the commands of a loop script on a shared loop, and prints their replies.
pub(crate) fn ring<R: Wait, K: Sink>(
    rt: &R,
    alloc: Global,
    script: &LoopScript,
    sink: &mut K,
) -> Rung
    requires bounded { IsLoopBounded script.now }
    ensures of_bells { IsOfBells result.answer }
    ensures no_read { is_read_fault result.answer ≡ false }
    ensures written { OnWritten result.answer (LoopTextIsWritten script.now (λ text. K.held sink.new ≡ with_piece text (K.held sink.old))) }
    ensures cut { OnCut result.answer (LoopTextIsWritten script.now (AppendsFront (K.held sink.old) (K.held sink.new))) }
    ensures bells { AtDone result.answer result.bells (λ end. EndsRings script.now (λ text. K.held sink.new ≡ with_piece text (K.held sink.old)) end.known.seen) }
    ensures unserved { OnUnserved result.answer (sink.new ≡ sink.old) }
    ensures counted { K.faults sink.old ≤ K.faults sink.new }
    ensures write_fault { OnCut result.answer (HasRisen (K.faults sink.old) (K.faults sink.new)) }
{
    match run_loop_script(rt, alloc, script, sink) {
        Err(NoMemory) => Rung {
            answer: Answer::NoMemory,
            bells: None,
        },
        Ok(LoopRun { written, end }) => match written {
            Ok(()) => Rung {
                answer: Answer::Done,
                bells: Some(end),
            },
            Err(WriteFault) => Rung {
                answer: Answer::WriteFault,
                bells: None,
            },
        },
    }
}
