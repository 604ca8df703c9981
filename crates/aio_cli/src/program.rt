//! The program: what its arguments ask, done over a source, a sink, a device and a clock.
ghost use Rattle.std.specs.Prelude.{◌≡◌, ◌≤◌, ◌<◌, [], List, ℕ, length, map, string_bytes, vec_len, None, Ok, Err, IfOk, IfErr, IfSome, true, false, ◌+◌, ◌∷◌};
ghost use Rattle.aio_model.specs.declared.scripts.image_scripts.Script.{Script};
ghost use Rattle.aio_model.specs.declared.scripts.loop_scripts.LoopScript.{LoopScript};
ghost use Rattle.aio_model.specs.Serving.SerialHistory.{eios_of};
ghost use Rattle.aio_words.specs.Called.{device_call, failures_in, sizes_asked};
ghost use Rattle.aio_words.specs.Content.{with_piece, AppendsFront};
ghost use Rattle.aio_words.specs.Faults.{HasRisen, HasRisenBy};
ghost use Rattle.aio_script.specs.Image.Bounds.{IsBounded};
ghost use Rattle.aio_script.specs.Loop.Bounds.{IsLoopBounded};
ghost use Rattle.aio_cli.specs.Answers.{FailsReading, FailsReadingLoop, FailsText, IsOfLoop, OnBadScript, OnCut, OnDeviceFault, OnRun, OnTooLarge, OnTooLong, OnUnasked, OnUnserved, OnWritten, TellsErrors};
ghost use Rattle.aio_cli.specs.Calls.{Reads, is_read_fault};
ghost use Rattle.aio_cli.specs.Reading.{IsText, IsTooLong, Refuses, RefusesLoop, Says, SaysLoop, SaysFitting, SaysImage, SaysSome, TakesAtMost, most_read};
ghost use Rattle.aio_cli.specs.Rings.{AtDone, EndsSaid, RingsSaid};
ghost use Rattle.aio_cli.specs.Run.{RunsScript, RunsOnLoops};
ghost use Rattle.aio_cli.specs.Modes.{Ends};
ghost use Rattle.program_words.specs.Words.{mode_said};

use crate::generated::run_generated;
use crate::printing::Printed;
use crate::read::{ReadFail, read_text};
use crate::rings::{Rung, ring};
use crate::run::{run_script, unserved};
use crate::{Answer, End};
use aio_model::{LoopScript, Script};
use aio_script::{ScriptFail, read_loop_script, read_script};
use aio_words::{Clock, Device, DeviceAsk, Gate, Sink, Source};
use program_words::{Mode, mode_said};
use std::alloc::Global;
use std::sync::Wait;
use std::thread::Threads;

/// How many bytes a script may have.
const LONGEST_SCRIPT: usize = 1_048_576;

/// Reads the source's text to its end, or tells the answer that stands in its place.
fn read_whole<S: Source>(alloc: Global, source: &mut S) -> Result<Vec<u8>, Answer>
    ensures text { IfOk result (λ text. IsText (S.left source.old) (S.left source.new) text.items) }
    ensures fails { IfErr result (FailsText (S.left source.old) (S.left source.new) (S.faults source.old) (S.faults source.new)) }
    ensures taken { TakesAtMost most_read (S.left source.old) (S.left source.new) }
    ensures counted { S.faults source.old ≤ S.faults source.new }
    ensures reads { IfOk result (λ _. Reads false (S.calls source.old) (S.calls source.new)) }
    ensures stops { IfErr result (λ answer. Reads (is_read_fault answer) (S.calls source.old) (S.calls source.new)) }
{
    let text = match read_text(alloc, source) {
        Ok(text) => text,
        Err(ReadFail::Fault) => return Err(Answer::ReadFault),
        Err(ReadFail::NoMemory) => return Err(Answer::NoMemory),
    };
    if text.len() > LONGEST_SCRIPT {
        return Err(Answer::TooLong);
    }
    Ok(text)
}

/// Reads the script that a source's text says, or tells the answer that stands in its place.
fn read_all<S: Source>(alloc: Global, source: &mut S) -> Result<Script, Answer>
    ensures says { IfOk result (λ script. Says (S.left source.old) (S.left source.new) script) }
    ensures bounded { IfOk result IsBounded }
    ensures fails { IfErr result (λ answer.
        FailsReading (S.left source.old) (S.left source.new) (S.faults source.old) (S.faults source.new) answer) }
    ensures taken { TakesAtMost most_read (S.left source.old) (S.left source.new) }
    ensures counted { S.faults source.old ≤ S.faults source.new }
    ensures reads { IfOk result (λ _. Reads false (S.calls source.old) (S.calls source.new)) }
    ensures stops { IfErr result (λ answer. Reads (is_read_fault answer) (S.calls source.old) (S.calls source.new)) }
{
    let text = read_whole(alloc, source)?;
    match read_script(alloc, text.as_slice()) {
        Ok(script) => Ok(script),
        Err(ScriptFail::Refused(refusal)) => Err(Answer::BadScript(refusal)),
        Err(ScriptFail::NoMemory) => Err(Answer::NoMemory),
    }
}

/// Reads the loop script that a source's text says, or tells the answer that stands in its place.
fn read_loop<S: Source>(alloc: Global, source: &mut S) -> Result<LoopScript, Answer>
    ensures says { IfOk result (λ script. SaysLoop (S.left source.old) (S.left source.new) script) }
    ensures bounded { IfOk result IsLoopBounded }
    ensures fails { IfErr result (λ answer.
        FailsReadingLoop (S.left source.old) (S.left source.new) (S.faults source.old) (S.faults source.new) answer) }
    ensures taken { TakesAtMost most_read (S.left source.old) (S.left source.new) }
    ensures counted { S.faults source.old ≤ S.faults source.new }
    ensures reads { IfOk result (λ _. Reads false (S.calls source.old) (S.calls source.new)) }
    ensures stops { IfErr result (λ answer. Reads (is_read_fault answer) (S.calls source.old) (S.calls source.new)) }
{
    let text = read_whole(alloc, source)?;
    match read_loop_script(alloc, text.as_slice()) {
        Ok(script) => Ok(script),
        Err(ScriptFail::Refused(refusal)) => Err(Answer::BadScript(refusal)),
        Err(ScriptFail::NoMemory) => Err(Answer::NoMemory),
    }
}

/// Reads an image script, serves it and prints its replies.
fn run_image<
    S: Source,
    K: Sink,
    D: Device + Send + Drop,
    C: Clock + Send + Drop,
    G: Gate + Sync,
    R: Threads + Wait + Sync,
>(
    rt: &R,
    alloc: Global,
    source: &mut S,
    sink: &mut K,
    device: D,
    clocks: Vec<C>,
    gate: &G,
) -> End<D>
    requires sixteen { vec_len clocks ≡ 16 }
    ensures written { OnWritten result.answer
        (RunsScript (S.left source.old) (S.left source.new) (D.bytes device) (D.bytes result.device) result.served.items
        (λ text. K.held sink.new ≡ with_piece text (K.held sink.old))) }
    ensures cut { OnCut result.answer
        (RunsScript (S.left source.old) (S.left source.new) (D.bytes device) (D.bytes result.device) result.served.items
        (AppendsFront (K.held sink.old) (K.held sink.new))) }
    ensures carried { OnRun result.answer
        (RunsOnLoops (S.left source.old) (S.left source.new) (D.bytes device) (D.bytes result.device) result.served.items result.loops.items) }
    ensures unserved { OnUnserved result.answer ((sink.new ≡ sink.old) × (D.bytes result.device ≡ D.bytes device) × (result.served.items ≡ [])) }
    ensures no_loops { OnUnserved result.answer (result.loops.items ≡ []) }
    ensures unasked { OnUnasked result.answer (result.device ≡ device) }
    ensures no_bells { result.bells ≡ None }
    ensures errors { TellsErrors result.answer result.served.items }
    ensures eios { HasRisenBy (eios_of result.served.items) (D.faults device) (D.faults result.device) }
    ensures asked { result.answer ≡ Answer.Usage → ⊥ }
    ensures bad_script { OnBadScript result.answer (Refuses (S.left source.old) (S.left source.new)) }
    ensures too_long { OnTooLong result.answer (IsTooLong (S.left source.old) (S.left source.new)) }
    ensures device_fault { OnDeviceFault result.answer (HasRisen (D.size_faults device) (D.size_faults result.device) × SaysSome (S.left source.old) (S.left source.new)) }
    ensures fits { OnRun result.answer (SaysFitting (S.left source.old) (S.left source.new) (D.extent device)) }
    ensures too_large { OnTooLarge result.answer (λ image size. SaysImage (S.left source.old) (S.left source.new) image × (size ≡ D.extent device) × (size < image)) }
    ensures read_fault { result.answer ≡ Answer.ReadFault → HasRisen (S.faults source.old) (S.faults source.new) }
    ensures write_fault { result.answer ≡ Answer.WriteFault → HasRisen (K.faults sink.old) (K.faults sink.new) }
    ensures taken { TakesAtMost most_read (S.left source.old) (S.left source.new) }
    ensures source_counted { S.faults source.old ≤ S.faults source.new }
    ensures sink_counted { K.faults sink.old ≤ K.faults sink.new }
    ensures device_counted { D.faults device ≤ D.faults result.device }
    ensures sizes { D.size_faults device ≤ D.size_faults result.device }
    ensures extent { D.extent result.device ≡ D.extent device }
    ensures reads { Reads (is_read_fault result.answer) (S.calls source.old) (S.calls source.new) }
    ensures size_failed { OnDeviceFault result.answer (D.calls result.device ≡ device_call DeviceAsk.Size true ∷ D.calls device) }
    ensures size_told { OnTooLarge result.answer (λ _ _. D.calls result.device ≡ device_call DeviceAsk.Size false ∷ D.calls device) }
    ensures size_once { sizes_asked (D.calls result.device) ≤ sizes_asked (D.calls device) + 1 }
    ensures failures { OnRun result.answer (failures_in (D.calls result.device) ≡ failures_in (D.calls device) + eios_of result.served.items) }
{
    match read_all(alloc, source) {
        Ok(script) => {
            run_script(
                rt,
                alloc,
                &script,
                Printed::Replies,
                sink,
                device,
                clocks,
                gate,
            )
        }
        Err(answer) => unserved(alloc, answer, device),
    }
}

/// The end of a run in which a loop script was done.
fn ended<D: Device>(alloc: Global, rung: Rung, device: D) -> End<D>
    ensures answer { result.answer ≡ rung.answer }
    ensures device { result.device ≡ device }
    ensures served { result.served.items ≡ [] }
    ensures loops { result.loops.items ≡ [] }
    ensures bells { result.bells ≡ rung.bells }
{
    let Rung { answer, bells } = rung;
    End {
        answer,
        device,
        served: Vec::new(alloc),
        loops: Vec::new(alloc),
        bells,
    }
}

/// Reads a loop script, does its commands and prints their replies. The device isn't touched.
fn run_bells<R: Wait, S: Source, K: Sink, D: Device>(
    rt: &R,
    alloc: Global,
    source: &mut S,
    sink: &mut K,
    device: D,
) -> End<D>
    ensures of_loop { IsOfLoop result.answer }
    ensures written { OnWritten result.answer
        (RingsSaid (S.left source.old) (S.left source.new) (λ text. K.held sink.new ≡ with_piece text (K.held sink.old))) }
    ensures cut { OnCut result.answer
        (RingsSaid (S.left source.old) (S.left source.new) (AppendsFront (K.held sink.old) (K.held sink.new))) }
    ensures bells { AtDone result.answer result.bells (λ end.
        EndsSaid (S.left source.old) (S.left source.new) (λ text. K.held sink.new ≡ with_piece text (K.held sink.old)) end.known.seen) }
    ensures unserved { OnUnserved result.answer (sink.new ≡ sink.old) }
    ensures device { result.device ≡ device }
    ensures served { result.served.items ≡ [] }
    ensures loops { result.loops.items ≡ [] }
    ensures bad_script { OnBadScript result.answer (RefusesLoop (S.left source.old) (S.left source.new)) }
    ensures too_long { OnTooLong result.answer (IsTooLong (S.left source.old) (S.left source.new)) }
    ensures read_fault { result.answer ≡ Answer.ReadFault → HasRisen (S.faults source.old) (S.faults source.new) }
    ensures write_fault { result.answer ≡ Answer.WriteFault → HasRisen (K.faults sink.old) (K.faults sink.new) }
    ensures taken { TakesAtMost most_read (S.left source.old) (S.left source.new) }
    ensures source_counted { S.faults source.old ≤ S.faults source.new }
    ensures sink_counted { K.faults sink.old ≤ K.faults sink.new }
    ensures reads { Reads (is_read_fault result.answer) (S.calls source.old) (S.calls source.new) }
{
    match read_loop(alloc, source) {
        Ok(script) => ended(alloc, ring(rt, alloc, &script, sink), device),
        Err(answer) => unserved(alloc, answer, device),
    }
}

/// Does all that the program does: reads a script from the source, serves its requests on the device, and writes the
/// replies to the sink; or, where the word is `--mode=bh`, reads a loop script, does its commands on the shared loop,
/// and writes what they answer.
///
/// The words are those of the command line behind the program's name, as `program_words` reads them. Which device the
/// word `--image=` names is the caller's affair, who hands it in. With `--gen=` the generated script is served, no source is
/// read, and its sums are written in place of its replies.
/// The script is served by its loops, each on a thread of its own. The loop at each place uses the clock at that place, and
/// the clocks behind are let go. Each stream passes the gate before each of its requests.
/// The device comes back at every answer. An answer is looked for in this order: Usage, then ReadFault or TooLong,
/// BadScript, DeviceFault, TooLarge, and once the script was served WriteFault; NoMemory may stand in place of any from
/// the reading on until the loops are started.
pub fn top<
    S: Source,
    K: Sink,
    D: Device + Send + Drop,
    C: Clock + Send + Drop,
    G: Gate + Sync,
    R: Threads + Wait + Sync,
>(
    rt: &R,
    alloc: Global,
    words: &[String],
    source: &mut S,
    sink: &mut K,
    device: D,
    clocks: Vec<C>,
    gate: &G,
) -> End<D>
    requires sixteen { vec_len clocks ≡ 16 }
    ensures { Ends
        (record { source = source.old; left = S.left source.old; reads = S.calls source.old; read_faults = S.faults source.old; sink = sink.old; held = K.held sink.old; write_faults = K.faults sink.old; device = device; bytes = D.bytes device; calls = D.calls device; faults = D.faults device; size_faults = D.size_faults device; extent = D.extent device })
        (record { source = source.new; left = S.left source.new; reads = S.calls source.new; read_faults = S.faults source.new; sink = sink.new; held = K.held sink.new; write_faults = K.faults sink.new; device = result.device; bytes = D.bytes result.device; calls = D.calls result.device; faults = D.faults result.device; size_faults = D.size_faults result.device; extent = D.extent result.device })
        result.answer result.served.items result.loops.items result.bells
        (mode_said (map string_bytes words.now)) }
{
    match mode_said(words) {
        None => unserved(alloc, Answer::Usage, device),
        Some(Mode::Image) => run_image(rt, alloc, source, sink, device, clocks, gate),
        Some(Mode::Bells) => run_bells(rt, alloc, source, sink, device),
        Some(Mode::Generated { requests, from }) => {
            run_generated(rt, alloc, requests, from, sink, device, clocks, gate)
        }
    }
}
