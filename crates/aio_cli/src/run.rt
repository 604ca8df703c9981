//! A script served by its loops on a device, and its replies or its sums printed.
ghost use Rattle.std.specs.Prelude.{◌≡◌, ◌<◌, ◌≤◌, ◌+◌, ◌∷◌, [], None, true, false, length, take, vec_len, IfOk, IfErr};
ghost use Rattle.aio_model.specs.Serving.SerialHistory.{IsSerialHistory, eios_of};
ghost use Rattle.aio_words.specs.Called.{device_call, failures_in, sizes_asked};
ghost use Rattle.aio_words.specs.Content.{with_piece, AppendsFront};
ghost use Rattle.aio_words.specs.Faults.{HasRisen, HasRisenBy};
ghost use Rattle.aio_script.specs.Image.Bounds.{IsBounded};
ghost use Rattle.stream_ends.specs.Stops.{IsScriptServed};
ghost use Rattle.aio_cli.specs.Answers.{IsOfRun, IsOfServing, OnCut, OnDeviceFault, OnRun, OnTooLarge, OnUnserved, OnWritten, TellsErrors};
ghost use Rattle.aio_cli.specs.Calls.{is_read_fault};
ghost use Rattle.aio_cli.specs.Printed.{text_printed};
ghost use Rattle.aio_cli.specs.Run.{HaveCarried};

use crate::printing::{PrintRoom, Printed, print_answer, print_room};
use crate::{Answer, End};
use aio_model::{Script, Unmade};
use aio_run::{Outcome, prepare, run};
use aio_words::{Clock, Device, DeviceAsk, Failed, Gate, Sink};
use img_streams::StreamCo;
use std::alloc::Global;
use std::sync::Wait;
use std::thread::Threads;

/// The first so many of the clocks, in their order.
fn clocks_for<C: Drop>(mut clocks: Vec<C>, loops: u32) -> Vec<C>
    requires enough { loops ≤ vec_len clocks }
    ensures first { result.items ≡ take loops clocks.items }
    ensures many { vec_len result ≡ loops }
{
    clocks.truncate(loops as usize);
    clocks
}

/// The end of a run at which nothing was served.
pub(crate) fn unserved<D: Device>(alloc: Global, answer: Answer, device: D) -> End<D>
    ensures answer { result.answer ≡ answer }
    ensures device { result.device ≡ device }
    ensures served { result.served.items ≡ [] }
    ensures bells { result.bells ≡ None }
    ensures loops { result.loops.items ≡ [] }
{
    End {
        answer,
        device,
        served: Vec::new(alloc),
        bells: None,
        loops: Vec::new(alloc),
    }
}

/// What came of serving a script by its loops, and room to print the replies.
struct Served<D: Device> {
    outcome: Outcome<D, StreamCo<D>>,
    room: PrintRoom,
}

/// Serves a script on a device by the script's loops. The device comes back unserved where memory runs out, and no loop
/// was started then.
fn serve_script<
    D: Device + Send + Drop,
    C: Clock + Send + Drop,
    G: Gate + Sync,
    R: Threads + Wait + Sync,
>(
    rt: &R,
    alloc: Global,
    script: &Script,
    device: D,
    clocks: Vec<C>,
    gate: &G,
) -> Result<Served<D>, Unmade<D>>
    requires bounded { IsBounded script.now }
    requires fits { script.now.image ≤ D.extent device }
    requires sixteen { vec_len clocks ≡ 16 }
    ensures unmade { IfErr result (λ unmade. unmade.back ≡ device) }
    ensures few { IfOk result (λ served. length served.outcome.served.items ≤ 4096) }
    ensures order { IfOk result (λ served. served.room.order ≡ 4096) }
    ensures empty { IfOk result (λ served. served.room.page ≡ []) }
    ensures serves { IfOk result (λ served. IsScriptServed script.now (D.bytes device) (D.bytes served.outcome.device) served.outcome.served.items) }
    ensures carried { IfOk result (λ served. HaveCarried script.now served.outcome.loops.items) }
    ensures eios { IfOk result (λ served. HasRisenBy (eios_of served.outcome.served.items) (D.faults device) (D.faults served.outcome.device)) }
    ensures counted { IfOk result (λ served. D.faults device ≤ D.faults served.outcome.device) }
    ensures sizes { IfOk result (λ served. D.size_faults served.outcome.device ≡ D.size_faults device) }
    ensures extent { IfOk result (λ served. D.extent served.outcome.device ≡ D.extent device) }
    ensures asked { IfOk result (λ served. sizes_asked (D.calls served.outcome.device) ≡ sizes_asked (D.calls device)) }
    ensures failures { IfOk result (λ served. failures_in (D.calls served.outcome.device) ≡ failures_in (D.calls device) + eios_of served.outcome.served.items) }
{
    let Ok(room) = print_room(alloc) else {
        return Err(Unmade { back: device });
    };
    let clocks = clocks_for(clocks, script.loops);
    let prepared = prepare(rt, alloc, script, device, clocks)?;
    let outcome = run(rt, script, prepared, gate);
    Ok(Served { outcome, room })
}

/// Serves a script on a device that is known to hold its image, and prints what is to be printed.
fn run_fitting<
    K: Sink,
    D: Device + Send + Drop,
    C: Clock + Send + Drop,
    G: Gate + Sync,
    R: Threads + Wait + Sync,
>(
    rt: &R,
    alloc: Global,
    script: &Script,
    printed: Printed,
    sink: &mut K,
    device: D,
    clocks: Vec<C>,
    gate: &G,
) -> End<D>
    requires bounded { IsBounded script.now }
    requires fits { script.now.image ≤ D.extent device }
    requires sixteen { vec_len clocks ≡ 16 }
    ensures of_run { IsOfServing result.answer }
    ensures no_read { is_read_fault result.answer ≡ false }
    ensures written { OnWritten result.answer
        (IsScriptServed script.now (D.bytes device) (D.bytes result.device) result.served.items
        × (K.held sink.new ≡ with_piece (text_printed printed script.now result.served.items result.loops.items) (K.held sink.old))) }
    ensures cut { OnCut result.answer
        (IsScriptServed script.now (D.bytes device) (D.bytes result.device) result.served.items
        × AppendsFront (K.held sink.old) (K.held sink.new) (text_printed printed script.now result.served.items result.loops.items)) }
    ensures carried { OnRun result.answer
        (IsScriptServed script.now (D.bytes device) (D.bytes result.device) result.served.items × HaveCarried script.now result.loops.items) }
    ensures unserved { OnUnserved result.answer ((sink.new ≡ sink.old) × (result.device ≡ device) × (result.served.items ≡ [])) }
    ensures no_bells { result.bells ≡ None }
    ensures no_loops { OnUnserved result.answer (result.loops.items ≡ []) }
    ensures errors { TellsErrors result.answer result.served.items }
    ensures eios { HasRisenBy (eios_of result.served.items) (D.faults device) (D.faults result.device) }
    ensures device_counted { D.faults device ≤ D.faults result.device }
    ensures sizes { D.size_faults result.device ≡ D.size_faults device }
    ensures extent { D.extent result.device ≡ D.extent device }
    ensures sink_counted { K.faults sink.old ≤ K.faults sink.new }
    ensures write_fault { OnCut result.answer (HasRisen (K.faults sink.old) (K.faults sink.new)) }
    ensures asked { sizes_asked (D.calls result.device) ≡ sizes_asked (D.calls device) }
    ensures failures { OnRun result.answer (failures_in (D.calls result.device) ≡ failures_in (D.calls device) + eios_of result.served.items) }
{
    match serve_script(rt, alloc, script, device, clocks, gate) {
        Err(unmade) => unserved(alloc, Answer::NoMemory, unmade.back),
        Ok(Served { outcome, mut room }) => {
            let Outcome {
                device,
                served,
                loops,
            } = outcome;
            let answer = print_answer(
                sink,
                &mut room,
                printed,
                script,
                served.as_slice(),
                loops.as_slice(),
            );
            End {
                answer,
                device,
                served,
                loops,
                bells: None,
            }
        }
    }
}

/// Serves a script on a device, where that is large enough, and prints what is to be printed.
pub(crate) fn run_script<
    K: Sink,
    D: Device + Send + Drop,
    C: Clock + Send + Drop,
    G: Gate + Sync,
    R: Threads + Wait + Sync,
>(
    rt: &R,
    alloc: Global,
    script: &Script,
    printed: Printed,
    sink: &mut K,
    mut device: D,
    clocks: Vec<C>,
    gate: &G,
) -> End<D>
    requires bounded { IsBounded script.now }
    requires sixteen { vec_len clocks ≡ 16 }
    ensures of_run { IsOfRun result.answer }
    ensures no_read { is_read_fault result.answer ≡ false }
    ensures written { OnWritten result.answer
        (IsScriptServed script.now (D.bytes device) (D.bytes result.device) result.served.items
        × (K.held sink.new ≡ with_piece (text_printed printed script.now result.served.items result.loops.items) (K.held sink.old))) }
    ensures cut { OnCut result.answer
        (IsScriptServed script.now (D.bytes device) (D.bytes result.device) result.served.items
        × AppendsFront (K.held sink.old) (K.held sink.new) (text_printed printed script.now result.served.items result.loops.items)) }
    ensures carried { OnRun result.answer
        (IsScriptServed script.now (D.bytes device) (D.bytes result.device) result.served.items × HaveCarried script.now result.loops.items) }
    ensures unserved { OnUnserved result.answer ((sink.new ≡ sink.old) × (D.bytes result.device ≡ D.bytes device) × (result.served.items ≡ [])) }
    ensures no_bells { result.bells ≡ None }
    ensures no_loops { OnUnserved result.answer (result.loops.items ≡ []) }
    ensures errors { TellsErrors result.answer result.served.items }
    ensures eios { HasRisenBy (eios_of result.served.items) (D.faults device) (D.faults result.device) }
    ensures device_counted { D.faults device ≤ D.faults result.device }
    ensures sizes { D.size_faults device ≤ D.size_faults result.device }
    ensures extent { D.extent result.device ≡ D.extent device }
    ensures sink_counted { K.faults sink.old ≤ K.faults sink.new }
    ensures write_fault { OnCut result.answer (HasRisen (K.faults sink.old) (K.faults sink.new)) }
    ensures device_fault { OnDeviceFault result.answer (HasRisen (D.size_faults device) (D.size_faults result.device)) }
    ensures too_large { OnTooLarge result.answer (λ image size. (image ≡ script.now.image) × (size ≡ D.extent device) × (size < image)) }
    ensures fits { OnRun result.answer (script.now.image ≤ D.extent device) }
    ensures size_failed { OnDeviceFault result.answer (D.calls result.device ≡ device_call DeviceAsk.Size true ∷ D.calls device) }
    ensures size_told { OnTooLarge result.answer (λ _ _. D.calls result.device ≡ device_call DeviceAsk.Size false ∷ D.calls device) }
    ensures size_once { sizes_asked (D.calls result.device) ≡ sizes_asked (D.calls device) + 1 }
    ensures failures { OnRun result.answer (failures_in (D.calls result.device) ≡ failures_in (D.calls device) + eios_of result.served.items) }
{
    match device.size() {
        Err(Failed) => unserved(alloc, Answer::DeviceFault, device),
        Ok(size) => {
            if script.image > size {
                unserved(alloc, Answer::TooLarge(script.image, size), device)
            } else {
                run_fitting(rt, alloc, script, printed, sink, device, clocks, gate)
            }
        }
    }
}
