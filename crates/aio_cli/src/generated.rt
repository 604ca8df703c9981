//! The mode of the generated script: no source is read, and sums are printed in place of replies.
ghost use Rattle.std.specs.Prelude.{◌≡◌, ◌<◌, ◌≤◌, ◌+◌, ◌∷◌, [], None, true, false, vec_len};
ghost use Rattle.aio_model.specs.Serving.SerialHistory.{eios_of};
ghost use Rattle.aio_words.specs.Called.{device_call, failures_in, sizes_asked};
ghost use Rattle.aio_words.specs.Content.{with_piece, AppendsFront};
ghost use Rattle.aio_words.specs.Faults.{HasRisen, HasRisenBy};
ghost use Rattle.aio_cli.specs.Answers.{IsOfRun, OnCut, OnDeviceFault, OnRun, OnTooLarge, OnUnserved, OnWritten, TellsErrors};
ghost use Rattle.aio_cli.specs.Calls.{is_read_fault};
ghost use Rattle.aio_cli.specs.Generated.{RunsGenerated};

use crate::printing::Printed;
use crate::run::{run_script, unserved};
use crate::{Answer, End};
use aio_model::NoMemory;
use aio_words::{Clock, Device, DeviceAsk, Gate, Sink};
use script_generator::generate;
use std::alloc::Global;
use std::sync::Wait;
use std::thread::Threads;

/// Makes the generated script of so many requests, whose places begin at the number `from`, serves it and prints its sums.
pub(crate) fn run_generated<
    K: Sink,
    D: Device + Send + Drop,
    C: Clock + Send + Drop,
    G: Gate + Sync,
    R: Threads + Wait + Sync,
>(
    rt: &R,
    alloc: Global,
    requests: u32,
    from: u32,
    sink: &mut K,
    device: D,
    clocks: Vec<C>,
    gate: &G,
) -> End<D>
    requires some { 1 ≤ requests }
    requires few { requests ≤ 4096 }
    requires from { from ≤ 65535 }
    requires sixteen { vec_len clocks ≡ 16 }
    ensures of_run { IsOfRun result.answer }
    ensures no_read { is_read_fault result.answer ≡ false }
    ensures written { OnWritten result.answer
        (RunsGenerated requests from (D.bytes device) (D.bytes result.device) result.served.items result.loops.items
        (λ text. K.held sink.new ≡ with_piece text (K.held sink.old))) }
    ensures cut { OnCut result.answer
        (RunsGenerated requests from (D.bytes device) (D.bytes result.device) result.served.items result.loops.items
        (AppendsFront (K.held sink.old) (K.held sink.new))) }
    ensures unserved { OnUnserved result.answer ((sink.new ≡ sink.old) × (D.bytes result.device ≡ D.bytes device) × (result.served.items ≡ [])) }
    ensures no_bells { result.bells ≡ None }
    ensures no_loops { OnUnserved result.answer (result.loops.items ≡ []) }
    ensures errors { TellsErrors result.answer result.served.items }
    ensures eios { HasRisenBy (eios_of result.served.items) (D.faults device) (D.faults result.device) }
    ensures device_counted { D.faults device ≤ D.faults result.device }
    ensures sizes { D.size_faults device ≤ D.size_faults result.device }
    ensures extent { D.extent result.device ≡ D.extent device }
    ensures sink_counted { K.faults sink.old ≤ K.faults sink.new }
    ensures write_fault { result.answer ≡ Answer.WriteFault → HasRisen (K.faults sink.old) (K.faults sink.new) }
    ensures device_fault { OnDeviceFault result.answer (HasRisen (D.size_faults device) (D.size_faults result.device)) }
    ensures too_large { OnTooLarge result.answer (λ image size. (image ≡ 1048576) × (size ≡ D.extent device) × (size < image)) }
    ensures fits { OnRun result.answer (1048576 ≤ D.extent device) }
    ensures size_failed { OnDeviceFault result.answer (D.calls result.device ≡ device_call DeviceAsk.Size true ∷ D.calls device) }
    ensures size_told { OnTooLarge result.answer (λ _ _. D.calls result.device ≡ device_call DeviceAsk.Size false ∷ D.calls device) }
    ensures size_once { sizes_asked (D.calls result.device) ≤ sizes_asked (D.calls device) + 1 }
    ensures failures { OnRun result.answer (failures_in (D.calls result.device) ≡ failures_in (D.calls device) + eios_of result.served.items) }
{
    match generate(alloc, requests, from) {
        Ok(script) => {
            let printed = Printed::Sums { requests, from };
            run_script(rt, alloc, &script, printed, sink, device, clocks, gate)
        }
        Err(NoMemory) => unserved(alloc, Answer::NoMemory, device),
    }
}
