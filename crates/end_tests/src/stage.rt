//! How a script is read, served, judged and printed for a test.
ghost use Rattle.std.specs.Prelude.{◌≡◌, ◌≤◌, IfOk, length};
ghost use Rattle.aio_script.specs.Image.Bounds.{IsBounded};
ghost use Rattle.reply_printing.specs.Standings.{AreInOrder};
ghost use Rattle.stream_ends.specs.Stops.{IsScriptServed};

use aio_model::{Placed, Script};
use aio_script::{Page, read_script};
use aio_words::{Device, MemDevice, MemSink, OpenGate};
use reply_printing::{ReplyOrder, print_replies};
use served_check::replay;
use std::alloc::Global;
use std::process::Abort;
use std::sync::Wait;
use std::test::Fail;
use stream_carrier::{Carried, serve_by_wakes};
use stream_ends::{Finished, serve_in_rounds};

/// How many bytes a script's text may have.
const TEXT: usize = 1_048_576;

/// How many bytes may be printed.
const PRINTED: u32 = 1_048_576;

/// The script of a text that says one.
pub fn script_of<R: Abort>(rt: &R, alloc: Global, text: &[u8]) -> Script
    ensures { IsBounded result }
{
    if text.len() > TEXT {
        panic!(rt; "the text is short");
    }
    match read_script(alloc, text) {
        Ok(script) => script,
        Err(_) => panic!(rt; "it is a script"),
    }
}

/// So many zeros.
pub fn zeros(alloc: Global, len: u64) -> Result<Vec<u8>, Fail>
    ensures { IfOk result (λ bytes. length bytes.items ≡ len) }
{
    Ok(vec![in alloc; 0; len as usize]?)
}

/// A script served in rounds.
pub fn serve<D: Device, R: Wait + Abort>(
    rt: &R,
    alloc: Global,
    script: &Script,
    device: D,
) -> Finished<D>
    requires bounded { IsBounded script.now }
    requires fits { script.now.image ≤ D.extent device }
    ensures serves { IsScriptServed script.now (D.bytes device) (D.bytes result.device) result.served.items }
{
    match serve_in_rounds(rt, alloc, script, device, &OpenGate) {
        Ok(done) => done,
        Err(_) => panic!(rt; "there is memory"),
    }
}

/// A script served by wakes.
pub fn serve_woken<D: Device, R: Wait + Abort>(
    rt: &R,
    alloc: Global,
    script: &Script,
    device: D,
) -> Carried<D>
    requires bounded { IsBounded script.now }
    requires fits { script.now.image ≤ D.extent device }
{
    match serve_by_wakes(rt, alloc, script, device, &OpenGate) {
        Ok(carried) => carried,
        Err(_) => panic!(rt; "there is memory"),
    }
}

/// Whether the replies are a serial history of the script over zeros, and leave these bytes.
pub fn is_lawful(
    alloc: Global,
    script: &Script,
    served: &[Placed],
    left: &[u8],
) -> Result<bool, Fail> {
    let opening = zeros(alloc, script.image)?;
    Ok(match replay(alloc, script, opening.as_slice(), served)? {
        Some(bytes) => bytes.as_slice() == left,
        None => false,
    })
}

/// What is printed of the replies to a script, of which there are at most 4,096.
pub fn printed(alloc: Global, script: &Script, served: &[Placed]) -> Result<Vec<u8>, Fail>
    requires bounded { IsBounded script.now }
    requires order { AreInOrder script.now.lines served.now }
{
    if served.len() > 4096 {
        return Ok(Vec::new(alloc));
    }
    let mut sink = MemSink::build(alloc, PRINTED, &[])?;
    let mut page = Page::build(alloc)?;
    let mut order = ReplyOrder::build(alloc, served.len())?;
    let lines = script.lines.as_slice();
    match print_replies(&mut sink, &mut page, &mut order, lines, served) {
        Ok(()) => Ok(Vec::from_slice(alloc, sink.bytes())?),
        Err(_) => Ok(Vec::new(alloc)),
    }
}
