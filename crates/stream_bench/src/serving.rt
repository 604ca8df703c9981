//! A script is served on zeros, and its replies are printed.
ghost use Rattle.std.specs.Prelude.{◌≤◌, IfOk, length};
ghost use Rattle.aio_script.specs.Image.Bounds.{IsBounded};
ghost use Rattle.reply_printing.specs.Standings.{AreInOrder};

use aio_model::{Placed, Script};
use aio_script::Page;
use aio_words::{MemDevice, OpenGate, Sink};
use reply_printing::{ReplyOrder, print_replies};
use std::alloc::Global;
use std::io::{self, ErrorKind};
use std::sync::Wait;
use stream_carrier::{Carried, Tally, serve_by_wakes};
use stream_ends::serve_in_rounds;

/// A device of zeros, just as large as the script's image.
pub(crate) fn device_for(alloc: Global, script: &Script) -> io::Result<MemDevice>
    ensures { IfOk result (λ device. script.now.image ≤ length device.bytes) }
{
    let Ok(size) = u32::try_from(script.image) else {
        return Err(io::Error::from(ErrorKind::InvalidData));
    };
    match MemDevice::zeros(alloc, size) {
        Ok(device) => Ok(device),
        Err(_) => Err(io::Error::from(ErrorKind::OutOfMemory)),
    }
}

fn serve<R: Wait>(rt: &R, alloc: Global, script: &Script) -> io::Result<Carried<MemDevice>>
    requires bounded { IsBounded script.now }
    ensures { IfOk result (λ carried. AreInOrder script.now.lines carried.done.served.items × (length carried.done.served.items ≤ 4096)) }
{
    let device = device_for(alloc, script)?;
    match serve_by_wakes(rt, alloc, script, device, &OpenGate) {
        Ok(carried) => Ok(carried),
        Err(_) => Err(io::Error::from(ErrorKind::OutOfMemory)),
    }
}

/// Serves by wakes alone.
pub fn count_woken<R: Wait>(rt: &R, alloc: Global, script: &Script) -> io::Result<Tally>
    requires bounded { IsBounded script.now }
{
    let carried = serve(rt, alloc, script)?;
    Ok(carried.tally)
}

/// Serves in rounds, and answers how many replies there are.
pub fn count_in_rounds<R: Wait>(rt: &R, alloc: Global, script: &Script) -> io::Result<usize>
    requires bounded { IsBounded script.now }
{
    let device = device_for(alloc, script)?;
    match serve_in_rounds(rt, alloc, script, device, &OpenGate) {
        Ok(done) => Ok(done.served.len()),
        Err(_) => Err(io::Error::from(ErrorKind::OutOfMemory)),
    }
}

/// Prints the replies in the order of the script's lines.
fn print<K: Sink>(alloc: Global, sink: &mut K, script: &Script, served: &[Placed]) -> io::Result<()>
    requires bounded { IsBounded script.now }
    requires order { AreInOrder script.now.lines served.now }
    requires few { length served.now ≤ 4096 }
{
    let Ok(mut order) = ReplyOrder::build(alloc, served.len()) else {
        return Err(io::Error::from(ErrorKind::OutOfMemory));
    };
    let Ok(mut page) = Page::build(alloc) else {
        return Err(io::Error::from(ErrorKind::OutOfMemory));
    };
    match print_replies(sink, &mut page, &mut order, script.lines.as_slice(), served) {
        Ok(()) => Ok(()),
        Err(_) => Err(io::Error::from(ErrorKind::BrokenPipe)),
    }
}

/// Serves by wakes, and prints the replies.
pub fn serve_and_print<K: Sink, R: Wait>(
    rt: &R,
    alloc: Global,
    script: &Script,
    sink: &mut K,
) -> io::Result<()>
    requires bounded { IsBounded script.now }
{
    let carried = serve(rt, alloc, script)?;
    print(alloc, sink, script, carried.done.served.as_slice())
}
