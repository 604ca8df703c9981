//! Serving a script once more, as a list of replies says that it was.
ghost use Rattle.std.specs.Prelude.{◌≡◌, ◌↔◌, ◌≤◌, IsTrue, Some, length, IfOk, MatchBool, MatchOption, count_by};
ghost use Rattle.aio_model.specs.Serving.Asked.{asked, is_ask};
ghost use Rattle.aio_model.specs.Serving.SerialHistory.{bytes_left, IsSerialHistory};
ghost use Rattle.served_check.specs.Cursors.{done_at, none_done, AreAt};
ghost use Rattle.served_check.specs.Judging.{Advances, RepliesGoOn, IsNext};

use crate::cursors::Cursors;
use crate::fitting::fits;
use crate::putting::apply;
use aio_model::{NoMemory, Placed, Script, Step, What};
use std::alloc::Global;

/// Serves one request more, where the reply is one that it may get now; else the bytes and the cursors stay. Memory may run out
/// as its stream's cursor is set.
fn replay_one(
    size: u64,
    lines: &[Step],
    placed: &Placed,
    cursors: &mut Cursors,
    bytes: &mut [u8],
) -> Result<bool, NoMemory>
    requires inside { size ≤ length bytes.old }
    requires at { AreAt lines.now cursors.old }
    ensures at { IfOk result (λ _. AreAt lines.now cursors.new) }
    ensures served { IfOk result (λ served. MatchBool served
        (Advances size (asked lines.now) placed.now (done_at cursors.old) (done_at cursors.new) bytes.old bytes.new)
        (IsNext size (asked lines.now) (done_at cursors.old) bytes.old placed.now → ⊥)) }
{
    let Some(found) = cursors.find(lines, placed) else {
        return Ok(false);
    };
    if !fits(size, bytes, found.request, &placed.reply) {
        return Ok(false);
    }
    apply(size, bytes, found.request, &placed.reply);
    cursors.set(placed.stream, found.behind)?;
    Ok(true)
}

/// Serves all, up to the first reply that its request may not get.
fn replay_all(
    alloc: Global,
    size: u64,
    lines: &[Step],
    served: &[Placed],
    bytes: &mut [u8],
) -> Result<bool, NoMemory>
    requires inside { size ≤ length bytes.old }
    ensures goes { IfOk result (λ lawful. IsTrue lawful ↔ RepliesGoOn size (asked lines.now) none_done bytes.old served.now) }
    ensures left { IfOk result (λ lawful. IsTrue lawful → bytes.new ≡ bytes_left (asked lines.now) served.now bytes.old) }
{
    let mut cursors = Cursors::begin(alloc, lines)?;
    for placed in served {
        if !replay_one(size, lines, placed, &mut cursors, bytes)? {
            return Ok(false);
        }
    }
    Ok(true)
}

fn count_requests(lines: &[Step]) -> usize
    ensures { result ≡ count_by (λ step. is_ask step.what) lines.now }
{
    lines
        .iter()
        .filter(|step| matches!(step.what, What::Ask(_)))
        .count()
}

/// The bytes that the served requests leave, where they are a serial history of the script on the opening bytes; else
/// none. The opening bytes may be more than the image: those past its end stay.
///
/// Takes memory for the bytes, for a number for each line, and for one for each stream.
pub fn replay(
    alloc: Global,
    script: &Script,
    opening: &[u8],
    served: &[Placed],
) -> Result<Option<Vec<u8>>, NoMemory>
    requires { script.now.image ≤ length opening.now }
    ensures { IfOk result (λ replayed. MatchOption replayed
        (IsSerialHistory script.now.image (asked script.now.lines) (Some opening.now) served.now → ⊥)
        (λ left. IsSerialHistory script.now.image (asked script.now.lines) (Some opening.now) served.now
        × (left.items ≡ bytes_left (asked script.now.lines) served.now opening.now))) }
{
    let lines = script.lines.as_slice();
    if served.len() != count_requests(lines) {
        return Ok(None);
    }
    let Ok(mut bytes) = Vec::from_slice(alloc, opening) else {
        return Err(NoMemory);
    };
    if !replay_all(alloc, script.image, lines, served, bytes.as_mut_slice())? {
        return Ok(None);
    }
    Ok(Some(bytes))
}

/// Whether the served requests are a serial history of the script on these opening bytes: each request of the script
/// stands in the list once and nothing else does, each stream's are in their order, and each reply is one that its
/// request may get on the bytes that the ones before it leave.
///
/// Any list may be asked about, of any script. The opening bytes are those of the image, or of a whole device whose
/// first bytes are the image.
///
/// The lines are gone through once, and then the list up to the first reply that breaks a law. The time is that of the
/// bytes that the requests speak of and, for each line and each reply, that of finding a stream among all.
pub fn check_served(
    alloc: Global,
    script: &Script,
    opening: &[u8],
    served: &[Placed],
) -> Result<bool, NoMemory>
    requires { script.now.image ≤ length opening.now }
    ensures { IfOk result (λ lawful. IsTrue lawful
        ↔ IsSerialHistory script.now.image (asked script.now.lines) (Some opening.now) served.now) }
{
    Ok(replay(alloc, script, opening, served)?.is_some())
}
