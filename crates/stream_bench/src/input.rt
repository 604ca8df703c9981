//! The script, from a source.
ghost use Rattle.std.specs.Prelude.{◌≤◌, IfOk, length};
ghost use Rattle.aio_script.specs.Image.Bounds.{IsBounded};

use aio_model::Script;
use aio_script::read_script;
use aio_words::Source;
use std::alloc::{AllocError, Global};
use std::io::{self, ErrorKind};

/// One byte more than a script may have.
const LIMIT: usize = 1_048_577;

const CHUNK: usize = 4096;

/// All that the source has left, or as much as is more than a script may have.
fn text_from<S: Source>(alloc: Global, source: &mut S) -> Result<Vec<u8>, AllocError> {
    let mut text = Vec::with_capacity(alloc, LIMIT)?;
    let mut chunk = [0u8; CHUNK];
    while text.len() < LIMIT {
        let Ok(n) = source.read(&mut chunk) else {
            return Ok(text);
        };
        let Some(piece) = chunk.get(..n) else {
            return Ok(text);
        };
        if piece.is_empty() {
            return Ok(text);
        }
        text.extend_from_slice(piece)?;
    }
    Ok(text)
}

/// The script of a text, of at most 1,048,576 bytes.
pub fn script_from<S: Source>(alloc: Global, source: &mut S) -> io::Result<Script>
    ensures { IfOk result IsBounded }
{
    let Ok(text) = text_from(alloc, source) else {
        return Err(io::Error::from(ErrorKind::OutOfMemory));
    };
    if text.len() >= LIMIT {
        return Err(io::Error::from(ErrorKind::InvalidData));
    }
    match read_script(alloc, text.as_slice()) {
        Ok(script) => Ok(script),
        Err(_) => Err(io::Error::from(ErrorKind::InvalidData)),
    }
}
