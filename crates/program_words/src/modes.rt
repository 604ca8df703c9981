//! What the words ask the program to do.
ghost use Rattle.std.specs.Prelude.{◌≡◌, map, string_bytes, Option, MatchOption, IfSome, Some, None};
ghost use Rattle.program_words.specs.Words.{IsNumber, IsModeWithin, image_key, mode_key, mode_named, mode_said, mode_with, value_said};

use crate::numbers::{from_said, requests_said};
use crate::options::{MODE, are_options, image_word, value_said};

/// What the program is asked to do.
#[derive(Clone, Copy, Debug, PartialEq, Eq)]
pub enum Mode {
    /// To serve an image script.
    Image,
    /// To run a loop script.
    Bells,
    /// To serve the generated script of so many requests, 1 to 4,096, whose places begin at the number `from`, 0 to
    /// 65,535.
    Generated { requests: u32, from: u32 },
}

/// The mode that the words ask for. None exactly where they aren't those that the program takes.
pub fn mode_said(words: &[String]) -> Option<Mode>
    ensures says { result ≡ mode_said (map string_bytes words.now) }
    ensures within { IfSome result IsModeWithin }
{
    if !are_options(words) {
        return None;
    }
    let mode = mode_named(words)?;
    let requests = requests_said(words)?;
    let from = from_said(words)?;
    mode_with(words, mode, requests, from)
}

/// The script that the mode's name is for.
fn mode_named(words: &[String]) -> Option<Mode>
    ensures { result ≡ mode_named (value_said mode_key (map string_bytes words.now)) }
{
    match value_said(words, MODE) {
        None => Some(Mode::Image),
        Some("run") => Some(Mode::Image),
        Some("bh") => Some(Mode::Bells),
        Some(_) => None,
    }
}

/// The mode, together with the numbers of the generated script.
fn mode_with(words: &[String], mode: Mode, requests: Option<u32>, from: Option<u32>) -> Option<Mode>
    requires requests { IfSome requests (IsNumber 1 4096) }
    requires from { IfSome from (IsNumber 0 65535) }
    ensures says { result ≡ mode_with mode requests from (value_said image_key (map string_bytes words.now)) }
    ensures within { IfSome result IsModeWithin }
{
    match (mode, requests, from) {
        (Mode::Bells, None, None) => match image_word(words) {
            None => Some(Mode::Bells),
            Some(_) => None,
        },
        (Mode::Image, None, None) => Some(Mode::Image),
        (Mode::Image, Some(requests), None) => Some(Mode::Generated { requests, from: 1 }),
        (Mode::Image, Some(requests), Some(from)) => Some(Mode::Generated { requests, from }),
        _ => None,
    }
}
