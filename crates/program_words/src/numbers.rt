//! Numbers of the command line.
ghost use Rattle.std.specs.Prelude.{◌≡◌, ◌≤◌, map, string_bytes, length, if◌then◌else◌, IfSome, Some, None};
ghost use Rattle.std.specs.Char.{is_ascii_digit};
ghost use Rattle.std.specs.List.{list_all};
ghost use Rattle.aio_script.specs.Text.{decimal_value};
ghost use Rattle.program_words.specs.Words.{IsNumber, from_key, gen_key, number_said, number_within, value_said};

use crate::options::{FROM, GEN, value_said};

/// How many requests the generated script is to have. None where what stands for it is no such number; within, None
/// where no word says it.
pub(crate) fn requests_said(words: &[String]) -> Option<Option<u32>>
    ensures says { result ≡ number_said 4 1 4096 (value_said gen_key (map string_bytes words.now)) }
    ensures within { IfSome result (λ said. IfSome said (IsNumber 1 4096)) }
{
    match value_said(words, GEN) {
        None => Some(None),
        Some(text) => Some(Some(number_within(text.as_bytes(), 4, 1, 4_096)?)),
    }
}

/// At which number the places of the generated script begin, said like that of the requests.
pub(crate) fn from_said(words: &[String]) -> Option<Option<u32>>
    ensures says { result ≡ number_said 5 0 65535 (value_said from_key (map string_bytes words.now)) }
    ensures within { IfSome result (λ said. IfSome said (IsNumber 0 65535)) }
{
    match value_said(words, FROM) {
        None => Some(None),
        Some(text) => Some(Some(number_within(text.as_bytes(), 5, 0, 65_535)?)),
    }
}

/// The number that so many decimal digits at most stand for, where it lies within these bounds.
fn number_within(text: &[u8], digits: usize, least: u32, most: u32) -> Option<u32>
    requires { digits ≤ 9 }
    ensures says { result ≡ number_within digits least most text.now }
    ensures within { IfSome result (IsNumber least most) }
{
    if text.is_empty() || text.len() > digits {
        return None;
    }
    let value = read_digits(text)?;
    if u64::from(least) <= value && value <= u64::from(most) {
        Some(value as u32)
    } else {
        None
    }
}

// What at most nine digits stand for.
fn read_digits(text: &[u8]) -> Option<u64>
    requires { length text.now ≤ 9 }
    ensures { result ≡ (if list_all is_ascii_digit text.now then Some (decimal_value text.now) else None) }
{
    let mut value: u64 = 0;
    for digit in text {
        if !digit.is_ascii_digit() {
            return None;
        }
        value = 10 * value + u64::from(*digit - b'0');
    }
    Some(value)
}
