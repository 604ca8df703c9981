//! Words, numbers and data of a line.
ghost use Rattle.std.specs.Prelude.{◌≡◌, ◌+◌, ◌==◌, ◌&&◌, ◌<◌, ◌≤◌, ◌∷◌, [], nat_le, length, position, Some, None, MatchOption, IfSome, if◌then◌else◌};
ghost use Rattle.std.specs.List.{list_all, slice_split};
ghost use Rattle.std.specs.Char.{is_ascii_digit};
ghost use Rattle.aio_script.specs.Lines.{are_words, is_word, significant_from, Numbered};
ghost use Rattle.aio_script.specs.Image.Reading.{AreSeveral};
ghost use Rattle.aio_script.specs.Text.{is, is_skipped, number_of, decimal_value, words_of};

/// The text up to the first such byte, and what stands behind that byte. Where there is none, the whole text.
pub(crate) fn cut(text: &[u8], byte: u8) -> (&[u8], Option<&[u8]>)
    ensures parts { MatchOption result.1
        (slice_split (λ x. x == byte) text.now ≡ result.0.now ∷ [])
        (λ rest. slice_split (λ x. x == byte) text.now ≡ result.0.now ∷ slice_split (λ x. x == byte) rest.now) }
    ensures shorter { IfSome result.1 (λ rest. length rest.now < length text.now) }
{
    match find(text, byte) {
        Some(at) => (&text[..at], Some(&text[at + 1..])),
        None => (text, None),
    }
}

fn find(text: &[u8], byte: u8) -> Option<usize>
    ensures { result ≡ position (λ x. x == byte) text.now }
{
    memchr::memchr(byte, text)
}

/// The word that a text is, if it is but one.
pub(crate) fn one_word(text: &[u8]) -> Option<&[u8]>
    ensures { MatchOption result (AreSeveral (words_of text.now)) (λ word. words_of text.now ≡ word.now ∷ []) }
{
    let (word, behind) = cut(text, b' ');
    match behind {
        Some(_) => None,
        None => Some(word),
    }
}

/// Whether these bytes are those of the other text.
pub(crate) fn is(text: &[u8], other: &str) -> bool
    ensures { result ≡ is text.now other.now }
{
    text == other.as_bytes()
}

/// The first line that says something, with its number, and what stands behind it. The text's first line has the
/// given number.
pub(crate) fn next_line(first: u64, text: &[u8]) -> Option<(u32, &[u8], &[u8])>
    requires { first + length text.now ≤ 4294967296 }
    ensures lines { MatchOption result
        (significant_from first text.now ≡ [])
        (λ cut. significant_from first text.now ≡ record { number = cut.0; line = cut.1.now } ∷ significant_from (cut.0 + 1) cut.2.now) }
    ensures within { IfSome result (λ cut. cut.0 + 1 + length cut.2.now ≤ 4294967296) }
    ensures shorter { IfSome result (λ cut. length cut.2.now < length text.now) }
{
    let mut number = first;
    let mut left = text;
    while !left.is_empty() {
        let (line, behind) = cut_line(number, left);
        if !is_skipped(line) {
            return Some((number as u32, line, behind));
        }
        number += 1;
        left = behind;
    }
    None
}

// The first line, and what stands behind its line feed: nothing, where it has none.
fn cut_line(number: u64, text: &[u8]) -> (&[u8], &[u8])
    requires { 0 < length text.now }
    ensures lines { significant_from number text.now ≡ (if is_skipped result.0.now then significant_from (number + 1) result.1.now else record { number = number; line = result.0.now } ∷ significant_from (number + 1) result.1.now) }
    ensures shorter { length result.1.now < length text.now }
{
    let (line, behind) = cut(text, b'\n');
    match behind {
        Some(behind) => (line, behind),
        None => (line, &[]),
    }
}

fn is_skipped(line: &[u8]) -> bool
    ensures { result ≡ is_skipped line.now }
{
    matches!(line, [] | [b'#', ..])
}

const MOST_DIGITS: usize = 20;

/// The number that a word is.
pub(crate) fn read_number(word: &[u8]) -> Option<u64>
    ensures { result ≡ number_of word.now }
{
    if word.is_empty() || word.len() > MOST_DIGITS {
        return None;
    }
    let value = read_digits(word)?;
    u64::try_from(value).ok()
}

// What at most twenty digits stand for.
fn read_digits(word: &[u8]) -> Option<u128>
    requires { length word.now ≤ 20 }
    ensures { result ≡ (if list_all is_ascii_digit word.now then Some (decimal_value word.now) else None) }
{
    let mut value: u128 = 0;
    for digit in word {
        if !digit.is_ascii_digit() {
            return None;
        }
        value = 10 * value + u128::from(*digit - b'0');
    }
    Some(value)
}

/// Whether a line is words, with just one space between each two.
pub(crate) fn are_words(line: &[u8]) -> bool
    ensures { result ≡ are_words line.now }
{
    let mut left = line;
    loop {
        let (word, behind) = cut(left, b' ');
        if !is_word(word) {
            return false;
        }
        match behind {
            Some(rest) => left = rest,
            None => return true,
        }
    }
}

fn is_word(word: &[u8]) -> bool
    ensures { result ≡ is_word word.now }
{
    !word.is_empty() && are_printed(word)
}

// It looks at all bytes, so that several are looked at together.
fn are_printed(word: &[u8]) -> bool
    ensures { result ≡ list_all (λ byte. nat_le 33 byte && nat_le byte 126) word.now }
{
    let mut all = true;
    for byte in word {
        all = all & is_printed(*byte);
    }
    all
}

fn is_printed(byte: u8) -> bool
    ensures { result ≡ (nat_le 33 byte && nat_le byte 126) }
{
    33 <= byte && byte <= 126
}
