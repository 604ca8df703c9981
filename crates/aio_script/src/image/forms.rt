//! Words to forms. Each function reads the forms of so many words, and answers what their definition says.
ghost use Rattle.std.specs.Prelude.{◌≡◌, ◌∷◌, [], option_map};
ghost use Rattle.aio_script.specs.Image.Forms.{begins_header, form_of, of_declaration, of_one, form_of_stream, of_three, of_two};
ghost use Rattle.aio_script.specs.Image.Reading.{form_shown};
ghost use Rattle.aio_script.specs.Text.{words_of};

use crate::image::form::Form;
use crate::text::{cut, is, one_word};

/// The form of a line behind the header.
pub(crate) fn form_of(line: &[u8]) -> Option<Form<'_>>
    ensures { option_map form_shown result ≡ form_of (words_of line.now) }
{
    let (first, behind) = cut(line, b' ');
    if begins_header(first) {
        return None;
    }
    let words = behind?;
    if is(first, "stream") {
        of_declaration(words)
    } else {
        form_of_stream(first, words)
    }
}

fn begins_header(word: &[u8]) -> bool
    ensures { result ≡ begins_header word.now }
{
    is(word, "image") || is(word, "loops") || is(word, "version")
}

fn of_declaration(words: &[u8]) -> Option<Form<'_>>
    ensures { option_map form_shown result ≡ of_declaration (words_of words.now) }
{
    let (stream, behind) = cut(words, b' ');
    let home = one_word(behind?)?;
    Some(Form::Declare(stream, home))
}

fn form_of_stream<'a>(stream: &'a [u8], words: &'a [u8]) -> Option<Form<'a>>
    ensures { option_map form_shown result ≡ form_of_stream stream.now (words_of words.now) }
{
    let (verb, behind) = cut(words, b' ');
    match behind {
        None => of_one(stream, verb),
        Some(words) => of_more(stream, verb, words),
    }
}

fn of_more<'a>(stream: &'a [u8], verb: &[u8], words: &'a [u8]) -> Option<Form<'a>>
    ensures { option_map form_shown result ≡ form_of_stream stream.now (verb.now ∷ words_of words.now) }
{
    let (second, behind) = cut(words, b' ');
    match behind {
        None => of_two(stream, verb, second),
        Some(words) => {
            let last = one_word(words)?;
            of_three(stream, verb, second, last)
        }
    }
}

fn of_one<'a>(stream: &'a [u8], verb: &[u8]) -> Option<Form<'a>>
    ensures { option_map form_shown result ≡ of_one stream.now verb.now }
{
    if is(verb, "flush") {
        Some(Form::Flush(stream))
    } else {
        None
    }
}

fn of_two<'a>(stream: &'a [u8], verb: &[u8], number: &'a [u8]) -> Option<Form<'a>>
    ensures { option_map form_shown result ≡ of_two stream.now verb.now number.now }
{
    if is(verb, "delay") {
        Some(Form::Delay(stream, number))
    } else if is(verb, "move") {
        Some(Form::Move(stream, number))
    } else {
        None
    }
}

fn of_three<'a>(stream: &'a [u8], verb: &[u8], at: &'a [u8], last: &'a [u8]) -> Option<Form<'a>>
    ensures { option_map form_shown result ≡ of_three stream.now verb.now at.now last.now }
{
    if is(verb, "read") {
        Some(Form::Read(stream, at, last))
    } else if is(verb, "write") {
        Some(Form::Write(stream, at, last))
    } else if is(verb, "zero") {
        Some(Form::Zero(stream, at, last))
    } else {
        None
    }
}
