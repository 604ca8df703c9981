//! Words to forms of a loop script. Each function reads the forms of so many words, and answers what their definition
//! says.
ghost use Rattle.std.specs.Prelude.{◌≡◌, ◌∷◌, [], option_map};
ghost use Rattle.aio_script.specs.Loop.Forms.{loop_form_of, of_action, of_command, of_word, of_words, size_words, verb_named};
ghost use Rattle.aio_script.specs.Loop.Reading.{loop_form_shown, sizes_shown};
ghost use Rattle.aio_script.specs.Text.{words_of};

use crate::loops::form::{LoopForm, SizeWords, Verb};
use crate::text::{cut, is, one_word};

/// The three words that stand behind `loop` in the header.
pub(crate) fn size_words(words: &[u8]) -> Option<SizeWords<'_>>
    ensures { option_map sizes_shown result ≡ size_words (words_of words.now) }
{
    let (handles, behind) = cut(words, b' ');
    let (lots, behind) = cut(behind?, b' ');
    let events = one_word(behind?)?;
    Some(SizeWords {
        handles,
        lots,
        events,
    })
}

/// The form of a line behind the header, where a command stands above it or none.
pub(crate) fn loop_form_of(behind_command: bool, line: &[u8]) -> Option<LoopForm<'_>>
    ensures { option_map loop_form_shown result ≡ loop_form_of behind_command (words_of line.now) }
{
    let (first, behind) = cut(line, b' ');
    if is(first, "on") {
        if behind_command {
            return None;
        }
        return of_action(behind?);
    }
    match behind {
        None => of_word(first),
        Some(words) => of_command(first, words),
    }
}

fn of_action(words: &[u8]) -> Option<LoopForm<'_>>
    ensures { option_map loop_form_shown result ≡ of_action (words_of words.now) }
{
    let (handle, behind) = cut(words, b' ');
    let (word, behind) = cut(behind?, b' ');
    let Some(rest) = behind else {
        return of_nest(handle, word);
    };
    let target = one_word(rest)?;
    let verb = verb_named(word)?;
    Some(LoopForm::OnCall(verb, handle, target))
}

fn of_nest<'a>(handle: &'a [u8], word: &[u8]) -> Option<LoopForm<'a>>
    ensures { option_map loop_form_shown result ≡ of_action (handle.now ∷ word.now ∷ []) }
{
    if is(word, "nest") {
        Some(LoopForm::OnNest(handle))
    } else {
        None
    }
}

fn of_command<'a>(word: &[u8], words: &'a [u8]) -> Option<LoopForm<'a>>
    ensures { option_map loop_form_shown result ≡ of_command word.now (words_of words.now) }
{
    let number = one_word(words)?;
    of_words(word, number)
}

fn of_word(word: &[u8]) -> Option<LoopForm<'static>>
    ensures { option_map loop_form_shown result ≡ of_word word.now }
{
    if is(word, "poll") {
        Some(LoopForm::Poll)
    } else if is(word, "commit") {
        Some(LoopForm::Commit)
    } else {
        None
    }
}

fn of_words<'a>(word: &[u8], number: &'a [u8]) -> Option<LoopForm<'a>>
    ensures { option_map loop_form_shown result ≡ of_words word.now number.now }
{
    if is(word, "once") {
        Some(LoopForm::Once(number))
    } else if is(word, "set") {
        Some(LoopForm::Set(number))
    } else if is(word, "clear") {
        Some(LoopForm::Clear(number))
    } else {
        let verb = verb_named(word)?;
        Some(LoopForm::Call(verb, number))
    }
}

fn verb_named(word: &[u8]) -> Option<Verb>
    ensures { result ≡ verb_named word.now }
{
    if is(word, "schedule") {
        Some(Verb::Schedule)
    } else if is(word, "idle") {
        Some(Verb::Idle)
    } else if is(word, "delete") {
        Some(Verb::Delete)
    } else if is(word, "cancel") {
        Some(Verb::Cancel)
    } else {
        None
    }
}
