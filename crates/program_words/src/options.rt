//! Words, each a key and a value behind it.
ghost use Rattle.std.specs.Prelude.{◌≡◌, map, string_bytes, drop, length, false, true, MatchOption, Some, None};
ghost use Rattle.std.specs.List.{list_all};
ghost use Rattle.program_words.specs.Words.{are_options, begins_with, image_key, is_each_once, is_given_once, is_option, value_said};

pub(crate) const MODE: &str = "--mode=";

pub(crate) const GEN: &str = "--gen=";

pub(crate) const FROM: &str = "--from=";

const IMAGE: &str = "--image=";

/// The path of the image file: what stands behind the first word's `--image=`, whatever the other words are. None
/// where no word begins so.
pub fn image_word(words: &[String]) -> Option<&str>
    ensures { MatchOption result
        (value_said image_key (map string_bytes words.now) ≡ None)
        (λ path. value_said image_key (map string_bytes words.now) ≡ Some path.now) }
{
    value_said(words, IMAGE)
}

/// What stands behind the key in the first word that begins with it.
pub(crate) fn value_said<'a>(words: &'a [String], key: &str) -> Option<&'a str>
    ensures { MatchOption result
        (value_said key.now (map string_bytes words.now) ≡ None)
        (λ value. value_said key.now (map string_bytes words.now) ≡ Some value.now) }
{
    for word in words {
        if let Some(value) = value_in(word.as_str(), key) {
            return Some(value);
        }
    }
    None
}

fn value_in<'a>(word: &'a str, key: &str) -> Option<&'a str>
    ensures { MatchOption result
        (begins_with key.now word.now ≡ false)
        (λ value. (begins_with key.now word.now ≡ true) × (value.now ≡ drop (length key.now) word.now)) }
{
    word.strip_prefix(key)
}

/// Whether each word is a key and a value, and no key stands twice.
pub(crate) fn are_options(words: &[String]) -> bool
    ensures { result ≡ are_options (map string_bytes words.now) }
{
    are_known(words) && is_each_once(words)
}

fn are_known(words: &[String]) -> bool
    ensures { result ≡ list_all is_option (map string_bytes words.now) }
{
    for word in words {
        if !is_option(word.as_str()) {
            return false;
        }
    }
    true
}

fn is_each_once(words: &[String]) -> bool
    ensures { result ≡ is_each_once (map string_bytes words.now) }
{
    is_given_once(words, MODE)
        && is_given_once(words, GEN)
        && is_given_once(words, FROM)
        && is_given_once(words, IMAGE)
}

fn is_option(word: &str) -> bool
    ensures { result ≡ is_option word.now }
{
    begins_with(word, MODE)
        || begins_with(word, GEN)
        || begins_with(word, FROM)
        || begins_with(word, IMAGE) && word.len() > IMAGE.len()
}

fn begins_with(word: &str, key: &str) -> bool
    ensures { result ≡ begins_with key.now word.now }
{
    word.as_bytes().starts_with(key.as_bytes())
}

/// Whether at most one word begins with the key.
fn is_given_once(words: &[String], key: &str) -> bool
    ensures { result ≡ is_given_once key.now (map string_bytes words.now) }
{
    words
        .iter()
        .filter(|word| begins_with(word.as_str(), key))
        .count()
        <= 1
}
