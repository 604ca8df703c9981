//! The forms of lines.

/// A line behind the header, by its words. What is a number or data in a form is still the word that stands for it.
#[derive(Clone, Copy, Debug)]
pub(crate) enum Form<'a> {
    Declare(&'a [u8], &'a [u8]),
    Read(&'a [u8], &'a [u8], &'a [u8]),
    Write(&'a [u8], &'a [u8], &'a [u8]),
    Zero(&'a [u8], &'a [u8], &'a [u8]),
    Flush(&'a [u8]),
    Delay(&'a [u8], &'a [u8]),
    Move(&'a [u8], &'a [u8]),
}
