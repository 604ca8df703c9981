//! Lines gathered before they are handed to a sink in large pieces.
ghost use Rattle.std.specs.Prelude.{◌≡◌, ◌+◌, ◌++◌, ◌≤◌, [], codes, decimal, length, nat_le, IfOk, OnOk, OnErr};
ghost use Rattle.std.specs.List.{flat_map};
ghost use Rattle.aio_words.specs.Content.{with_piece, AppendsFront};
ghost use Rattle.aio_words.specs.Faults.{HasRisen};
ghost use Rattle.aio_script.specs.Printing.{PutsOnPage, Prints};

use crate::print::{WriteFault, print_piece};
use aio_words::Sink;
use itoa::Buffer;
use std::alloc::{AllocError, Global};
use std::marker::Model;

/// How many bytes a page has room for.
const ROOM: usize = 65_536;

/// Text that still has to be handed to a sink. It isn't a sink: what stands on a page is written nowhere yet, and
/// whoever prints on one calls `hand_over` behind the last line. Contracts see the text.
#[derive(Drop)]
pub struct Page {
    text: Vec<u8>,
}

impl Model for Page {
    ghost use Rattle.std.specs.Prelude.{List, ℕ, ◌≤◌, length, vec_capacity};

    ghost Value = { List ℕ };

    ghost view = { λ page. page.text.items };

    ghost invariant = { λ page. 65536 ≤ vec_capacity page.text };
}

impl Page {
    /// An empty page. All its memory is taken here.
    pub fn build(alloc: Global) -> Result<Page, AllocError>
        ensures { IfOk result (λ page. page ≡ []) }
    {
        Ok(Page {
            text: Vec::with_capacity(alloc, ROOM)?,
        })
    }

    fn has_room(&self, len: usize) -> bool
        ensures { result ≡ nat_le (length self.now + len) 65536 }
    {
        len <= ROOM && self.text.len() <= ROOM - len
    }

    fn push(&mut self, piece: &[u8])
        requires { length self.old + length piece.now ≤ 65536 }
        ensures { self.new ≡ self.old ++ piece.now }
    {
        let pushed = self.text.extend_from_slice(piece);
        prove!(pushed.is_ok());
    }

    fn clear(&mut self)
        ensures { self.new ≡ [] }
    {
        self.text.clear();
    }
}

/// Hands the page's text to the sink, in one piece, unless it is empty. The page is empty then.
pub fn hand_over<K: Sink>(sink: &mut K, page: &mut Page) -> Result<(), WriteFault>
    ensures ok { OnOk result ((K.held sink.new ≡ with_piece page.old (K.held sink.old)) × (page.new ≡ [])) }
    ensures err { OnErr result (AppendsFront (K.held sink.old) (K.held sink.new) page.old) }
    ensures counted { K.faults sink.old ≤ K.faults sink.new }
    ensures cause { OnErr result (HasRisen (K.faults sink.old) (K.faults sink.new)) }
{
    if page.text.is_empty() {
        return Ok(());
    }
    print_piece(sink, page.text.as_slice())?;
    page.clear();
    Ok(())
}

/// Puts a piece behind what stands on the page, which is handed over before where there is no room for both.
pub(crate) fn put<K: Sink>(sink: &mut K, page: &mut Page, piece: &[u8]) -> Result<(), WriteFault>
    ensures { PutsOnPage piece.now page.old page.new (K.held sink.old) (K.held sink.new) (K.faults sink.old) (K.faults sink.new) result }
{
    if page.has_room(piece.len()) {
        page.push(piece);
        return Ok(());
    }
    hand_over(sink, page)?;
    put_first(sink, page, piece)
}

// The first piece of an empty page. One that is longer than a page goes to the sink at once.
fn put_first<K: Sink>(sink: &mut K, page: &mut Page, piece: &[u8]) -> Result<(), WriteFault>
    requires { page.old ≡ [] }
    ensures { PutsOnPage piece.now page.old page.new (K.held sink.old) (K.held sink.new) (K.faults sink.old) (K.faults sink.new) result }
{
    if page.has_room(piece.len()) {
        page.push(piece);
        return Ok(());
    }
    print_piece(sink, piece)
}

pub(crate) fn put_parts<K: Sink>(
    sink: &mut K,
    page: &mut Page,
    parts: &[&[u8]],
) -> Result<(), WriteFault>
    ensures { PutsOnPage (flat_map (λ part. part.now) parts.now) page.old page.new (K.held sink.old) (K.held sink.new) (K.faults sink.old) (K.faults sink.new) result }
{
    for part in parts {
        put(sink, page, part)?;
    }
    Ok(())
}

pub(crate) fn put_counted<K: Sink>(
    sink: &mut K,
    page: &mut Page,
    word: &[u8],
    n: u64,
) -> Result<(), WriteFault>
    ensures { PutsOnPage (word.now ++ (decimal n ++ codes "\n")) page.old page.new (K.held sink.old) (K.held sink.new) (K.faults sink.old) (K.faults sink.new) result }
{
    let mut digits = Buffer::new();
    put_parts(sink, page, &[word, digits.format(n).as_bytes(), b"\n"])
}
