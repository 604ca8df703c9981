//! Rows of steps of several streams, and what each answers.
use crate::stage::{plays, reads, table_of, writes};
use crate::turn::Answer;
use crate::turn::Answer::{Entered, Left, Nothing, Retired, Served, StillWaits, TookUp};
use aio_words::{Device, MemDevice};
use img_shared::{Enter, Entry, Image, Mark, Piece};
use std::process::Abort;
use std::test::Fail;

/// A read that is queued behind a write, until the write has left.
const UNTIL_THE_WRITER_LEFT: [(usize, Answer); 7] = [
    (0, Entered(Enter::Begun)),
    (1, Entered(Enter::Queued)),
    (1, StillWaits),
    (0, Served(Piece::More)),
    (1, StillWaits),
    (0, Served(Piece::Whole)),
    (0, Left(0, Some(1))),
];

/// Then the read, and both retire.
const UNTIL_BOTH_RETIRED: [(usize, Answer); 7] = [
    (1, TookUp(None)),
    (1, Served(Piece::Whole)),
    (1, Left(1, None)),
    (0, Retired(1)),
    (1, Retired(0)),
    (0, Nothing),
    (2, Nothing),
];

/// Two reads beside each other behind a write, and a flush.
const FOUR_STREAMS: [(usize, Answer); 17] = [
    (0, Entered(Enter::Begun)),
    (1, Entered(Enter::Queued)),
    (2, Entered(Enter::Queued)),
    (3, Entered(Enter::Queued)),
    (0, Served(Piece::Whole)),
    (0, Left(0, Some(1))),
    (2, StillWaits),
    (1, TookUp(None)),
    (1, Served(Piece::Whole)),
    (1, Left(1, Some(2))),
    (3, StillWaits),
    (2, TookUp(Some(3))),
    (3, TookUp(None)),
    (3, Served(Piece::Whole)),
    (2, Served(Piece::Whole)),
    (3, Left(2, None)),
    (2, Left(3, None)),
];

/// What stands in the journal then.
const MARKS: [Mark; 4] = [Mark::Got(16), Mark::Put(16), Mark::Flushed, Mark::Got(16)];

/// The entries have these marks.
fn are_marked<D: Device>(rt: &impl Abort, entries: &[Entry<D>], marks: &[Mark]) {
    for (entry, mark) in entries.iter().zip(marks) {
        assert_eq!(rt; entry.mark, *mark, "stream {}", entry.stream);
    }
}

#[test]
fn reader_waits_until_the_writer_leaves(rt: HostRuntime) -> Result<(), Fail> {
    let alloc = rt.alloc();
    let mut table = table_of(alloc, 8192, &[], &[1, 1])?;
    assert!(rt; writes(alloc, &mut table, 0, 7, 5000)?);
    assert!(rt; reads(alloc, &mut table, 1, 1)?);
    plays(&rt, &mut table, &UNTIL_THE_WRITER_LEFT);
    assert!(rt; table.holds(1));
    assert!(rt; !table.holds(0));
    plays(&rt, &mut table, &UNTIL_BOTH_RETIRED);
    assert_eq!(rt; table.found(1), [7].as_slice());
    Ok(())
}

#[test]
fn readers_come_in_beside_each_other_and_behind_a_writer(rt: HostRuntime) -> Result<(), Fail> {
    let alloc = rt.alloc();
    let mut table = table_of(alloc, 16, &[], &[1, 1, 1, 1])?;
    assert!(rt; reads(alloc, &mut table, 0, 16)?);
    assert!(rt; writes(alloc, &mut table, 1, 9, 16)?);
    assert!(rt; reads(alloc, &mut table, 2, 16)?);
    plays(&rt, &mut table, &FOUR_STREAMS);
    assert_eq!(rt; table.journal().len(), 4);
    are_marked(&rt, table.journal(), &MARKS);
    Ok(())
}

#[test]
fn home_is_the_one_noted_last(rt: HostRuntime) -> Result<(), Fail> {
    let alloc = rt.alloc();
    let device = MemDevice::build(alloc, b"", &[])?;
    let mut image = Image::build(alloc, device, 0, &[0, 0])?;
    assert_eq!(rt; image.home_of(1), 0);
    image.come(1, 5);
    image.come(0, 3);
    image.come(1, 2);
    assert_eq!(rt; image.home_of(0), 3);
    assert_eq!(rt; image.home_of(1), 2);
    assert_eq!(rt; image.retire(1), 1);
    Ok(())
}
