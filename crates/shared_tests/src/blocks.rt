//! 64 streams read and write one block.
use crate::stage::{are_all, reads, table_of, writes};
use crate::table::Table;
use crate::turn::Answer;
use aio_words::Device;
use std::alloc::Global;
use std::process::Abort;
use std::test::Fail;

const STREAMS: usize = 64;

/// How many requests each has.
const TURNS: u32 = 4;

const BLOCK: u32 = 512;

/// What was seen of the run so far.
#[derive(Clone, Copy, Debug)]
struct Seen {
    /// What the last writer wrote.
    value: u8,
    places: u32,
    retired: u32,
}

/// What a stream writes: an odd number of its own among those that write.
fn value_of(stream: usize) -> u8 {
    (stream % STREAMS) as u8 | 1
}

/// The stream is told its next request, if it is between two: those of even numbers write.
fn tell<D: Device>(alloc: Global, table: &mut Table<D>, stream: usize) -> Result<bool, Fail> {
    if stream % 2 == 0 {
        writes(alloc, table, stream, value_of(stream), BLOCK)
    } else {
        reads(alloc, table, stream, BLOCK)
    }
}

fn step<D: Device>(rt: &impl Abort, table: &mut Table<D>, stream: usize, seen: &mut Seen) {
    match table.step(stream) {
        Answer::Left(place, _) => {
            assert_eq!(rt; place, seen.places);
            seen.places = seen.places.wrapping_add(1);
            if stream % 2 == 0 {
                seen.value = value_of(stream);
            } else {
                assert!(rt; are_all(table.found(stream), seen.value), "stream {stream}");
            }
        }
        Answer::Retired(left) => {
            seen.retired = seen.retired.wrapping_add(1);
            assert_eq!(rt; seen.retired.wrapping_add(left), STREAMS as u32);
        }
        Answer::Nothing
        | Answer::StillWaits
        | Answer::Entered(_)
        | Answer::TookUp(_)
        | Answer::Served(_) => {}
    }
}

#[test]
fn each_read_finds_the_last_write(rt: HostRuntime) -> Result<(), Fail> {
    let alloc = rt.alloc();
    let mut table = table_of(alloc, BLOCK, &[], &[TURNS; STREAMS])?;
    let mut seen = Seen {
        value: 0,
        places: 0,
        retired: 0,
    };
    for _ in 0..2000 {
        for stream in 0..STREAMS {
            tell(alloc, &mut table, stream)?;
            step(&rt, &mut table, stream, &mut seen);
        }
    }
    assert_eq!(rt; seen.places, 256);
    assert_eq!(rt; seen.retired, 64);
    Ok(())
}
