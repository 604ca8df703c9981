//! A long read and a long write, in every order of their steps.
use crate::stage::{are_all, reads, table_of, writes};
use crate::table::Table;
use crate::turn::Answer;
use aio_words::Device;
use std::alloc::Global;
use std::process::Abort;
use std::test::Fail;

/// Three pieces.
const LONG: u32 = 8200;

/// How many of the steps are chosen. The rest are the writer's, and then the reader's.
const CHOSEN: u32 = 12;

/// The places at which the two left.
#[derive(Clone, Copy, Debug)]
struct Places {
    writer: Option<u32>,
    reader: Option<u32>,
}

fn step<D: Device>(table: &mut Table<D>, stream: usize, places: &mut Places) {
    if let Answer::Left(place, _) = table.step(stream) {
        if stream == 0 {
            places.writer = Some(place);
        } else {
            places.reader = Some(place);
        }
    }
}

/// Bit i of the order says who makes step i.
fn play<D: Device>(table: &mut Table<D>, order: u32) -> Places {
    let mut places = Places {
        writer: None,
        reader: None,
    };
    for i in 0..CHOSEN {
        step(table, usize::from(order >> i & 1 == 1), &mut places);
    }
    for _ in 0..CHOSEN {
        step(table, 0, &mut places);
        step(table, 1, &mut places);
    }
    places
}

/// Whether the reader came first.
fn check(rt: &impl Abort, alloc: Global, order: u32) -> Result<bool, Fail> {
    let mut table = table_of(alloc, LONG, &[], &[1, 1])?;
    assert!(rt; writes(alloc, &mut table, 0, 7, LONG)?);
    assert!(rt; reads(alloc, &mut table, 1, LONG)?);
    let places = play(&mut table, order);
    let is_first = places.reader == Some(0);
    assert_eq!(rt; places.writer, Some(u32::from(is_first)), "order {order}");
    let wanted = if is_first { 0 } else { 7 };
    assert!(rt; are_all(table.found(1), wanted), "order {order}");
    assert!(rt; are_all(table.into_device().bytes(), 7), "order {order}");
    Ok(is_first)
}

#[test]
fn read_is_never_torn(rt: HostRuntime) -> Result<(), Fail> {
    let mut first: u32 = 0;
    for order in 0..1 << CHOSEN {
        first = first.wrapping_add(u32::from(check(&rt, rt.alloc(), order)?));
    }
    // Who enters first comes first, and in half of the orders that is the reader.
    assert_eq!(rt; first, 1 << (CHOSEN - 1));
    Ok(())
}
