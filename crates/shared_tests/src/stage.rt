//! Tables, their streams' requests, and how they are played.
ghost use Rattle.std.specs.Prelude.{◌≡◌, ◌≤◌, length, sum, IfOk};

use crate::table::Table;
use crate::turn::Answer;
use aio_model::{Bytes, Request};
use aio_words::{Device, MemDevice};
use std::alloc::{AllocError, Global};
use std::process::Abort;
use std::test::Fail;

/// So many bytes of this value.
pub(crate) fn bytes_of(alloc: Global, value: u8, n: u32) -> Result<Vec<u8>, AllocError>
    ensures { IfOk result (λ v. length v.items ≡ n) }
{
    vec![in alloc; value; n as usize]
}

/// An image of so many zeros, on a device that fails at the calls of these numbers.
pub(crate) fn table_of(
    alloc: Global,
    size: u32,
    fails: &[u32],
    requests: &[u32],
) -> Result<Table<MemDevice>, Fail>
    requires streams { length requests.now ≤ 64 }
    requires few { sum requests.now ≤ 4096 }
{
    let bytes = bytes_of(alloc, 0, size)?;
    let device = MemDevice::build(alloc, &bytes, fails)?;
    Ok(Table::build(alloc, device, u64::from(size), requests)?)
}

/// The stream writes so many bytes of this value next, from the image's first on.
pub(crate) fn writes<D: Device>(
    alloc: Global,
    table: &mut Table<D>,
    stream: usize,
    value: u8,
    n: u32,
) -> Result<bool, Fail> {
    let bytes = Bytes::of(bytes_of(alloc, value, n)?);
    let buffer = bytes_of(alloc, 0, n)?;
    Ok(table.asks(stream, Request::Write { at: 0, bytes }, buffer))
}

/// The stream reads so many bytes next.
pub(crate) fn reads<D: Device>(
    alloc: Global,
    table: &mut Table<D>,
    stream: usize,
    n: u32,
) -> Result<bool, Fail> {
    let buffer = bytes_of(alloc, 255, n)?;
    Ok(table.asks(stream, Request::Read { at: 0, len: n }, buffer))
}

/// The streams step one after another, and each answers so.
pub(crate) fn plays<D: Device>(rt: &impl Abort, table: &mut Table<D>, steps: &[(usize, Answer)]) {
    for (stream, answer) in steps {
        assert_eq!(rt; table.step(*stream), *answer, "stream {stream}");
    }
}

/// Whether all bytes have this value.
pub(crate) fn are_all(bytes: &[u8], value: u8) -> bool {
    let mut all = true;
    for byte in bytes {
        all = all & (*byte == value);
    }
    all
}
