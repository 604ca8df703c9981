//! The replies of an image.
use crate::stage::bytes_of;
use aio_model::{Placed, Reply, Request};
use aio_words::{Device, MemDevice};
use img_join::{Buffers, finish};
use img_shared::{Enter, Image};
use std::collections::VecDeque;
use std::test::Fail;

#[test]
fn refused_request_is_replied_to_under_its_streams_id(rt: HostRuntime) -> Result<(), Fail> {
    let alloc = rt.alloc();
    let mut row = VecDeque::new(alloc);
    row.push_back(bytes_of(alloc, 0, 0)?)?;
    let rows = vec![in alloc; row]?;
    let mut served = Vec::with_capacity(alloc, 1)?;
    let device = MemDevice::build(alloc, b"ab", &[])?;
    let mut image = Image::build(alloc, device, 1, &[1])?;
    assert_eq!(rt;
        image.enter(0, &Request::Zero { at: 1, len: 1 }),
        Enter::Refused(0)
    );
    let device = finish(image, &[9], Buffers::of(rows), &mut served);
    let placed = Placed {
        stream: 9,
        index: 0,
        reply: Reply::Einval,
    };
    assert_eq!(rt; served.as_slice(), [placed].as_slice());
    assert_eq!(rt; device.bytes(), b"ab".as_slice());
    Ok(())
}
