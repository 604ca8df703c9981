//! Lines of replies, and what a sink has of them where it fails.
use aio_script::{
    Bytes, Page, Placed, Reply, Request, WriteFault, hand_over, print_end, print_line,
    print_numbered,
};
use aio_words::MemSink;
use std::alloc::Global;
use std::test::Fail;

/// Puts the line of a reply of the stream 0 on the page.
fn put_line(
    sink: &mut MemSink,
    page: &mut Page,
    place: u32,
    request: &Request,
    reply: Reply,
) -> Result<(), WriteFault> {
    let placed = Placed {
        stream: 0,
        index: 0,
        reply,
    };
    print_line(sink, page, &placed, place, request)
}

/// Puts seven lines and the end on the page.
fn put_all(alloc: Global, sink: &mut MemSink, page: &mut Page) -> Result<(), Fail> {
    let found = Bytes::of(Vec::from_slice(alloc, b"\x00hi\xff")?);
    let none = Bytes::of(Vec::new(alloc));
    let read = Request::Read { at: 0, len: 4 };
    let bytes = Bytes::of(Vec::new(alloc));
    let write = Request::Write { at: 0, bytes };
    let zero = Request::Zero { at: 0, len: 9 };
    put_line(sink, page, 0, &read, Reply::Got(found))?;
    put_line(sink, page, 1, &read, Reply::Got(none))?;
    put_line(sink, page, 20, &write, Reply::Put(65_536))?;
    put_line(sink, page, 3, &zero, Reply::Zeroed(9))?;
    put_line(sink, page, 4, &Request::Flush, Reply::Flushed)?;
    put_line(sink, page, 5, &write, Reply::Eio(4_096))?;
    put_line(sink, page, 4_294_967_295, &read, Reply::Einval)?;
    print_end(sink, page, 7, 2)?;
    Ok(())
}

const ALL: &str =
    "0 0 read ok 006869ff\n1 0 read ok -\n20 0 write ok 65536\n3 0 zero ok 9\n4 0 flush ok\n5 0 write eio 4096\n4294967295 0 read einval\nend 7 2\n";

/// The lines are one call of the sink, since its second call would fail.
#[test]
fn prints_each_reply_in_one_call(rt: HostRuntime) -> Result<(), Fail> {
    let alloc = rt.alloc();
    let mut sink = MemSink::build(alloc, 1_000, &[1])?;
    let mut page = Page::build(alloc)?;
    put_all(alloc, &mut sink, &mut page)?;
    assert!(rt; sink.bytes().is_empty());
    hand_over(&mut sink, &mut page)?;
    assert_eq!(rt; sink.bytes(), ALL.as_bytes());
    // Nothing is left, and for nothing the sink isn't called.
    assert_eq!(rt; hand_over(&mut sink, &mut page), Ok(()));
    Ok(())
}

#[test]
fn a_sink_without_room_is_a_fault(rt: HostRuntime) -> Result<(), Fail> {
    let alloc = rt.alloc();
    let mut sink = MemSink::build(alloc, 7, &[])?;
    let mut page = Page::build(alloc)?;
    print_end(&mut sink, &mut page, 1, 0)?;
    assert_eq!(rt; hand_over(&mut sink, &mut page), Err(WriteFault));
    assert!(rt; sink.bytes().is_empty());
    Ok(())
}

/// A line of 80,013 bytes, which has no room on a page: the sink has its front once it was put there.
#[test]
fn a_full_page_is_handed_over(rt: HostRuntime) -> Result<(), Fail> {
    let alloc = rt.alloc();
    let read = Request::Read { at: 0, len: 40_000 };
    for (fails, printed) in [(0u32, Err(WriteFault)), (1, Ok(()))] {
        let bytes = Bytes::of(vec![in alloc; 0xa5u8; 40_000]?);
        let mut sink = MemSink::build(alloc, 100_000, &[fails])?;
        let mut page = Page::build(alloc)?;
        let line = put_line(&mut sink, &mut page, 0, &read, Reply::Got(bytes));
        assert_eq!(rt; line, printed);
        assert_eq!(rt; sink.bytes().starts_with(b"0 0 read ok a5a5"), line.is_ok());
        assert_eq!(rt; sink.bytes().len() > 60_000, line.is_ok());
        assert!(rt; sink.bytes().len() <= 65_536);
        let front = sink.bytes().len();
        if line.is_ok() {
            assert_eq!(rt; hand_over(&mut sink, &mut page), Err(WriteFault));
        }
        assert_eq!(rt; sink.bytes().len(), front);
    }
    Ok(())
}

/// What is printed at once is one call of the sink up to 128 bytes, and else a call for each part.
#[test]
fn a_short_text_is_one_call_of_the_sink(rt: HostRuntime) -> Result<(), Fail> {
    let alloc = rt.alloc();
    for (len, room, front) in [(125usize, 127u32, 0usize), (126, 128, 128)] {
        let mut sink = MemSink::build(alloc, room, &[])?;
        let before = vec![in alloc; b'x'; len]?;
        let printed = print_numbered(&mut sink, before.as_slice(), 10, b"\n");
        assert_eq!(rt; printed, Err(WriteFault));
        assert_eq!(rt; sink.bytes().len(), front);
        assert_eq!(rt; sink.bytes().ends_with(b"x10"), front > 0);
    }
    Ok(())
}
