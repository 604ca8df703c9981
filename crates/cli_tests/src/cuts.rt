//! Runs where a read of the text fails, or a write of the replies.
use crate::run::{Ends, SOUND, Seen, run};
use aio_cli::Answer::{Done, ReadFault, WriteFault};
use std::process::Abort;
use std::test::Fail;

const FIRST: &[u8] = b"image 16\nloops 1\nstream 0 0\n0 write 2 6869\n0 read 0 6\n0 flush";

const REPLIES: &[u8] = b"0 0 write ok 2\n1 0 read ok 000068690000\n2 0 flush ok\nend 3 0\n";

/// 62 bytes come in seven pieces of ten, and one read more finds the end.
const READS: [&[u32]; 8] = [&[0], &[1], &[2], &[3], &[4], &[5], &[6], &[7]];

#[test]
fn a_failed_read_of_the_text_serves_nothing(rt: HostRuntime) -> Result<(), Fail> {
    for reads in READS {
        let ends = Ends {
            chunk: 10,
            reads,
            ..SOUND
        };
        let seen = run(&rt, rt.alloc(), ends, &[], FIRST)?;
        assert_eq!(rt; seen.answer, ReadFault, "{reads:?}");
        assert!(rt; seen.printed.is_empty());
        assert!(rt; seen.device.iter().all(|b| *b == 0));
    }
    Ok(())
}

/// The last of the eight reads finds the end; so does the last of 63, where each gives one byte.
#[test]
fn a_text_is_read_to_its_end(rt: HostRuntime) -> Result<(), Fail> {
    for (chunk, reads) in [(10u32, EIGHTH), (1, SIXTY_THIRD)] {
        let ends = Ends {
            chunk,
            reads,
            ..SOUND
        };
        let seen = run(&rt, rt.alloc(), ends, &[], FIRST)?;
        assert_eq!(rt; seen.answer, Done);
        assert_eq!(rt; seen.printed.as_slice(), REPLIES);
    }
    Ok(())
}

const EIGHTH: &[u32] = &[8];

const SIXTY_THIRD: &[u32] = &[63];

/// The replies were cut, and the script was served nevertheless.
fn assert_cut(rt: &impl Abort, seen: &Seen) {
    assert_eq!(rt; seen.answer, WriteFault);
    assert_eq!(rt; seen.status, 7);
    assert!(rt; seen.device.len() > 4);
    assert_eq!(rt; &seen.device[..5], [0, 0, 0x68, 0x69, 0].as_slice());
}

#[test]
fn a_sink_that_is_full_cuts_the_replies(rt: HostRuntime) -> Result<(), Fail> {
    let ends = Ends { room: 20, ..SOUND };
    let seen = run(&rt, rt.alloc(), ends, &[], FIRST)?;
    assert_cut(&rt, &seen);
    assert!(rt; seen.printed.is_empty());
    Ok(())
}

const LONG: &[u8] = b"image 131072\nloops 1\nstream 0 0\n0 write 2 6869\n0 read 0 65536\n";

/// How many of these bytes are printed at least and at most, where this call of the sink fails. 131,108 bytes are three
/// calls.
const WRITES: [(&[u32], usize, usize); 4] = [
    (&[0], 0, 0),
    (&[1], 60_000, 65_536),
    (&[2], 120_000, 131_072),
    (&[3], 131_108, 131_108),
];

#[test]
fn a_sink_that_fails_cuts_the_replies(rt: HostRuntime) -> Result<(), Fail> {
    for (writes, least, most) in WRITES {
        let ends = Ends { writes, ..SOUND };
        let seen = run(&rt, rt.alloc(), ends, &[], LONG)?;
        if most < 131_108 {
            assert_cut(&rt, &seen);
        } else {
            assert_eq!(rt; seen.answer, Done);
            assert!(rt; seen.printed.ends_with(b"00\nend 2 0\n"));
        }
        assert!(rt;
            least <= seen.printed.len() && seen.printed.len() <= most,
            "{least}"
        );
    }
    Ok(())
}
