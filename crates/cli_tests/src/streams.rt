//! Scripts of several streams, whose replies may come in more than one order, and the loops that carry them.
ghost use Rattle.std.specs.Prelude.{◌≡◌, length, IfOk};

use crate::run::{Ends, SOUND, Seen, run};
use aio_cli::Answer::{BadScript, Done, Errors, WriteFault};
use aio_script::ScriptRefusal::OutOfLimit;
use aio_script::read_script;
use served_check::check_served;
use std::alloc::Global;
use std::process::Abort;
use std::test::Fail;

const CROSSING: &[u8] =
    b"image 4\nloops 2\nstream 0 0\nstream 1 1\n0 write 0 aa\n1 read 0 1\n0 read 0 1\n";

/// Each order that keeps the first stream's own.
const ORDERS: [&[u8]; 3] = [
    b"0 0 write ok 1\n1 1 read ok aa\n2 0 read ok aa\nend 3 0\n",
    b"0 0 write ok 1\n2 1 read ok aa\n1 0 read ok aa\nend 3 0\n",
    b"1 0 write ok 1\n0 1 read ok 00\n2 0 read ok aa\nend 3 0\n",
];

#[test]
fn two_streams_are_served_in_one_of_three_orders(rt: HostRuntime) -> Result<(), Fail> {
    for _ in 0..8u32 {
        let seen = run(&rt, rt.alloc(), SOUND, &[], CROSSING)?;
        assert_eq!(rt; seen.answer, Done);
        assert!(rt; ORDERS.iter().any(|order| *order == seen.printed.as_slice()));
    }
    Ok(())
}

/// Streams that put different bytes at the same places, move from loop to loop and sleep. Two requests reach past the end.
const TANGLED: [&[u8]; 2] = [
    b"image 16\nloops 3\nstream 0 0\nstream 7 1\nstream 63 2\n0 write 0 aa\n7 write 0 bb\n63 move 0\n0 move 2\n63 read 0 2\n7 delay 1000\n7 read 0 1\n0 read 0 1\n63 write 1 cc\n0 read 17 0\n7 zero 0 16\n63 flush\n63 write 16 dd\n",
    b"image 9000\nloops 2\nstream 3 1\nstream 2 1\n2 read 0 9000\n3 zero 1 8999\n3 move 0\n2 write 4095 01020304\n3 read 4000 5000\n2 read 17000 1\n3 delay 50\n3 move 1\n3 write 9000 ff\n3 flush\n2 flush\n",
];

fn zeros(alloc: Global, len: u64) -> Result<Vec<u8>, Fail>
    ensures { IfOk result (λ bytes. length bytes.items ≡ len) }
{
    Ok(vec![in alloc; 0; len as usize]?)
}

/// How many bytes a script may have.
const LONGEST: usize = 1_048_576;

/// The replies are a serial history of the script over zeros.
fn assert_lawful(rt: &impl Abort, alloc: Global, text: &[u8], seen: &Seen) -> Result<(), Fail> {
    assert!(rt; text.len() <= LONGEST);
    let Ok(script) = read_script(alloc, text) else {
        return Err(Fail::from("no script"));
    };
    let opening = zeros(alloc, script.image)?;
    let lawful = check_served(alloc, &script, opening.as_slice(), seen.served.as_slice())?;
    assert!(rt; lawful);
    Ok(())
}

#[test]
fn streams_that_cross_are_served_one_after_the_other(rt: HostRuntime) -> Result<(), Fail> {
    for text in TANGLED {
        for _ in 0..4u32 {
            let seen = run(&rt, rt.alloc(), SOUND, &[], text)?;
            assert_eq!(rt; seen.answer, Errors(2));
            assert_lawful(&rt, rt.alloc(), text, &seen)?;
        }
    }
    Ok(())
}

#[test]
fn what_was_served_is_handed_out_where_it_is_cut(rt: HostRuntime) -> Result<(), Fail> {
    let narrow = Ends { room: 20, ..SOUND };
    let seen = run(&rt, rt.alloc(), narrow, &[], CROSSING)?;
    assert_eq!(rt; seen.answer, WriteFault);
    assert_eq!(rt; seen.loops, 2);
    assert_lawful(&rt, rt.alloc(), CROSSING, &seen)
}

/// Texts, and how many loops come to their ends.
const LOOPS: [(&[u8], usize); 4] = [
    (b"image 16\nloops 1", 1),
    (b"image 16\nloops 3", 3),
    (b"image 16\nloops 16\nstream 0 15\n0 flush", 16),
    (b"image 16\nloops 2\nstream 0 1\n0 move 0", 2),
];

#[test]
fn each_loop_comes_to_its_end(rt: HostRuntime) -> Result<(), Fail> {
    for (text, loops) in LOOPS {
        let seen = run(&rt, rt.alloc(), SOUND, &[], text)?;
        assert_eq!(rt; seen.answer, Done);
        assert_eq!(rt; seen.loops, loops);
    }
    Ok(())
}

#[test]
fn no_loop_is_made_where_nothing_is_served(rt: HostRuntime) -> Result<(), Fail> {
    let seen = run(&rt, rt.alloc(), SOUND, &[], b"image 16\nloops 17")?;
    assert_eq!(rt; seen.answer, BadScript(OutOfLimit(2)));
    assert_eq!(rt; seen.loops, 0);
    let bells = run(
        &rt,
        rt.alloc(),
        SOUND,
        &["--mode=bh"],
        b"loop 1 0 0\npoll\n",
    )?;
    assert_eq!(rt; bells.answer, Done);
    assert_eq!(rt; bells.loops, 0);
    Ok(())
}
