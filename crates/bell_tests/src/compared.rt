//! Generated loop scripts on the shared loop, beside the plain loop of one thread.
ghost use Rattle.std.specs.Prelude.{◌<◌, ◌≤◌, length};

use crate::plain::Plain;
use crate::runs::printed;
use aio_script::{Page, hand_over, read_loop_script};
use aio_words::MemSink;
use bell_loop::lists_of;
use std::alloc::{AllocError, Global};
use std::process::Abort;
use std::sync::Wait;
use std::test::Fail;

/// How many scripts are compared.
const SCRIPTS: u32 = 300;

/// How many commands each has.
const COMMANDS: u32 = 30;

/// Pseudo-random numbers.
#[derive(Drop)]
struct Numbers {
    state: u32,
}

impl Numbers {
    fn below(&mut self, count: u32) -> u32
        requires { 0 < count }
        ensures { result < count }
    {
        self.state = self.state.wrapping_mul(1664525).wrapping_add(1013904223);
        self.state / 65536 % count
    }
}

/// A word, and behind it one digit.
fn push_with_digit(text: &mut Vec<u8>, word: &str, digit: u32) -> Result<(), AllocError>
    requires { digit < 10 }
{
    text.extend_from_slice(word.as_bytes())?;
    text.push(b'0' + digit as u8)?;
    Ok(())
}

/// An action of a callback.
fn push_act(text: &mut Vec<u8>, numbers: &mut Numbers) -> Result<(), AllocError> {
    match numbers.below(8) {
        0..3 => push_with_digit(text, " schedule ", numbers.below(4)),
        3 => push_with_digit(text, " idle ", numbers.below(4)),
        4 => push_with_digit(text, " cancel ", numbers.below(4)),
        5 => push_with_digit(text, " delete ", 3),
        _ => text.extend_from_slice(b" nest"),
    }
}

/// What callbacks do.
fn push_acts(text: &mut Vec<u8>, numbers: &mut Numbers) -> Result<(), AllocError> {
    for bh in 0..4 {
        for _ in 0..numbers.below(5) {
            push_with_digit(text, "on ", bh)?;
            push_act(text, numbers)?;
            text.push(b'\n')?;
        }
    }
    Ok(())
}

fn push_command(text: &mut Vec<u8>, numbers: &mut Numbers) -> Result<(), AllocError> {
    match numbers.below(20) {
        0..5 => push_with_digit(text, "schedule ", numbers.below(4))?,
        5..7 => push_with_digit(text, "idle ", numbers.below(4))?,
        7..9 => push_with_digit(text, "cancel ", numbers.below(4))?,
        9 => push_with_digit(text, "delete ", 3)?,
        10..12 => push_with_digit(text, "once ", numbers.below(10))?,
        12 => push_with_digit(text, "set ", numbers.below(3))?,
        13 => push_with_digit(text, "clear ", numbers.below(3))?,
        14..17 => text.extend_from_slice(b"commit")?,
        _ => text.extend_from_slice(b"poll")?,
    }
    text.push(b'\n')?;
    Ok(())
}

fn generated(alloc: Global, numbers: &mut Numbers) -> Result<Vec<u8>, AllocError> {
    let mut text = Vec::new(alloc);
    text.extend_from_slice(b"loop 4 1 3\n")?;
    push_acts(&mut text, numbers)?;
    for _ in 0..COMMANDS {
        push_command(&mut text, numbers)?;
    }
    Ok(text)
}

/// What the commands of a text print on the plain loop.
fn printed_plainly(alloc: Global, text: &[u8]) -> Result<Vec<u8>, Fail>
    requires { length text.now ≤ 4294967295 }
{
    let Ok(script) = read_loop_script(alloc, text) else {
        return Err(Fail::from("no loop script was generated"));
    };
    let lists = lists_of(alloc, script.acts.as_slice(), script.handles)?;
    let mut plain = Plain::build(alloc, lists)?;
    let mut sink = MemSink::build(alloc, 65_536, &[])?;
    let mut page = Page::build(alloc)?;
    for command in script.commands.as_slice() {
        plain.ring(*command, &mut sink, &mut page)?;
    }
    if hand_over(&mut sink, &mut page).is_err() {
        return Err(Fail::from("the plain loop's last replies were not printed"));
    }
    Ok(Vec::from_slice(alloc, sink.bytes())?)
}

/// Both loops print the same for a script that is generated.
fn compare<R: Abort + Wait>(rt: &R, alloc: Global, numbers: &mut Numbers) -> Result<(), Fail> {
    let text = generated(alloc, numbers)?;
    if text.len() > 10_000 {
        return Err(Fail::from("a long script was generated"));
    }
    let shared = printed(rt, alloc, text.as_slice())?;
    let plain = printed_plainly(alloc, text.as_slice())?;
    assert_eq!(rt; shared.as_slice(), plain.as_slice());
    Ok(())
}

#[test]
fn generated_scripts_print_as_on_the_plain_loop(rt: HostRuntime) -> Result<(), Fail> {
    let mut numbers = Numbers { state: 1 };
    for _ in 0..SCRIPTS {
        compare(&rt, rt.alloc(), &mut numbers)?;
    }
    Ok(())
}
