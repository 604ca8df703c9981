//! How a lock for one stream is set up.
ghost use Rattle.std.specs.Prelude.{◌≡◌, ◌<◌, ◌≤◌, ◌^◌, ◌==◌, ◌&&◌, IsTrue, length, map, slice_index};
ghost use Rattle.aio_model.specs.Serving.Asked.{requests_of, is_ask};
ghost use Rattle.co_mutex.specs.Passes.{passes_of};
ghost use Rattle.img_streams.specs.Lines.{AreShort, IsShort};
ghost use Rattle.img_streams.specs.Rooms.{CanStart};

use aio_model::{Request, Script, Step, What};
use aio_words::Device;
use co_mutex::{CoMutex, Pass};
use img_shared::Image;
use img_streams::{BoxedImage, ImageRule, LineLinks, Room};
use std::alloc::Global;
use std::process::Abort;

fn asks(line: &Step, id: u32) -> bool
    ensures { result ≡ (line.now.stream == id && is_ask line.now.what) }
{
    line.stream == id && matches!(line.what, What::Ask(_))
}

/// How many requests of the stream the lines have.
pub fn requests_in(lines: &[Step], id: u32) -> u32
    requires { length lines.now < 2 ^ 32 }
    ensures { result ≡ requests_of id lines.now }
{
    let mut count = 0;
    for line in lines {
        if asks(line, id) {
            count += 1;
        }
    }
    count
}

fn is_short(line: &Step) -> bool
    ensures { IsTrue result → IsShort line.now.what }
{
    match &line.what {
        What::Ask(Request::Read { at: _, len } | Request::Zero { at: _, len }) => *len <= 65536,
        What::Ask(Request::Write { at: _, bytes }) => bytes.len() <= 65536,
        What::Ask(Request::Flush) | What::Delay(_) | What::Move(_) => true,
    }
}

/// Whether no line asks for more than 65,536 bytes.
pub fn are_short(lines: &[Step]) -> bool
    ensures { IsTrue result → AreShort lines.now }
{
    for line in lines {
        if !is_short(line) {
            return false;
        }
    }
    true
}

fn fit(lines: &[Step]) -> bool
    ensures { IsTrue result → (length lines.now < 2 ^ 32) × AreShort lines.now }
{
    lines.len() < 4096 && are_short(lines)
}

/// The id of the first stream line; 0, if there is none.
fn first_id(script: &Script) -> u32
    ensures { result ≡ slice_index (map (λ stream. stream.id) script.now.streams) 0 }
{
    match script.streams.as_slice() {
        [] => 0,
        [stream, ..] => stream.id,
    }
}

/// A lock on a new image of the script's size, its one pass, and the memory of the stream of id 0.
pub fn set_up<D: Device, R: Abort>(
    rt: &R,
    alloc: Global,
    device: D,
    script: &Script,
) -> (CoMutex<ImageRule<D>>, Pass<ImageRule<D>>, Room)
    requires size { script.now.image ≤ D.extent device }
    ensures can { CanStart result.0 script.now result.1 (record { co = 0; home = 0 }) 0 result.2 }
    ensures one { passes_of result.0 ≡ 1 }
{
    if first_id(script) != 0 {
        panic!(rt; "the first stream has the id 0");
    }
    let lines = script.lines.as_slice();
    if !fit(lines) {
        panic!(rt; "the lines are few and short");
    }
    let requests = requests_in(lines, 0);
    if requests > 4096 {
        panic!(rt; "the requests are few");
    }
    let links = match LineLinks::build(alloc, script) {
        Ok(links) => links,
        Err(_) => panic!(rt; "there is memory"),
    };
    let room = match Room::build(alloc, script, &links, 0) {
        Ok(room) => room,
        Err(_) => panic!(rt; "there is memory"),
    };
    let image = match Image::build(alloc, device, script.image, &[requests]) {
        Ok(image) => image,
        Err(_) => panic!(rt; "there is memory"),
    };
    let boxed = match BoxedImage::build(alloc, image) {
        Ok(boxed) => boxed,
        Err(_) => panic!(rt; "there is memory"),
    };
    let (lock, mut passes) = match CoMutex::<ImageRule<D>>::build(alloc, boxed, 1) {
        Ok(built) => built,
        Err(_) => panic!(rt; "there is memory"),
    };
    match passes.pop() {
        Some(pass) => (lock, pass, room),
        None => panic!(rt; "there is a pass"),
    }
}
