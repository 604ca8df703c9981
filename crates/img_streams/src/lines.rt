//! A stream's lines in a script.
ghost use Rattle.std.specs.Prelude.{◌≡◌, ◌<◌, ◌≤◌, ℕ, length, get_or};
ghost use Rattle.aio_model.specs.declared.scripts.image_scripts.Step.{Step};
ghost use Rattle.img_streams.specs.Lines.{line_from, places_of, Asks};

use aio_model::{Request, Step, What};

/// The first of the stream's lines from this place on; the end, if there is none.
pub(crate) fn next_line(lines: &[Step], id: u32, places: &[usize], from: usize) -> usize
    requires places { places.now ≡ places_of id lines.now }
    requires from { from ≤ length lines.now }
    ensures next { result ≡ line_from id lines.now from }
    ensures inside { result ≤ length lines.now }
{
    let _ = id;
    let index = places.partition_point(|place| *place < from);
    match places.get(index) {
        Some(place) => *place,
        None => lines.len(),
    }
}

/// The request of the stream's line at this place.
pub(crate) fn request_at(lines: &[Step], at: usize) -> &Request
    requires { (id : ℕ) × Asks lines.now id at }
    ensures { (other : Step) → (get_or lines.now at other).what ≡ What.Ask result.now }
{
    let What::Ask(request) = &lines[at].what else {
        unreachable!()
    };
    request
}
