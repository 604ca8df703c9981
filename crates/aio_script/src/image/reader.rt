//! Text to script, line by line.
ghost use Rattle.std.specs.Prelude.{◌≡◌, ◌∷◌, [], ◌+◌, ◌++◌, ◌≤◌, length, IfOk, OnErr, Err};
ghost use Rattle.aio_script.specs.Image.Bounds.{IsBounded};
ghost use Rattle.aio_script.specs.Image.Grammar.{bytes_moved, loops_below, script_below, script_said, steps_in, streams_in};
ghost use Rattle.aio_script.specs.Lines.{significant_from};
ghost use Rattle.aio_script.specs.Image.Progress.{AreLow, counts_after, counts_with};
ghost use Rattle.aio_script.specs.Image.Reading.{Gives, GivesScript};
ghost use Rattle.aio_model.specs.declared.scripts.image_scripts.What.TheVariants.{Ask};
ghost use Rattle.aio_script.specs.declared.refusals.ScriptFail.TheVariants.{NoMemory};

use crate::image::lines::{Above, read_header, read_line};
use crate::image::said::{Counts, Said};
use crate::refusals::{ScriptFail, ScriptRefusal};
use crate::text::next_line;
use aio_model::{Request, Script, Step, Steps, Stream, Streams, What};
use std::alloc::Global;

const LARGEST_IMAGE: u64 = 1_048_576;

const MOST_LOOPS: u64 = 16;

pub(crate) const NO_HEADER: ScriptFail = ScriptFail::Refused(ScriptRefusal::NoHeader);

/// The script that a text says. Takes memory for its lines and their data.
pub fn read_script(alloc: Global, text: &[u8]) -> Result<Script, ScriptFail>
    requires { length text.now ≤ 4294967295 }
    ensures gives { GivesScript (script_said text.now) result }
    ensures bounded { IfOk result IsBounded }
{
    read_text(alloc, text)
}

fn read_text(alloc: Global, text: &[u8]) -> Result<Script, ScriptFail>
    requires { length text.now ≤ 4294967295 }
    ensures { GivesScript (script_said text.now) result }
{
    let Some((number, line, behind)) = next_line(1, text) else {
        return Err(NO_HEADER);
    };
    let image = read_header(number, line, "image", 0, LARGEST_IMAGE)?;
    read_below_image(alloc, image, u64::from(number) + 1, behind)
}

fn read_below_image(
    alloc: Global,
    image: u64,
    first: u64,
    text: &[u8],
) -> Result<Script, ScriptFail>
    requires { first + length text.now ≤ 4294967296 }
    ensures { GivesScript (loops_below image (significant_from first text.now)) result }
{
    let Some((number, line, behind)) = next_line(first, text) else {
        return Err(NO_HEADER);
    };
    let loops = read_header(number, line, "loops", 1, MOST_LOOPS)?;
    read_lines(alloc, image, loops as u32, u64::from(number) + 1, behind)
}

fn read_lines(
    alloc: Global,
    image: u64,
    loops: u32,
    first: u64,
    text: &[u8],
) -> Result<Script, ScriptFail>
    requires { first + length text.now ≤ 4294967296 }
    ensures { GivesScript (script_below image loops (significant_from first text.now)) result }
{
    let mut streams = Vec::new(alloc);
    let mut steps = Vec::new(alloc);
    let mut counts = NOTHING;
    let mut next = first;
    let mut left = text;
    while let Some((number, line, behind)) = next_line(next, left) {
        let above = Above {
            number,
            loops,
            streams: streams.as_slice(),
            counts,
        };
        let said = read_line(alloc, above, line)?;
        counts = with_said(counts, &said);
        keep(said, &mut streams, &mut steps)?;
        next = u64::from(number) + 1;
        left = behind;
    }
    Ok(Script {
        image,
        loops,
        streams: Streams::of(streams),
        lines: Steps::of(steps),
    })
}

const NOTHING: Counts = Counts {
    requests: 0,
    pauses: 0,
    moved: 0,
};

// The counts with one line more.
fn with_said(counts: Counts, said: &Said) -> Counts
    requires { AreLow (counts_with counts said.now) }
    ensures { result ≡ counts_with counts said.now }
{
    match said {
        Said::Declares(_) => counts,
        Said::Does(step) => with_step(counts, &step.what),
    }
}

fn with_step(counts: Counts, what: &What) -> Counts
    requires requests { counts.requests ≤ 4096 }
    requires pauses { counts.pauses ≤ 4096 }
    requires moved { counts.moved + bytes_moved what.now ≤ 67108864 }
    ensures { result ≡ counts_after counts what.now }
{
    match what {
        What::Ask(request) => Counts {
            requests: counts.requests + 1,
            moved: counts.moved + bytes_moved(request),
            ..counts
        },
        _ => Counts {
            pauses: counts.pauses + 1,
            ..counts
        },
    }
}

fn bytes_moved(request: &Request) -> u64
    ensures { result ≡ bytes_moved (Ask request.now) }
{
    match request {
        Request::Read { len, .. } => u64::from(*len),
        Request::Write { bytes, .. } => bytes.as_slice().len() as u64,
        _ => 0,
    }
}

fn keep(said: Said, streams: &mut Vec<Stream>, steps: &mut Vec<Step>) -> Result<(), ScriptFail>
    ensures streams { IfOk result (λ _. streams.new.items ≡ streams.old.items ++ streams_in (said ∷ [])) }
    ensures steps { IfOk result (λ _. steps.new.items ≡ steps.old.items ++ steps_in (said ∷ [])) }
    ensures memory { OnErr result (result ≡ Err NoMemory) }
{
    match said {
        Said::Declares(stream) => streams.push(stream)?,
        Said::Does(step) => steps.push(step)?,
    }
    Ok(())
}
