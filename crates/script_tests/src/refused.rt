//! Texts beside what the reader says of them.
ghost use Rattle.std.specs.Prelude.{◌≤◌, length};

use aio_script::{ScriptFail, ScriptRefusal, read_loop_script, read_script};
use std::alloc::Global;
use std::process::Abort;
use std::test::Fail;

/// What is read as.
#[derive(Clone, Copy)]
pub enum Kind {
    Script,
    LoopScript,
}

/// A text, and why it is refused; None, where it isn't.
pub type Row = (&'static str, Option<ScriptRefusal>);

/// A line so many times, one line more, and why that text is refused.
pub type Many = (u32, &'static str, &'static str, Option<ScriptRefusal>);

const LONGEST: usize = 4_294_967_295;

fn refusal_of(alloc: Global, kind: Kind, text: &[u8]) -> Result<Option<ScriptRefusal>, ScriptFail> {
    if text.len() > LONGEST {
        return Err(ScriptFail::NoMemory);
    }
    let fail = match kind {
        Kind::Script => read_script(alloc, text).err(),
        Kind::LoopScript => read_loop_script(alloc, text).err(),
    };
    match fail {
        None => Ok(None),
        Some(ScriptFail::Refused(refusal)) => Ok(Some(refusal)),
        Some(ScriptFail::NoMemory) => Err(ScriptFail::NoMemory),
    }
}

/// The lines above, this line so many times, and one line more.
fn text_of(
    alloc: Global,
    above: &str,
    count: u32,
    line: &str,
    last: &str,
) -> Result<Vec<u8>, Fail> {
    let mut text = Vec::from_slice(alloc, above.as_bytes())?;
    for _ in 0..count {
        text.extend_from_slice(line.as_bytes())?;
    }
    text.extend_from_slice(last.as_bytes())?;
    Ok(text)
}

/// Each text, behind the lines above, is refused as its row says.
pub fn assert_refused(
    rt: &impl Abort,
    alloc: Global,
    kind: Kind,
    above: &str,
    rows: &[Row],
) -> Result<(), Fail> {
    for (text, refusal) in rows {
        let text = text_of(alloc, above, 0, "", text)?;
        assert_eq!(rt;
            refusal_of(alloc, kind, text.as_slice())?,
            *refusal,
            "{text:?}"
        );
    }
    Ok(())
}

/// So is each text of many lines.
pub fn assert_many_refused(
    rt: &impl Abort,
    alloc: Global,
    kind: Kind,
    above: &str,
    rows: &[Many],
) -> Result<(), Fail> {
    for (count, line, last, refusal) in rows {
        let text = text_of(alloc, above, *count, line, last)?;
        assert_eq!(rt;
            refusal_of(alloc, kind, text.as_slice())?,
            *refusal,
            "{count} {line} {last}"
        );
    }
    Ok(())
}
