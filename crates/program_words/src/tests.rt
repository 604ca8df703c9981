//! What lists of words mean: the limits of each word on either side, each exclusion, each word twice.
use crate::{Mode, image_word, mode_said};
use std::alloc::Global;
use std::test::Fail;

fn words_of(alloc: Global, texts: &[&str]) -> Result<Vec<String>, Fail> {
    let mut words = Vec::new(alloc);
    for text in texts {
        words.push(String::from_str(alloc, text)?)?;
    }
    Ok(words)
}

/// The first of these lists of words that doesn't mean this, by its place.
fn first_wrong(
    alloc: Global,
    lists: &[&[&str]],
    meaning: Option<Mode>,
) -> Result<Option<usize>, Fail> {
    for (at, texts) in lists.iter().enumerate() {
        let words = words_of(alloc, texts)?;
        if mode_said(words.as_slice()) != meaning {
            return Ok(Some(at));
        }
    }
    Ok(None)
}

const IMAGE_SCRIPTS: [&[&str]; 6] = [
    &[],
    &["--mode=run"],
    &["--image=x"],
    &["--image=a=b"],
    &["--image==", "--mode=run"],
    &["--mode=run", "--image=--gen=0"],
];

#[test]
fn image_scripts(rt: HostRuntime) -> Result<(), Fail> {
    let wrong = first_wrong(rt.alloc(), &IMAGE_SCRIPTS, Some(Mode::Image))?;
    assert_eq!(rt; wrong, None);
    Ok(())
}

const LOOP_SCRIPTS: [&[&str]; 1] = [&["--mode=bh"]];

#[test]
fn loop_scripts(rt: HostRuntime) -> Result<(), Fail> {
    let wrong = first_wrong(rt.alloc(), &LOOP_SCRIPTS, Some(Mode::Bells))?;
    assert_eq!(rt; wrong, None);
    Ok(())
}

/// The order is free, and zeros may lead.
const LEAST: [&[&str]; 5] = [
    &["--gen=1", "--from=0"],
    &["--from=00000", "--gen=0001"],
    &["--mode=run", "--from=0", "--gen=01"],
    &["--from=0", "--image=x", "--gen=1"],
    &["--image=x", "--gen=1", "--mode=run", "--from=0"],
];

const GREATEST: [&[&str]; 2] = [
    &["--gen=4096", "--from=65535"],
    &["--from=65535", "--gen=4096"],
];

/// The number is 1 where it isn't said.
const UNSAID: [&[&str]; 3] = [
    &["--gen=8"],
    &["--gen=8", "--from=1"],
    &["--gen=0008", "--mode=run"],
];

#[test]
fn generated_scripts(rt: HostRuntime) -> Result<(), Fail> {
    let alloc = rt.alloc();
    let least = Mode::Generated {
        requests: 1,
        from: 0,
    };
    let greatest = Mode::Generated {
        requests: 4_096,
        from: 65_535,
    };
    let unsaid = Mode::Generated {
        requests: 8,
        from: 1,
    };
    assert_eq!(rt; first_wrong(alloc, &LEAST, Some(least))?, None);
    assert_eq!(rt; first_wrong(alloc, &GREATEST, Some(greatest))?, None);
    assert_eq!(rt; first_wrong(alloc, &UNSAID, Some(unsaid))?, None);
    Ok(())
}

const PAST_LIMITS: [&[&str]; 17] = [
    &["--gen=0"],
    &["--gen=4097"],
    &["--gen=00001"],
    &["--gen="],
    &["--gen=+1"],
    &["--gen=-1"],
    &["--gen=1 "],
    &["--gen=0x1"],
    &["--gen=4294967297"],
    &["--gen=8", "--from=65536"],
    &["--gen=8", "--from=000000"],
    &["--gen=8", "--from="],
    &["--gen=8", "--from=-0"],
    &["--mode="],
    &["--mode=runs"],
    &["--mode=BH"],
    &["--image="],
];

const EXCLUDED: [&[&str]; 7] = [
    &["--from=1"],
    &["--mode=run", "--from=1"],
    &["--mode=bh", "--gen=8"],
    &["--mode=bh", "--from=1"],
    &["--from=1", "--gen=8", "--mode=bh"],
    &["--mode=bh", "--image=x"],
    &["--image=x", "--mode=bh"],
];

const TWICE: [&[&str]; 6] = [
    &["--mode=run", "--mode=run"],
    &["--mode=run", "--mode=bh"],
    &["--gen=8", "--gen=8"],
    &["--gen=8", "--from=1", "--from=2"],
    &["--image=x", "--image=x"],
    &["--image=x", "--gen=8", "--image=y"],
];

const UNKNOWN: [&[&str]; 12] = [
    &["--loops=2"],
    &["--help"],
    &["-h"],
    &["--"],
    &[""],
    &["run"],
    &["--mode", "run"],
    &["--gen", "8"],
    &["--gen"],
    &[" --gen=8"],
    &["--GEN=8"],
    &["--gen=8", "--loops=2"],
];

#[test]
fn none_of_the_programs(rt: HostRuntime) -> Result<(), Fail> {
    let alloc = rt.alloc();
    assert_eq!(rt; first_wrong(alloc, &PAST_LIMITS, None)?, None);
    assert_eq!(rt; first_wrong(alloc, &EXCLUDED, None)?, None);
    assert_eq!(rt; first_wrong(alloc, &TWICE, None)?, None);
    assert_eq!(rt; first_wrong(alloc, &UNKNOWN, None)?, None);
    Ok(())
}

/// A path is told also where the words as a whole are Usage. It goes on behind a second `=`.
const PATHS: [(&[&str], Option<&str>); 6] = [
    (&[], None),
    (&["--gen=8", "image=x"], None),
    (&["--gen=8", "--image=a=b"], Some("a=b")),
    (&["--image="], Some("")),
    (&["x", "--image=a/disk.raw"], Some("a/disk.raw")),
    (&["--image=x", "--image=y"], Some("x")),
];

fn first_wrong_path(
    alloc: Global,
    rows: &[(&[&str], Option<&str>)],
) -> Result<Option<usize>, Fail> {
    for (at, (texts, path)) in rows.iter().enumerate() {
        let words = words_of(alloc, texts)?;
        if image_word(words.as_slice()) != *path {
            return Ok(Some(at));
        }
    }
    Ok(None)
}

#[test]
fn paths(rt: HostRuntime) -> Result<(), Fail> {
    assert_eq!(rt; first_wrong_path(rt.alloc(), &PATHS)?, None);
    Ok(())
}
