//! Each end once over a real file and the real clock: what a device put is read back by another open.
use crate::{AnyDevice, FileDevice, SystemClock};
use aio_words::{Clock, Device, Failed, MemDevice};
use std::fs::{File, OpenOptions};
use std::os::unix::fs::PermissionsExt;
use std::rt::{Env, Files};
use std::test::Fail;
use std::{env, fs};

/// A path in the folder for files that don't stay.
fn path_of<R: Env + AllocGlobal>(rt: &R, name: &str) -> Result<String, Fail> {
    let folder = env::temp_dir(rt)?;
    Ok(format!(in rt.alloc(); "{}/real_ends_{name}", folder.display())?)
}

/// Puts two bytes behind the second, and finds five from the start on. None where the device hasn't ten bytes.
fn put_and_find<D: Device + Send>(device: &mut D) -> Result<Option<[u8; 5]>, Failed> {
    if device.size()? != 10 {
        return Ok(None);
    }
    device.write_at(2, b"ab")?;
    device.flush()?;
    let mut found = [0; 5];
    device.read_at(0, &mut found)?;
    Ok(Some(found))
}

/// Whether each call fails.
fn fails_at_each<D: Device>(device: &mut D) -> bool {
    let size = device.size().is_err();
    let read = device.read_at(0, &mut []).is_err();
    let write = device.write_at(0, &[]).is_err();
    let flush = device.flush().is_err();
    size && read && write && flush
}

#[test]
fn another_open_finds_what_was_put(rt: HostRuntime) -> Result<(), Fail> {
    let path = path_of(&rt, "put")?;
    fs::write(&rt, path.as_str(), "0123456789")?;
    let mut device = FileDevice::open(&rt, path.as_str())?;
    assert_eq!(rt; put_and_find(&mut device), Ok(Some(*b"01ab4")));
    assert_eq!(rt;
        fs::read(&rt, path.as_str())?.as_slice(),
        b"01ab456789".as_slice()
    );
    fs::remove_file(&rt, path.as_str())?;
    Ok(())
}

/// The length is taken once: a file that is cut meanwhile has the old one, and its lost bytes can't be read.
#[test]
fn a_file_that_is_cut(rt: HostRuntime) -> Result<(), Fail> {
    let path = path_of(&rt, "cut")?;
    fs::write(&rt, path.as_str(), "0123456789")?;
    let mut device = FileDevice::open(&rt, path.as_str())?;
    fs::write(&rt, path.as_str(), "012")?;
    assert_eq!(rt; device.size(), Ok(10));
    assert_eq!(rt; put_and_find(&mut device), Err(Failed));
    fs::remove_file(&rt, path.as_str())?;
    Ok(())
}

/// No file, no path, a path that no file can have, and a folder.
#[test]
fn no_file(rt: HostRuntime) -> Result<(), Fail> {
    let missing = path_of(&rt, "missing")?;
    for path in [missing.as_str(), "", "a\0b", "/"] {
        let mut device = FileDevice::open(&rt, path)?;
        assert!(rt; fails_at_each(&mut device));
        let mut device = AnyDevice::File(device);
        assert!(rt; fails_at_each(&mut device));
    }
    Ok(())
}

/// A file that may only be read fails, unless this process may write to any, as root may.
#[test]
fn no_permission_to_write(rt: HostRuntime) -> Result<(), Fail> {
    let path = path_of(&rt, "read_only")?;
    fs::write(&rt, path.as_str(), "0123456789")?;
    fs::set_permissions(&rt, path.as_str(), fs::Permissions::from_mode(0o444))?;
    let may_write = OpenOptions::new()
        .write(true)
        .open(&rt, path.as_str())
        .is_ok();
    let mut device = FileDevice::open(&rt, path.as_str())?;
    assert_eq!(rt; fails_at_each(&mut device), !may_write);
    fs::remove_file(&rt, path.as_str())?;
    Ok(())
}

#[test]
fn either_device(rt: HostRuntime) -> Result<(), Fail> {
    let path = path_of(&rt, "either")?;
    fs::write(&rt, path.as_str(), "0123456789")?;
    let mut file = AnyDevice::File(FileDevice::open(&rt, path.as_str())?);
    let mut memory = AnyDevice::Mem(MemDevice::build(rt.alloc(), b"0123456789", &[])?);
    assert_eq!(rt; put_and_find(&mut file), Ok(Some(*b"01ab4")));
    assert_eq!(rt; put_and_find(&mut memory), Ok(Some(*b"01ab4")));
    fs::remove_file(&rt, path.as_str())?;
    Ok(())
}

/// How far the clock shows itself to be moved on by a pause.
fn moved_by<C: Clock + Send>(clock: &mut C, ns: u64) -> u64 {
    let before = clock.now();
    clock.pause(ns);
    clock.now().saturating_sub(before)
}

#[test]
fn a_pause_lasts(rt: HostRuntime) -> Result<(), Fail> {
    let mut clock = SystemClock::build(&rt)?;
    assert!(rt; moved_by(&mut clock, 2_000_000) >= 2_000_000);
    Ok(())
}
