//! A device in memory or on a file.
use crate::FileDevice;
use aio_words::{Device, Failed, MemDevice};

/// A device in memory, or a raw file.
#[derive(Drop)]
pub enum AnyDevice {
    Mem(MemDevice),
    File(FileDevice),
}

impl Device for AnyDevice {
    ghost use Rattle.real_ends.specs.AnyDevices.{as_many, bytes_of, calls_of, extent_of, faults_of, size_faults_of};

    ghost extent = { extent_of };

    ghost bytes = { bytes_of };

    ghost size_faults = { size_faults_of };

    ghost faults = { faults_of };

    ghost calls = { calls_of };

    ghost as_many = { as_many };

    fn size(&mut self) -> Result<u64, Failed> {
        match self {
            AnyDevice::Mem(device) => device.size(),
            AnyDevice::File(device) => device.size(),
        }
    }

    fn read_at(&mut self, at: u64, buf: &mut [u8]) -> Result<(), Failed> {
        match self {
            AnyDevice::Mem(device) => device.read_at(at, buf),
            AnyDevice::File(device) => device.read_at(at, buf),
        }
    }

    fn write_at(&mut self, at: u64, piece: &[u8]) -> Result<(), Failed> {
        match self {
            AnyDevice::Mem(device) => device.write_at(at, piece),
            AnyDevice::File(device) => device.write_at(at, piece),
        }
    }

    fn flush(&mut self) -> Result<(), Failed> {
        match self {
            AnyDevice::Mem(device) => device.flush(),
            AnyDevice::File(device) => device.flush(),
        }
    }
}
