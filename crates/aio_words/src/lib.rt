//! The outside: where text comes from, where it goes, the device that holds an image, the time, and a gate that a
//! stream passes before each request. Each is a trait, which the real ones and the ones in memory meet.
//!
//! A count of faults tells when an object failed: a call that answers `Failed` raised it.
#![tactic(auto)]

mod called;
mod calls;
mod clock;
mod gate;
mod memory_device;
mod memory_sink;
mod memory_source;
mod standard;
mod traits;

pub use aio_model::{NoMemory, Unmade};
pub use called::{DeviceAsk, DeviceCall, SinkCall, SourceCall, Trail};
pub use clock::StepClock;
pub use gate::OpenGate;
pub use memory_device::MemDevice;
pub use memory_sink::MemSink;
pub use memory_source::MemSource;
pub use standard::{StdSink, StdSource};
pub use traits::{Clock, Device, Failed, Gate, Sink, Source};
