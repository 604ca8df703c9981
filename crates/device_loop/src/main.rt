//! A device on a loop, to read beside docs/USING.md. A guest on a thread of its own puts requests into the device's queue and rings
//! its doorbell for each; then it asks the device to stop, by an event. The device's home thread answers the doorbell, and has a
//! timer that ticks. It prints counts that don't depend on how the two threads meet.
#![tactic(auto)]

mod counts;
mod device;
mod guest;
mod running;
mod threads;

use crate::threads::run_device;
use std::io;

fn main(rt: HostRuntime) -> io::Result<()> {
    run_device(&rt, rt.alloc())
}
