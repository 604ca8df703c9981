//! Ends of the program that lie outside it: a raw file as a device, and the machine's clock. They are the trusted edge.
//! They tell how many calls failed and which calls there were, but nothing of what a file holds.
#![tactic(auto)]

mod any_device;
mod file_device;
mod system_clock;
#[cfg(test)]
mod tests;

pub use any_device::AnyDevice;
pub use file_device::FileDevice;
pub use system_clock::SystemClock;
