//! Numbers in a scattered order.

/// The place of a call among the numbers below a power of two: each comes once, in a scattered order.
pub fn scattered(call: u32, size: u32) -> u32 {
    if size == 0 {
        0
    } else {
        call.wrapping_mul(40503) % size
    }
}

/// A coroutine's number, far from its neighbours'.
pub fn number_of(place: u32) -> u32 {
    place.wrapping_mul(1_048_583)
}
