//! How a coroutine sleeps and is woken here: each has a bell, which tells how often it was rung.
use co_state::CoId;
use std::sync::Wait;
use std::sync::atomic::{AtomicU64, Ordering};
use std::thread::yield_now;

#[derive(Drop)]
pub struct Bells {
    rung: [AtomicU64; 4],
}

impl Bells {
    pub fn silent() -> Bells {
        Bells {
            rung: [
                AtomicU64::new(0),
                AtomicU64::new(0),
                AtomicU64::new(0),
                AtomicU64::new(0),
            ],
        }
    }

    /// Rings the bell of the coroutine that was named.
    pub fn wake(&self, named: Option<CoId>) {
        if let Some(co) = named {
            if let Some(bell) = self.rung.get(co.co as usize) {
                bell.fetch_add(1, Ordering::SeqCst);
            }
        }
    }

    /// Sleeps until the bell of this coroutine was rung more often than that.
    pub fn sleep<R: Wait>(&self, rt: &R, co: CoId, woken: u64) {
        for _ in rt.forever() {
            if let Some(bell) = self.rung.get(co.co as usize) {
                if bell.load(Ordering::SeqCst) > woken {
                    return;
                }
            }
            yield_now();
        }
    }
}
