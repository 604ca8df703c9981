//! The job of a one-shot of a loop script.
use aio_core::Job;

/// What a one-shot of a loop script is begun for.
#[derive(Clone, Copy, Debug, PartialEq, Eq, Drop)]
pub struct Tag {
    pub tag: u32,
}

impl Job for Tag {
    ghost number_of = { λ job. job.tag };

    fn number(&self) -> u64 {
        u64::from(self.tag)
    }
}
