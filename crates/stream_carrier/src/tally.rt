//! How a run on one thread went.
use co_state::Cx;

/// How a run went. A count at its type's end begins again at 0.
#[derive(Clone, Copy, Debug, PartialEq, Eq)]
pub struct Tally {
    /// All resumes by wakes.
    pub resumes: u64,
    /// How many resumes asked that the home quits.
    pub quits: u64,
    /// How many streams hadn't retired when no woken one was left. It is 0 where no wake is lost.
    pub left: u64,
}

impl Tally {
    /// Before the first resume.
    pub fn none() -> Tally {
        Tally {
            resumes: 0,
            quits: 0,
            left: 0,
        }
    }

    /// Counts a resume that asked for this.
    pub fn count(&mut self, asked: &Cx) {
        self.resumes = self.resumes.wrapping_add(1);
        self.quits = self.quits.wrapping_add(u64::from(asked.quits()));
    }
}
