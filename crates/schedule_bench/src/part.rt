//! Which part of the measurement a run is.

/// What is to be measured.
pub enum Part {
    /// What starting the program costs.
    Nothing,
    /// One thread schedules coroutines, and begins them in a poll.
    SameThread,
    /// Another thread posts them while the home polls.
    OtherThread,
}

impl Part {
    pub fn of(word: &str) -> Option<Part> {
        match word {
            "nothing" => Some(Part::Nothing),
            "same" => Some(Part::SameThread),
            "other" => Some(Part::OtherThread),
            _ => None,
        }
    }
}
