//! Which part of the measurement a run is.

/// What is to be measured.
pub enum Part {
    /// What starting the program costs.
    Nothing,
    /// One pass locks and unlocks, over and over.
    OnePass,
    FourThreads,
}

impl Part {
    pub fn of(word: &str) -> Option<Part> {
        match word {
            "nothing" => Some(Part::Nothing),
            "one" => Some(Part::OnePass),
            "four" => Some(Part::FourThreads),
            _ => None,
        }
    }
}
