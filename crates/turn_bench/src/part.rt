//! Which part of the measurement a run is.

/// What is to be measured.
pub enum Part {
    /// What starting the program costs.
    Nothing,
    /// Turns in which there is nothing to do.
    Idle,
    /// Turns with a bottom half, an event and a timer each.
    Busy,
}

impl Part {
    pub fn of(word: &str) -> Option<Part> {
        match word {
            "nothing" => Some(Part::Nothing),
            "idle" => Some(Part::Idle),
            "busy" => Some(Part::Busy),
            _ => None,
        }
    }
}
