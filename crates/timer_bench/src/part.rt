//! Which part of the measurement a run is.

/// How the expiries of the arms come one after the other.
#[derive(Clone, Copy)]
pub enum Expiries {
    Rising,
    Falling,
    Random,
}

impl Expiries {
    pub fn name(self) -> &'static str {
        match self {
            Expiries::Rising => "rising",
            Expiries::Falling => "falling",
            Expiries::Random => "random",
        }
    }
}

/// What is to be measured.
pub enum Part {
    /// What starting the program costs.
    Nothing,
    /// Rounds among so many timers.
    Rounds(Expiries, u32),
    /// Looks at the watched events of sets of handlers.
    Looks,
}

impl Part {
    pub fn of(word: &str) -> Option<Part> {
        match word {
            "nothing" => Some(Part::Nothing),
            "rising-64" => Some(Part::Rounds(Expiries::Rising, 64)),
            "rising-512" => Some(Part::Rounds(Expiries::Rising, 512)),
            "rising-4096" => Some(Part::Rounds(Expiries::Rising, 4096)),
            "falling-64" => Some(Part::Rounds(Expiries::Falling, 64)),
            "falling-512" => Some(Part::Rounds(Expiries::Falling, 512)),
            "falling-4096" => Some(Part::Rounds(Expiries::Falling, 4096)),
            "random-64" => Some(Part::Rounds(Expiries::Random, 64)),
            "random-512" => Some(Part::Rounds(Expiries::Random, 512)),
            "random-4096" => Some(Part::Rounds(Expiries::Random, 4096)),
            "watch" => Some(Part::Looks),
            _ => None,
        }
    }
}
