//! Which part of the measurement a run is.

/// What is to be measured.
pub enum Part {
    /// What starting the program costs.
    Nothing,
    OneHandle,
    OneShot,
    ManyHandles,
    /// Rounds of one handle whose callback nests once.
    Nested,
    TwoThreads,
    /// Two threads place one-shots while the home polls.
    Placings,
    /// The rounds of one handle on the plain loop of one thread.
    PlainOne,
    PlainMany,
    /// A home with an empty list commits.
    Commits,
    /// A home with idle handles in its list commits.
    IdleCommits,
    Accepts,
    /// Two parked homes wake each other.
    HomesInTurn,
    CondvarInTurn,
    /// Four threads notify a home that parks.
    Rings,
}

impl Part {
    pub fn of(word: &str) -> Option<Part> {
        match word {
            "nothing" => Some(Part::Nothing),
            "one" => Some(Part::OneHandle),
            "once" => Some(Part::OneShot),
            "many" => Some(Part::ManyHandles),
            "nested" => Some(Part::Nested),
            "threads" => Some(Part::TwoThreads),
            "placings" => Some(Part::Placings),
            "plain-one" => Some(Part::PlainOne),
            "plain-many" => Some(Part::PlainMany),
            "commits" => Some(Part::Commits),
            "idle-commits" => Some(Part::IdleCommits),
            "accepts" => Some(Part::Accepts),
            "homes" => Some(Part::HomesInTurn),
            "condvar" => Some(Part::CondvarInTurn),
            "rings" => Some(Part::Rings),
            _ => None,
        }
    }
}
