//! Which part of the measurement a run is.

/// What is done again and again.
#[derive(Clone, Copy)]
pub enum Kind {
    /// Puts into an empty store until it is full.
    Fill,
    /// The same, and then an enter of each, which is done.
    Drain,
    /// Enters of a full store, which yield.
    Yield,
}

/// Whose coroutines they are.
#[derive(Clone, Copy)]
pub enum Whose {
    /// A store's.
    Store,
    /// State machines in boxes, in a vector by number.
    Boxes,
}

/// What is to be measured.
pub enum Part {
    /// What starting the program costs.
    Nothing,
    /// Calls among so many coroutines.
    Calls(Whose, Kind, u32),
}

impl Kind {
    pub fn name(self) -> &'static str {
        match self {
            Kind::Fill => "fill",
            Kind::Drain => "drain",
            Kind::Yield => "yield",
        }
    }

    fn of(word: &str) -> Option<Kind> {
        match word {
            "fill" => Some(Kind::Fill),
            "drain" => Some(Kind::Drain),
            "yield" => Some(Kind::Yield),
            _ => None,
        }
    }
}

impl Whose {
    pub fn name(self) -> &'static str {
        match self {
            Whose::Store => "store",
            Whose::Boxes => "boxes",
        }
    }

    fn of(word: &str) -> Option<Whose> {
        match word {
            "store" => Some(Whose::Store),
            "boxes" => Some(Whose::Boxes),
            _ => None,
        }
    }
}

fn size_of(word: &str) -> Option<u32> {
    match word {
        "64" => Some(64),
        "512" => Some(512),
        "4096" => Some(4096),
        _ => None,
    }
}

impl Part {
    /// The part of these words: whose, kind and number, or nothing.
    pub fn of(whose: &str, kind: &str, size: &str) -> Option<Part> {
        if whose == "nothing" {
            return Some(Part::Nothing);
        }
        Some(Part::Calls(Whose::of(whose)?, Kind::of(kind)?, size_of(size)?))
    }
}
