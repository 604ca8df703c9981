//! Which part of the measurement a run is.

/// How much of a run is to be measured.
#[derive(Clone, Copy, Debug, PartialEq, Eq)]
pub enum Part {
    /// Reading the script alone.
    Read,
    /// Serving it by wakes too, with a count in place of the replies.
    Serve,
    /// The same, in rounds.
    Rounds,
    /// Serving the requests one after another, without coroutines.
    Serially,
    /// Serving by wakes, and printing the replies.
    All,
}

impl Part {
    /// The part of a word; all, where it is another.
    pub fn of(word: &str) -> Part {
        match word {
            "read" => Part::Read,
            "serve" => Part::Serve,
            "rounds" => Part::Rounds,
            "serially" => Part::Serially,
            _ => Part::All,
        }
    }
}
