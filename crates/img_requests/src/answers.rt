//! What the parts of a request answer.

/// What came of entering a request.
#[derive(Clone, Copy, Debug, PartialEq, Eq)]
pub enum Enter {
    /// Its pieces can be served.
    Begun,
    /// It waits for others. As long as an image has one present request at a time, this never comes.
    Queued,
    /// It reaches past the image's end, and stands in the journal at this place.
    Refused(u32),
}

/// What came of a piece.
#[derive(Clone, Copy, Debug, PartialEq, Eq)]
pub enum Piece {
    /// Bytes of the request are left.
    More,
    /// It was the last one.
    Whole,
    /// The device failed.
    Failed,
}

/// What came of leaving a request.
#[derive(Clone, Copy, Debug, PartialEq, Eq)]
pub struct Left {
    /// Its place in the journal.
    pub place: u32,
    /// The stream that goes on now, if one waited.
    pub woken: Option<u32>,
}
