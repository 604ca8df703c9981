//! The states of a stream between two resumes.
use crate::gate::Passed;

/// Where a stream is in its script, and what its next resume does.
#[derive(Clone, Copy, Debug, PartialEq, Eq)]
pub enum At {
    /// Its next line is looked at.
    Between,
    /// The gate was passed, and the request is to be entered.
    Entering(Passed),
    /// The request was entered, and waits for its hold. Where it has it, the hold is taken up and a piece is served.
    Waiting,
    /// The next piece is served.
    Serving,
    /// The request was served whole, or failed, and is to leave.
    Ended,
    /// No line is left.
    Retiring,
    /// The stream has retired.
    Gone,
}
