//! What a session answers.
use crate::fault::Fault;
use mapping::Issued;

/// A line of the script and what became of it.
#[derive(Clone, Copy, PartialEq, Eq, Debug)]
pub struct Answered {
    /// The line's number, counted from 1.
    pub line: u32,
    /// How many bytes were written.
    pub bytes: usize,
    /// Accepted, with the counts of a plan where one was issued, or refused, by which part and why.
    pub outcome: Result<Option<Issued>, Fault>,
}
