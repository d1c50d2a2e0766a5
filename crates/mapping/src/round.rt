//! A round of the mapping: the rows of the next task.
ghost use Rattle.mapping.specs.Rounds.{Asked};

use crate::plan::Rule;
use analysis::{Mark, Row};

mod candidates;
pub(crate) mod plans;
mod tasks;

/// A row that may go into the next task: its place, the row, and its response with all other unplaced rows above.
#[derive(Clone, Copy, Default)]
pub(crate) struct Candidate {
    pub at: usize,
    pub row: Row,
    pub response: u32,
}

/// What decides which candidates share a task: the rule, the lead's period, and the shortest period that divides it.
// That the divisor is above 0 is a clause and no ghost field: the definitions speak of leads with any divisor.
#[derive(Clone, Copy)]
pub(crate) struct Lead {
    pub rule: Rule,
    pub period: u32,
    pub divisor: u32,
}

/// The rows of a mapping at the time of one task: those that a lower task has are marked below, and the others above.
#[derive(Drop)]
pub(crate) struct Round<'a, A> {
    analysis: &'a A,
    rows: &'a [Row],
    marks: &'a [Mark],
    ghost asked: { Asked rows.now marks.now },
}
