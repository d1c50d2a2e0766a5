//! The three analyses by name.
ghost use Rattle.analysis.specs.Choices.{chosen};
ghost use Rattle.analysis.specs.Lemmas.Chosen.{chosen_lawful};

use crate::exact::Exact;
use crate::linear::Linear;
use crate::question::{Analysis, QuestionFault};
use crate::row::{Mark, Row, Verdict};
use crate::sections::Sections;

/// One of the three analyses, chosen by name.
#[derive(Clone, Copy, PartialEq, Eq, Debug)]
pub enum Choice {
    Exact,
    Linear,
    Sections,
}

impl Analysis for Choice {
    ghost verdict = { chosen };

    ghost lawful = { chosen_lawful };

    fn ask(&self, table: &[Row], marks: &[Mark], place: usize) -> Result<Verdict, QuestionFault> {
        // A match and no `dyn`: there are these three, and the compiler sees each call.
        match *self {
            Choice::Exact => Exact.ask(table, marks, place),
            Choice::Linear => Linear.ask(table, marks, place),
            Choice::Sections => Sections.ask(table, marks, place),
        }
    }
}
