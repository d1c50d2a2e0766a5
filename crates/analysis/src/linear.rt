//! The linear test.
ghost use Rattle.std.specs.Prelude.{◌≡◌};
ghost use Rattle.analysis.specs.Responses.{linear};
ghost use Rattle.analysis.specs.Lemmas.Eased.{linear_lawful};

use crate::question::{Analysis, Question, QuestionFault};
use crate::row::{Mark, Row, Verdict};

/// The interference of one window as long as the deadline, with no search.
#[derive(Clone, Copy, PartialEq, Eq, Debug)]
pub struct Linear;

impl Question<'_> {
    /// The verdict by the interference up to the deadline.
    fn within_deadline(&self) -> Verdict
        ensures { result ≡ linear self.now.table.now self.now.marks.now self.now.place }
    {
        let row = self.asked();
        let w = row.cost as u64 + self.interference(row.deadline);
        if w <= row.deadline as u64 {
            Verdict::OnTime(w as u32)
        } else {
            Verdict::Late
        }
    }
}

impl Analysis for Linear {
    ghost verdict = { λ _. linear };

    ghost lawful = { λ _. linear_lawful };

    fn ask(&self, table: &[Row], marks: &[Mark], place: usize) -> Result<Verdict, QuestionFault> {
        let question = Question::new(table, marks, place)?;
        Ok(question.within_deadline())
    }
}
