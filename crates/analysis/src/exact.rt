//! The exact test.
ghost use Rattle.std.specs.Prelude.{◌≡◌, ◌↔◌, Ok};
ghost use Rattle.analysis.specs.Answers.{answer, answer_of};
ghost use Rattle.analysis.specs.Questions.{Fair};
ghost use Rattle.analysis.specs.Responses.{IsResponse, exact};
ghost use Rattle.analysis.specs.declared.row.Verdict.{Verdict};
ghost use Rattle.analysis.specs.Lemmas.Eased.{exact_lawful};

use crate::question::{Analysis, Question, QuestionFault};
use crate::row::{Mark, Row, Verdict};

/// The response-time equation, solved exactly.
#[derive(Clone, Copy, PartialEq, Eq, Debug)]
pub struct Exact;

impl Analysis for Exact {
    ghost verdict = { λ _. exact };

    ghost lawful = { λ _. exact_lawful };

    fn ask(&self, table: &[Row], marks: &[Mark], place: usize) -> Result<Verdict, QuestionFault>
        ensures answer { answer_of result ≡ answer exact table.now marks.now place }
        ensures least { Fair table.now marks.now place → (x : Verdict) → (result ≡ Ok x) ↔ IsResponse 0 table.now marks.now place x }
    {
        let question = Question::new(table, marks, place)?;
        Ok(question.response(0))
    }
}
