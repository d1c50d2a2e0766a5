//! The test with sections that cannot be preempted.
ghost use Rattle.std.specs.Prelude.{◌≡◌, ◌↔◌, Ok};
ghost use Rattle.analysis.specs.Answers.{answer, answer_of};
ghost use Rattle.analysis.specs.Questions.{Fair};
ghost use Rattle.analysis.specs.Responses.{IsResponse, blocking, section_below, sections};
ghost use Rattle.analysis.specs.declared.row.Verdict.{Verdict};
ghost use Rattle.analysis.specs.Lemmas.Eased.{sections_lawful};

use crate::question::{Analysis, Question, QuestionFault};
use crate::row::{Mark, Row, Verdict};

/// The response-time equation with the longest section of a row below as blocking.
#[derive(Clone, Copy, PartialEq, Eq, Debug)]
pub struct Sections;

/// The longest section among the rows marked below; 0 where there are none.
fn section_below(rows: &[Row], marks: &[Mark]) -> u32
    ensures { result ≡ section_below rows.now marks.now }
{
    let mut longest = 0;
    for (row, mark) in rows.iter().zip(marks) {
        if *mark == Mark::Below {
            longest = longest.max(row.section);
        }
    }
    longest
}

impl Question<'_> {
    /// The longest section among the rows marked below, other than the asked one; 0 where there are none.
    fn blocking(&self) -> u32
        ensures { result ≡ blocking self.now.table.now self.now.marks.now self.now.place }
    {
        // Four slices as they stand: a function that cuts would hand out four that need names.
        let next = self.place + 1;
        let before = section_below(&self.table[..self.place], &self.marks[..self.place]);
        before.max(section_below(&self.table[next..], &self.marks[next..]))
    }
}

impl Analysis for Sections {
    ghost verdict = { λ _. sections };

    ghost lawful = { λ _. sections_lawful };

    fn ask(&self, table: &[Row], marks: &[Mark], place: usize) -> Result<Verdict, QuestionFault>
        ensures answer { answer_of result ≡ answer sections table.now marks.now place }
        ensures least { Fair table.now marks.now place → (x : Verdict) → (result ≡ Ok x) ↔ IsResponse (blocking table.now marks.now place) table.now marks.now place x }
    {
        let question = Question::new(table, marks, place)?;
        Ok(question.response(question.blocking()))
    }
}
