//! Questions about a row among others, and what answers them.
ghost use Rattle.std.specs.Prelude.{◌≡◌, ℕ, List, Err, IfOk, IfErr, OnOk, OnErr, MatchResult};
ghost use Rattle.analysis.specs.Answers.{answer, answer_of, checked, question_code, question_field};
ghost use Rattle.analysis.specs.Laws.{Lawful};
ghost use Rattle.analysis.specs.Questions.{Fair, row_at};
ghost use Rattle.analysis.specs.declared.row.Mark.{Mark};
ghost use Rattle.analysis.specs.declared.row.Row.{Row};
ghost use Rattle.analysis.specs.declared.row.Verdict.{Verdict};

use crate::ranges::wrong_field;
use crate::row::{Mark, Row, Verdict};

/// Why a question has no verdict.
#[derive(Clone, Copy, PartialEq, Eq, Debug)]
pub enum QuestionFault {
    /// More than 128 rows, another number of marks than of rows, or a place that is not in the table.
    Shape,
    /// This field of the first row that has one is outside its range.
    Range { field: u32 },
}

impl QuestionFault {
    /// The code of the refusal.
    pub fn code(self) -> u32
        ensures { result ≡ question_code self }
    {
        match self {
            QuestionFault::Shape => 7,
            QuestionFault::Range { .. } => 3,
        }
    }

    // No Option: 0 is the number that the rules give to "no field".
    /// The field that the refusal names, counted from 1; 0 where it names none.
    pub fn field(self) -> u32
        ensures { result ≡ question_field self }
    {
        match self {
            QuestionFault::Shape => 0,
            QuestionFault::Range { field } => field,
        }
    }
}

/// A schedulability test of one row among rows marked above and below it.
///
/// `verdict` is what it means: a function of table, marks and place alone. Every implementation owes the four laws.
pub trait Analysis {
    ghost verdict: { Self → List Row → List Mark → ℕ → Verdict };

    // Three parameters and no struct: every caller and every other implementation asks in this form.
    fn ask(&self, table: &[Row], marks: &[Mark], place: usize) -> Result<Verdict, QuestionFault>
        ensures { answer_of result ≡ answer (verdict self.now) table.now marks.now place };

    ghost lawful: { (a : Self) → Lawful (verdict a) };
}

/// The most rows in a question's table, and on a sheet.
pub const MOST_ROWS: usize = 128;

/// The largest cost of a row in a question's table.
pub const MOST_ASKED_COST: u32 = 1_000_001;

/// Whether a question gets a verdict, the same for every analysis, and else why not.
pub fn check_question(table: &[Row], marks: &[Mark], place: usize) -> Result<(), QuestionFault>
    ensures value { result ≡ checked table.now marks.now place }
    ensures fair { MatchResult result (λ _. Fair table.now marks.now place) (λ _. Fair table.now marks.now place → ⊥) }
{
    if table.len() > MOST_ROWS || marks.len() != table.len() || place >= table.len() {
        return Err(QuestionFault::Shape);
    }
    for row in table {
        if let Some(field) = wrong_field(row, MOST_ASKED_COST) {
            return Err(QuestionFault::Range { field });
        }
    }
    Ok(())
}

/// A question that gets a verdict.
#[derive(Clone, Copy)]
pub(crate) struct Question<'a> {
    pub(crate) table: &'a [Row],
    pub(crate) marks: &'a [Mark],
    pub(crate) place: usize,
    ghost fair: { Fair table.now marks.now place },
}

impl<'a> Question<'a> {
    /// The question, where it gets a verdict.
    pub(crate) fn new(
        table: &'a [Row],
        marks: &'a [Mark],
        place: usize,
    ) -> Result<Question<'a>, QuestionFault>
        ensures question { IfOk result (λ q. (q.table.now ≡ table.now) × (q.marks.now ≡ marks.now) × (q.place ≡ place)) }
        ensures fair { OnOk result (Fair table.now marks.now place) }
        ensures fault { IfErr result (λ e. Err e ≡ checked table.now marks.now place) }
        ensures unfair { OnErr result (Fair table.now marks.now place → ⊥) }
    {
        check_question(table, marks, place)?;
        Ok(Question {
            table,
            marks,
            place,
        })
    }

    /// The asked row.
    pub(crate) fn asked(&self) -> &Row
        ensures { result.now ≡ row_at self.now.table.now self.now.place }
    {
        &self.table[self.place]
    }
}
