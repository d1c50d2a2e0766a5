//! A part of the deadline kept free.
ghost use Rattle.std.specs.Prelude.{◌≡◌};
ghost use Rattle.layers.specs.Layers.{kept_within, with_margin};
ghost use Rattle.layers.specs.Lemmas.Layered.{margin_lawful};

use crate::setting::Percent;
use analysis::{Analysis, Mark, QuestionFault, Row, Verdict};

/// On time only where the response below leaves so many percent of the deadline.
#[derive(Drop)]
pub struct Margin<A> {
    pub percent: Percent,
    pub below: A,
}

/// On time only where the response leaves so many percent of the deadline.
fn within(percent: Percent, deadline: u32, verdict: Verdict) -> Verdict
    ensures { result ≡ kept_within percent.value deadline verdict }
{
    match verdict {
        Verdict::OnTime(response)
            if response as u64 * 100 > deadline as u64 * (100 - percent.value()) as u64 => {
            Verdict::Late
        }
        verdict => verdict,
    }
}

impl<A: Analysis> Analysis for Margin<A> {
    ghost verdict = { λ a. with_margin a.percent.value (A.Analysis.verdict a.below) };

    ghost lawful = { λ a. margin_lawful a.percent.value _ (A.Analysis.lawful a.below) };

    fn ask(&self, table: &[Row], marks: &[Mark], place: usize) -> Result<Verdict, QuestionFault> {
        let verdict = self.below.ask(table, marks, place)?;
        Ok(within(self.percent, table[place].deadline, verdict))
    }
}
