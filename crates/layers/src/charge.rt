//! Every cost raised.
ghost use Rattle.std.specs.Prelude.{◌≡◌, ◌≤◌, [], map, length};
ghost use Rattle.layers.specs.Layers.{charged, raised};
ghost use Rattle.layers.specs.Lemmas.Layered.{charged_lawful};

use crate::setting::Ticks;
use analysis::{
    Analysis, MOST_ASKED_COST, MOST_ROWS, Mark, QuestionFault, Row, Verdict, check_question,
};
use arrayvec::ArrayVec;

/// Asks below about the same table with every cost raised by some ticks.
#[derive(Drop)]
pub struct Charge<A> {
    pub ticks: Ticks,
    pub below: A,
}

/// The row with its cost raised, to no more than 1,000,001, and nothing else changed.
fn raise(row: Row, by: Ticks) -> Row
    ensures { result ≡ raised by.value row }
{
    Row {
        cost: (row.cost as u64 + by.value() as u64).min(MOST_ASKED_COST as u64) as u32,
        ..row
    }
}

/// Appends the rows of a table, raised, to `rows`, which is empty.
// The vector is lent, since handing one out would copy all its places.
fn raise_all(table: &[Row], by: Ticks, rows: &mut ArrayVec<Row, MOST_ROWS>)
    requires few { length table.now ≤ 128 }
    requires empty { rows.old.items ≡ [] }
    ensures { rows.new.items ≡ map (raised by.value) table.now }
{
    for row in table {
        rows.push(raise(*row, by));
    }
}

impl<A: Analysis> Analysis for Charge<A> {
    ghost verdict = { λ a. charged a.ticks.value (A.Analysis.verdict a.below) };

    ghost lawful = { λ a. charged_lawful a.ticks.value _ (A.Analysis.lawful a.below) };

    fn ask(&self, table: &[Row], marks: &[Mark], place: usize) -> Result<Verdict, QuestionFault> {
        if self.ticks.value() == 0 {
            return self.below.ask(table, marks, place);
        }
        check_question(table, marks, place)?;
        let mut rows = ArrayVec::new();
        raise_all(table, self.ticks, &mut rows);
        self.below.ask(rows.as_slice(), marks, place)
    }
}
