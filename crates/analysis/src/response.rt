//! The response-time equation.
ghost use Rattle.std.specs.Prelude.{◌≡◌, ◌+◌, ◌*◌, ◌≤◌, length};
ghost use Rattle.std.specs.List.{All};
ghost use Rattle.analysis.specs.Ranges.{InRange, asked_cost};
ghost use Rattle.analysis.specs.Responses.{activations, demand_above, interference, response};

use crate::question::Question;
use crate::row::{Mark, Row, Verdict};

// That windows are short is a clause of three functions: a type of its own for a window would say no more.
/// What a row asks of the processor in a window of so many ticks.
fn row_demand(row: &Row, window: u32) -> u64
    requires ranges { InRange asked_cost row.now }
    requires short { window ≤ 1000000 }
    ensures value { result ≡ activations window row.now.period * row.now.cost }
    ensures bound { result ≤ 1000001000000 }
{
    let times = (window + (row.period - 1)) / row.period;
    times as u64 * row.cost as u64
}

/// What the rows marked above ask of the processor in a window of so many ticks.
fn demand_above(rows: &[Row], marks: &[Mark], window: u32) -> u64
    requires few { length rows.now ≤ 128 }
    requires ranges { All (InRange asked_cost) rows.now }
    requires short { window ≤ 1000000 }
    ensures value { result ≡ demand_above rows.now marks.now window }
    ensures bound { result ≤ length rows.now * 1000001000000 }
{
    let mut total = 0;
    for (row, mark) in rows.iter().zip(marks) {
        if *mark == Mark::Above {
            total += row_demand(row, window);
        }
    }
    total
}

impl Question<'_> {
    /// What the rows marked above, other than the asked one, ask of the processor in a window of so many ticks.
    pub(crate) fn interference(&self, window: u32) -> u64
        requires short { window ≤ 1000000 }
        ensures value { result ≡ interference self.now.table.now self.now.marks.now self.now.place window }
        ensures bound { result ≤ 128 * 1000001000000 }
    {
        // Four slices as they stand: a function that cuts would hand out four that need names.
        let next = self.place + 1;
        demand_above(&self.table[..self.place], &self.marks[..self.place], window)
            + demand_above(&self.table[next..], &self.marks[next..], window)
    }

    /// The verdict by the response-time equation, with a blocking of so many ticks.
    pub(crate) fn response(&self, blocking: u32) -> Verdict
        ensures { result ≡ response blocking self.now.table.now self.now.marks.now self.now.place }
    {
        let row = self.asked();
        let deadline = row.deadline as u64;
        let start = blocking as u64 + row.cost as u64;
        let mut w = start;
        while w <= deadline {
            let next = start + self.interference(w as u32);
            if next == w {
                return Verdict::OnTime(w as u32);
            }
            w = next;
        }
        Verdict::Late
    }
}
