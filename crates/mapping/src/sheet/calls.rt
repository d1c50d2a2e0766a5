//! Entering and striking rows.
ghost use Rattle.std.specs.Prelude.{◌≡◌, ◌<◌, ◌≤◌, true, [], length, is_ok, IfOk, if◌then◌else◌, MatchOption, nat_eq};
ghost use Rattle.analysis.specs.Questions.{row_at};
ghost use Rattle.mapping.specs.Courses.{Continues, Limits, entered, entry, strike, struck, table};
ghost use Rattle.mapping.specs.Faults.{enter_outcome, outcome_of, strike_outcome};
ghost use Rattle.mapping.specs.Orders.{Holds, Stands};
ghost use Rattle.mapping.specs.Rows.{rows_of};
ghost use Rattle.mapping.specs.Sheets.{place_of};
ghost use Rattle.ordered.specs.Keys.{ascending};
ghost use Rattle.std.specs.List.{position, slice_get};

use crate::fault::SheetFault;
use crate::sheet::Sheet;
use analysis::{MOST_NUMBER, MOST_ROWS, Row, wrong_field};
use ordered::Kept;
use std::alloc::{AllocError, Global};

/// The largest cost of a row on a sheet.
const MOST_KEPT_COST: u32 = 1_000_000;

/// Where the first row of this number stands.
fn position(rows: &[Row], number: u32) -> Option<usize>
    ensures { result ≡ position (λ s. nat_eq s.number number) rows.now }
{
    rows.iter().position(|row| row.number == number)
}

impl Sheet {
    /// A sheet on which no row stands. Only this call can want memory.
    pub fn new(heap: Global) -> Result<Self, AllocError>
        ensures rows { IfOk result (λ s. rows_of s ≡ []) }
        ensures begins { IfOk result (λ s. rows_of s ≡ table []) }
    {
        let rows = Kept::new(heap, MOST_ROWS)?;
        Ok(Sheet { rows })
    }

    /// The rows that stand, in their order.
    pub fn rows(&self) -> &[Row]
        ensures value { result.now ≡ rows_of self.now }
        ensures within { Limits result.now }
        ensures ordered { ascending (λ s. s.deadline) result.now ≡ true }
    {
        self.rows.as_slice()
    }

    /// Where the row of this number stands.
    fn place_of(&self, number: u32) -> Option<usize>
        ensures { MatchOption result (length (rows_of self.now) ≤ place_of number (rows_of self.now)) (λ p. (p ≡ place_of number (rows_of self.now)) × (p < length (rows_of self.now))) }
    {
        position(self.rows.as_slice(), number)
    }

    /// The standing row of this number; none where no row has it.
    pub fn find(&self, number: u32) -> Option<Row>
        ensures value { result ≡ slice_get (rows_of self.now) (place_of number (rows_of self.now)) }
        ensures stands { MatchOption result (Stands (rows_of self.now) number → ⊥) (λ x. Holds (rows_of self.now) x × (x.number ≡ number)) }
    {
        let at = self.place_of(number)?;
        Some(self.rows.as_slice()[at])
    }

    /// Enters a row; a refusal leaves the rows as they were.
    pub fn enter(&mut self, row: Row) -> Result<(), SheetFault>
        ensures answer { outcome_of result ≡ enter_outcome row (rows_of self.old) }
        ensures rows { rows_of self.new ≡ (if is_ok result then entered row (rows_of self.old) else rows_of self.old) }
        ensures continues { Continues (rows_of self.old) (entry row (is_ok result)) (rows_of self.new) }
    {
        if let Some(field) = wrong_field(&row, MOST_KEPT_COST) {
            return Err(SheetFault::Range { field });
        }
        if self.place_of(row.number).is_some() {
            return Err(SheetFault::Standing);
        }
        self.rows.insert(row).map_err(|_| SheetFault::Full)
    }

    /// Takes out the row of this number and hands it back; a refusal leaves the rows as they were.
    pub fn strike(&mut self, number: u32) -> Result<Row, SheetFault>
        ensures answer { outcome_of result ≡ strike_outcome number (rows_of self.old) }
        ensures value { IfOk result (λ x. x ≡ row_at (rows_of self.old) (place_of number (rows_of self.old))) }
        ensures rows { rows_of self.new ≡ (if is_ok result then struck number (rows_of self.old) else rows_of self.old) }
        ensures continues { Continues (rows_of self.old) (strike number (is_ok result)) (rows_of self.new) }
    {
        if number < 1 || number > MOST_NUMBER {
            return Err(SheetFault::Range { field: 1 });
        }
        let Some(at) = self.place_of(number) else {
            return Err(SheetFault::Missing);
        };
        // A place past the end would give none; `place_of` gives no such place.
        self.rows.remove(at).ok_or(SheetFault::Missing)
    }
}
