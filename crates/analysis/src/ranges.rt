//! The ranges of a row's values.
ghost use Rattle.std.specs.Prelude.{◌≡◌};
ghost use Rattle.analysis.specs.Ranges.{wrong_field};

use crate::row::Row;

/// The largest number of a row.
pub const MOST_NUMBER: u32 = 65_535;

/// The longest period of a row, in ticks.
const MOST_PERIOD: u32 = 1_000_000;

/// The leftmost field of the row that is outside its range, counted from 1, where its cost may be at most `most_cost`.
pub fn wrong_field(row: &Row, most_cost: u32) -> Option<u32>
    ensures { result ≡ wrong_field most_cost row.now }
{
    if row.number < 1 || row.number > MOST_NUMBER {
        Some(1)
    } else if row.cost < 1 || row.cost > most_cost {
        Some(2)
    } else if row.period < 1 || row.period > MOST_PERIOD {
        Some(3)
    } else if row.deadline < 1 || row.deadline > row.period {
        Some(4)
    } else if row.section > row.cost {
        Some(5)
    } else {
        None
    }
}
