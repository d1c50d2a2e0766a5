//! The sheet.
ghost use Rattle.std.specs.Prelude.{◌≡◌, true};
ghost use Rattle.mapping.specs.Sheets.{distinct, in_ranges};

use analysis::Row;
use ordered::Kept;

mod calls;
mod maps;

/// At most 128 rows in their ranges, no number twice, by ascending deadline, and among equal deadlines the earlier entered first.
#[derive(Drop)]
pub struct Sheet {
    rows: Kept<Row>,
    ghost roomy: { rows.most ≡ 128 },
    ghost ranges: { in_ranges rows.items.items ≡ true },
    ghost apart: { distinct rows.items.items ≡ true },
}
