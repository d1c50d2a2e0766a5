//! What rows are kept by.
use crate::row::Row;
use ordered::Keyed;

// Rows are kept by deadline.
impl Keyed for Row {
    ghost key = { λ r. r.deadline };

    fn key(&self) -> u32 {
        self.deadline
    }
}
