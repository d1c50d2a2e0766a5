//! Pairs of row numbers.
use ordered::Keyed;

/// The row numbered `lower` never stands above the row numbered `upper`.
#[derive(Clone, Copy, PartialEq, Eq, Debug)]
pub struct Pair {
    pub upper: u32,
    pub lower: u32,
}

// Pairs are kept by their first number.
impl Keyed for Pair {
    ghost key = { λ p. p.upper };

    fn key(&self) -> u32 {
        self.upper
    }
}
