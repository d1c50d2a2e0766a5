//! The pairs that are held.
ghost use Rattle.std.specs.Prelude.{◌≡◌, true};
ghost use Rattle.layers.specs.Held.{distinct_pairs, pairs_in_range};

use crate::pair::Pair;
use ordered::Kept;

/// At most 32 pairs of different row numbers, none twice, by first number and the earlier held first among equal ones.
#[derive(Drop)]
pub struct PairList {
    pairs: Kept<Pair>,
    ghost roomy: { pairs.most ≡ 32 },
    ghost ranges: { pairs_in_range pairs.items.items ≡ true },
    ghost apart: { distinct_pairs pairs.items.items ≡ true },
}

mod calls;
