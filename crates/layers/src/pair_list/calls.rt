//! What can be done with a list of pairs.
ghost use Rattle.std.specs.Prelude.{◌≡◌, [], IfOk};
ghost use Rattle.layers.specs.Lists.{pairs_of};
ghost use Rattle.layers.specs.Outcomes.{add_outcome, after_adding, outcome_of};

use crate::fault::LayerFault;
use crate::pair::Pair;
use crate::pair_list::PairList;
use analysis::MOST_NUMBER;
use ordered::Kept;
use std::alloc::{AllocError, Global};

/// The most pairs that are held.
const MOST_PAIRS: usize = 32;

impl PairList {
    /// No pairs yet. Only this call can want memory: it reserves what 32 pairs take.
    pub fn new(heap: Global) -> Result<PairList, AllocError>
        ensures { IfOk result (λ l. pairs_of l ≡ []) }
    {
        let pairs = Kept::new(heap, MOST_PAIRS)?;
        Ok(PairList { pairs })
    }

    /// The pairs that are held, by first number.
    pub fn as_slice(&self) -> &[Pair]
        ensures { result.now ≡ pairs_of self.now }
    {
        self.pairs.as_slice()
    }

    /// Holds one more pair. Refused, in this order: a number outside 1 to 65,535, equal numbers, a pair that is held, a 33rd pair.
    pub fn add(&mut self, upper: u32, lower: u32) -> Result<(), LayerFault>
        ensures answer { outcome_of result ≡ add_outcome (record { upper = upper; lower = lower }) (pairs_of self.old) }
        ensures pairs { pairs_of self.new ≡ after_adding (record { upper = upper; lower = lower }) (pairs_of self.old) }
    {
        if upper < 1 || upper > MOST_NUMBER {
            return Err(LayerFault::Range { field: 1 });
        }
        if lower < 1 || lower > MOST_NUMBER {
            return Err(LayerFault::Range { field: 2 });
        }
        if upper == lower {
            return Err(LayerFault::Equal);
        }
        let pair = Pair { upper, lower };
        if self.as_slice().contains(&pair) {
            return Err(LayerFault::Held);
        }
        self.pairs.insert(pair).map_err(|_| LayerFault::Full)
    }
}
