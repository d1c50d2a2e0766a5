//! Charge, margin and pairs: each an analysis over any analysis; and piles of them that are made at run time.

#![tactic(auto)]

mod charge;
mod fault;
mod laws;
mod margin;
mod pair;
mod pair_list;
mod pairs;
mod pile;
mod setting;

pub use charge::Charge;
pub use fault::LayerFault;
pub use laws::alike_piles_agree;
pub use margin::Margin;
pub use pair::Pair;
pub use pair_list::PairList;
pub use pairs::Pairs;
pub use pile::Pile;
pub use setting::{Percent, Setting, Ticks};

#[cfg(test)]
mod tests;
