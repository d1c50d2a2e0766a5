//! Elements kept by ascending key, the earlier inserted first among equal keys: once for every kind.

#![tactic(auto)]

mod list;

pub use list::{Kept, Keyed};
