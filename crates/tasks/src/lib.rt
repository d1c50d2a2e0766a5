//! What can be asked about a task of a list of plan lines, whoever made the list.

#![tactic(auto)]

mod fault;
mod members;
mod questions;
mod runs;

pub use fault::TaskFault;
pub use questions::{cycle, load, totals};
pub use runs::run;

#[cfg(test)]
mod tests;
