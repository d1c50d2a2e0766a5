//! The sheet of rows, and the mapping of its rows to tasks.

#![tactic(auto)]

mod fault;
mod plan;
mod round;
mod sheet;

pub use fault::{MapFault, SheetFault};
pub use plan::{Issued, PlanLine, Rule};
pub use sheet::Sheet;

#[cfg(test)]
mod tests;
