//! Twelve worked tables: what is asked and what is expected, held to the definitions by one proof over their list.

#![tactic(auto)]

mod case;
mod tables;

pub use case::{Asked, Case, Layer};
pub use tables::worked_tables;

#[cfg(test)]
mod tests;
