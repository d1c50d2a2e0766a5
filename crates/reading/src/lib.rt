//! Reads a script into lines, each by its kind.

#![tactic(auto)]

mod fault;
mod field;
mod fields;
mod laws;
mod line;
mod numbers;
mod reader;
mod words;

pub use fault::{ReadFault, TextFault};
pub use field::Field;
pub use laws::reading_laws_stand;
pub use line::Line;
pub use reader::Reader;
pub use words::{choice_of, rule_of};

#[cfg(test)]
mod tests;
