//! Rows, questions about them, what an analysis is, and three analyses.

#![tactic(auto)]

mod choice;
mod exact;
mod keys;
mod laws;
mod linear;
mod question;
mod ranges;
mod response;
mod row;
mod sections;

pub use choice::Choice;
pub use exact::Exact;
pub use laws::{activations_round_up, exact_is_least};
pub use linear::Linear;
pub use question::{Analysis, MOST_ASKED_COST, MOST_ROWS, QuestionFault, check_question};
pub use ranges::{MOST_NUMBER, wrong_field};
pub use row::{Mark, Row, Verdict};
pub use sections::Sections;

#[cfg(test)]
mod tests;
