//! Reads a script line by line, does what each line says, and writes its answer.

#![tactic(auto)]

mod answer;
mod fault;
mod laws;
mod output;
mod session;
mod turn;
mod workspace;

pub use fault::{BeginFault, Fault, SessionFault};
pub use laws::{answers_fit, laws_stand, refusals_tell_faults};
pub use output::answers;
pub use reading::{Field, Line, ReadFault, Reader, TextFault};
pub use session::Session;
pub use turn::Answered;

#[cfg(test)]
mod tests;
