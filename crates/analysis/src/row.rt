//! Rows, marks and verdicts.

/// A runnable: its number and, in ticks, its cost, period, deadline and longest section that cannot be preempted.
#[derive(Clone, Copy, PartialEq, Eq, Debug, Default)]
pub struct Row {
    pub number: u32,
    pub cost: u32,
    pub period: u32,
    pub deadline: u32,
    pub section: u32,
}

/// Whether a row ranks above the asked one or below it.
#[derive(Clone, Copy, PartialEq, Eq, Debug)]
pub enum Mark {
    Above,
    Below,
}

/// What an analysis says of the asked row: on time, with its response in ticks, or late.
#[derive(Clone, Copy, PartialEq, Eq, Debug)]
pub enum Verdict {
    OnTime(u32),
    Late,
}
