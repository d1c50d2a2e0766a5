//! Plans.

/// One row's line of a plan: its task and place, its number, and its response in ticks.
#[derive(Clone, Copy, PartialEq, Eq, Debug, Default)]
pub struct PlanLine {
    pub task: u32,
    pub place: u32,
    pub number: u32,
    pub response: u32,
}

/// Which candidates share a task with the lead.
#[derive(Clone, Copy, PartialEq, Eq, Debug)]
pub enum Rule {
    /// Those of the lead's period.
    Equal,
    /// Those whose period is a multiple of the shortest candidate period that divides the lead's.
    Divided,
}

/// How many tasks and lines an issued plan has.
#[derive(Clone, Copy, PartialEq, Eq, Debug)]
pub struct Issued {
    pub tasks: u32,
    pub lines: u32,
}
