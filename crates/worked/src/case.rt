//! A table with what is asked and what is expected.
use analysis::{Choice, Mark, Row, Verdict};
use layers::Pair;
use mapping::{PlanLine, Rule};

/// A layer above the analysis.
#[derive(Clone, Copy)]
pub enum Layer {
    Charge(u32),
    Margin(u32),
    Pairs(&'static [Pair]),
}

/// What is asked, and what is expected of it.
#[derive(Clone, Copy)]
pub enum Asked {
    /// The lines of a plan, mapped by a rule from a sheet into which the rows were entered in their order; none where
    /// the rows have no plan.
    Mapping {
        rule: Rule,
        plan: Option<&'static [PlanLine]>,
    },
    /// The verdict on the row at a place of the rows, under marks.
    Verdict {
        marks: &'static [Mark],
        place: usize,
        verdict: Verdict,
    },
}

/// One thing that is asked of a worked table.
#[derive(Clone, Copy)]
pub struct Case {
    /// The number of the worked table.
    pub table: u32,
    pub rows: &'static [Row],
    pub analysis: Choice,
    pub layer: Option<Layer>,
    pub asked: Asked,
}
