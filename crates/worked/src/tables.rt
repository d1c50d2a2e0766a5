//! The twelve tables.
ghost use Rattle.std.specs.Prelude.{◌≡◌, map};
ghost use Rattle.worked.specs.Cases.{expected, given};

use crate::case::{Asked, Case, Layer};
use analysis::{Choice, Mark, Row, Verdict};
use layers::Pair;
use mapping::{PlanLine, Rule};

// A row of these values: its number, cost, period, deadline and section.
// Macros, since a constant can call no function.
macro_rules! row {
    ($number:expr, $cost:expr, $period:expr, $deadline:expr, $section:expr) => {
        Row {
            number: $number,
            cost: $cost,
            period: $period,
            deadline: $deadline,
            section: $section,
        }
    };
}

// A plan line of these values: its task and place, its row's number, and its response.
macro_rules! plan_line {
    ($task:expr, $place:expr, $number:expr, $response:expr) => {
        PlanLine {
            task: $task,
            place: $place,
            number: $number,
            response: $response,
        }
    };
}

/// Three rows, one of them with twice the period of the others.
const THREE: [Row; 3] = [
    row!(1, 1000, 5000, 5000, 0),
    row!(2, 2000, 10000, 10000, 0),
    row!(3, 1000, 5000, 4000, 0),
];

/// Two rows that load the processor to seven eighths.
const TWO: [Row; 2] = [row!(1, 3, 6, 6, 0), row!(2, 3, 8, 8, 0)];

/// A row that needs all of its period.
const FULL: [Row; 1] = [row!(1, 5, 5, 5, 0)];

/// A row that needs more than its period.
const OVER: [Row; 1] = [row!(1, 6, 5, 5, 0)];

/// A row above one whose section leaves it just enough time.
const SHORT: [Row; 2] = [row!(1, 2, 10, 5, 0), row!(2, 4, 20, 20, 3)];

/// The same with a section that is one tick longer.
const LONG: [Row; 2] = [row!(1, 2, 10, 5, 0), row!(2, 4, 20, 20, 4)];

/// How many things are asked.
const COUNT: usize = 15;

/// What is asked of each table, and what is expected.
const CASES: [Case; COUNT] = [
    Case {
        table: 1,
        rows: &THREE,
        analysis: Choice::Exact,
        layer: None,
        asked: Asked::Mapping {
            rule: Rule::Equal,
            plan: Some(&[
                plan_line!(1, 1, 2, 4000),
                plan_line!(2, 1, 3, 2000),
                plan_line!(2, 2, 1, 2000),
            ]),
        },
    },
    Case {
        table: 2,
        rows: &THREE,
        analysis: Choice::Exact,
        layer: None,
        asked: Asked::Mapping {
            rule: Rule::Divided,
            plan: Some(&[
                plan_line!(1, 1, 3, 4000),
                plan_line!(1, 2, 1, 4000),
                plan_line!(1, 3, 2, 4000),
            ]),
        },
    },
    Case {
        table: 3,
        rows: &FULL,
        analysis: Choice::Exact,
        layer: None,
        asked: Asked::Verdict {
            marks: &[Mark::Below],
            place: 0,
            verdict: Verdict::OnTime(5),
        },
    },
    Case {
        table: 4,
        rows: &OVER,
        analysis: Choice::Exact,
        layer: None,
        asked: Asked::Verdict {
            marks: &[Mark::Below],
            place: 0,
            verdict: Verdict::Late,
        },
    },
    Case {
        table: 4,
        rows: &OVER,
        analysis: Choice::Exact,
        layer: None,
        asked: Asked::Mapping {
            rule: Rule::Equal,
            plan: None,
        },
    },
    Case {
        table: 5,
        rows: &TWO,
        analysis: Choice::Exact,
        layer: None,
        asked: Asked::Mapping {
            rule: Rule::Equal,
            plan: Some(&[plan_line!(1, 1, 2, 6), plan_line!(2, 1, 1, 3)]),
        },
    },
    Case {
        table: 6,
        rows: &TWO,
        analysis: Choice::Linear,
        layer: None,
        asked: Asked::Mapping {
            rule: Rule::Equal,
            plan: Some(&[plan_line!(1, 1, 1, 6), plan_line!(2, 1, 2, 3)]),
        },
    },
    Case {
        table: 7,
        rows: &SHORT,
        analysis: Choice::Sections,
        layer: None,
        asked: Asked::Verdict {
            marks: &[Mark::Above, Mark::Below],
            place: 0,
            verdict: Verdict::OnTime(5),
        },
    },
    Case {
        table: 7,
        rows: &LONG,
        analysis: Choice::Sections,
        layer: None,
        asked: Asked::Verdict {
            marks: &[Mark::Above, Mark::Below],
            place: 0,
            verdict: Verdict::Late,
        },
    },
    Case {
        table: 8,
        rows: &TWO,
        analysis: Choice::Exact,
        layer: Some(Layer::Margin(25)),
        asked: Asked::Verdict {
            marks: &[Mark::Above, Mark::Below],
            place: 1,
            verdict: Verdict::OnTime(6),
        },
    },
    Case {
        table: 8,
        rows: &TWO,
        analysis: Choice::Exact,
        layer: Some(Layer::Margin(26)),
        asked: Asked::Verdict {
            marks: &[Mark::Above, Mark::Below],
            place: 1,
            verdict: Verdict::Late,
        },
    },
    Case {
        table: 9,
        rows: &TWO,
        analysis: Choice::Exact,
        layer: Some(Layer::Pairs(&[Pair { upper: 2, lower: 1 }])),
        asked: Asked::Mapping {
            rule: Rule::Equal,
            plan: Some(&[plan_line!(1, 1, 1, 6), plan_line!(2, 1, 2, 3)]),
        },
    },
    Case {
        table: 10,
        rows: &TWO,
        analysis: Choice::Exact,
        layer: Some(Layer::Pairs(&[Pair { upper: 1, lower: 2 }, Pair { upper: 2, lower: 1 }])),
        asked: Asked::Mapping {
            rule: Rule::Equal,
            plan: None,
        },
    },
    Case {
        table: 11,
        rows: &TWO,
        analysis: Choice::Exact,
        layer: Some(Layer::Charge(1)),
        asked: Asked::Mapping {
            rule: Rule::Equal,
            plan: None,
        },
    },
    Case {
        table: 12,
        rows: &[],
        analysis: Choice::Exact,
        layer: None,
        asked: Asked::Mapping {
            rule: Rule::Equal,
            plan: Some(&[]),
        },
    },
];

/// The twelve tables with what is asked of each and what is expected; for each the definitions give what is expected.
pub fn worked_tables() -> [Case; COUNT]
    ensures { map given result ≡ map expected result }
{
    CASES
}
