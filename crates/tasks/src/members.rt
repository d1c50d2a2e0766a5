//! The members of a task.
ghost use Rattle.std.specs.Prelude.{◌≡◌, ◌≤◌, true, false, All, length, MatchResult};
ghost use Rattle.analysis.specs.Ranges.{InRange, kept_cost};
ghost use Rattle.mapping.specs.Rows.{rows_of};
ghost use Rattle.std.specs.List.{list_all};
ghost use Rattle.tasks.specs.Answers.{answer_of};
ghost use Rattle.tasks.specs.Members.{members, members_answer, stands};
ghost use Rattle.tasks.specs.Totals.{cost_at, longest_period, shortest_deadline, shortest_period, summed_cost};
ghost use Rattle.tasks.specs.declared.fault.TaskFault.TheVariants.{Missing};

use crate::fault::TaskFault;
use crate::runs::{MOST_LINES, run};
use analysis::Row;
use arrayvec::ArrayVec;
use mapping::{PlanLine, Sheet};

/// The rows that the lines of a task name, in the order of the lines: at least one, each with its values in their ranges.
#[derive(Drop)]
pub(crate) struct Members {
    rows: ArrayVec<Row, MOST_LINES>,
    ghost some: { 1 ≤ length rows.items },
    ghost each: { All (InRange kept_cost) rows.items },
}

/// The rows that these lines name.
fn named(sheet: &Sheet, lines: &[PlanLine]) -> Result<ArrayVec<Row, MOST_LINES>, TaskFault>
    requires { length lines.now ≤ 128 }
    ensures { MatchResult result (λ v. (v.items ≡ members (rows_of sheet.now) lines.now) × (list_all (stands (rows_of sheet.now)) lines.now ≡ true)) (λ e. (e ≡ Missing) × (list_all (stands (rows_of sheet.now)) lines.now ≡ false)) }
{
    let mut rows = ArrayVec::new();
    for line in lines {
        let Some(row) = sheet.find(line.number) else {
            return Err(TaskFault::Missing);
        };
        rows.push(row);
    }
    Ok(rows)
}

impl Members {
    /// The members of the task, or why they cannot be had.
    pub(crate) fn of(sheet: &Sheet, lines: &[PlanLine], task: u32) -> Result<Members, TaskFault>
        ensures { answer_of (λ m. m.rows.items) result ≡ members_answer (rows_of sheet.now) task lines.now }
    {
        let rows = named(sheet, run(lines, task)?)?;
        Ok(Members { rows })
    }

    /// The shortest period of a member, which is the task's.
    pub(crate) fn shortest_period(&self) -> u32
        ensures value { result ≡ shortest_period self.now.rows.items }
        ensures positive { 1 ≤ result }
    {
        self.rows.iter().map(|row| row.period).min().unwrap_or(0)
    }

    /// The shortest deadline of a member.
    pub(crate) fn shortest_deadline(&self) -> u32
        ensures { result ≡ shortest_deadline self.now.rows.items }
    {
        self.rows.iter().map(|row| row.deadline).min().unwrap_or(0)
    }

    /// The longest period of a member.
    pub(crate) fn longest_period(&self) -> u32
        ensures { result ≡ longest_period self.now.rows.items }
    {
        self.rows.iter().map(|row| row.period).max().unwrap_or(0)
    }

    /// The summed cost of the members.
    pub(crate) fn summed_cost(&self) -> u32
        ensures { result ≡ summed_cost self.now.rows.items }
    {
        self.rows.iter().map(|row| row.cost).sum()
    }

    /// The summed cost of the members whose period divides `time`.
    pub(crate) fn cost_at(&self, time: u64) -> u32
        ensures { result ≡ cost_at time self.now.rows.items }
    {
        self.rows
            .iter()
            .filter(|row| time % row.period as u64 == 0)
            .map(|row| row.cost)
            .sum()
    }
}
