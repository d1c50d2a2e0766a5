//! Totals, load and cycle of a task.
ghost use Rattle.std.specs.Prelude.{◌≡◌, ◌≤◌, IfOk};
ghost use Rattle.analysis.specs.Questions.{Meaning};
ghost use Rattle.mapping.specs.PlanLaw.{PlanOf};
ghost use Rattle.mapping.specs.Rows.{rows_of};
ghost use Rattle.mapping.specs.declared.plan.Rule.{Rule};
ghost use Rattle.mapping.specs.declared.plan.Rule.TheVariants.{Equal};
ghost use Rattle.tasks.specs.Answers.{answer_of};
ghost use Rattle.tasks.specs.Members.{members};
ghost use Rattle.tasks.specs.Runs.{run_of};
ghost use Rattle.tasks.specs.Totals.{CycleOf, LoadOf, Multiples, ShortestOf, cost_answer, cycle_answer, load_answer, totals_answer};

use crate::fault::TaskFault;
use crate::members::Members;
use crate::runs::MOST_LINES;
use mapping::{PlanLine, Sheet};

/// The last activation whose load can be asked for.
const MOST_ACTIVATION: u32 = 1_000_000;

/// The shortest period, the shortest deadline and the summed cost of the rows of a task, together.
pub fn totals(sheet: &Sheet, lines: &[PlanLine], task: u32) -> Result<(u32, u32, u32), TaskFault>
    ensures answer { answer_of (λ x. x) result ≡ totals_answer (rows_of sheet.now) task lines.now }
    ensures shortest { IfOk result (ShortestOf (members (rows_of sheet.now) (run_of task lines.now))) }
    ensures divides { (v : Meaning) (rule : Rule) → PlanOf v rule (rows_of sheet.now) lines.now → IfOk result (λ x. Multiples x.0 (members (rows_of sheet.now) (run_of task lines.now))) }
{
    let members = Members::of(sheet, lines, task)?;
    Ok((
        members.shortest_period(),
        members.shortest_deadline(),
        members.summed_cost(),
    ))
}

/// The load of an activation of a task, counted from 0: the summed cost of the rows that run then.
pub fn load(sheet: &Sheet, lines: &[PlanLine], task: u32, activation: u32) -> Result<u32, TaskFault>
    ensures answer { answer_of (λ x. x) result ≡ load_answer (rows_of sheet.now) task lines.now activation }
    ensures running { IfOk result (LoadOf activation (members (rows_of sheet.now) (run_of task lines.now))) }
    ensures first { activation ≡ 0 → answer_of (λ x. x) result ≡ cost_answer (rows_of sheet.now) task lines.now }
    ensures equal { (v : Meaning) → PlanOf v Equal (rows_of sheet.now) lines.now → activation ≤ 1000000 → answer_of (λ x. x) result ≡ cost_answer (rows_of sheet.now) task lines.now }
{
    if lines.len() > MOST_LINES {
        return Err(TaskFault::Lines);
    }
    if activation > MOST_ACTIVATION {
        return Err(TaskFault::Activation);
    }
    let members = Members::of(sheet, lines, task)?;
    let shortest = members.shortest_period();
    let time = activation as u64 * shortest as u64;
    Ok(members.cost_at(time))
}

/// The cycle of a task: its longest period divided by its shortest, rounded down.
pub fn cycle(sheet: &Sheet, lines: &[PlanLine], task: u32) -> Result<u32, TaskFault>
    ensures answer { answer_of (λ x. x) result ≡ cycle_answer (rows_of sheet.now) task lines.now }
    ensures periods { IfOk result (CycleOf (members (rows_of sheet.now) (run_of task lines.now))) }
    ensures equal { (v : Meaning) → PlanOf v Equal (rows_of sheet.now) lines.now → IfOk result (λ n. n ≡ 1) }
{
    let members = Members::of(sheet, lines, task)?;
    Ok(members.longest_period() / members.shortest_period())
}
