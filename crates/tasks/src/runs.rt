//! The lines of a task.
ghost use Rattle.std.specs.Prelude.{◌≡◌, ◌≤◌, List, length, IfOk, filter, position, MatchResult};
ghost use Rattle.analysis.specs.declared.row.Row.{Row};
ghost use Rattle.mapping.specs.Lines.{LinesOf};
ghost use Rattle.std.specs.List.{prefix_len};
ghost use Rattle.tasks.specs.Answers.{answer_of};
ghost use Rattle.tasks.specs.Runs.{NoLine, RunIs, has_task, run_answer};
ghost use Rattle.tasks.specs.declared.fault.TaskFault.TheVariants.{Absent};

use crate::fault::TaskFault;
use mapping::PlanLine;

/// The most lines that a question is asked about.
pub(crate) const MOST_LINES: usize = 128;

/// Where the first line of the task stands.
fn start_of(lines: &[PlanLine], task: u32) -> Option<usize>
    ensures { result ≡ position (has_task task) lines.now }
{
    lines.iter().position(|line| line.task == task)
}

/// How many lines at the front have the task.
fn length_of(lines: &[PlanLine], task: u32) -> usize
    ensures value { result ≡ prefix_len (has_task task) lines.now }
    ensures within { result ≤ length lines.now }
{
    lines.iter().take_while(|line| line.task == task).count()
}

/// Hands out the first unbroken run of lines of the task, as a part of the lines.
pub fn run(lines: &[PlanLine], task: u32) -> Result<&[PlanLine], TaskFault>
    ensures answer { answer_of (λ p. p.now) result ≡ run_answer task lines.now }
    ensures part { MatchResult result (λ p. RunIs task lines.now p.now) (λ e. e ≡ Absent → NoLine task lines.now) }
    ensures whole { (t : List Row) → LinesOf t lines.now → IfOk result (λ p. p.now ≡ filter (has_task task) lines.now) }
{
    if lines.len() > MOST_LINES {
        return Err(TaskFault::Lines);
    }
    let Some(start) = start_of(lines, task) else {
        return Err(TaskFault::Absent);
    };
    let rest = &lines[start..];
    Ok(&rest[0..length_of(rest, task)])
}
