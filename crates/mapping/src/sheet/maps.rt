//! The mapping of a sheet's rows to tasks.
ghost use Rattle.std.specs.Prelude.{◌≡◌, ◌≤◌, ◌++◌, length, take, drop, IfOk};
ghost use Rattle.mapping.specs.Courses.{Continues, map_answer, mapping};
ghost use Rattle.mapping.specs.Replies.{Bounded, last_task, reply, reply_of, written};
ghost use Rattle.mapping.specs.Rows.{rows_of};

use crate::fault::MapFault;
use crate::plan::{Issued, PlanLine, Rule};
use crate::round::plans::plan_rows;
use crate::sheet::Sheet;
use analysis::{Analysis, MOST_ROWS, Mark};
use arrayvec::ArrayVec;

/// The task of the last line, which is the count of the tasks; 0 where there is no line.
fn last_task(lines: &[PlanLine]) -> u32
    ensures { result ≡ last_task 0 lines.now }
{
    match lines.last() {
        Some(line) => line.task,
        None => 0,
    }
}

/// Writes the lines to the front of `room`.
fn copy_lines(lines: &[PlanLine], room: &mut [PlanLine])
    requires { length lines.now ≤ length room.old }
    ensures { room.new ≡ lines.now ++ drop (length lines.now) room.old }
{
    room[..lines.len()].copy_from_slice(lines);
}

impl Sheet {
    /// Writes the plan of the rows under an analysis and a rule to the front of `room`, and counts its tasks and lines;
    /// a refusal leaves `room` as it was.
    pub fn map<A: Analysis>(
        &self,
        analysis: &A,
        rule: Rule,
        room: &mut [PlanLine],
    ) -> Result<Issued, MapFault>
        ensures answer { reply_of result ≡ reply (map_answer (A.Analysis.verdict analysis.now) rule (length room.old) (rows_of self.now)) }
        ensures room { room.new ≡ written (map_answer (A.Analysis.verdict analysis.now) rule (length room.old) (rows_of self.now)) room.old }
        ensures bounds { IfOk result (λ i. Bounded (take i.lines room.new)) }
        ensures continues { Continues (rows_of self.now) (mapping (A.Analysis.verdict analysis.now) rule (length room.old) (map_answer (A.Analysis.verdict analysis.now) rule (length room.old) (rows_of self.now))) (rows_of self.now) }
    {
        let rows = self.rows.as_slice();
        if room.len() < rows.len() {
            return Err(MapFault::Room);
        }
        // An array and a vector of a fixed capacity, since a mapping takes no memory.
        let mut marks = [Mark::Above; MOST_ROWS];
        let mut lines = ArrayVec::new();
        let Some(()) = plan_rows(analysis, rule, rows, &mut marks[..rows.len()], &mut lines) else {
            return Err(MapFault::Unschedulable);
        };
        let plan = lines.as_slice();
        copy_lines(plan, room);
        Ok(Issued {
            tasks: last_task(plan),
            lines: plan.len() as u32,
        })
    }
}
