//! The rows that may go into the next task.
ghost use Rattle.std.specs.Prelude.{◌≡◌, ◌<◌, [], length, slice_index_or};
ghost use Rattle.analysis.specs.Questions.{row_at};
ghost use Rattle.analysis.specs.declared.row.Mark.TheVariants.{Above};
ghost use Rattle.mapping.specs.Plans.{candidates, if_on_time, if_unplaced};
ghost use Rattle.std.specs.Option.{option_to_list};

use crate::round::{Candidate, Round};
use analysis::{Analysis, MOST_ROWS, Mark, Verdict};
use arrayvec::ArrayVec;

impl<A: Analysis> Round<'_, A> {
    /// The verdict on the row at a place.
    fn verdict(&self, at: usize) -> Verdict
        requires { at < length self.now.rows.now }
        ensures { result ≡ A.Analysis.verdict self.now.analysis.now self.now.rows.now self.now.marks.now at }
    {
        match self.analysis.ask(self.rows, self.marks, at) {
            Ok(verdict) => verdict,
            Err(_) => unreachable(),
        }
    }

    /// The row at a place, where it may go into the next task.
    fn candidate(&self, at: usize) -> Option<Candidate>
        requires { at < length self.now.rows.now }
        ensures { option_to_list result ≡ if_unplaced (slice_index_or self.now.marks.now at Above) (if_on_time at (row_at self.now.rows.now at) (A.Analysis.verdict self.now.analysis.now self.now.rows.now self.now.marks.now at)) }
    {
        if self.marks[at] == Mark::Below {
            return None;
        }
        match self.verdict(at) {
            Verdict::OnTime(response) => Some(Candidate {
                at,
                row: self.rows[at],
                response,
            }),
            Verdict::Late => None,
        }
    }

    /// Appends the rows that may go into the next task, in sheet order, to `found`, which is empty.
    // The vector is lent, since handing one out would copy all its places.
    pub(crate) fn candidates(&self, found: &mut ArrayVec<Candidate, MOST_ROWS>)
        requires { found.old.items ≡ [] }
        ensures { found.new.items ≡ candidates (A.Analysis.verdict self.now.analysis.now) self.now.rows.now self.now.marks.now }
    {
        // By place, since an analysis is asked by place.
        for at in 0..self.rows.len() {
            if let Some(candidate) = self.candidate(at) {
                found.push(candidate);
            }
        }
    }
}
