//! The rounds of a mapping, from the lowest task upwards.
ghost use Rattle.std.specs.Prelude.{◌≡◌, ◌≤◌, [], length, OnSome};
ghost use Rattle.std.specs.Option.{option_map};
ghost use Rattle.arrayvec.specs.ArrayVec.{array_vec_len};
ghost use Rattle.mapping.specs.Plans.{all_above, plan};
ghost use Rattle.mapping.specs.Rounds.{Asked};

use crate::plan::{PlanLine, Rule};
use crate::round::{Lead, Round};
use analysis::{Analysis, MOST_ROWS, Mark, Row};
use arrayvec::ArrayVec;

/// Appends the lines of the plan of the rows to `lines`, which is empty; there is no plan where rows are left and none of them is a candidate.
// The vector is lent, since handing one out would copy all its places.
pub(crate) fn plan_rows<A: Analysis>(
    analysis: &A,
    rule: Rule,
    rows: &[Row],
    marks: &mut [Mark],
    lines: &mut ArrayVec<PlanLine, MOST_ROWS>,
) -> Option<()>
    requires asked { Asked rows.now marks.old }
    requires fresh { marks.old ≡ all_above rows.now }
    requires empty { lines.old.items ≡ [] }
    ensures lines { option_map (λ u. lines.new.items) result ≡ plan (A.Analysis.verdict analysis.now) rule rows.now }
    ensures within { OnSome result (array_vec_len lines.new ≤ length rows.now) }
{
    // Counted by hand: how many tasks there are shows only when no row is left.
    let mut task = 1;
    while lines.len() < rows.len() {
        let round = Round {
            analysis,
            rows,
            marks,
        };
        let mut candidates = ArrayVec::new();
        round.candidates(&mut candidates);
        let found = candidates.as_slice();
        let lead = Lead::of(rule, found)?;
        lead.place_members(task, found, lines, marks);
        task += 1;
    }
    Some(())
}
