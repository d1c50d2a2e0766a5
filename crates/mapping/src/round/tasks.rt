//! The lead of a task, and the members that go with it.
ghost use Rattle.std.specs.Prelude.{◌≡◌, ℕ, ◌+◌, ◌<◌, ◌≤◌, ◌++◌, [], length, get_or, MatchOption};
ghost use Rattle.arrayvec.specs.ArrayVec.{array_vec_len};
ghost use Rattle.mapping.specs.Plans.{lines_from, members, placed, shortest_divisor};
ghost use Rattle.mapping.specs.Rounds.{Usable, goes, led, no_candidate};

use crate::plan::{PlanLine, Rule};
use crate::round::{Candidate, Lead};
use analysis::{MOST_ROWS, Mark};
use arrayvec::ArrayVec;

/// The shortest period of a candidate that divides `period`, or `period`.
fn shortest_divisor(found: &[Candidate], period: u32) -> u32
    requires { (k : ℕ) → k < length found.now → 0 < (get_or found.now k no_candidate).row.period }
    ensures { result ≡ shortest_divisor period found.now }
{
    let mut shortest = period;
    for candidate in found {
        let other = candidate.row.period;
        if period % other == 0 {
            shortest = other.min(shortest);
        }
    }
    shortest
}

impl Lead {
    /// The last of the candidates leads the task; none leads where there is none.
    pub(crate) fn of(rule: Rule, found: &[Candidate]) -> Option<Lead>
        requires { (k : ℕ) → k < length found.now → 0 < (get_or found.now k no_candidate).row.period }
        ensures { MatchOption result (found.now ≡ []) (λ l. (led l found.now ≡ members rule found.now) × (0 < l.divisor) × (0 < length found.now)) }
    {
        let period = found.last()?.row.period;
        let divisor = shortest_divisor(found, period);
        Some(Lead {
            rule,
            period,
            divisor,
        })
    }

    /// Whether a row of this period goes with the lead.
    fn goes_with(self, period: u32) -> bool
        requires { 0 < self.divisor }
        ensures { result ≡ goes self.rule self.period self.divisor period }
    {
        match self.rule {
            Rule::Equal => period == self.period,
            Rule::Divided => period % self.divisor == 0,
        }
    }

    /// Appends the lines of the task's members, and marks the members as placed.
    pub(crate) fn place_members(
        self,
        task: u32,
        found: &[Candidate],
        lines: &mut ArrayVec<PlanLine, MOST_ROWS>,
        marks: &mut [Mark],
    )
        requires positive { 0 < self.divisor }
        requires usable { Usable (length marks.old) found.now }
        requires room { array_vec_len lines.old + length found.now ≤ 128 }
        ensures lines { lines.new.items ≡ lines.old.items ++ lines_from task 1 (led self found.now) }
        ensures marks { marks.new ≡ placed (led self found.now) marks.old }
    {
        // Counted by hand: the members have places and are no list of their own.
        let mut place = 0;
        for c in found {
            if self.goes_with(c.row.period) {
                place += 1;
                lines.push(PlanLine {
                    task,
                    place,
                    number: c.row.number,
                    response: c.response,
                });
                marks[c.at] = Mark::Below;
            }
        }
    }
}
