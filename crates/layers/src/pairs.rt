//! Rows that may not stand above others.
ghost use Rattle.std.specs.Prelude.{◌≡◌, ◌<◌, length, slice_set};
ghost use Rattle.analysis.specs.Answers.{answer, answer_of, judged};
ghost use Rattle.analysis.specs.Questions.{Fair, row_at};
ghost use Rattle.analysis.specs.declared.row.Mark.TheVariants.{Below};
ghost use Rattle.analysis.specs.declared.row.Verdict.TheVariants.{Late};
ghost use Rattle.layers.specs.Lists.{pairs_of};
ghost use Rattle.layers.specs.Layers.{Breaks, above_has, pair_broken, with_pairs};
ghost use Rattle.layers.specs.Lemmas.Paired.{pairs_lawful};

use crate::pair::Pair;
use crate::pair_list::PairList;
use analysis::{Analysis, Mark, QuestionFault, Row, Verdict, check_question};

/// Late where a pair puts a row that is marked above below the asked one.
#[derive(Drop)]
pub struct Pairs<A> {
    pub pairs: PairList,
    pub below: A,
}

/// Whether a row marked above has the number.
fn above_has(number: u32, rows: &[Row], marks: &[Mark]) -> bool
    ensures { result ≡ above_has number rows.now marks.now }
{
    for (row, mark) in rows.iter().zip(marks) {
        if *mark == Mark::Above && row.number == number {
            return true;
        }
    }
    false
}

/// Whether a row marked above, other than the asked one, has the number.
fn stands_above(number: u32, table: &[Row], marks: &[Mark], place: usize) -> bool
    requires marked { length marks.now ≡ length table.now }
    requires within { place < length table.now }
    ensures { result ≡ above_has number table.now (slice_set marks.now place Below) }
{
    // Four slices as they stand: a function that cuts would hand out four that need names.
    let next = place + 1;
    above_has(number, &table[..place], &marks[..place])
        || above_has(number, &table[next..], &marks[next..])
}

/// Whether a pair puts a row marked above below the asked one.
fn breaks(pairs: &[Pair], table: &[Row], marks: &[Mark], place: usize) -> bool
    requires marked { length marks.now ≡ length table.now }
    requires within { place < length table.now }
    ensures { result ≡ pair_broken pairs.now (row_at table.now place).number table.now (slice_set marks.now place Below) }
{
    // All of them, at most 32: a search by the upper number would want them in order.
    for pair in pairs {
        if pair.upper == table[place].number && stands_above(pair.lower, table, marks, place) {
            return true;
        }
    }
    false
}

impl<A: Analysis> Analysis for Pairs<A> {
    ghost verdict = { λ a. with_pairs (pairs_of a.pairs) (A.Analysis.verdict a.below) };

    ghost lawful = { λ a. pairs_lawful (pairs_of a.pairs) _ (A.Analysis.lawful a.below) };

    fn ask(&self, table: &[Row], marks: &[Mark], place: usize) -> Result<Verdict, QuestionFault>
        ensures answer { answer_of result ≡ answer (with_pairs (pairs_of self.now.pairs) (A.Analysis.verdict self.now.below)) table.now marks.now place }
        ensures late { Fair table.now marks.now place → Breaks (pairs_of self.now.pairs) table.now marks.now place → answer_of result ≡ judged Late }
        ensures passed { Fair table.now marks.now place → (Breaks (pairs_of self.now.pairs) table.now marks.now place → ⊥) → answer_of result ≡ judged (A.Analysis.verdict self.now.below table.now marks.now place) }
    {
        if marks.len() != table.len() || place >= table.len() {
            return Err(QuestionFault::Shape);
        }
        if breaks(self.pairs.as_slice(), table, marks, place) {
            check_question(table, marks, place)?;
            return Ok(Verdict::Late);
        }
        self.below.ask(table, marks, place)
    }
}
