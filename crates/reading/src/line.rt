//! The lines of a script, by kind.
ghost use Rattle.std.specs.Prelude.{◌≡◌, [], ◌∷◌, drop, IfOk};
ghost use Rattle.reading.specs.Reading.{text, spots_in, Inside};
ghost use Rattle.reading.specs.Says.{reading_of, outcome, LineAs, LineOf, Stands};

use crate::fault::TextFault;
use crate::field::{Field, first_field};
use crate::fields::{fields_in, numbers_in};
use crate::words::{Word, choice_of, rule_of, word_of};
use analysis::Choice;
use mapping::Rule;

/// A line that is well formed, with its fields after the word as they stand in the script.
#[derive(Clone, Copy, PartialEq, Eq, Debug)]
pub enum Line<'a> {
    /// Enters a row.
    Row {
        number: Field<'a>,
        cost: Field<'a>,
        period: Field<'a>,
        deadline: Field<'a>,
        section: Field<'a>,
    },
    /// Takes out the row of this number.
    Strike {
        number: Field<'a>,
    },
    /// Adds a pair of row numbers.
    Pair {
        u: Field<'a>,
        l: Field<'a>,
    },
    /// Sets the charge.
    Charge {
        s: Field<'a>,
    },
    /// Sets the margin.
    Margin {
        p: Field<'a>,
    },
    /// Asks for a plan: two words, and what each names.
    Map {
        analysis: Field<'a>,
        choice: Choice,
        grouping: Field<'a>,
        rule: Rule,
    },
}

/// The line `row` of what is left after its word.
fn row_of<'a>(rest: Option<Field<'a>>) -> Result<Line<'a>, TextFault>
    requires { Inside rest }
    ensures { LineAs Word.Row rest.entry result }
{
    // An array, here and below: the word says how many fields there are.
    let mut fields = [Field::default(); 5];
    numbers_in(rest, &mut fields)?;
    let [number, cost, period, deadline, section] = fields;
    Ok(Line::Row {
        number,
        cost,
        period,
        deadline,
        section,
    })
}

/// The line `map` of the two fields after its word.
fn map_of<'a>(analysis: Field<'a>, grouping: Field<'a>) -> Result<Line<'a>, TextFault>
    ensures { LineOf Word.Map (analysis.entry ∷ grouping.entry ∷ []) result }
{
    let choice = choice_of(analysis.bytes).ok_or(TextFault::Form)?;
    let rule = rule_of(grouping.bytes).ok_or(TextFault::Form)?;
    Ok(Line::Map {
        analysis,
        choice,
        grouping,
        rule,
    })
}

/// The line that a word and what is left after it make.
fn line_of<'a>(word: Word, rest: Option<Field<'a>>) -> Result<Line<'a>, TextFault>
    requires { Inside rest }
    ensures { LineAs word rest.entry result }
{
    match word {
        Word::Row => row_of(rest),
        Word::Strike => {
            let mut fields = [Field::default()];
            numbers_in(rest, &mut fields)?;
            let [number] = fields;
            Ok(Line::Strike { number })
        }
        Word::Pair => {
            let mut fields = [Field::default(); 2];
            numbers_in(rest, &mut fields)?;
            let [u, l] = fields;
            Ok(Line::Pair { u, l })
        }
        Word::Charge => {
            let mut fields = [Field::default()];
            numbers_in(rest, &mut fields)?;
            let [s] = fields;
            Ok(Line::Charge { s })
        }
        Word::Margin => {
            let mut fields = [Field::default()];
            numbers_in(rest, &mut fields)?;
            let [p] = fields;
            Ok(Line::Margin { p })
        }
        Word::Map => {
            let mut fields = [Field::default(); 2];
            fields_in(rest, &mut fields)?;
            let [analysis, grouping] = fields;
            map_of(analysis, grouping)
        }
    }
}

/// A line by its kind, or why it is refused.
#[tactic(auto, using(crate::proofs::Checks::line_of))]
pub(crate) fn read_line<'a>(line: Field<'a>) -> Result<Line<'a>, TextFault>
    requires { Inside (Some line) }
    ensures value { outcome result ≡ reading_of (text line.entry) }
    ensures places { IfOk result (λ l. Stands (drop 1 (spots_in (Some line.entry))) l) }
{
    let (word, rest) = first_field(line);
    let word = word_of(word.bytes).ok_or(TextFault::Form)?;
    line_of(word, rest)
}
