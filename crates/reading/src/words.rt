//! The words of a script.
ghost use Rattle.std.specs.Prelude.{◌≡◌};
ghost use Rattle.reading.specs.Says.{word_of, choice_of, rule_of};

use analysis::Choice;
use mapping::Rule;

/// The first field of a line.
#[derive(Clone, Copy, PartialEq, Eq, Debug)]
pub(crate) enum Word {
    Row,
    Strike,
    Pair,
    Charge,
    Margin,
    Map,
}

/// The kind of line that a word begins.
pub(crate) fn word_of(bytes: &[u8]) -> Option<Word>
    ensures { result ≡ word_of bytes.now }
{
    match bytes {
        b"row" => Some(Word::Row),
        b"strike" => Some(Word::Strike),
        b"pair" => Some(Word::Pair),
        b"charge" => Some(Word::Charge),
        b"margin" => Some(Word::Margin),
        b"map" => Some(Word::Map),
        _ => None,
    }
}

/// The analysis that a word names.
pub fn choice_of(bytes: &[u8]) -> Option<Choice>
    ensures { result ≡ choice_of bytes.now }
{
    match bytes {
        b"exact" => Some(Choice::Exact),
        b"linear" => Some(Choice::Linear),
        b"sections" => Some(Choice::Sections),
        _ => None,
    }
}

/// The grouping rule that a word names.
pub fn rule_of(bytes: &[u8]) -> Option<Rule>
    ensures { result ≡ rule_of bytes.now }
{
    match bytes {
        b"equal" => Some(Rule::Equal),
        b"divided" => Some(Rule::Divided),
        _ => None,
    }
}
