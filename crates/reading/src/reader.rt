//! A script, read line by line.
ghost use Rattle.std.specs.Prelude.{◌≡◌, ◌<◌, ◌≤◌, [], ◌∷◌, length, drop, IfSome, IfOk, MatchOption, MatchResult};
ghost use Rattle.reading.specs.Lines.{lines_of};
ghost use Rattle.reading.specs.Reading.{left, next_spot, text, spot, fields_at, Inside, Advances};
ghost use Rattle.reading.specs.Says.{outcome, reading_of, Stands};

use crate::fault::{ReadFault, TextFault};
use crate::field::{Field, find};
use crate::line::{Line, read_line};

/// The most bytes of a script.
const MOST_BYTES: usize = 65_536;

/// A script, of which the lines before `place` have been read.
// Not the rest alone: the contracts say how far a reader has come in the whole script.
#[derive(Drop)]
pub struct Reader<'a> {
    pub(crate) script: &'a [u8],
    pub(crate) place: usize,
}

impl<'a> Reader<'a> {
    /// A reader of the whole of `script`, which has at most 65,536 bytes.
    pub fn new(script: &'a [u8]) -> Result<Reader<'a>, ReadFault>
        ensures { MatchResult result (λ x. (length script.now ≤ 65536) × (x.script.now ≡ script.now) × (x.place ≡ 0) × (left x ≡ script.now)) (λ e. (e ≡ ReadFault.TooLong) × (65536 < length script.now)) }
    {
        if script.len() > MOST_BYTES {
            return Err(ReadFault::TooLong);
        }
        Ok(Reader { script, place: 0 })
    }

    /// The next line, or none where all are read.
    pub fn next_line(&mut self) -> Option<Field<'a>>
        ensures line { MatchOption result (left self.old ≡ []) (λ f. lines_of (left self.old) ≡ text f ∷ lines_of (left self.new)) }
        ensures place { IfSome result (λ f. spot f ≡ next_spot self.old) }
        ensures moved { MatchOption result (self.new ≡ self.old) (λ _. Advances self.old self.new) }
        ensures inside { Inside result }
    {
        if self.place >= self.script.len() {
            return None;
        }
        let rest = &self.script[self.place..];
        let (bytes, read) = match find(rest, b'\n') {
            Some(n) => (&rest[..n], n + 1),
            None => (rest, rest.len()),
        };
        let line = Field {
            bytes,
            place: self.place,
        };
        // No loop counts here: the place is how far the reader has come.
        self.place += read;
        Some(line)
    }

    /// Reads the next line by its kind, or none where all are read.
    pub fn read(&mut self) -> Option<Result<Line<'a>, TextFault>>
        ensures line { MatchOption result (left self.old ≡ []) (λ _. lines_of (left self.old) ≡ (next_spot self.old).text ∷ lines_of (left self.new)) }
        ensures value { IfSome result (λ q. outcome q ≡ reading_of (next_spot self.old).text) }
        ensures places { IfSome result (λ q. IfOk q (λ l. Stands (drop 1 (fields_at (next_spot self.old))) l)) }
        ensures moved { MatchOption result (self.new ≡ self.old) (λ _. Advances self.old self.new) }
    {
        self.next_line().map(read_line)
    }
}
