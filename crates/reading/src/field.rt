//! Parts of a script, with their places.
ghost use Rattle.std.specs.Prelude.{◌≡◌, ◌^◌, ◌<◌, ◌∷◌, ◌==◌, position};
ghost use Rattle.reading.specs.Numbers.{value};
ghost use Rattle.reading.specs.Reading.{text, spot, spots_in, Inside};

use crate::numbers::number_of;

/// Some bytes of a script, and the place in it where they begin.
#[derive(Clone, Copy, PartialEq, Eq, Debug, Default)]
pub struct Field<'a> {
    pub bytes: &'a [u8],
    pub place: usize,
}

impl<'a> Field<'a> {
    /// The value of a number field; 0 where it is none.
    #[tactic(auto, using(crate::proofs::Texts::value_below))]
    pub fn value(self) -> u32
        ensures value { result ≡ value (text self.entry) }
        ensures below { result < 10 ^ 7 }
    {
        // No Option: what this call promises names 0.
        number_of(self.bytes).unwrap_or(0)
    }
}

/// The place of the first `b`.
pub(crate) fn find(bytes: &[u8], b: u8) -> Option<usize>
    ensures { result ≡ position (λ x. x == b) bytes.now }
{
    bytes.iter().position(|x| *x == b)
}

// `Inside` is asked for here and no invariant of `Field`: its fields are open, and callers make such values.
/// The first field of a line, and what stands after its comma.
#[tactic(auto, using(crate::proofs::Cuts::field_found, crate::proofs::Cuts::field_missing))]
pub(crate) fn first_field<'a>(line: Field<'a>) -> (Field<'a>, Option<Field<'a>>)
    requires { Inside (Some line) }
    ensures inside { Inside result.1 }
    ensures cut { spot result.0 ∷ spots_in result.1 ≡ spots_in (Some line.entry) }
{
    let Some(n) = find(line.bytes, b',') else {
        return (line, None);
    };
    let first = Field {
        bytes: &line.bytes[..n],
        place: line.place,
    };
    let rest = Field {
        bytes: &line.bytes[n + 1..],
        place: line.place + n + 1,
    };
    (first, Some(rest))
}
