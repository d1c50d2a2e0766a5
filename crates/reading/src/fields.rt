//! The fields after a line's word.
ghost use Rattle.std.specs.Prelude.{◌≡◌, ◌<◌, not, is_some, map, length, position, IfOk};
ghost use Rattle.reading.specs.Numbers.{number};
ghost use Rattle.reading.specs.Reading.{text, spot, spots_in, texts_in, Inside};
ghost use Rattle.reading.specs.Says.{Read, counted, numbered, passed, FieldsAs};

use crate::fault::TextFault;
use crate::field::{Field, first_field};
use crate::numbers::number_of;

// The caller lends the places: no proof is made yet of a function that returns an array of borrowed fields in a `Result`.
/// Writes the fields that are left, where there are as many as `fields` has places.
pub(crate) fn fields_in<'a>(
    mut rest: Option<Field<'a>>,
    fields: &mut [Field<'a>],
) -> Result<(), TextFault>
    requires { Inside rest }
    ensures { FieldsAs (length fields.old) (λ _. map spot fields.new) rest.entry result }
{
    // By place: no proof is made of a `for` over places that are lent for fields.
    for i in 0..fields.len() {
        let line = rest.ok_or(TextFault::Form)?;
        (fields[i], rest) = first_field(line);
    }
    match rest {
        Some(_) => Err(TextFault::Form),
        None => Ok(()),
    }
}

/// The place of the leftmost field that is no number field.
fn first_other(fields: &[Field]) -> Option<usize>
    ensures { result ≡ position (λ f. not (is_some (number (text f)))) fields.now }
{
    fields.iter().position(|f| number_of(f.bytes).is_none())
}

/// That each field is a number field, or the leftmost that is none, counted from 1.
#[tactic(auto, using(crate::proofs::Checks::one_other, crate::proofs::Checks::no_other))]
fn check(fields: &[Field]) -> Result<(), TextFault>
    requires { length fields.now < 256 }
    ensures { (x : Read) → numbered 1 (map text fields.now) x ≡ passed result x }
{
    match first_other(fields) {
        Some(i) => Err(TextFault::Number {
            field: i as u32 + 1,
        }),
        None => Ok(()),
    }
}

/// Writes the fields that are left, where there are as many as `fields` has places and each is a number field.
pub(crate) fn numbers_in<'a>(
    rest: Option<Field<'a>>,
    fields: &mut [Field<'a>],
) -> Result<(), TextFault>
    requires inside { Inside rest }
    requires few { length fields.old < 256 }
    ensures told { (x : Read) → counted (length fields.old) (texts_in rest.entry) (numbered 1 (texts_in rest.entry) x) ≡ passed result x }
    ensures spots { IfOk result (λ _. spots_in rest.entry ≡ map spot fields.new) }
{
    fields_in(rest, fields)?;
    check(fields)
}
