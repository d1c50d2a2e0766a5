//! Number fields.
ghost use Rattle.std.specs.Prelude.{◌≡◌};
ghost use Rattle.reading.specs.Numbers.{number, sized};

/// Whether there are 1 to 7 bytes, with no zero in front unless it is alone.
fn is_sized(field: &[u8]) -> bool
    ensures { result ≡ sized field.now }
{
    (1..=7).contains(&field.len()) && (field.len() == 1 || field[0] != b'0')
}

/// The value of a number field: 1 to 7 digits, with no zero in front unless it is 0 alone.
#[tactic(auto, using(crate::proofs::Texts::ten_fits))]
pub(crate) fn number_of(field: &[u8]) -> Option<u32>
    ensures { result ≡ number field.now }
{
    if !is_sized(field) {
        return None;
    }
    let mut value = 0;
    for b in field {
        value = value * 10 + char::from(*b).to_digit(10)?;
    }
    Some(value)
}
