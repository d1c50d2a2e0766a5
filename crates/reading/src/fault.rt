//! Why a script, or a line of it, is not read.
ghost use Rattle.std.specs.Prelude.{◌≡◌};
ghost use Rattle.reading.specs.Says.{read_code, text_code, text_field};

/// Why a script is not read.
#[derive(Clone, Copy, PartialEq, Eq, Debug)]
pub enum ReadFault {
    /// It has more than 65,536 bytes.
    TooLong,
}

impl ReadFault {
    /// The code of the refusal, which names no field.
    pub fn code(self) -> u32
        ensures { result ≡ read_code self }
    {
        match self {
            ReadFault::TooLong => 13,
        }
    }
}

/// Why a line is not read.
#[derive(Clone, Copy, PartialEq, Eq, Debug)]
pub enum TextFault {
    /// An unknown word, or a wrong count of fields.
    Form,
    /// This field, counted from 1 after the word, is the leftmost that is no number field.
    Number { field: u32 },
}

impl TextFault {
    /// The code of the refusal.
    pub fn code(self) -> u32
        ensures { result ≡ text_code self }
    {
        match self {
            TextFault::Form => 1,
            TextFault::Number { .. } => 2,
        }
    }

    // No Option: 0 is the number that the rules give to "no field".
    /// The field that the refusal names, counted from 1; 0 where it names none.
    pub fn field(self) -> u32
        ensures { result ≡ text_field self }
    {
        match self {
            TextFault::Form => 0,
            TextFault::Number { field } => field,
        }
    }
}
