//! Why a layer refuses.
ghost use Rattle.std.specs.Prelude.{◌≡◌};
ghost use Rattle.layers.specs.Outcomes.{layer_code, layer_field};

/// Why a setting or a pair is refused.
#[derive(Clone, Copy, PartialEq, Eq, Debug)]
pub enum LayerFault {
    /// The value in this field is outside its range.
    Range { field: u32 },
    /// Both numbers of the pair are the same.
    Equal,
    /// The pair is held already.
    Held,
    /// 32 pairs are held.
    Full,
}

impl LayerFault {
    /// The code of the refusal.
    pub fn code(self) -> u32
        ensures { result ≡ layer_code self }
    {
        match self {
            LayerFault::Range { .. } => 3,
            LayerFault::Equal => 8,
            LayerFault::Held => 9,
            LayerFault::Full => 10,
        }
    }

    // No Option: 0 is the number that the rules give to "no field".
    /// The field that the refusal names, counted from 1; 0 where it names none.
    pub fn field(self) -> u32
        ensures { result ≡ layer_field self }
    {
        match self {
            LayerFault::Range { field } => field,
            LayerFault::Equal | LayerFault::Held | LayerFault::Full => 0,
        }
    }
}
