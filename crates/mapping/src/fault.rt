//! Why a call is refused.
ghost use Rattle.std.specs.Prelude.{◌≡◌};
ghost use Rattle.mapping.specs.Faults.{map_code, sheet_code, sheet_field};

/// Why a sheet refuses an entry or a strike.
#[derive(Clone, Copy, PartialEq, Eq, Debug)]
pub enum SheetFault {
    /// This field, counted from 1, is outside its range.
    Range { field: u32 },
    /// A row of this number stands already.
    Standing,
    /// 128 rows stand.
    Full,
    /// No row of this number stands.
    Missing,
}

impl SheetFault {
    /// The code of the refusal.
    pub fn code(self) -> u32
        ensures { result ≡ sheet_code self }
    {
        match self {
            SheetFault::Range { .. } => 3,
            SheetFault::Standing => 4,
            SheetFault::Full => 5,
            SheetFault::Missing => 6,
        }
    }

    // No Option: 0 is the number that the rules give to "no field".
    /// The field that the refusal names, counted from 1; 0 where it names none.
    pub fn field(self) -> u32
        ensures { result ≡ sheet_field self }
    {
        match self {
            SheetFault::Range { field } => field,
            SheetFault::Standing | SheetFault::Missing => 1,
            SheetFault::Full => 0,
        }
    }
}

/// Why a mapping issues no plan.
#[derive(Clone, Copy, PartialEq, Eq, Debug)]
pub enum MapFault {
    /// There are fewer lines of room than rows.
    Room,
    /// No order of the rows has every row on time.
    Unschedulable,
}

impl MapFault {
    /// The code of the refusal, which names no field.
    pub fn code(self) -> u32
        ensures { result ≡ map_code self }
    {
        match self {
            MapFault::Room => 11,
            MapFault::Unschedulable => 12,
        }
    }
}
