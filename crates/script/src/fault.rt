//! Why a line or a whole script is refused, and why a session does not begin.
ghost use Rattle.std.specs.Prelude.{◌≡◌, Some, codes};
ghost use Rattle.script.specs.Refusals.{begin_text, fault_text, refusal_of};
ghost use Rattle.script.specs.declared.fault.BeginFault.TheVariants as begin;
ghost use Rattle.script.specs.declared.fault.Fault.TheVariants as fault;

use layers::LayerFault;
use mapping::{MapFault, SheetFault};
use reading::{ReadFault, TextFault};
use std::alloc::AllocError;
use std::error::Error;
use std::fmt;

/// Why a session takes no line.
#[derive(Clone, Copy, PartialEq, Eq, Debug)]
pub enum SessionFault {
    /// The room for the answer has fewer than 4,096 bytes.
    Room,
}

/// Why a line, or a whole script, is refused: the part that refused it, with that part's own reason.
#[derive(Clone, Copy, PartialEq, Eq, Debug)]
pub enum Fault {
    Reader(ReadFault),
    Text(TextFault),
    Sheet(SheetFault),
    Layer(LayerFault),
    Mapping(MapFault),
    Session(SessionFault),
}

impl Fault {
    // Numbers, since a refusal is told by a code and a field, and 0 is "no field".
    /// The code of the refusal.
    pub fn code(self) -> u32
        ensures { result ≡ (refusal_of self).code }
    {
        match self {
            Fault::Reader(e) => e.code(),
            Fault::Text(e) => e.code(),
            Fault::Sheet(e) => e.code(),
            Fault::Layer(e) => e.code(),
            Fault::Mapping(e) => e.code(),
            Fault::Session(SessionFault::Room) => 14,
        }
    }

    /// The field that the refusal names, counted from 1; 0 where it names none.
    pub fn field(self) -> u32
        ensures { result ≡ (refusal_of self).field }
    {
        match self {
            Fault::Text(e) => e.field(),
            Fault::Sheet(e) => e.field(),
            Fault::Layer(e) => e.field(),
            Fault::Reader(_) | Fault::Mapping(_) | Fault::Session(_) => 0,
        }
    }
}

impl fmt::Display for Fault {
    ghost output = { λ e. Some (fault_text e) };

    fn fmt<W: fmt::Write>(&self, f: &mut fmt::Formatter<W>) -> fmt::Result {
        let code = self.code();
        let field = self.field();
        write!(f, "refused with code {code}, field {field}")
    }
}

impl Error for Fault {}

impl fmt::Display for SessionFault {
    ghost output = { λ _. Some (codes "the room for an answer has fewer than 4,096 bytes") };

    fn fmt<W: fmt::Write>(&self, f: &mut fmt::Formatter<W>) -> fmt::Result {
        match self {
            SessionFault::Room => write!(f, "the room for an answer has fewer than 4,096 bytes"),
        }
    }
}

impl Error for SessionFault {}

// Each `From` is written by hand, since contracts name the error that `?` makes, and so is each `Display` above,
// since its contract names the text: what a derive writes says nothing of either.
impl From<ReadFault> for Fault {
    ghost from_gives = { λ e r. r ≡ fault.Reader e };

    fn from(e: ReadFault) -> Fault {
        Fault::Reader(e)
    }
}

impl From<TextFault> for Fault {
    ghost from_gives = { λ e r. r ≡ fault.Text e };

    fn from(e: TextFault) -> Fault {
        Fault::Text(e)
    }
}

impl From<SheetFault> for Fault {
    ghost from_gives = { λ e r. r ≡ fault.Sheet e };

    fn from(e: SheetFault) -> Fault {
        Fault::Sheet(e)
    }
}

impl From<LayerFault> for Fault {
    ghost from_gives = { λ e r. r ≡ fault.Layer e };

    fn from(e: LayerFault) -> Fault {
        Fault::Layer(e)
    }
}

impl From<MapFault> for Fault {
    ghost from_gives = { λ e r. r ≡ fault.Mapping e };

    fn from(e: MapFault) -> Fault {
        Fault::Mapping(e)
    }
}

impl From<SessionFault> for Fault {
    ghost from_gives = { λ e r. r ≡ fault.Session e };

    fn from(e: SessionFault) -> Fault {
        Fault::Session(e)
    }
}

/// Why a session does not begin.
#[derive(Clone, Copy, PartialEq, Eq, Debug)]
pub enum BeginFault {
    /// The script is refused.
    Refused(Fault),
    /// There is no memory for the sheet or the pairs.
    Memory,
}

impl fmt::Display for BeginFault {
    ghost output = { λ e. Some (begin_text e) };

    fn fmt<W: fmt::Write>(&self, f: &mut fmt::Formatter<W>) -> fmt::Result {
        match self {
            BeginFault::Refused(fault) => write!(f, "{fault}"),
            BeginFault::Memory => write!(f, "there is no memory for a session"),
        }
    }
}

impl Error for BeginFault {}

impl From<ReadFault> for BeginFault {
    ghost from_gives = { λ e r. r ≡ begin.Refused (fault.Reader e) };

    fn from(e: ReadFault) -> BeginFault {
        BeginFault::Refused(Fault::Reader(e))
    }
}

impl From<AllocError> for BeginFault {
    ghost from_gives = { λ _ r. r ≡ begin.Memory };

    fn from(_e: AllocError) -> BeginFault {
        BeginFault::Memory
    }
}
