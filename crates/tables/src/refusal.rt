//! The code and field of each refusal.
use analysis::QuestionFault;
use mapping::{MapFault, SheetFault};
use std::fmt;
use tasks::TaskFault;

/// A refusal as it is written.
#[derive(Clone, Copy)]
pub(crate) struct Refusal {
    field: u32,
    code: u32,
}

// Four alike, since each fault is a type of its own and an `impl` that a macro writes is refused.
impl From<SheetFault> for Refusal {
    fn from(fault: SheetFault) -> Refusal {
        Refusal {
            field: fault.field(),
            code: fault.code(),
        }
    }
}

impl From<QuestionFault> for Refusal {
    fn from(fault: QuestionFault) -> Refusal {
        Refusal {
            field: fault.field(),
            code: fault.code(),
        }
    }
}

impl From<MapFault> for Refusal {
    fn from(fault: MapFault) -> Refusal {
        Refusal {
            field: 0,
            code: fault.code(),
        }
    }
}

impl From<TaskFault> for Refusal {
    fn from(fault: TaskFault) -> Refusal {
        Refusal {
            field: 0,
            code: fault.code(),
        }
    }
}

impl fmt::Display for Refusal {
    fn fmt<W: fmt::Write>(&self, f: &mut fmt::Formatter<W>) -> fmt::Result {
        write!(f, "refused,{},{}", self.field, self.code)
    }
}
