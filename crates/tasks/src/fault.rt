//! Why a question about a task is refused.
ghost use Rattle.std.specs.Prelude.{◌≡◌};
ghost use Rattle.tasks.specs.Answers.{task_code};
ghost use Rattle.tasks.specs.declared.fault.TaskFault.{TaskFault as Fault};

/// Why a question about a task has no answer.
#[derive(Clone, Copy, PartialEq, Eq, Debug)]
pub enum TaskFault {
    /// More than 128 lines are given.
    Lines,
    /// The activation is over 1,000,000.
    Activation,
    /// A line of the task names a row that does not stand.
    Missing,
    /// No line has the task.
    Absent,
}

impl TaskFault {
    // A number, since a refusal is told by its code.
    /// The code of the refusal; no two faults have the same.
    pub fn code(self) -> u32
        ensures value { result ≡ task_code self }
        ensures tells { (other : Fault) → task_code other ≡ result → other ≡ self }
    {
        match self {
            TaskFault::Lines => 7,
            TaskFault::Activation => 3,
            TaskFault::Missing => 6,
            TaskFault::Absent => 15,
        }
    }
}
