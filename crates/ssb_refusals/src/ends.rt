// How a trial ends.

use ssb_answer::{AnswerFault, RunFault};
use ssb_load::{FileFault, LoadFault};
use std::alloc::AllocError;

/// How a trial ended that came to its end.
#[derive(Clone, Copy)]
pub(crate) enum Done {
    /// The rows of the answer were written.
    Written,
    /// What was tried met no refusal.
    AtOnce,
    /// What was tried was refused, left all as it was, and was done at the second try.
    Again,
}

impl Done {
    /// How two trials ended, of which one followed the other.
    pub(crate) fn and(self, other: Done) -> Done {
        match self {
            Done::Again => Done::Again,
            Done::Written | Done::AtOnce => other,
        }
    }
}

/// Why a trial came to no end.
#[derive(Clone, Copy)]
pub(crate) enum Stop {
    /// A growth was refused.
    Memory,
    /// Something came that may not come.
    Wrong,
}

impl From<AllocError> for Stop {
    fn from(_refused: AllocError) -> Stop {
        Stop::Memory
    }
}

impl From<LoadFault> for Stop {
    fn from(fault: LoadFault) -> Stop {
        match fault {
            LoadFault::Memory => Stop::Memory,
            _ => Stop::Wrong,
        }
    }
}

impl From<FileFault> for Stop {
    fn from(fault: FileFault) -> Stop {
        Stop::from(fault.fault)
    }
}

impl From<RunFault> for Stop {
    fn from(fault: RunFault) -> Stop {
        match fault {
            RunFault::Memory => Stop::Memory,
            _ => Stop::Wrong,
        }
    }
}

impl From<AnswerFault> for Stop {
    fn from(fault: AnswerFault) -> Stop {
        Stop::from(RunFault::from(fault))
    }
}
