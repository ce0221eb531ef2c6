//! Why the program can't go on.

use std::alloc::{AllocError, AllocFailed};

/// Why nothing more is shown.
#[derive(Debug, Drop)]
pub enum Stop {
    /// Memory is wanting, or output fails.
    Memory,
    /// Something came that wasn't to come.
    Unexpected,
}

impl Stop {
    /// The number with which the program ends.
    pub fn number(&self) -> u8 {
        match self {
            Stop::Memory => 1,
            Stop::Unexpected => 2,
        }
    }
}

impl From<AllocError> for Stop {
    fn from(_: AllocError) -> Stop {
        Stop::Memory
    }
}

impl<T: Drop> From<AllocFailed<T>> for Stop {
    fn from(_: AllocFailed<T>) -> Stop {
        Stop::Memory
    }
}
