//! Why a case can't be read.

use rep_lists::NoMemory;
use script_lex::LineStop;
use std::alloc::{AllocError, AllocFailed};

/// A line that has no form of a case, or want of memory.
#[derive(Clone, Copy, Debug, PartialEq, Eq)]
pub enum CaseStop {
    NoCase,
    Memory,
}

impl From<NoMemory> for CaseStop {
    fn from(_stop: NoMemory) -> CaseStop {
        CaseStop::Memory
    }
}

impl From<AllocError> for CaseStop {
    fn from(_stop: AllocError) -> CaseStop {
        CaseStop::Memory
    }
}

impl<T: Drop> From<AllocFailed<T>> for CaseStop {
    fn from(_: AllocFailed<T>) -> CaseStop {
        CaseStop::Memory
    }
}

impl From<LineStop> for CaseStop {
    fn from(stop: LineStop) -> CaseStop {
        match stop {
            LineStop::Rule(_) => CaseStop::NoCase,
            LineStop::Memory => CaseStop::Memory,
        }
    }
}
