//! Why a line gives no command.
ghost use Rattle.std.specs.Prelude.{◌≡◌};
ghost use Rattle.line_advice.specs.declared.mistake.LineError.TheVariants.{Memory};

use crate::Hint;
use rep_lists::NoMemory;
use thiserror::Error;

/// The rule that a line breaks first, where, and what was expected there.
#[derive(Clone, Copy, Debug, Error)]
#[error("column {column}: {hint}")]
pub struct Mistake {
    /// 1, 3, 4, 5 or 6.
    pub rule: u8,
    /// From 1. Where the line ends too early, it is the one behind its last byte.
    pub column: usize,
    pub hint: Hint,
}

/// Why a line gives no command: it has a mistake, or there is no memory.
#[derive(Clone, Copy, Debug, Error)]
pub enum LineError {
    #[error("{0}")]
    Mistake(Mistake),
    #[error("there is no memory")]
    Memory,
}

impl From<NoMemory> for LineError {
    ghost from_gives = { λ _ error. error ≡ Memory };

    fn from(_: NoMemory) -> LineError {
        LineError::Memory
    }
}
