//! Why a line gives no command.
ghost use Rattle.std.specs.Prelude.{◌≡◌};
ghost use Rattle.script_lex.specs.declared.stop.LineStop.TheVariants.{Rule, Memory};

use rep_lists::NoMemory;
use std::alloc::{AllocError, AllocFailed};

/// The rule of lines that a line breaks first, 1 to 6.
#[derive(Clone, Copy, Debug, PartialEq, Eq)]
pub struct BrokenRule(pub u8);

/// The rule of lines that a line breaks first, 1 to 6, or want of memory.
#[derive(Clone, Copy, Debug, PartialEq, Eq)]
pub enum LineStop {
    Rule(u8),
    Memory,
}

impl From<BrokenRule> for LineStop {
    ghost from_gives = { λ broken stop. stop ≡ Rule broken.0 };

    fn from(broken: BrokenRule) -> LineStop {
        LineStop::Rule(broken.0)
    }
}

impl From<AllocError> for LineStop {
    ghost from_gives = { λ _ stop. stop ≡ Memory };

    fn from(_: AllocError) -> LineStop {
        LineStop::Memory
    }
}

impl<T: Drop> From<AllocFailed<T>> for LineStop {
    ghost from_gives = { λ _ stop. stop ≡ Memory };

    fn from(_: AllocFailed<T>) -> LineStop {
        LineStop::Memory
    }
}

impl From<NoMemory> for LineStop {
    ghost from_gives = { λ _ stop. stop ≡ Memory };

    fn from(_: NoMemory) -> LineStop {
        LineStop::Memory
    }
}
