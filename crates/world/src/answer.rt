//! What a command answers that is run.
ghost use Rattle.std.specs.Prelude.{◌≡◌, []};
ghost use Rattle.world.specs.Doing.{refused_at};

use rep_values::Refusal;
use report_text::{Lines, PushCount};
use std::alloc::Global;
use world_state::Refused;

/// What came of a line that was done, as data.
#[derive(Clone, Copy, Debug, PartialEq, Eq)]
pub enum Outcome {
    /// The open block was committed under a number.
    Committed { number: u64 },
    /// The open block was committed, and changes no row.
    NothingCommitted,
    /// A site pushed to another one, with these counts.
    Pushed { count: PushCount },
    /// Any other line was done.
    Done,
}

/// A line that was done: what it prints, and what came of it.
#[derive(Drop)]
pub struct Answer {
    pub lines: Lines,
    pub outcome: Outcome,
}

impl Answer {
    /// A line was done that prints nothing.
    pub fn nothing(alloc: Global) -> Answer
        ensures bytes { result.lines.bytes ≡ [] }
        ensures outcome { result.outcome ≡ Outcome.Done }
    {
        Answer {
            lines: Lines::make(alloc),
            outcome: Outcome::Done,
        }
    }
}

/// Why a line isn't done.
#[derive(Clone, Copy)]
pub enum CommandStop {
    /// There is no memory for it.
    Memory,
    /// It is refused.
    Refused(Refusal),
    /// A line of its block is refused.
    RefusedAt(Refused),
}

impl CommandStop {
    /// What is told of it, where the line has a number.
    pub fn told_at(self, line: u32) -> Refused
        ensures { result ≡ refused_at line self }
    {
        match self {
            CommandStop::Memory => Refused {
                line,
                refusal: Refusal::Memory,
            },
            CommandStop::Refused(refusal) => Refused { line, refusal },
            CommandStop::RefusedAt(refused) => refused,
        }
    }
}
