//! What the engine says of a line that it doesn't do.

use rep_values::Refusal;

/// What the engine says of a line that it doesn't do.
#[derive(Clone, Copy, Debug)]
pub enum Verdict {
    /// It breaks this rule of lines, and a run would end at it.
    Malformed(u8),
    /// It is refused.
    Refused(Refusal),
}

/// What the engine says, and of which line: the one that is read, or, where a block is closed, the statement or the call of it that is
/// refused.
#[derive(Clone, Copy, Debug)]
pub struct Answer {
    /// From 1.
    pub line: u32,
    pub verdict: Verdict,
}
