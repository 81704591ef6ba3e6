//! What a script is told of a command that is refused.

use rep_values::Refusal;

/// Why a command is refused, and the line that is told: its own, and the refused statement's where it is a commit.
#[derive(Clone, Copy)]
pub struct Refused {
    pub line: u32,
    pub refusal: Refusal,
}
