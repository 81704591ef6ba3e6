//! What comes of a line.

use line_advice::Mistake;
use report_text::Lines;
use script_parse::Command;
use world_state::Refused;

/// What comes of a line.
#[derive(Drop)]
pub enum Came {
    /// The command was done, and prints this.
    Done(Command, Lines),
    /// The line is malformed.
    Malformed(Mistake),
    /// The command was refused.
    Refused(Command, Refused),
}
