//! How heavy a finding is.

use std::fmt;

/// How heavy a finding is.
#[derive(Clone, Copy, Debug)]
pub enum Level {
    /// The engine refuses the line, or ends a run at it.
    Error,
    /// A table or a group breaks a rule of schemas, for which a line is refused.
    Rule,
    /// The engine takes it, and something else may be meant.
    Advice,
}

/// The word of the level.
impl fmt::Display for Level {
    fn fmt<W: fmt::Write>(&self, f: &mut fmt::Formatter<W>) -> fmt::Result {
        f.write_str(match self {
            Level::Error => "error",
            Level::Rule => "rule",
            Level::Advice => "advice",
        })
    }
}
