//! What a value under the gate tells of itself.
ghost use Rattle.std.specs.Prelude.{List};

/// A value that tells what was done to it, turn by turn, and how it was at first.
pub trait Turns: Send + Drop {
    /// What was done in one turn.
    type Turn;

    /// How the value was before its first turn, which no turn changes.
    type Opening;

    ghost history: { Self → List Self.Turn };

    ghost opening: { Self → Self.Opening };
}
