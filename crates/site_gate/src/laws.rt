//! Laws of what passes have seen.
ghost use Rattle.site_gate.specs.Laws.{OwnTurnsStand, JoinsKeepOwnTurns};

/// The own turns of a pass stand in the history that it has seen at their places, each once and in their order, and no
/// join loses one or has one twice.
pub fn own_turns_laws<U>()
    ensures stand { OwnTurnsStand U }
    ensures join { JoinsKeepOwnTurns U }
{}
