//! How a crew is held.
ghost use Rattle.std.specs.Prelude.{◌≤◌};

/// The appliers of a crew, 1 to 8, none of which is held for more than so many turns.
#[derive(Clone, Copy)]
pub struct Held {
    pub appliers: u32,
    pub turns: u64,
    ghost within: { (1 ≤ appliers) × (appliers ≤ 8) },
}

impl Held {
    /// `APPLIERS TURNS`
    pub fn read(words: &str) -> Option<Held> {
        let (appliers, turns) = words.split_once(' ')?;
        let appliers = appliers.parse::<u32>().ok()?;
        let turns = turns.parse::<u64>().ok()?;
        if appliers < 1 || appliers > 8 {
            return None;
        }
        Some(Held { appliers, turns })
    }
}
