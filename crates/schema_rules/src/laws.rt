//! Laws of the rules.
ghost use Rattle.schema_rules.specs.Soundness.{SoundUnbroken};

/// A schema is sound exactly where it breaks no rule.
pub fn soundness_law()
    ensures { SoundUnbroken }
{}
