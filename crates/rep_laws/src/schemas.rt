//! What a schema that breaks no rule has. The function is empty: its contract is the law.
ghost use Rattle.rep_laws.specs.SoundSchemas.{SoundSchemasHaveKeys};

/// A schema that breaks no rule has what applying a transaction asks of it.
pub fn sound_schemas_have_keys()
    ensures { SoundSchemasHaveKeys }
{}
