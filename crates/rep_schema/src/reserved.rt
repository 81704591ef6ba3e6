//! The names that a schema's own declarations may not take.
ghost use Rattle.std.specs.Prelude.{◌≡◌};
ghost use Rattle.rep_values.specs.Name.{same_bytes};
ghost use Rattle.rep_schema.specs.Shape.{shadow_name, key_name};

use rep_values::Name;

/// Whether a name is that of the columns in no named group.
pub fn is_shadow_name(name: &Name) -> bool
    ensures { result ≡ same_bytes name.now shadow_name }
{
    name.bytes() == b"shadow".as_slice()
}

/// Whether a name is that of the primary key's constraint.
pub fn is_key_name(name: &Name) -> bool
    ensures { result ≡ same_bytes name.now key_name }
{
    name.bytes() == b"key".as_slice()
}

/// The name of the columns in no named group.
pub fn shadow_name() -> Name
    ensures { result ≡ shadow_name }
{
    match Name::of(b"shadow") {
        Some(name) => name,
        None => unreachable!(),
    }
}

/// The name of the primary key's constraint.
pub fn key_name() -> Name
    ensures { result ≡ key_name }
{
    match Name::of(b"key") {
        Some(name) => name,
        None => unreachable!(),
    }
}
