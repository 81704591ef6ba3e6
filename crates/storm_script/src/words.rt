//! The names, the values and the lists that commands are made of.
ghost use Rattle.std.specs.Prelude.{◌≡◌, true, pos, codes, IfOk};
ghost use Rattle.rep_values.specs.Name.{is_name};
ghost use Rattle.rep_values.specs.Text.{is_text};
ghost use Rattle.script_parse.specs.Parts.{site_of};
ghost use Rattle.storm_script.specs.Opening.{stock};

use rep_lists::{Items, NoMemory};
use rep_values::{Literal, Name, SiteName, TableName, Text};
use std::alloc::Global;

/// The name of these bytes.
pub fn name(bytes: &[u8]) -> Name
    requires { is_name bytes.now ≡ true }
    ensures { result ≡ bytes.now }
{
    match Name::of(bytes) {
        Some(name) => name,
        None => unreachable!(),
    }
}

/// The site of this name.
pub fn site(bytes: &[u8]) -> SiteName
    requires { is_name bytes.now ≡ true }
    ensures { result ≡ site_of bytes.now }
{
    SiteName(name(bytes))
}

/// The storm's table.
pub fn stock() -> TableName
    ensures { result ≡ stock }
{
    TableName(name(b"STOCK"))
}

/// The text of these bytes.
pub fn words(bytes: &[u8]) -> Literal
    requires { is_text bytes.now ≡ true }
    ensures { result ≡ Literal.Words bytes.now }
{
    match Text::of(bytes) {
        Some(text) => Literal::Words(text),
        None => unreachable!(),
    }
}

/// A list of these values.
pub fn list_of<T: Copy>(alloc: Global, values: &[T]) -> Result<Items<T>, NoMemory>
    ensures { IfOk result (λ items. items ≡ values.now) }
{
    Ok(Items::from_vec(Vec::from_slice(alloc, values)?))
}
