//! What stands behind the first words of commands for rows, blocks and links, and nothing behind it.

use crate::parts::{end, fates, fates_or_clear, name, one_of, settings, values, whole_number};
use command_forms::{NameOf, Wanted};
use script_words::Reader;

const SHOWN: &[&str] = &[
    "tables", "queue", "errors", "marks", "journal", "log", "calls",
];

/// One name.
pub fn one_name(tokens: &mut Reader<'_>, of: NameOf) -> Result<(), Wanted> {
    name(tokens, of)?;
    end(tokens, &[])
}

/// `S S`
pub fn two_sites(tokens: &mut Reader<'_>) -> Result<(), Wanted> {
    name(tokens, NameOf::Site)?;
    one_name(tokens, NameOf::Site)
}

/// `T VALUE+`
pub fn row(tokens: &mut Reader<'_>) -> Result<(), Wanted> {
    name(tokens, NameOf::Table)?;
    values(tokens)?;
    end(tokens, &[])
}

/// `T VALUE+ : SET [, SET]..`
pub fn update(tokens: &mut Reader<'_>) -> Result<(), Wanted> {
    name(tokens, NameOf::Table)?;
    values(tokens)?;
    one_of(tokens, &[":"])?;
    settings(tokens)
}

/// `S S [count WHOLE]`
pub fn push(tokens: &mut Reader<'_>) -> Result<(), Wanted> {
    name(tokens, NameOf::Site)?;
    name(tokens, NameOf::Site)?;
    if !tokens.passes(b"count") {
        return end(tokens, &["count"]);
    }
    whole_number(tokens)?;
    end(tokens, &[])
}

/// `S S FATE+` or `S S clear`
pub fn fate(tokens: &mut Reader<'_>) -> Result<(), Wanted> {
    name(tokens, NameOf::Site)?;
    name(tokens, NameOf::Site)?;
    fates_or_clear(tokens)
}

/// `S S FATE+`
pub fn fate_calls(tokens: &mut Reader<'_>) -> Result<(), Wanted> {
    name(tokens, NameOf::Site)?;
    name(tokens, NameOf::Site)?;
    fates(tokens)
}

/// `S S up|down`
pub fn link(tokens: &mut Reader<'_>) -> Result<(), Wanted> {
    name(tokens, NameOf::Site)?;
    name(tokens, NameOf::Site)?;
    one_of(tokens, &["up", "down"])?;
    end(tokens, &[])
}

/// `S WHOLE`
pub fn clock(tokens: &mut Reader<'_>) -> Result<(), Wanted> {
    name(tokens, NameOf::Site)?;
    whole_number(tokens)?;
    end(tokens, &[])
}

/// `S S WHOLE`
pub fn error_place(tokens: &mut Reader<'_>) -> Result<(), Wanted> {
    name(tokens, NameOf::Site)?;
    name(tokens, NameOf::Site)?;
    whole_number(tokens)?;
    end(tokens, &[])
}

/// `S fast|complete|force`
pub fn refresh(tokens: &mut Reader<'_>) -> Result<(), Wanted> {
    name(tokens, NameOf::Site)?;
    one_of(tokens, &["fast", "complete", "force"])?;
    end(tokens, &[])
}

/// `S T`
pub fn purge_log(tokens: &mut Reader<'_>) -> Result<(), Wanted> {
    name(tokens, NameOf::Site)?;
    one_name(tokens, NameOf::Table)
}

/// `tables|queue|errors|marks|journal|log|calls S`
pub fn show(tokens: &mut Reader<'_>) -> Result<(), Wanted> {
    one_of(tokens, SHOWN)?;
    one_name(tokens, NameOf::Site)
}
