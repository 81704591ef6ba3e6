//! What stands behind the first words of lines about procedures, and nothing behind it.

use crate::parts::{PLAIN_TYPES, any_values, columns, end, name, one_of, where_tests};
use command_forms::{NameOf, Wanted};
use script_words::Reader;

/// `T COLUMN+`
pub fn proc_table(tokens: &mut Reader<'_>) -> Result<(), Wanted> {
    name(tokens, NameOf::Table)?;
    columns(tokens, PLAIN_TYPES)
}

/// `F T ACTION`
pub fn procedure(tokens: &mut Reader<'_>) -> Result<(), Wanted> {
    name(tokens, NameOf::Procedure)?;
    name(tokens, NameOf::Table)?;
    if tokens.passes(b"put") {
        return end(tokens, &[]);
    }
    let adds = tokens.is_at(b"add");
    one_of(tokens, &["put", "add", "drop"])?;
    if adds {
        name(tokens, NameOf::Column)?;
    }
    where_tests(tokens)
}

/// `F [VALUE]..`
pub fn call(tokens: &mut Reader<'_>) -> Result<(), Wanted> {
    name(tokens, NameOf::Procedure)?;
    any_values(tokens);
    end(tokens, &[])
}

/// `[S]..`
pub fn send(tokens: &mut Reader<'_>) -> Result<(), Wanted> {
    for _ in 0..tokens.len() {
        if name(tokens, NameOf::Site).is_err() {
            break;
        }
    }
    end(tokens, &[])
}
