//! What stands behind the first words of declarations, and nothing behind it.

use crate::parts::{
    TYPES, columns, comparison, end, name, names, number, one_of, passes_one, value, where_tests,
};
use command_forms::{NameOf, Wanted};
use script_words::Reader;

const METHODS: &[&str] = &[
    "latest",
    "earliest",
    "maximum",
    "minimum",
    "priority",
    "site-priority",
    "additive",
    "average",
    "overwrite",
    "discard",
];

const UNIQUE_METHODS: &[&str] = &["append-site", "append-sequence", "discard"];

/// `T COLUMN+`
pub fn table(tokens: &mut Reader<'_>) -> Result<(), Wanted> {
    name(tokens, NameOf::Table)?;
    columns(tokens, TYPES)
}

/// `T G C+` and `T U C+`
pub fn column_list(tokens: &mut Reader<'_>, of: NameOf) -> Result<(), Wanted> {
    name(tokens, NameOf::Table)?;
    name(tokens, of)?;
    names(tokens, NameOf::Column)?;
    end(tokens, &[])
}

/// `T G M`
pub fn method(tokens: &mut Reader<'_>) -> Result<(), Wanted> {
    name(tokens, NameOf::Table)?;
    name(tokens, NameOf::Group)?;
    if passes_one(tokens, &["additive", "average", "overwrite", "discard"]) {
        return end(tokens, &[]);
    }
    let is_priority = tokens.is_at(b"priority");
    one_of(tokens, METHODS)?;
    name(tokens, NameOf::Column)?;
    if is_priority {
        name(tokens, NameOf::PriorityGroup)?;
    }
    end(tokens, &[])
}

/// `P VALUE N`
pub fn priority(tokens: &mut Reader<'_>) -> Result<(), Wanted> {
    name(tokens, NameOf::PriorityGroup)?;
    value(tokens)?;
    number(tokens)?;
    end(tokens, &[])
}

/// `S N`
pub fn site_level(tokens: &mut Reader<'_>) -> Result<(), Wanted> {
    name(tokens, NameOf::Site)?;
    number(tokens)?;
    end(tokens, &[])
}

/// `T U M`
pub fn unique_method(tokens: &mut Reader<'_>) -> Result<(), Wanted> {
    name(tokens, NameOf::Table)?;
    name(tokens, NameOf::Constraint)?;
    if tokens.passes(b"discard") {
        return end(tokens, &[]);
    }
    one_of(tokens, UNIQUE_METHODS)?;
    name(tokens, NameOf::Column)?;
    end(tokens, &[])
}

/// `T K C OP VALUE`
pub fn check(tokens: &mut Reader<'_>) -> Result<(), Wanted> {
    name(tokens, NameOf::Table)?;
    name(tokens, NameOf::Check)?;
    name(tokens, NameOf::Column)?;
    comparison(tokens)?;
    value(tokens)?;
    end(tokens, &[])
}

/// `S T [where TEST [and TEST]..]`
pub fn snapshot(tokens: &mut Reader<'_>) -> Result<(), Wanted> {
    name(tokens, NameOf::Site)?;
    name(tokens, NameOf::Table)?;
    where_tests(tokens)
}

/// A column of `subsnapshot`, of which none is called `where`.
fn parent_column(tokens: &mut Reader<'_>) -> Result<(), Wanted> {
    if tokens.is_at(b"where") {
        return Err(Wanted::Name(NameOf::Column));
    }
    name(tokens, NameOf::Column)
}

/// `S T parent T by C+ [where TEST [and TEST]..]`
pub fn subsnapshot(tokens: &mut Reader<'_>) -> Result<(), Wanted> {
    name(tokens, NameOf::Site)?;
    name(tokens, NameOf::Table)?;
    one_of(tokens, &["parent"])?;
    name(tokens, NameOf::Table)?;
    one_of(tokens, &["by"])?;
    parent_column(tokens)?;
    for _ in 0..tokens.len() {
        if parent_column(tokens).is_err() {
            break;
        }
    }
    where_tests(tokens)
}
