//! The parts that forms share, passed over up to what isn't expected.

use command_forms::{NameOf, Wanted};
use script_words::Reader;

/// The types of a table's columns.
pub const TYPES: &[&str] = &["NUMBER", "TEXT", "DATE", "STAMP", "SITE"];

/// The types of the columns of a table that procedures write.
pub const PLAIN_TYPES: &[&str] = &["NUMBER", "TEXT", "DATE"];

const COMPARISONS: &[&str] = &["=", "!=", "<", "<=", ">", ">="];

const FATES: &[&str] = &["pass", "lose", "twice", "late"];

const FATES_OR_CLEAR: &[&str] = &["pass", "lose", "twice", "late", "clear"];

/// NAME
pub fn name(tokens: &mut Reader<'_>, of: NameOf) -> Result<(), Wanted> {
    match tokens.name() {
        Ok(_) => Ok(()),
        Err(_) => Err(Wanted::Name(of)),
    }
}

/// NAME+
pub fn names(tokens: &mut Reader<'_>, of: NameOf) -> Result<(), Wanted> {
    name(tokens, of)?;
    for _ in 0..tokens.len() {
        if !tokens.is_at_name() {
            break;
        }
        name(tokens, of)?;
    }
    Ok(())
}

/// VALUE
pub fn value(tokens: &mut Reader<'_>) -> Result<(), Wanted> {
    if !tokens.is_at_value() {
        return Err(Wanted::Value);
    }
    let _ = tokens.value();
    Ok(())
}

/// [VALUE]..
pub fn any_values(tokens: &mut Reader<'_>) {
    for _ in 0..tokens.len() {
        if !tokens.is_at_value() {
            break;
        }
        let _ = tokens.value();
    }
}

/// VALUE+
pub fn values(tokens: &mut Reader<'_>) -> Result<(), Wanted> {
    value(tokens)?;
    any_values(tokens);
    Ok(())
}

/// A number.
pub fn number(tokens: &mut Reader<'_>) -> Result<(), Wanted> {
    match tokens.number() {
        Ok(_) => Ok(()),
        Err(_) => Err(Wanted::Number),
    }
}

/// WHOLE
pub fn whole_number(tokens: &mut Reader<'_>) -> Result<(), Wanted> {
    match tokens.whole_number() {
        Ok(_) => Ok(()),
        Err(_) => Err(Wanted::Whole),
    }
}

/// Passes over the next token where it is one of these words or symbols, and tells whether it was.
pub fn passes_one(tokens: &mut Reader<'_>, words: &'static [&'static str]) -> bool {
    for word in words {
        if tokens.passes(word.as_bytes()) {
            return true;
        }
    }
    false
}

/// One of these words or symbols.
pub fn one_of(tokens: &mut Reader<'_>, words: &'static [&'static str]) -> Result<(), Wanted> {
    if passes_one(tokens, words) {
        Ok(())
    } else {
        Err(Wanted::Words(words))
    }
}

/// Nothing more. Before it could have stood one of these words or symbols.
pub fn end(tokens: &Reader<'_>, more: &'static [&'static str]) -> Result<(), Wanted> {
    if tokens.len() == 0 {
        Ok(())
    } else {
        Err(Wanted::End(more))
    }
}

/// `C : TYPE [: key]`
fn column(tokens: &mut Reader<'_>, types: &'static [&'static str]) -> Result<(), Wanted> {
    name(tokens, NameOf::Column)?;
    one_of(tokens, &[":"])?;
    one_of(tokens, types)?;
    if tokens.passes(b":") {
        one_of(tokens, &["key"])?;
    }
    Ok(())
}

/// COLUMN+, and nothing behind it.
pub fn columns(tokens: &mut Reader<'_>, types: &'static [&'static str]) -> Result<(), Wanted> {
    column(tokens, types)?;
    for _ in 0..tokens.len() {
        if tokens.len() == 0 {
            break;
        }
        column(tokens, types)?;
    }
    Ok(())
}

/// OP
pub fn comparison(tokens: &mut Reader<'_>) -> Result<(), Wanted> {
    one_of(tokens, COMPARISONS)
}

/// `C OP VALUE`
fn row_test(tokens: &mut Reader<'_>) -> Result<(), Wanted> {
    name(tokens, NameOf::Column)?;
    comparison(tokens)?;
    value(tokens)
}

/// `[where TEST [and TEST]..]`, and nothing behind it.
pub fn where_tests(tokens: &mut Reader<'_>) -> Result<(), Wanted> {
    if !tokens.passes(b"where") {
        return end(tokens, &["where"]);
    }
    row_test(tokens)?;
    for _ in 0..tokens.len() {
        if !tokens.passes(b"and") {
            break;
        }
        row_test(tokens)?;
    }
    end(tokens, &["and"])
}

/// `C = VALUE` or `C + N`
fn setting(tokens: &mut Reader<'_>) -> Result<(), Wanted> {
    name(tokens, NameOf::Column)?;
    if tokens.passes(b"=") {
        return value(tokens);
    }
    one_of(tokens, &["=", "+"])?;
    number(tokens)
}

/// `SET [, SET]..`, and nothing behind it.
pub fn settings(tokens: &mut Reader<'_>) -> Result<(), Wanted> {
    setting(tokens)?;
    for _ in 0..tokens.len() {
        if !tokens.passes(b",") {
            break;
        }
        setting(tokens)?;
    }
    end(tokens, &[","])
}

/// Further fates, and nothing behind them.
fn more_fates(tokens: &mut Reader<'_>) -> Result<(), Wanted> {
    for _ in 0..tokens.len() {
        if !passes_one(tokens, FATES) {
            break;
        }
    }
    end(tokens, FATES)
}

/// `FATE+`, and nothing behind it.
pub fn fates(tokens: &mut Reader<'_>) -> Result<(), Wanted> {
    one_of(tokens, FATES)?;
    more_fates(tokens)
}

/// `FATE+` or `clear`, and nothing behind it.
pub fn fates_or_clear(tokens: &mut Reader<'_>) -> Result<(), Wanted> {
    if tokens.passes(b"clear") {
        return end(tokens, &[]);
    }
    one_of(tokens, FATES_OR_CLEAR)?;
    more_fates(tokens)
}
