//! Outcomes as words of a line.

use rep_lists::NoMemory;
use rep_values::{Name, Row, Value};
use std::alloc::Global;

fn push_bytes(out: &mut String, bytes: &[u8]) -> Result<(), NoMemory> {
    for byte in bytes {
        out.push(char::from(*byte))?;
    }
    Ok(())
}

/// A space, and the name.
pub fn push_name(out: &mut String, name: &Name) -> Result<(), NoMemory> {
    out.push(' ')?;
    push_bytes(out, name.bytes())
}

/// A space, and the number.
pub fn push_number(out: &mut String, alloc: Global, number: i64) -> Result<(), NoMemory> {
    out.push_str(&format!(in alloc; " {number}")?)?;
    Ok(())
}

/// A space, and the number, or the text between quotes.
pub fn push_value(out: &mut String, alloc: Global, value: &Value) -> Result<(), NoMemory> {
    match value {
        Value::Num(number) => push_number(out, alloc, *number),
        Value::Words(text) => {
            out.push_str(" '")?;
            push_bytes(out, text.bytes())?;
            out.push('\'')?;
            Ok(())
        }
    }
}

/// Each value behind a space.
pub fn push_values(out: &mut String, alloc: Global, values: &[Value]) -> Result<(), NoMemory> {
    for value in values {
        push_value(out, alloc, value)?;
    }
    Ok(())
}

/// Each value of a row behind a space.
pub fn push_row(out: &mut String, alloc: Global, row: &Row) -> Result<(), NoMemory> {
    push_values(out, alloc, row.values())
}
