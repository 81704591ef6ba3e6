//! One column of an update that failed.

use crate::texts::ValueText;
use rep_calls::Part;
use rep_schema::{Column, Kind, Method, TableEntry, is_in_range};
use rep_values::{ApplyError, SiteName, Value};
use std::alloc::AllocError;

/// What the sum of both changes would be, where all three are numbers.
fn added(old: &Value, new: &Value, here: &Value) -> Option<i64> {
    let (Value::Num(old), Value::Num(new), Value::Num(here)) = (old, new, here) else {
        return None;
    };
    new.checked_sub(*old)?.checked_add(*here)
}

/// Whether sums are of interest: the group's method adds, or a method that adds could settle the conflict.
#[derive(Clone, Copy)]
pub enum Adding {
    Did,
    Could,
    No,
}

/// Whether sums are of interest for a part of a table where this error stands.
pub fn adding_of(table: &TableEntry, part: &Part, error: &ApplyError) -> Adding {
    if let ApplyError::UpdateConflict(_) = error {
        return Adding::Could;
    }
    let Some(group) = table.groups.as_slice().get(part.group as usize) else {
        return Adding::No;
    };
    match group.methods.as_slice() {
        [Method::Additive] => Adding::Did,
        _ => Adding::No,
    }
}

/// One column of a part that was refused.
#[derive(Clone, Copy)]
pub struct Cell<'a> {
    pub adding: Adding,
    pub column: &'a Column,
    pub old: &'a Value,
    pub new: &'a Value,
    pub here: Option<&'a Value>,
}

/// What `additive` would make of a column, where its kind is NUMBER.
fn sum_of(cell: &Cell<'_>, here: &Value) -> Option<i64> {
    match cell.column.kind {
        Kind::Number => added(cell.old, cell.new, here),
        Kind::Words | Kind::Date | Kind::Stamp | Kind::Site => None,
    }
}

/// Tells what the methods would make of a number.
fn add_choices(
    text: &mut String,
    sum: i64,
    cell: &Cell<'_>,
    here: &Value,
) -> Result<(), AllocError> {
    writeln!(
        text,
        "            `additive` would make {sum} of it, `overwrite` {}, `discard` {}",
        ValueText(cell.new),
        ValueText(here)
    )
}

/// Tells what `additive` makes of a column, or would.
fn add_sum(text: &mut String, sum: i64, cell: &Cell<'_>, here: &Value) -> Result<(), AllocError> {
    match cell.adding {
        Adding::Did => writeln!(text, "            `additive` makes {sum} of it"),
        Adding::Could if is_in_range(sum) => add_choices(text, sum, cell, here),
        Adding::Could | Adding::No => Ok(()),
    }
}

/// Tells which value a column has here now, and what `additive` makes of it, or would.
fn add_present(
    text: &mut String,
    here: &SiteName,
    cell: &Cell<'_>,
    value: &Value,
) -> Result<(), AllocError> {
    writeln!(text, "; {here} has {} now", ValueText(value))?;
    match sum_of(cell, value) {
        Some(sum) => add_sum(text, sum, cell, value),
        None => Ok(()),
    }
}

/// Tells which value of a column the sender saw, and which it wrote.
fn add_change(text: &mut String, origin: &SiteName, cell: &Cell<'_>) -> Result<(), AllocError> {
    let name = &cell.column.name;
    let old = ValueText(cell.old);
    let new = ValueText(cell.new);
    write!(text, "        {name}: {origin} saw {old} and wrote {new}")
}

/// Tells of one column.
pub fn add_cell(
    text: &mut String,
    origin: &SiteName,
    here: &SiteName,
    cell: &Cell<'_>,
) -> Result<(), AllocError> {
    add_change(text, origin, cell)?;
    match cell.here {
        Some(value) => add_present(text, here, cell, value),
        None => writeln!(text, "; {here} has no such row"),
    }
}
