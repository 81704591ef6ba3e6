//! The values of a call that failed: those that its sender saw and wrote, and those that stand here.

use crate::cells::{Cell, add_cell, adding_of};
use crate::texts::ValuesText;
use error_queue::ErrorEntry;
use page_tables::PageTables;
use rep_calls::{Call, Part};
use rep_lists::NoMemory;
use rep_schema::{Column, RowStore, SHADOW, TableEntry, has_place, is_grouped, named_columns};
use rep_values::{ApplyError, Key, Row, SiteName, Value};
use schema_advice::method_word;
use std::alloc::{AllocError, Global};

/// The site at which a call failed: its name and its rows.
#[derive(Clone, Copy)]
pub struct Here<'a> {
    pub name: &'a SiteName,
    pub store: &'a PageTables,
}

/// A part of an update that failed, its table, and the row there now.
#[derive(Clone, Copy)]
struct Failed<'a> {
    table: &'a TableEntry,
    part: &'a Part,
    row: Option<&'a Row>,
}

impl<'a> Here<'a> {
    /// The table of a number.
    fn table(&self, number: u32) -> Option<&TableEntry> {
        self.store.schema().tables.as_slice().get(number as usize)
    }

    /// The row of a key in the table of a number.
    fn row(&self, number: u32, key: &Key) -> Option<&Row> {
        match self.store.schema().tables.as_slice().get(number as usize) {
            Some(_) => self.store.get(number, key),
            None => None,
        }
    }
}

/// Whether a column, which stands at a place of its table, belongs to a group by the group's number.
fn is_in_group(table: &TableEntry, group: u8, place: usize, column: &Column) -> bool {
    if group == SHADOW {
        return !column.key && !is_grouped(table.groups.as_slice(), place);
    }
    has_place(named_columns(table.groups.as_slice(), group), place)
}

/// Appends the values of the key columns of a row.
fn add_key_values(
    table: &TableEntry,
    row: &Row,
    values: &mut Vec<Value>,
) -> Result<(), AllocError> {
    for (column, value) in table.columns.iter().zip(row.values()) {
        if column.key {
            values.push(*value)?;
        }
    }
    Ok(())
}

/// The key of a row.
fn key_of(alloc: Global, table: &TableEntry, row: &Row) -> Result<Option<Key>, AllocError> {
    let mut values = Vec::new(alloc);
    add_key_values(table, row, &mut values)?;
    Ok(Key::of(values.as_slice()))
}

/// Tells of the column at a place of the table, whose values stand at another place of the part.
fn add_column(
    text: &mut String,
    entry: &ErrorEntry,
    here: &SiteName,
    failed: Failed<'_>,
    place: usize,
    at: usize,
) -> Result<(), AllocError> {
    let Some(column) = failed.table.columns.as_slice().get(place) else {
        return Ok(());
    };
    let Some(old) = failed.part.old.as_slice().get(at) else {
        return Ok(());
    };
    let Some(new) = failed.part.new.as_slice().get(at) else {
        return Ok(());
    };
    let cell = Cell {
        adding: adding_of(failed.table, failed.part, &entry.error),
        column,
        old,
        new,
        here: failed.value(place),
    };
    add_cell(text, &entry.origin, here, &cell)
}

impl<'a> Failed<'a> {
    /// The value that the row has at a place now.
    fn value(&self, place: usize) -> Option<&'a Value> {
        self.row?.values().get(place)
    }
}

/// Tells of each column of a part.
fn add_part(
    text: &mut String,
    entry: &ErrorEntry,
    here: &SiteName,
    failed: Failed<'_>,
) -> Result<(), AllocError> {
    let mut at = 0usize;
    for (place, column) in failed.table.columns.iter().enumerate() {
        if is_in_group(failed.table, failed.part.group, place, column) {
            add_column(text, entry, here, failed, place, at)?;
            at = at.saturating_add(1);
        }
    }
    Ok(())
}

/// Tells of the methods of a group, none of which decided.
fn add_methods(text: &mut String, table: &TableEntry, group: u8) -> Result<(), AllocError> {
    let Some(group) = table.groups.as_slice().get(group as usize) else {
        return writeln!(
            text,
            "        the columns are in no group of {}, so there is no method to try",
            table.name.0
        );
    };
    if group.methods.is_empty() {
        return writeln!(text, "        group {} has no method", group.name);
    }
    for method in group.methods.as_slice() {
        writeln!(
            text,
            "        `{}` of group {} doesn't decide here",
            method_word(method),
            group.name
        )?;
    }
    Ok(())
}

/// Whether a part is of the group that the error names, or the error names none.
fn is_meant(table: &TableEntry, part: &Part, error: &ApplyError) -> bool {
    let ApplyError::UpdateConflict(name) = error else {
        return true;
    };
    match table.groups.as_slice().get(part.group as usize) {
        Some(group) => group.name.is_same(name),
        None => part.group == SHADOW,
    }
}

/// Tells of a part that the error is about, and of its methods where they didn't decide.
fn add_meant(
    text: &mut String,
    entry: &ErrorEntry,
    here: &SiteName,
    failed: Failed<'_>,
) -> Result<(), AllocError> {
    add_part(text, entry, here, failed)?;
    if let ApplyError::UpdateConflict(_) = entry.error {
        return add_methods(text, failed.table, failed.part.group);
    }
    Ok(())
}

/// Tells of the parts of an update that the error is about.
fn add_parts(
    text: &mut String,
    entry: &ErrorEntry,
    here: &SiteName,
    table: &TableEntry,
    row: Option<&Row>,
    parts: &[Part],
) -> Result<(), AllocError> {
    for part in parts {
        if is_meant(table, part, &entry.error) {
            add_meant(text, entry, here, Failed { table, part, row })?;
        }
    }
    Ok(())
}

/// Tells of an update.
fn add_update(
    text: &mut String,
    here: Here<'_>,
    entry: &ErrorEntry,
    number: u32,
    key: &Key,
    parts: &[Part],
) -> Result<(), AllocError> {
    let Some(table) = here.table(number) else {
        return Ok(());
    };
    writeln!(
        text,
        "        it updates {} {}",
        table.name.0,
        ValuesText(key.values())
    )?;
    add_parts(text, entry, here.name, table, here.row(number, key), parts)
}

/// Tells of the row that has this key now.
fn add_present(
    text: &mut String,
    here: Here<'_>,
    number: u32,
    key: &Key,
) -> Result<(), AllocError> {
    match here.row(number, key) {
        Some(present) => writeln!(
            text,
            "        {} has {} now",
            here.name,
            ValuesText(present.values())
        ),
        None => writeln!(text, "        {} has no row of this key", here.name),
    }
}

/// Tells of an insert or of a delete, as the verb says, by its whole row.
fn add_row(
    alloc: Global,
    text: &mut String,
    here: Here<'_>,
    verb: &'static str,
    number: u32,
    row: &Row,
) -> Result<(), AllocError> {
    let Some(table) = here.table(number) else {
        return Ok(());
    };
    writeln!(
        text,
        "        it {verb} {} {}",
        table.name.0,
        ValuesText(row.values())
    )?;
    match key_of(alloc, table, row)? {
        Some(key) => add_present(text, here, number, &key),
        None => Ok(()),
    }
}

/// Tells of a call that failed.
fn add_call(
    alloc: Global,
    text: &mut String,
    here: Here<'_>,
    entry: &ErrorEntry,
    call: &Call,
) -> Result<(), AllocError> {
    match call {
        Call::Insert { table, row } => add_row(alloc, text, here, "inserts", *table, row),
        Call::Delete { table, row } => add_row(alloc, text, here, "deletes", *table, row),
        Call::Update { table, key, parts } => {
            add_update(text, here, entry, *table, key, parts.as_slice())
        }
    }
}

/// Tells of the call that failed: what the sender saw and wrote, and what stands here now.
pub fn add_failed(
    alloc: Global,
    text: &mut String,
    here: Here<'_>,
    entry: &ErrorEntry,
) -> Result<(), NoMemory> {
    let place = (entry.call as usize).saturating_sub(1);
    match entry.txn.calls.as_slice().get(place) {
        Some(call) => Ok(add_call(alloc, text, here, entry, call)?),
        None => Ok(()),
    }
}
