//! Statements: what is left of them in a copy.

use case_reader::{CaseStop, Words, push_name, push_number, push_value, read_statement};
use rep_calls::{How, Set, Statement};
use rep_lists::{Copies, NoMemory};
use rep_values::{Literal, TableName};
use std::alloc::Global;

/// Its kind, its table and its literals.
fn push_front(
    out: &mut String,
    alloc: Global,
    kind: &str,
    table: &TableName,
    literals: &[Literal],
) -> Result<(), NoMemory> {
    out.push_str(kind)?;
    push_name(out, &table.0)?;
    for literal in literals {
        push_value(out, alloc, &literal.value())?;
    }
    Ok(())
}

fn push_set(out: &mut String, alloc: Global, set: &Set) -> Result<(), NoMemory> {
    push_name(out, &set.column)?;
    match &set.how {
        How::To(literal) => {
            out.push_str(" =")?;
            push_value(out, alloc, &literal.value())
        }
        How::Add(amount) => {
            out.push_str(" +")?;
            push_number(out, alloc, *amount)
        }
    }
}

fn push_update(
    out: &mut String,
    alloc: Global,
    table: &TableName,
    key: &[Literal],
    sets: &[Set],
) -> Result<(), NoMemory> {
    push_front(out, alloc, " update", table, key)?;
    let mut mark = " :";
    for set in sets {
        out.push_str(mark)?;
        push_set(out, alloc, set)?;
        mark = " ,";
    }
    Ok(())
}

fn push_statement(out: &mut String, alloc: Global, statement: &Statement) -> Result<(), NoMemory> {
    match statement {
        Statement::Insert { table, values } => {
            push_front(out, alloc, " insert", table, values.as_slice())
        }
        Statement::Delete { table, key } => {
            push_front(out, alloc, " delete", table, key.as_slice())
        }
        Statement::Update { table, key, sets } => {
            push_update(out, alloc, table, key.as_slice(), sets.as_slice())
        }
    }
}

fn push_copy(out: &mut String, alloc: Global, statement: &Statement) -> Result<(), NoMemory> {
    let copy = statement.copy(alloc)?;
    push_statement(out, alloc, &copy)
}

/// The copy of a statement.
pub fn statement_case(out: &mut String, alloc: Global, words: &mut Words) -> Result<(), CaseStop> {
    let statement = read_statement(alloc, words)?;
    push_copy(out, alloc, &statement)?;
    Ok(())
}
