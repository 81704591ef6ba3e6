//! Statements of a block as lines, in the form that scripts have.

use crate::{CaseStop, Words};
use rep_calls::{How, Set, Statement};
use rep_lists::Items;
use rep_values::{Literal, Name};
use script_lex::Symbol;
use std::alloc::Global;

/// `NAME = VALUE` or `NAME + NUMBER`, behind the sets that were read.
fn push_set(sets: &mut Items<Set>, words: &mut Words) -> Result<(), CaseStop> {
    let column: Name = words.name()?;
    if words.passes(Symbol::Plus) {
        let amount = words.number()?;
        sets.push(Set {
            column,
            how: How::Add(amount),
        })?;
        return Ok(());
    }
    words.symbol(Symbol::Eq)?;
    let literal: Literal = words.literal()?;
    sets.push(Set {
        column,
        how: How::To(literal),
    })?;
    Ok(())
}

fn read_sets(alloc: Global, words: &mut Words) -> Result<Items<Set>, CaseStop> {
    let mut sets = Items::new(alloc);
    push_set(&mut sets, words)?;
    for _ in 0..u64::MAX {
        if !words.passes(Symbol::Comma) {
            break;
        }
        push_set(&mut sets, words)?;
    }
    Ok(sets)
}

fn read_update(alloc: Global, words: &mut Words) -> Result<Statement, CaseStop> {
    let table = words.table()?;
    let key = words.literals(alloc)?;
    words.symbol(Symbol::Colon)?;
    let sets = read_sets(alloc, words)?;
    Ok(Statement::Update { table, key, sets })
}

fn read_insert(alloc: Global, words: &mut Words) -> Result<Statement, CaseStop> {
    Ok(Statement::Insert {
        table: words.table()?,
        values: words.literals(alloc)?,
    })
}

fn read_delete(alloc: Global, words: &mut Words) -> Result<Statement, CaseStop> {
    Ok(Statement::Delete {
        table: words.table()?,
        key: words.literals(alloc)?,
    })
}

fn read_of_kind(alloc: Global, kind: &[u8], words: &mut Words) -> Result<Statement, CaseStop> {
    match kind {
        b"insert" => read_insert(alloc, words),
        b"update" => read_update(alloc, words),
        b"delete" => read_delete(alloc, words),
        _ => Err(CaseStop::NoCase),
    }
}

/// `insert NAME VALUE+`, `update NAME VALUE+ : SET [, SET]..` or `delete NAME VALUE+`, up to the end of the line.
pub fn read_statement(alloc: Global, words: &mut Words) -> Result<Statement, CaseStop> {
    let kind = words.word()?;
    let statement = read_of_kind(alloc, kind, words)?;
    words.end()?;
    Ok(statement)
}
