//! Calls of a transaction as lines.

use crate::{CaseStop, Words};
use rep_calls::{Call, Part};
use rep_lists::Items;
use rep_values::Row;
use script_lex::Symbol;
use std::alloc::Global;

fn read_place(words: &mut Words) -> Result<u32, CaseStop> {
    u32::try_from(words.whole()?).map_err(|_| CaseStop::NoCase)
}

fn read_part(alloc: Global, words: &mut Words) -> Result<Part, CaseStop> {
    let group = u8::try_from(words.whole()?).map_err(|_| CaseStop::NoCase)?;
    words.symbol(Symbol::Colon)?;
    let old = words.values(alloc)?;
    words.symbol(Symbol::Gt)?;
    let new = words.values(alloc)?;
    Ok(Part { group, old, new })
}

fn read_parts(alloc: Global, words: &mut Words) -> Result<Items<Part>, CaseStop> {
    let mut parts = Vec::new(alloc);
    for _ in 0..u64::MAX {
        if !words.passes(Symbol::Comma) {
            break;
        }
        parts.push(read_part(alloc, words)?)?;
    }
    Ok(Items::from_vec(parts))
}

fn read_update(alloc: Global, words: &mut Words) -> Result<Call, CaseStop> {
    let table = read_place(words)?;
    words.symbol(Symbol::Colon)?;
    let key = words.key(alloc)?;
    let parts = read_parts(alloc, words)?;
    Ok(Call::Update { table, key, parts })
}

/// `TABLE : ROW`
fn read_row(alloc: Global, words: &mut Words) -> Result<(u32, Row), CaseStop> {
    let table = read_place(words)?;
    words.symbol(Symbol::Colon)?;
    Ok((table, words.row(alloc)?))
}

fn read_insert(alloc: Global, words: &mut Words) -> Result<Call, CaseStop> {
    let (table, row) = read_row(alloc, words)?;
    Ok(Call::Insert { table, row })
}

fn read_delete(alloc: Global, words: &mut Words) -> Result<Call, CaseStop> {
    let (table, row) = read_row(alloc, words)?;
    Ok(Call::Delete { table, row })
}

fn read_of_kind(alloc: Global, kind: &[u8], words: &mut Words) -> Result<Call, CaseStop> {
    match kind {
        b"update" => read_update(alloc, words),
        b"insert" => read_insert(alloc, words),
        b"delete" => read_delete(alloc, words),
        _ => Err(CaseStop::NoCase),
    }
}

/// `insert TABLE : ROW`, `delete TABLE : ROW` or `update TABLE : KEY [, GROUP : OLD > NEW]..`, up to the end of the line.
/// Tables and groups are given by their numbers.
pub fn read_call(alloc: Global, words: &mut Words) -> Result<Call, CaseStop> {
    let kind = words.word()?;
    let call = read_of_kind(alloc, kind, words)?;
    words.end()?;
    Ok(call)
}
