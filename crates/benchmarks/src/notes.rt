//! Transactions of one row each, noted in an index of dependencies.

use crate::asked::{read_numbers, text};
use anyhow::{Context, Result};
use dependency_index::{Index, Token, Tokens};
use rep_lists::{Items, NoMemory};
use rep_values::{Key, Name, SiteName, Value};
use std::alloc::Global;

/// The row of a number, in an order that is mixed and comes again after so many numbers, where these are no multiple of
/// 7919.
fn tokens(alloc: Global, keys: u64, number: u64) -> Result<Option<Tokens>, NoMemory> {
    if keys == 0 {
        return Ok(None);
    }
    let id = number.wrapping_mul(7919) % keys;
    let Ok(id) = i64::try_from(id) else {
        return Ok(None);
    };
    let Some(key) = Key::of(&[Value::Num(id)]) else {
        return Ok(None);
    };
    let mut list = Items::new(alloc);
    list.push(Token::Key { table: 0, key })?;
    Ok(Some(Tokens { list }))
}

/// The dependency number of the next transaction.
fn note_next(index: &mut Index, to: &SiteName, tokens: &Tokens) -> Result<u64, NoMemory> {
    if !index.is_indexed(to) {
        return Ok(0);
    }
    index.reserve(tokens)?;
    if !index.is_indexed(to) {
        return Ok(0);
    }
    match index.count(to).checked_add(1) {
        Some(position) => Ok(index.note(to, position, tokens)),
        None => Ok(0),
    }
}

/// Notes so many transactions, and gives the last one's dependency number.
fn note_all(
    alloc: Global,
    index: &mut Index,
    to: &SiteName,
    keys: u64,
    notes: u64,
) -> Result<u64, NoMemory> {
    let mut last = 0;
    for number in 0..notes {
        if let Some(tokens) = tokens(alloc, keys, number)? {
            last = note_next(index, to, &tokens)?;
        }
    }
    Ok(last)
}

/// The last of so many transactions' dependency numbers.
fn last_number(alloc: Global, keys: u64, notes: u64) -> Result<u64, NoMemory> {
    let Some(name) = Name::of(b"B") else {
        return Ok(0);
    };
    let to = SiteName(name);
    let mut index = Index::make(alloc, &[to])?;
    note_all(alloc, &mut index, &to, keys, notes)
}

fn told_last(alloc: Global, keys: u64, notes: u64, last: u64) -> Result<String> {
    Ok(format!(in alloc; "rows {keys}, notes {notes}, last dependency {last}")?)
}

/// What comes of the rows and the number of transactions that are asked for.
pub fn told(alloc: Global, asked: &str) -> Result<String> {
    let (keys, notes) = asked.split_once(' ').context("two numbers")?;
    let (keys, notes) = read_numbers(keys, notes)?;
    match last_number(alloc, keys, notes) {
        Ok(last) => told_last(alloc, keys, notes, last),
        Err(NoMemory) => text(alloc, "no memory"),
    }
}
