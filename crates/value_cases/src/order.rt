//! The orders of values, keys and names, and when two are the same.

use case_reader::{CaseStop, Words};
use rep_values::{
    Key, Name, SiteName, TableName, Value, compare_keys, compare_names, compare_values, same_value,
    same_values,
};
use script_lex::Symbol;
use std::alloc::{AllocError, Global};
use std::cmp::Ordering;

fn push_order(out: &mut String, order: Ordering) -> Result<(), AllocError> {
    match order {
        Ordering::Less => out.push_str(" less"),
        Ordering::Equal => out.push_str(" equal"),
        Ordering::Greater => out.push_str(" greater"),
    }
}

fn push_same(out: &mut String, is_same: bool) -> Result<(), AllocError> {
    out.push_str(if is_same { " same" } else { " different" })
}

fn push_value_order(out: &mut String, first: &Value, second: &Value) -> Result<(), CaseStop> {
    push_order(out, compare_values(first, second))?;
    push_same(out, same_value(first, second))?;
    Ok(())
}

fn read_values(words: &mut Words) -> Result<(Value, Value), CaseStop> {
    let first = words.value()?;
    words.symbol(Symbol::Colon)?;
    Ok((first, words.value()?))
}

/// `VALUE : VALUE`.
pub fn value_order_case(out: &mut String, words: &mut Words) -> Result<(), CaseStop> {
    let (first, second) = read_values(words)?;
    push_value_order(out, &first, &second)
}

fn push_key_order(out: &mut String, first: &Key, second: &Key) -> Result<(), CaseStop> {
    push_order(out, compare_keys(first, second))?;
    push_same(out, same_values(first.values(), second.values()))?;
    Ok(())
}

fn read_keys(alloc: Global, words: &mut Words) -> Result<(Key, Key), CaseStop> {
    let first = words.key(alloc)?;
    words.symbol(Symbol::Colon)?;
    Ok((first, words.key(alloc)?))
}

/// `KEY : KEY`.
pub fn key_order_case(out: &mut String, alloc: Global, words: &mut Words) -> Result<(), CaseStop> {
    let (first, second) = read_keys(alloc, words)?;
    push_key_order(out, &first, &second)
}

fn push_name_order(out: &mut String, first: &Name, second: &Name) -> Result<(), CaseStop> {
    push_order(out, compare_names(first, second))?;
    push_same(out, SiteName(*first).is_same(&SiteName(*second)))?;
    push_same(out, TableName(*first).is_same(&TableName(*second)))?;
    Ok(())
}

/// `NAME NAME`: their order, and whether they name the same site and the same table.
pub fn name_order_case(out: &mut String, words: &mut Words) -> Result<(), CaseStop> {
    let first = words.name()?;
    let second = words.name()?;
    push_name_order(out, &first, &second)
}
