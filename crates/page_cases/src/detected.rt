//! What is found of a row for a call.
ghost use Rattle.std.specs.Prelude.{◌<◌, length, option_copied, IfSome};
ghost use Rattle.rep_schema.specs.Shape.{HasShape};

use crate::calls::text;
use case_reader::{CaseStop, Words, push_number, read_call};
use conflict_detect::{Found, GroupSet, call_fits, detect, table_of};
use rep_calls::Call;
use rep_schema::{Schema, columns_of, row_fits};
use rep_values::Row;
use script_lex::Symbol;
use std::alloc::Global;

/// The groups that differ.
fn groups_text(alloc: Global, groups: &GroupSet) -> Result<String, CaseStop> {
    let mut out = text(alloc, "differs in")?;
    for group in 0..256u32 {
        if groups.has(group as u8) {
            push_number(&mut out, alloc, i64::from(group))?;
        }
    }
    Ok(out)
}

fn found_text(alloc: Global, found: &Found) -> Result<String, CaseStop> {
    match found {
        Found::NoRow => text(alloc, "no row"),
        Found::Matches => text(alloc, "matches"),
        Found::Differs(groups) => groups_text(alloc, groups),
    }
}

/// What is found of a row, or of none, for a call, where they fit the schema.
fn found_of(
    alloc: Global,
    schema: &Schema,
    row: Option<&Row>,
    call: &Call,
) -> Result<String, CaseStop>
    requires { HasShape schema.now }
{
    if !call_fits(schema, call) {
        return text(alloc, "no fit");
    }
    let Some(row) = row else {
        return found_text(alloc, &detect(None, schema, call));
    };
    if !row_fits(columns_of(schema, table_of(call)), row.values()) {
        return text(alloc, "no fit of the row");
    }
    found_text(alloc, &detect(Some(row), schema, call))
}

/// What is found of a row for the call behind a colon; of none, where no value stands before the colon.
pub fn detected(alloc: Global, schema: &Schema, words: &mut Words) -> Result<String, CaseStop>
    requires { HasShape schema.now }
{
    let values = words.values(alloc)?;
    words.symbol(Symbol::Colon)?;
    let call = read_call(alloc, words)?;
    let row = Row::of(alloc, values.as_slice())?;
    found_of(alloc, schema, row.as_ref(), &call)
}
