//! The declarations of the table.
ghost use Rattle.std.specs.Prelude.{IfOk, IfSome};
ghost use Rattle.rep_schema.specs.Shape.{HasShape};

use case_reader::{CaseStop, Words, declare};
use rep_schema::Schema;
use rep_values::{ApplyError, Refusal};
use script_lex::lex;
use std::alloc::Global;

const DECLARATIONS: [&str; 11] = [
    "site A",
    "site B",
    "site C",
    "table STOCK HOME:SITE:key ID:NUMBER:key QTY:NUMBER TOP:NUMBER NAME:TEXT",
    "group STOCK q QTY",
    "method STOCK q additive",
    "group STOCK t TOP",
    "method STOCK t maximum TOP",
    "method STOCK t discard",
    "group STOCK n NAME",
    "method STOCK n overwrite",
];

/// Whether the declaration of a line was added.
fn is_declared(alloc: Global, schema: &mut Schema, line: &str) -> Result<bool, CaseStop>
    requires { HasShape schema.old }
    ensures { HasShape schema.new }
{
    let tokens = lex(alloc, line.as_bytes())?;
    let refused: Option<Refusal> = declare(alloc, schema, &mut Words::of(tokens.as_slice()))?;
    // No declaration has this refusal; the check of this function asks that the error's type is named.
    if let Some(Refusal::StillFails(ApplyError::NoRow)) = refused {
        return Ok(false);
    }
    Ok(refused.is_none())
}

/// A schema of three masters with the table STOCK: a key of a site and a number, two number columns and a text, each in a
/// group of its own. None where a declaration is refused, which none is.
pub fn stock(alloc: Global) -> Result<Option<Schema>, CaseStop>
    ensures { IfOk result (λ schema. IfSome schema HasShape) }
{
    let mut schema = Schema::empty(alloc);
    for line in DECLARATIONS {
        if !is_declared(alloc, &mut schema, line)? {
            return Ok(None);
        }
    }
    Ok(Some(schema))
}
