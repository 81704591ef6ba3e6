//! A script's literals beside what an action takes, and the values that they mean.
ghost use Rattle.std.specs.Prelude.{◌≡◌, ◌++◌, IfOk};
ghost use Rattle.std.specs.List.{list_any};
ghost use Rattle.rep_values.specs.Name.{same_bytes};
ghost use Rattle.rep_values.specs.Literal.{value_of_literal};
ghost use Rattle.rep_schema.specs.Kinds.{value_in_range, row_in_range};
ghost use Rattle.txn_effects.specs.Literals.{names_site, literal_fits, literals_fit, values_of};
ghost use Rattle.world_state.specs.CallBlocks.{is_one_number, literals_suit};

use proc_state::Action;
use rep_lists::{Items, NoMemory};
use rep_schema::{Column, Kind, Schema, SiteEntry, is_of_kind, value_in_range};
use rep_values::{Literal, Text, Value};
use std::alloc::Global;

fn has_site(sites: &[SiteEntry], name: &Text) -> bool
    ensures { result ≡ list_any (λ site. same_bytes site.name.0 name.now) sites.now }
{
    sites.iter().any(|site| site.name.0.bytes() == name.bytes())
}

fn names_site(schema: &Schema, literal: &Literal) -> bool
    ensures { result ≡ names_site schema.now literal.now }
{
    match literal {
        Literal::Num(_) => false,
        Literal::Words(name) => has_site(schema.sites.as_slice(), name),
    }
}

fn literal_fits(schema: &Schema, column: &Column, literal: &Literal) -> bool
    ensures { result ≡ literal_fits schema.now column.now literal.now }
{
    is_of_kind(column.kind, literal)
        && (!(column.key && column.kind.is_site_kind()) || names_site(schema, literal))
}

/// Whether there is a literal for each column, and each fits.
fn literals_fit(schema: &Schema, columns: &[Column], literals: &[Literal]) -> bool
    ensures { result ≡ literals_fit schema.now columns.now literals.now }
{
    if columns.len() != literals.len() {
        return false;
    }
    for place in 0..columns.len() {
        if !literal_fits(schema, &columns[place], &literals[place]) {
            return false;
        }
    }
    true
}

/// Whether this is one number.
fn is_one_number(literals: &[Literal]) -> bool
    ensures { result ≡ is_one_number literals.now }
{
    if literals.len() != 1 {
        return false;
    }
    is_of_kind(Kind::Number, &literals[0])
}

/// Whether an action takes these literals, their ranges untested.
pub(crate) fn literals_suit(
    schema: &Schema,
    columns: &[Column],
    action: &Action,
    literals: &[Literal],
) -> bool
    ensures { result ≡ literals_suit schema.now columns.now action.now literals.now }
{
    match action {
        Action::Put => literals_fit(schema, columns, literals),
        Action::Add { .. } => is_one_number(literals),
        Action::Drop { .. } => literals.is_empty(),
    }
}

fn in_range(literal: &Literal) -> bool
    ensures { result ≡ value_in_range (value_of_literal literal.now) }
{
    value_in_range(&literal.value())
}

/// Whether each number lies within ±10^15.
pub(crate) fn are_in_range(literals: &[Literal]) -> bool
    ensures { result ≡ row_in_range (values_of literals.now) }
{
    literals.iter().all(|literal| in_range(literal))
}

/// The values of literals.
pub(crate) fn values_of(alloc: Global, literals: &[Literal]) -> Result<Items<Value>, NoMemory>
    ensures { IfOk result (λ values. values ≡ values_of literals.now) }
{
    let mut values = Items::new(alloc);
    for literal in literals {
        values.push(literal.value())?;
    }
    Ok(values)
}
