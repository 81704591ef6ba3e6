//! The rules of uniqueness constraints.
ghost use Rattle.std.specs.Prelude.{◌≡◌, ◌&&◌, not, is_none};
ghost use Rattle.std.specs.List.{list_all};
ghost use Rattle.rep_schema.specs.Shape.{unique_column};
ghost use Rattle.rep_schema.specs.Kinds.{is_none_or, is_text, is_plain, has_kind, is_key_at, has_place};
ghost use Rattle.schema_rules.specs.ConstraintRules.{each_constraint, has_plain_columns, appends_to_own_texts, has_good_appends};

use crate::columns::{is_plain_at, is_text_at};
use rep_schema::{Column, Constraint, Schema, TableEntry, UniqueMethod, has_place, is_key_at};

fn has_plain_columns(columns: &[Column], constraint: &Constraint) -> bool
    ensures { result ≡ has_plain_columns columns.now constraint.now }
{
    constraint.columns.iter().all(|place| !is_key_at(columns, *place)
        && is_plain_at(columns, *place))
}

/// Whether the columns of a secondary constraint are no key columns and are NUMBER, TEXT or DATE.
pub(crate) fn each_has_plain_columns(schema: &Schema) -> bool
    ensures { result ≡ each_constraint has_plain_columns schema.now }
{
    schema.tables.iter().all(
        |table: &TableEntry| -> bool
            ensures { result ≡ list_all (has_plain_columns table.now.columns) table.now.constraints }
        {
            let columns = table.columns.as_slice();
            table
                .constraints
                .iter()
                .all(|constraint| has_plain_columns(columns, constraint))
        },
    )
}

fn unique_column(method: &UniqueMethod) -> Option<u32>
    ensures { result ≡ unique_column method.now }
{
    match method {
        UniqueMethod::AppendSite(column) | UniqueMethod::AppendSequence(column) => Some(*column),
        UniqueMethod::Discard => None,
    }
}

fn appends_nothing(methods: &[UniqueMethod]) -> bool
    ensures { result ≡ list_all (λ m. is_none (unique_column m)) methods.now }
{
    methods.iter().all(|method| unique_column(method).is_none())
}

fn appends_to_own_text(columns: &[Column], places: &[u32], method: &UniqueMethod) -> bool
    ensures { result ≡ is_none_or (λ place. has_place places.now place && has_kind is_text columns.now place) (unique_column method.now) }
{
    match unique_column(method) {
        None => true,
        Some(place) => has_place(places, place as usize) && is_text_at(columns, place),
    }
}

fn appends_to_own_texts(columns: &[Column], constraint: &Constraint) -> bool
    ensures { result ≡ appends_to_own_texts columns.now constraint.now }
{
    let places = constraint.columns.as_slice();
    constraint
        .methods
        .iter()
        .all(|method| appends_to_own_text(columns, places, method))
}

fn append_to_own_texts(columns: &[Column], constraints: &[Constraint]) -> bool
    ensures { result ≡ list_all (appends_to_own_texts columns.now) constraints.now }
{
    constraints
        .iter()
        .all(|constraint| appends_to_own_texts(columns, constraint))
}

fn has_good_appends(table: &TableEntry) -> bool
    ensures { result ≡ has_good_appends table.now }
{
    appends_nothing(table.key_methods.as_slice())
        && append_to_own_texts(table.columns.as_slice(), table.constraints.as_slice())
}

/// Whether an append method always stands on a secondary constraint and names a TEXT column of it.
pub(crate) fn have_good_appends(tables: &[TableEntry]) -> bool
    ensures { result ≡ list_all has_good_appends tables.now }
{
    tables.iter().all(|table| has_good_appends(table))
}
