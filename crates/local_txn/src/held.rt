//! The table that a statement names.
ghost use Rattle.std.specs.Prelude.{◌≡◌, ◌<◌, length, IfSome};
ghost use Rattle.rep_schema.specs.Shape.{HasShape};
ghost use Rattle.txn_effects.specs.Held.{statement_table, held_of, held_table};

use rep_calls::Statement;
use rep_schema::Schema;
use rep_values::TableName;
use schema_names::table_place;
use txn_effects::Here;

fn table_name(statement: &Statement) -> TableName
    ensures { result ≡ statement_table statement.now }
{
    match statement {
        Statement::Insert { table, .. }
        | Statement::Update { table, .. }
        | Statement::Delete { table, .. } => *table,
    }
}

/// The table that a statement names, where it is known and held here.
pub(crate) fn held_table(schema: &Schema, here: &Here, statement: &Statement) -> Option<u32>
    requires { HasShape schema.now }
    ensures value { result ≡ held_table schema.now here.now statement.now }
    ensures below { IfSome result (λ table. table < length schema.now.tables) }
{
    let place = table_place(schema.tables.as_slice(), &table_name(statement))?;
    if !here.tables.has(place as u32) {
        return None;
    }
    Some(place as u32)
}
