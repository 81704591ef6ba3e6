//! The tables of a set, by number.
ghost use Rattle.std.specs.Prelude.{◌≡◌, ℕ, ◌<◌, ◌++◌, [], ◌∷◌, true, filter, IfOk, OnOk};
ghost use Rattle.rep_schema.specs.Sites.{has_table};
ghost use Rattle.change_logs.specs.LogState.{tables_in};

use rep_lists::{Items, NoMemory};
use rep_schema::TableSet;
use std::alloc::Global;

/// Adds a table behind the others, where it is in the set.
fn push_if_in(tables: &mut Items<u32>, set: &TableSet, table: u32) -> Result<(), NoMemory>
    ensures { OnOk result (tables.new ≡ tables.old ++ filter (has_table set.now) (table ∷ [])) }
{
    if set.has(table) {
        tables.push(table)?;
    }
    Ok(())
}

/// The tables of a set in rising order, all of which are below a number.
pub fn tables_of(alloc: Global, set: &TableSet, number: u32) -> Result<Items<u32>, NoMemory>
    requires { (table : ℕ) → has_table set.now table ≡ true → table < number }
    ensures { IfOk result (λ tables. tables ≡ tables_in set.now) }
{
    let mut tables = Items::new(alloc);
    for table in 0..number {
        push_if_in(&mut tables, set, table)?;
    }
    Ok(tables)
}
