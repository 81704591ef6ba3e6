//! Checks: what a row has to meet, and which one it doesn't.
ghost use Rattle.std.specs.Prelude.{◌≡◌, ◌<◌, length, option_copied};
ghost use Rattle.rep_schema.specs.Checks.{relates, rel_row, check_holds, first_failed, checks_of, failed_check};

use crate::Schema;
use case_table::{CaseTable, cases, order_column};
use rep_lists::{Copies, NoMemory};
use rep_values::{Name, Row, Value, compare_values};
use std::alloc::Global;
use std::cmp::Ordering;

/// A check of a table: a column's value stands in a relation to a constant.
#[derive(Clone, Copy)]
pub struct Check {
    pub name: Name,
    pub column: u32,
    pub rel: Rel,
    pub value: Value,
}

/// How two values stand to each other: `=`, `!=`, `<`, `<=`, `>` or `>=`.
#[derive(Clone, Copy, Debug, PartialEq, Eq)]
pub enum Rel {
    Eq,
    Ne,
    Lt,
    Le,
    Gt,
    Ge,
}

const NO: u8 = 0;

const YES: u8 = 1;

// The cells are for a row's value below, at and above the check's.
const VERDICTS: CaseTable<6, 3> = cases! {
    equal: NO YES NO;
    other: YES NO YES;
    less: YES NO NO;
    at_most: YES YES NO;
    greater: NO NO YES;
    at_least: NO YES YES;
};

fn rel_row(rel: Rel) -> usize
    ensures { result ≡ rel_row rel }
{
    match rel {
        Rel::Eq => 0,
        Rel::Ne => 1,
        Rel::Lt => 2,
        Rel::Le => 3,
        Rel::Gt => 4,
        Rel::Ge => 5,
    }
}

fn relates(rel: Rel, order: Ordering) -> bool
    ensures { result ≡ relates rel order }
{
    VERDICTS.at(rel_row(rel), order_column(order)) == YES
}

impl Check {
    /// Whether a row meets the check; one that hasn't the check's column doesn't. It takes no memory.
    pub fn holds(&self, row: &Row) -> bool
        ensures { result ≡ check_holds self.now row.now }
    {
        match row.values().get(self.column as usize) {
            Some(value) => relates(self.rel, compare_values(value, &self.value)),
            None => false,
        }
    }
}

fn first_failed<'a>(checks: &'a [Check], row: &Row) -> Option<&'a Check>
    ensures { option_copied result ≡ first_failed checks.now row.now }
{
    checks.iter().find(|check| !check.holds(row))
}

/// The checks of a table.
pub fn checks_of(schema: &Schema, table: u32) -> &[Check]
    requires { table < length schema.now.tables }
    ensures { result.now ≡ checks_of schema.now table }
{
    schema.tables.at(table as usize).checks.as_slice()
}

/// The first check of a table, in declared order, that a row doesn't meet. It takes no memory.
pub fn failed_check<'a>(schema: &'a Schema, table: u32, row: &Row) -> Option<&'a Check>
    requires { table < length schema.now.tables }
    ensures { option_copied result ≡ failed_check schema.now table row.now }
{
    first_failed(checks_of(schema, table), row)
}

impl Copies for Check {
    fn copy(&self, _alloc: Global) -> Result<Check, NoMemory> {
        Ok(*self)
    }
}
