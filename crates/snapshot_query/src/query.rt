//! Tests of columns, and the rows that pass all of them.
ghost use Rattle.std.specs.Prelude.{◌≡◌};
ghost use Rattle.rep_schema.specs.Checks.{relates};
ghost use Rattle.snapshot_query.specs.Queries.{rel_of, passes, matches};

use rep_lists::{Copies, Items, NoMemory};
use rep_values::{Row, Value, compare_values};
use std::alloc::Global;
use std::cmp::Ordering;

/// The tests that a row has to pass to stand in a snapshot. With no tests every row does.
#[derive(Drop)]
pub struct Query {
    pub tests: Items<Test>,
}

/// A test of a row: the value in a column, named by its place, stands in a relation to a constant.
#[derive(Clone, Copy)]
pub struct Test {
    pub column: u32,
    pub op: Op,
    pub value: Value,
}

/// How a row's value stands to the test's: `=`, `!=`, `<`, `<=`, `>` or `>=`.
#[derive(Clone, Copy, Debug, PartialEq, Eq)]
pub enum Op {
    Eq,
    Ne,
    Lt,
    Le,
    Gt,
    Ge,
}

impl Op {
    fn holds(self, order: Ordering) -> bool
        ensures { result ≡ relates (rel_of self) order }
    {
        match self {
            Op::Eq => order.is_eq(),
            Op::Ne => order.is_ne(),
            Op::Lt => order.is_lt(),
            Op::Le => order.is_le(),
            Op::Gt => order.is_gt(),
            Op::Ge => order.is_ge(),
        }
    }
}

impl Test {
    fn passes(&self, row: &Row) -> bool
        ensures { result ≡ passes row.now self.now }
    {
        match row.values().get(self.column as usize) {
            Some(value) => self.op.holds(compare_values(value, &self.value)),
            None => false,
        }
    }
}

impl Query {
    /// Whether a row passes every test; one that hasn't a test's column doesn't. It takes no memory.
    pub fn matches(&self, row: &Row) -> bool
        ensures { result ≡ matches self.now row.now }
    {
        self.tests.iter().all(|test| test.passes(row))
    }
}

impl Copies for Query {
    fn copy(&self, alloc: Global) -> Result<Query, NoMemory> {
        Ok(Query {
            tests: self.tests.copy(alloc)?,
        })
    }
}

impl Copies for Test {
    fn copy(&self, _alloc: Global) -> Result<Test, NoMemory> {
        Ok(*self)
    }
}
