//! What a line's tests ask of the columns of a table, and what they mean there.
ghost use Rattle.std.specs.Prelude.{◌≡◌, ◌≤◌, length, map, IfOk};
ghost use Rattle.std.specs.List.{list_all};
ghost use Rattle.rep_values.specs.RefusalSteps.{first_refusal};
ghost use Rattle.rep_declare.specs.Additions.{column_number};
ghost use Rattle.world_state.specs.Declaring.{tests_in, op_of, test_of};
ghost use Rattle.world_state.specs.Testing.{has_columns, is_of_column, test_in_range};
ghost use Rattle.world_state.specs.ProcRefusals.{test_steps};

use rep_lists::{Items, NoMemory};
use rep_schema::{Column, Rel, is_of_kind, value_in_range};
use rep_values::{Name, Refusal, Value};
use schema_names::{column_place, find_column, has_column};
use script_parse::TestWords;
use snapshot_query::{Op, Test};
use std::alloc::Global;

/// The tests of a line; with none, every row passes.
pub fn tests_in(tests: &Option<Items<TestWords>>) -> &[TestWords]
    ensures { result.now ≡ tests_in tests.now }
{
    match tests {
        Some(tests) => tests.as_slice(),
        None => &[],
    }
}

fn is_of_column(columns: &[Column], test: &TestWords) -> bool
    ensures { result ≡ is_of_column columns.now test.now }
{
    match find_column(columns, &test.column) {
        Some(column) => is_of_kind(column.kind, &test.value),
        None => false,
    }
}

fn test_in_range(test: &TestWords) -> bool
    ensures { result ≡ test_in_range test.now }
{
    value_in_range(&test.value.value())
}

fn has_columns(columns: &[Column], tests: &[TestWords]) -> bool
    ensures { result ≡ has_columns columns.now tests.now }
{
    tests.iter().all(|test| has_column(columns, &test.column))
}

fn are_of_columns(columns: &[Column], tests: &[TestWords]) -> bool
    ensures { result ≡ list_all (is_of_column columns.now) tests.now }
{
    tests.iter().all(|test| is_of_column(columns, test))
}

fn are_in_range(tests: &[TestWords]) -> bool
    ensures { result ≡ list_all test_in_range tests.now }
{
    tests.iter().all(|test| test_in_range(test))
}

/// The names of the columns, then the kinds of the values, beside what else has to be right, then their ranges.
pub(crate) fn tests_refusal(
    is_right: bool,
    columns: &[Column],
    tests: &[TestWords],
) -> Option<Refusal>
    ensures { result ≡ first_refusal (test_steps is_right columns.now tests.now) }
{
    if !has_columns(columns, tests) {
        return Some(Refusal::UnknownName);
    }
    if !(is_right && are_of_columns(columns, tests)) {
        return Some(Refusal::RowShape);
    }
    if !are_in_range(tests) {
        return Some(Refusal::ValueRange);
    }
    None
}

/// The operator of a query that a relation is.
fn op_of(rel: Rel) -> Op
    ensures { result ≡ op_of rel }
{
    match rel {
        Rel::Eq => Op::Eq,
        Rel::Ne => Op::Ne,
        Rel::Lt => Op::Lt,
        Rel::Le => Op::Le,
        Rel::Gt => Op::Gt,
        Rel::Ge => Op::Ge,
    }
}

/// The place of the column of a name, or 0.
pub fn column_number(columns: &[Column], name: &Name) -> u32
    requires { length columns.now ≤ 32 }
    ensures { result ≡ column_number columns.now name.now }
{
    match column_place(columns, name) {
        Some(place) => place as u32,
        None => 0,
    }
}

/// The tests that words mean, one for each.
pub fn tests_of(
    alloc: Global,
    columns: &[Column],
    words: &[TestWords],
) -> Result<Items<Test>, NoMemory>
    requires { length columns.now ≤ 32 }
    ensures { IfOk result (λ tests. tests ≡ map (test_of columns.now) words.now) }
{
    let mut tests = Items::new(alloc);
    for test in words {
        let value: Value = test.value.value();
        tests.push(Test {
            column: column_number(columns, &test.column),
            op: op_of(test.rel),
            value,
        })?;
    }
    Ok(tests)
}
