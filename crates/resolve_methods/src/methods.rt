//! What the methods of a group decide of a part of an update.
ghost use Rattle.std.specs.Prelude.{◌≡◌, ◌<◌, length, slice_get, option_copied};
ghost use Rattle.rep_schema.specs.Tables.{columns_of, RowFits};
ghost use Rattle.rep_schema.specs.Shape.{HasShape};
ghost use Rattle.rep_schema.specs.Groups.{group_values};
ghost use Rattle.rep_schema.specs.Levels.{level_of};
ghost use Rattle.resolve_methods.specs.PartValues.{HasGroupValues, IsDecidable};
ghost use Rattle.resolve_methods.specs.Ranks.{number_of, site_level_of};
ghost use Rattle.resolve_methods.specs.Decide.{greater_stays, only, by_order, added, averaged, new_in, decided_by, first_decision, methods_of, decision_of};
ghost use Rattle.resolve_methods.specs.OrderCases.{decided_at};

use crate::Decision;
use crate::new_values::value_with;
use crate::numbers::{added, averaged, only, only_at};
use crate::order_cases::{OrderMethod, by_order, decided_at};
use crate::ranks::{level_of, number_of, site_level_of};
use rep_calls::Part;
use rep_schema::{Method, SHADOW, Schema, group_columns, groups_of, value_at};
use rep_values::{Row, Value};
use std::cmp::Ordering;

/// A part of an update, and the row of a table in which its old values aren't found.
#[derive(Clone, Copy)]
struct Conflict<'a> {
    schema: &'a Schema,
    table: u32,
    part: &'a Part,
    current: &'a [Value],
}

impl<'a> Conflict<'a> {
    /// The value in a column of the row that the part's new values would make.
    fn new_in(&self, column: u32) -> Option<&Value>
        requires { IsDecidable self.now.schema.now self.now.table self.now.part.now self.now.current.now }
        ensures { option_copied result ≡ new_in self.now.schema.now self.now.table self.now.part.now self.now.current.now column }
    {
        let columns = group_columns(self.schema, self.table, self.part.group);
        value_with(
            columns.as_slice(),
            self.part.new.as_slice(),
            self.current,
            column,
        )
    }

    /// The row's one value in the part's group.
    fn current_in(&self) -> Option<&Value>
        requires { IsDecidable self.now.schema.now self.now.table self.now.part.now self.now.current.now }
        ensures { option_copied result ≡ only (group_values self.now.schema.now self.now.table self.now.part.now.group self.now.current.now) }
    {
        let columns = group_columns(self.schema, self.table, self.part.group);
        only_at(columns.as_slice(), self.current)
    }

    /// What a method decides that compares the numbers in a column.
    fn by_number(&self, method: OrderMethod, column: u32) -> Decision
        requires { IsDecidable self.now.schema.now self.now.table self.now.part.now self.now.current.now }
        ensures { result ≡ by_order (decided_at method) (number_of (new_in self.now.schema.now self.now.table self.now.part.now self.now.current.now column)) (number_of (slice_get self.now.current.now column)) }
    {
        let new = number_of(self.new_in(column));
        by_order(method, new, number_of(value_at(self.current, column)))
    }

    /// What additive decides.
    fn by_amount(&self) -> Decision
        requires { IsDecidable self.now.schema.now self.now.table self.now.part.now self.now.current.now }
        ensures { result ≡ added (number_of (only self.now.part.now.old)) (number_of (only self.now.part.now.new)) (number_of (only (group_values self.now.schema.now self.now.table self.now.part.now.group self.now.current.now))) }
    {
        let old = number_of(only(self.part.old.as_slice()));
        let new = number_of(only(self.part.new.as_slice()));
        let now = number_of(self.current_in());
        added(old, new, now)
    }

    /// What average decides.
    fn by_mean(&self) -> Decision
        requires { IsDecidable self.now.schema.now self.now.table self.now.part.now self.now.current.now }
        ensures { result ≡ averaged (number_of (only self.now.part.now.new)) (number_of (only (group_values self.now.schema.now self.now.table self.now.part.now.group self.now.current.now))) }
    {
        let new = number_of(only(self.part.new.as_slice()));
        let now = number_of(self.current_in());
        averaged(new, now)
    }

    /// What priority decides.
    fn by_level(&self, column: u32, group: u32) -> Decision
        requires { IsDecidable self.now.schema.now self.now.table self.now.part.now self.now.current.now }
        ensures { result ≡ by_order greater_stays (level_of self.now.schema.now group (new_in self.now.schema.now self.now.table self.now.part.now self.now.current.now column)) (level_of self.now.schema.now group (slice_get self.now.current.now column)) }
    {
        let new = level_of(self.schema, group, self.new_in(column));
        let now = level_of(self.schema, group, value_at(self.current, column));
        by_order(OrderMethod::Priority, new, now)
    }

    /// What site-priority decides.
    fn by_site_level(&self, column: u32) -> Decision
        requires { IsDecidable self.now.schema.now self.now.table self.now.part.now self.now.current.now }
        ensures { result ≡ by_order greater_stays (site_level_of self.now.schema.now (new_in self.now.schema.now self.now.table self.now.part.now self.now.current.now column)) (site_level_of self.now.schema.now (slice_get self.now.current.now column)) }
    {
        let new = site_level_of(self.schema, self.new_in(column));
        let now = site_level_of(self.schema, value_at(self.current, column));
        by_order(OrderMethod::SitePriority, new, now)
    }

    /// What one method decides.
    fn decided_by(&self, method: Method) -> Decision
        requires { IsDecidable self.now.schema.now self.now.table self.now.part.now self.now.current.now }
        ensures { result ≡ decided_by self.now.schema.now self.now.table self.now.part.now self.now.current.now method }
    {
        match method {
            Method::Latest(column) => self.by_number(OrderMethod::Latest, column),
            Method::Earliest(column) => self.by_number(OrderMethod::Earliest, column),
            Method::Overwrite => decided_at(OrderMethod::Overwrite, Ordering::Equal),
            Method::Discard => decided_at(OrderMethod::Discard, Ordering::Equal),
            Method::Additive => self.by_amount(),
            Method::Average => self.by_mean(),
            Method::Maximum(column) => self.by_number(OrderMethod::Maximum, column),
            Method::Minimum(column) => self.by_number(OrderMethod::Minimum, column),
            Method::Priority { column, group } => self.by_level(column, group),
            Method::SitePriority(column) => self.by_site_level(column),
        }
    }

    /// What the first method decides that isn't undecided.
    fn first_decision(&self, methods: &[Method]) -> Decision
        requires { IsDecidable self.now.schema.now self.now.table self.now.part.now self.now.current.now }
        ensures { result ≡ first_decision self.now.schema.now self.now.table self.now.part.now self.now.current.now methods.now }
    {
        for method in methods {
            let decision = self.decided_by(*method);
            if decision != Decision::Undecided {
                return decision;
            }
        }
        Decision::Undecided
    }
}

/// The methods of a group, by its number.
fn methods_of(schema: &Schema, table: u32, group: u8) -> &[Method]
    requires { table < length schema.now.tables }
    ensures { result.now ≡ methods_of schema.now table group }
{
    if group == SHADOW {
        return &[];
    }
    match groups_of(schema, table).get(group as usize) {
        Some(group) => group.methods.as_slice(),
        None => &[],
    }
}

/// What the methods of the part's group decide where the row hasn't the part's old values: what the first one does
/// that isn't undecided. It takes no memory.
pub fn decide(schema: &Schema, table: u32, part: &Part, current: &Row) -> Decision
    requires table { table < length schema.now.tables }
    requires shape { HasShape schema.now }
    requires part { HasGroupValues schema.now table part.now }
    requires row { RowFits (columns_of schema.now table) current.now }
    ensures { result ≡ decision_of schema.now table part.now current.now }
{
    let conflict = Conflict {
        schema,
        table,
        part,
        current: current.values(),
    };
    conflict.first_decision(methods_of(schema, table, part.group))
}
