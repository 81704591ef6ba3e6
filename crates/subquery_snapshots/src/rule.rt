//! Which rows of its table a snapshot shows.
ghost use Rattle.std.specs.Prelude.{◌≡◌, List, option_copied};
ghost use Rattle.rep_schema.specs.declared.schema.Schema.{Schema as SchemaValue};
ghost use Rattle.rep_schema.specs.Tables.{Cells, Rows};
ghost use Rattle.snapshot_query.specs.Parents.{picks_by};
ghost use Rattle.subquery_snapshots.specs.Rules.{rule_picks};

use snapshot_query::{Parent, Query};

/// Which rows of its table a snapshot shows.
#[derive(Clone, Copy)]
pub enum Rule<'a> {
    /// Those that the query picks.
    Whole(&'a Query),
    /// Those whose parent is there and passes its tests.
    Parent(&'a Parent),
}

impl<'a> Rule<'a> {
    /// The rule of a snapshot with this query and this parent. A query beside a parent counts for nothing.
    pub fn of(query: &'a Query, parent: Option<&'a Parent>) -> Rule<'a>
        ensures { (schema : SchemaValue) (tables : List Rows) (row : Cells) → rule_picks schema tables result row ≡ picks_by schema tables query.now (option_copied parent.entry) row }
    {
        match parent {
            Some(parent) => Rule::Parent(parent),
            None => Rule::Whole(query),
        }
    }
}
