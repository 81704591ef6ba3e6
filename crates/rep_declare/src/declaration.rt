//! Declarations: the lines of a script that add to a schema, with the names that they are written with.

use rep_lists::Items;
use rep_schema::{Column, Rel};
use rep_values::{Literal, Name, SiteName, TableName};

/// A declaration.
#[derive(Drop)]
pub enum Declare {
    /// A master site.
    Site {
        name: SiteName,
    },
    /// A master site that joins later.
    LateSite {
        name: SiteName,
    },
    /// A snapshot site of a master site that is there from the start.
    SnapSite {
        name: SiteName,
        master: SiteName,
    },
    /// A table with its columns.
    Table {
        name: TableName,
        columns: Items<Column>,
    },
    /// A column group of a table. It names a column at least.
    Group {
        table: TableName,
        group: Name,
        columns: Items<Name>,
    },
    /// One more method of a group, tried where those before it don't decide.
    Method {
        table: TableName,
        group: Name,
        method: MethodWords,
    },
    /// The level of a value in a priority group.
    Priority {
        group: Name,
        value: Literal,
        level: i64,
    },
    /// The level of a site.
    SiteLevel {
        site: SiteName,
        level: i64,
    },
    /// A secondary uniqueness constraint of a table. It names a column at least.
    Unique {
        table: TableName,
        constraint: Name,
        columns: Items<Name>,
    },
    /// One more method of a constraint, `key` being the primary key's.
    UniqueMethod {
        table: TableName,
        constraint: Name,
        method: UniqueWords,
    },
    /// A check of a table: the column's value stands in this relation to the constant.
    Check {
        table: TableName,
        check: Name,
        column: Name,
        rel: Rel,
        value: Literal,
    },
    /// The table is to agree at all masters when nothing is under way.
    Convergent {
        table: TableName,
    },
}

/// A method of a group, with the names of the column and of the priority group that it uses.
#[derive(Clone, Copy)]
pub enum MethodWords {
    Latest(Name),
    Earliest(Name),
    Overwrite,
    Discard,
    Additive,
    Average,
    Maximum(Name),
    Minimum(Name),
    Priority { column: Name, group: Name },
    SitePriority(Name),
}

/// A method of a constraint, with the name of the column that it uses.
#[derive(Clone, Copy)]
pub enum UniqueWords {
    AppendSite(Name),
    AppendSequence(Name),
    Discard,
}
