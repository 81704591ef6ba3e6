//! The types of a schema. A table, a group and a constraint are named by their place from 0, a column by its place
//! in its table, a priority group by its place among them.

ghost use Rattle.std.specs.Prelude.{◌≡◌};
ghost use Rattle.rep_schema.specs.Shape.{HasShape, no_schema};

use crate::Check;
use rep_lists::{Copies, Items, NoMemory};
use rep_values::{Name, SiteName, TableName, Value};
use std::alloc::Global;

/// Sites, tables and priority groups, each in declared order.
#[derive(Drop)]
pub struct Schema {
    pub sites: Items<SiteEntry>,
    pub tables: Items<TableEntry>,
    pub priorities: Items<PriorityGroup>,
}

/// A site: a master site, or a snapshot site with its master.
#[derive(Clone, Copy)]
pub struct SiteEntry {
    pub name: SiteName,
    /// None for a master site.
    pub master: Option<SiteName>,
    /// The level that site-priority compares. A declaration gives none outside ±10^15.
    pub level: Option<i64>,
    /// A master site that isn't there from the start: it joins later.
    pub late: bool,
}

/// A table with its columns, its column groups, its uniqueness constraints and its checks.
#[derive(Drop)]
pub struct TableEntry {
    pub name: TableName,
    pub columns: Items<Column>,
    /// The named groups. The columns in none of them that aren't key columns are the shadow group, number 255.
    pub groups: Items<Group>,
    /// The methods of the primary key's constraint.
    pub key_methods: Items<UniqueMethod>,
    /// The secondary constraints.
    pub constraints: Items<Constraint>,
    /// What each row has to meet.
    pub checks: Items<Check>,
    pub convergent: bool,
}

/// A column of a table.
#[derive(Clone, Copy)]
pub struct Column {
    pub name: Name,
    pub kind: Kind,
    pub key: bool,
}

/// The type of a column: NUMBER, TEXT, DATE, STAMP or SITE.
#[derive(Clone, Copy, Debug, PartialEq, Eq)]
pub enum Kind {
    Number,
    Words,
    Date,
    Stamp,
    Site,
}

/// A named column group, with the methods that settle its conflicts, in sequence.
#[derive(Drop)]
pub struct Group {
    pub name: Name,
    /// In rising order.
    pub columns: Items<u32>,
    pub methods: Items<Method>,
}

/// A secondary uniqueness constraint, with the methods that settle its violations, in sequence.
#[derive(Drop)]
pub struct Constraint {
    pub name: Name,
    /// In rising order.
    pub columns: Items<u32>,
    pub methods: Items<UniqueMethod>,
}

/// Levels of values, which the priority method compares.
#[derive(Drop)]
pub struct PriorityGroup {
    pub name: Name,
    /// In rising order of value.
    pub levels: Items<PriorityLevel>,
}

/// The level of one value. A declaration gives none outside ±10^15.
#[derive(Clone, Copy)]
pub struct PriorityLevel {
    pub value: Value,
    pub level: i64,
}

/// How an update conflict of a group is settled. A number names a column, or a priority group.
#[derive(Clone, Copy, Debug, PartialEq, Eq)]
pub enum Method {
    Latest(u32),
    Earliest(u32),
    Overwrite,
    Discard,
    Additive,
    Average,
    Maximum(u32),
    Minimum(u32),
    Priority { column: u32, group: u32 },
    SitePriority(u32),
}

/// How a uniqueness violation is settled. A number names a column.
#[derive(Clone, Copy, Debug, PartialEq, Eq)]
pub enum UniqueMethod {
    AppendSite(u32),
    AppendSequence(u32),
    Discard,
}

impl Schema {
    /// The schema in which nothing is declared. It takes no memory.
    pub fn empty(alloc: Global) -> Schema
        ensures value { result ≡ no_schema }
        ensures shape { HasShape result }
    {
        Schema {
            sites: Items::new(alloc),
            tables: Items::new(alloc),
            priorities: Items::new(alloc),
        }
    }
}

impl Copies for Schema {
    fn copy(&self, alloc: Global) -> Result<Schema, NoMemory> {
        Ok(Schema {
            sites: self.sites.copy(alloc)?,
            tables: self.tables.copy(alloc)?,
            priorities: self.priorities.copy(alloc)?,
        })
    }
}

impl Copies for SiteEntry {
    fn copy(&self, _alloc: Global) -> Result<SiteEntry, NoMemory> {
        Ok(*self)
    }
}

impl Copies for TableEntry {
    fn copy(&self, alloc: Global) -> Result<TableEntry, NoMemory> {
        Ok(TableEntry {
            name: self.name,
            columns: self.columns.copy(alloc)?,
            groups: self.groups.copy(alloc)?,
            key_methods: self.key_methods.copy(alloc)?,
            constraints: self.constraints.copy(alloc)?,
            checks: self.checks.copy(alloc)?,
            convergent: self.convergent,
        })
    }
}

impl Copies for Column {
    fn copy(&self, _alloc: Global) -> Result<Column, NoMemory> {
        Ok(*self)
    }
}

impl Copies for Group {
    fn copy(&self, alloc: Global) -> Result<Group, NoMemory> {
        Ok(Group {
            name: self.name,
            columns: self.columns.copy(alloc)?,
            methods: self.methods.copy(alloc)?,
        })
    }
}

impl Copies for Constraint {
    fn copy(&self, alloc: Global) -> Result<Constraint, NoMemory> {
        Ok(Constraint {
            name: self.name,
            columns: self.columns.copy(alloc)?,
            methods: self.methods.copy(alloc)?,
        })
    }
}

impl Copies for PriorityGroup {
    fn copy(&self, alloc: Global) -> Result<PriorityGroup, NoMemory> {
        Ok(PriorityGroup {
            name: self.name,
            levels: self.levels.copy(alloc)?,
        })
    }
}

impl Copies for PriorityLevel {
    fn copy(&self, _alloc: Global) -> Result<PriorityLevel, NoMemory> {
        Ok(*self)
    }
}

impl Copies for Method {
    fn copy(&self, _alloc: Global) -> Result<Method, NoMemory> {
        Ok(*self)
    }
}

impl Copies for UniqueMethod {
    fn copy(&self, _alloc: Global) -> Result<UniqueMethod, NoMemory> {
        Ok(*self)
    }
}
