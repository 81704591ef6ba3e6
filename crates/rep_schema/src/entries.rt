//! Sites and tables as a declaration first brings them.
ghost use Rattle.std.specs.Prelude.{◌≡◌};
ghost use Rattle.rep_schema.specs.Shape.{is_early_master};
ghost use Rattle.rep_schema.specs.Entries.{master_site, late_site, snapshot_site, plain_table};

use crate::{Column, SiteEntry, TableEntry};
use rep_lists::Items;
use rep_values::{SiteName, TableName};
use std::alloc::Global;

impl SiteEntry {
    /// A master site that is there from the start.
    pub fn master(name: SiteName) -> SiteEntry
        ensures { result ≡ master_site name }
    {
        SiteEntry {
            name,
            master: None,
            level: None,
            late: false,
        }
    }

    /// A master site that joins later.
    pub fn late(name: SiteName) -> SiteEntry
        ensures { result ≡ late_site name }
    {
        SiteEntry {
            name,
            master: None,
            level: None,
            late: true,
        }
    }

    /// A snapshot site of a master.
    pub fn snapshot(name: SiteName, master: SiteName) -> SiteEntry
        ensures { result ≡ snapshot_site name master }
    {
        SiteEntry {
            name,
            master: Some(master),
            level: None,
            late: false,
        }
    }

    /// Whether it is a master site that is there from the start.
    pub fn is_early_master(&self) -> bool
        ensures { result ≡ is_early_master self.now }
    {
        self.master.is_none() && !self.late
    }
}

impl TableEntry {
    /// A table without groups, constraints and checks, which is not convergent. It takes no memory.
    pub fn plain(alloc: Global, name: TableName, columns: Items<Column>) -> TableEntry
        ensures { result ≡ plain_table name columns }
    {
        TableEntry {
            name,
            columns,
            groups: Items::new(alloc),
            key_methods: Items::new(alloc),
            constraints: Items::new(alloc),
            checks: Items::new(alloc),
            convergent: false,
        }
    }
}
