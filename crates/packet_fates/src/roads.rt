//! The ways between sites for both kinds of traffic, which directions are down, and the open block.

use crate::packet::Traffic;
use crate::ways::{Links, Ways};
use net_plan::Fate;
use rep_lists::NoMemory;
use rep_values::SiteName;
use script_parse::{Command, ProcLine};
use std::alloc::Global;

/// The ways between sites and the open block, as the lines of a script leave them.
#[derive(Drop)]
pub struct Roads {
    pub rows: Ways,
    pub calls: Ways,
    pub links: Links,
    /// The site of the open block.
    pub block: Option<SiteName>,
}

/// Adds fates to a way.
fn add_fates(
    ways: &mut Ways,
    alloc: Global,
    from: &SiteName,
    to: &SiteName,
    fates: &[Fate],
) -> Result<(), NoMemory> {
    let mut way = ways.take(alloc, from, to);
    way.add_fates(fates)?;
    ways.put(way)
}

impl Roads {
    /// Nothing was sent, and all directions are up. It takes no memory.
    pub fn new(alloc: Global) -> Roads {
        Roads {
            rows: Ways::new(alloc),
            calls: Ways::new(alloc),
            links: Links::new(alloc),
            block: None,
        }
    }

    /// The ways of a kind of traffic.
    pub fn ways(&self, traffic: Traffic) -> &Ways {
        match traffic {
            Traffic::Rows => &self.rows,
            Traffic::Calls => &self.calls,
        }
    }

    /// Takes fates back.
    fn clear_fates(
        &mut self,
        alloc: Global,
        from: &SiteName,
        to: &SiteName,
    ) -> Result<(), NoMemory> {
        let mut way = self.rows.take(alloc, from, to);
        way.clear_fates();
        self.rows.put(way)
    }

    /// Follows a line about procedures that was done.
    fn follow_procedures(&mut self, alloc: Global, line: &ProcLine) -> Result<(), NoMemory> {
        match line {
            ProcLine::Calls { site } => {
                self.block = Some(*site);
                Ok(())
            }
            ProcLine::Send { .. } => {
                self.block = None;
                Ok(())
            }
            ProcLine::Fates { from, to, fates } => {
                add_fates(&mut self.calls, alloc, from, to, fates.as_slice())
            }
            ProcLine::Table { .. }
            | ProcLine::Procedure { .. }
            | ProcLine::Call { .. }
            | ProcLine::Push { .. }
            | ProcLine::Execute { .. } => Ok(()),
        }
    }

    /// Follows a line that was done.
    pub fn follow(&mut self, alloc: Global, command: &Command) -> Result<(), NoMemory> {
        match command {
            Command::Txn { site } => {
                self.block = Some(*site);
                Ok(())
            }
            Command::Commit | Command::Abandon => {
                self.block = None;
                Ok(())
            }
            Command::Fates { from, to, fates } => {
                add_fates(&mut self.rows, alloc, from, to, fates.as_slice())
            }
            Command::ClearFates { from, to } => self.clear_fates(alloc, from, to),
            Command::Link { from, to, link } => self.links.set(from, to, *link),
            Command::Procedures(line) => self.follow_procedures(alloc, line),
            _ => Ok(()),
        }
    }
}
