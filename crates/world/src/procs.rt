//! What a script makes of procedures.
ghost use Rattle.std.specs.Prelude.{◌≡◌, option_copied, IfOk};
ghost use Rattle.std.specs.List.{find, position};
ghost use Rattle.rep_values.specs.SiteNames.{is_same_site};
ghost use Rattle.world_state.specs.Procs.{no_procs};
ghost use Rattle.world_state.specs.ProcDeclaring.{is_procedure, procedure_place};
ghost use Rattle.world_state.specs.CallBlocks.{calls_closed};
ghost use Rattle.world.specs.Finding.{FindsProc};

use net_plan::Net;
use proc_calls::ProcSite;
use proc_state::Procedure;
use rep_lists::{Items, NoMemory};
use rep_schema::TableEntry;
use rep_values::{Name, SiteName};
use std::alloc::Global;
use std::marker::Model;
use world_state::CallBlock;

/// What a script makes of procedures: the tables that they write and the procedures themselves, in the order of their lines, the
/// sites that hold these tables, in declared order, the net of calls between them, and the open block of calls.
#[derive(Drop)]
pub struct Procs {
    pub tables: Items<TableEntry>,
    pub procedures: Items<Procedure>,
    pub sites: Vec<ProcSite>,
    pub net: Net,
    pub block: Option<CallBlock>,
}

impl Model for Procs {
    ghost use Rattle.world_state.specs.Procs.{Procs as ProcsValue};

    ghost Value = { ProcsValue };

    ghost view = { λ p. record {
      tables = p.tables;
      procedures = p.procedures;
      sites = p.sites.items;
      net = p.net;
      block = p.block;
    } };
}

impl Procs {
    /// Nothing is declared of procedures.
    pub fn make(alloc: Global) -> Result<Procs, NoMemory>
        ensures { IfOk result (λ procs. procs ≡ no_procs) }
    {
        Ok(Procs {
            tables: Items::new(alloc),
            procedures: Items::new(alloc),
            sites: Vec::new(alloc),
            net: Net::make(alloc, &[])?,
            block: None,
        })
    }

    /// Closes the block of calls, if one is open.
    pub fn close(&mut self)
        ensures { self.new ≡ calls_closed self.old }
    {
        self.block = None;
    }
}

/// The procedure of a name.
pub fn find_procedure<'a>(procedures: &'a [Procedure], name: &Name) -> Option<&'a Procedure>
    ensures { option_copied result ≡ find (is_procedure name.now) procedures.now }
{
    procedures
        .iter()
        .find(|procedure| procedure.name.is_same(name))
}

/// The place of the procedure of a name.
pub fn procedure_place(procedures: &[Procedure], name: &Name) -> Option<usize>
    ensures { result ≡ procedure_place procedures.now name.now }
{
    procedures
        .iter()
        .position(|procedure| procedure.name.is_same(name))
}

/// The place of the first site of procedures of a name.
fn first_proc(sites: &[ProcSite], name: &SiteName) -> Option<usize>
    ensures { result ≡ position (λ x. is_same_site x.me name.now) sites.now }
{
    sites.iter().position(|site| site.name().is_same(name))
}

/// The place of the site of procedures of a name, None exactly where it isn't there.
pub fn proc_place_of(sites: &[ProcSite], name: &SiteName) -> Option<usize>
    ensures { FindsProc name.now sites.now result }
{
    first_proc(sites, name)
}
