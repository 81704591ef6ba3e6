//! What a script makes.
ghost use Rattle.std.specs.Prelude.{◌≡◌, IfOk};
ghost use Rattle.std.specs.List.{position};
ghost use Rattle.rep_values.specs.SiteNames.{is_same_site};
ghost use Rattle.world_state.specs.World.{first_world};
ghost use Rattle.world.specs.Finding.{FindsSite};

use crate::Procs;
use net_plan::Net;
use page_tables::PageTables;
use rep_lists::{Items, NoMemory};
use rep_schema::Schema;
use rep_values::SiteName;
use site_engine::Site;
use std::alloc::Global;
use std::marker::Model;
use world_state::{Block, DeclaredSnapshot, Phase};

/// A world: the phase of its script, the store of what is declared and of the rows that masters begin
/// with, the declared snapshots, its sites in declared order, the net between them, the open block, and what there is of procedures.
#[derive(Drop)]
pub struct WorldParts {
    pub phase: Phase,
    pub store: PageTables,
    pub snapshots: Items<DeclaredSnapshot>,
    pub sites: Vec<Site<PageTables>>,
    pub net: Net,
    pub block: Option<Block>,
    pub procs: Procs,
}

impl Model for WorldParts {
    ghost use Rattle.world_state.specs.World.{WorldState};

    ghost Value = { WorldState };

    ghost view = { λ e. record {
      phase = e.phase;
      schema = e.store.schema;
      base = e.store.tables;
      snapshots = e.snapshots;
      sites = e.sites.items;
      net = e.net;
      block = e.block;
      procs = e.procs;
    } };
}

impl WorldParts {
    /// A world in which nothing is declared.
    pub fn make(alloc: Global) -> Result<WorldParts, NoMemory>
        ensures { IfOk result (λ parts. parts ≡ first_world) }
    {
        Ok(WorldParts {
            phase: Phase::Setup,
            store: PageTables::make(alloc, Schema::empty(alloc))?,
            snapshots: Items::new(alloc),
            sites: Vec::new(alloc),
            net: Net::make(alloc, &[])?,
            block: None,
            procs: Procs::make(alloc)?,
        })
    }
}

/// The place of the first site of a name.
fn first_of(sites: &[Site<PageTables>], name: &SiteName) -> Option<usize>
    ensures { result ≡ position (λ x. is_same_site x.here.site name.now) sites.now }
{
    sites.iter().position(|site| site.name().is_same(name))
}

/// The place of the site of a name, None exactly where it isn't there.
pub fn place_of(sites: &[Site<PageTables>], name: &SiteName) -> Option<usize>
    ensures { FindsSite name.now sites.now result }
{
    first_of(sites, name)
}
