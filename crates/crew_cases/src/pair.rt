//! A site that writes, and one that takes in what it sends.
ghost use Rattle.std.specs.Prelude.{◌≡◌, ◌+◌, ◌^◌, ◌<◌, [], length, replicate, true, false, IfOk};
ghost use Rattle.event_laws.specs.Confluence.{CanPassInAnyOrder};
ghost use Rattle.rep_schema.specs.Shape.{HasShape};
ghost use Rattle.rep_laws.specs.Commuting.{IsSound};
ghost use Rattle.rep_schema.specs.Sites.{senders_of, destinations_of, is_master_site};
ghost use Rattle.crew_cases.specs.Runs.{AreInARun, opened};

use crate::blocks::Block;
use crate::laws::two_sites_run;
use crate::noting::{NotingTables, Puts};
use case_reader::CaseStop;
use rep_calls::Statement;
use rep_laws::sound_schemas_have_keys;
use rep_lists::{Copies, Items};
use rep_schema::{RowStore, Schema, TableSet};
use rep_values::SiteName;
use schema_names::{destinations_of, is_master_site, senders_of};
use schema_rules::check;
use site_engine::Site;
use std::alloc::Global;
use std::marker::Model;
use std::sync::Arc;
use txn_effects::Here;

/// The two sites.
#[derive(Drop)]
pub struct Pair {
    from: Site<NotingTables>,
    to: Site<NotingTables>,
}

impl Model for Pair {
    ghost use Rattle.crew_cases.specs.Runs.{Two, AreInARun};

    ghost Value = { Two };

    ghost view = { λ p. record { from = p.from; to = p.to } };

    ghost invariant = { λ p. AreInARun p.from p.to };
}

/// The sites that send to a site, and those that it sends to.
#[derive(Drop)]
struct Parties {
    senders: Items<SiteName>,
    destinations: Items<SiteName>,
}

fn parties_of(alloc: Global, schema: &Schema, name: &SiteName) -> Result<Parties, CaseStop>
    ensures senders { IfOk result (λ parties. parties.senders ≡ senders_of schema.now name.now) }
    ensures destinations { IfOk result (λ parties. parties.destinations ≡ destinations_of schema.now name.now) }
{
    Ok(Parties {
        senders: senders_of(alloc, schema, name)?,
        destinations: destinations_of(alloc, schema, name)?,
    })
}

/// All of the first four tables.
fn here_of(schema: &Schema, name: SiteName) -> Here
    ensures site { result.site ≡ name }
    ensures master { result.is_master ≡ is_master_site schema.now name }
{
    Here {
        site: name,
        is_master: is_master_site(schema, &name),
        tables: TableSet::of(&[0, 1, 2, 3]),
    }
}

/// A new store of a schema.
fn new_store(alloc: Global, schema: &Schema, puts: Arc<Puts>) -> Result<NotingTables, CaseStop>
    ensures schema { IfOk result (λ s. s.tables.schema ≡ schema.now) }
    ensures tables { IfOk result (λ s. s.tables.tables ≡ replicate (length schema.now.tables) []) }
{
    let schema = schema.copy(alloc)?;
    Ok(NotingTables::make(alloc, schema, puts)?)
}

/// A new site of a schema.
fn open(
    alloc: Global,
    schema: &Schema,
    name: SiteName,
    puts: Arc<Puts>,
) -> Result<Site<NotingTables>, CaseStop>
    requires { IsSound schema.now }
    ensures opened { IfOk result (λ site. site ≡ opened schema.now site.here) }
    ensures name { IfOk result (λ site. site.here.site ≡ name) }
    ensures master { IfOk result (λ site. site.here.is_master ≡ is_master_site schema.now site.here.site) }
{
    sound_schemas_have_keys();
    let store = new_store(alloc, schema, puts)?;
    let parties = parties_of(alloc, schema, &name)?;
    let site = Site::make(
        alloc,
        store,
        here_of(schema, name),
        parties.senders.as_slice(),
        parties.destinations.as_slice(),
        &TableSet::below(0),
        Items::new(alloc),
    )?;
    Ok(site)
}

impl Pair {
    /// Two new sites of a schema that breaks no rule, which a master and another site of it are.
    pub fn open(
        alloc: Global,
        schema: &Schema,
        names: (SiteName, SiteName),
        puts: Arc<Puts>,
    ) -> Result<Pair, CaseStop>
        requires { HasShape schema.now }
    {
        let (first, second) = names;
        let Ok(()) = check(schema) else {
            return Err(CaseStop::NoCase);
        };
        if first.is_same(&second) {
            return Err(CaseStop::NoCase);
        }
        two_sites_run();
        let from = open(alloc, schema, first, puts.clone()?)?;
        let to = open(alloc, schema, second, puts)?;
        Ok(Pair { from, to })
    }

    /// A block of the site that writes.
    fn commit(&mut self, alloc: Global, block: &[Statement]) -> Result<(), CaseStop> {
        if self.from.moment() == u64::MAX {
            return Err(CaseStop::NoCase);
        }
        two_sites_run();
        match self.from.commit(alloc, block) {
            Ok(_) => Ok(()),
            Err(_) => Err(CaseStop::NoCase),
        }
    }

    /// The packet of a position comes to the other site.
    fn deliver(&mut self, alloc: Global, position: u64) -> Result<(), CaseStop> {
        two_sites_run();
        let Some(sealed) = self.from.packet(alloc, self.to.name(), position)? else {
            return Err(CaseStop::NoCase);
        };
        let packet = sealed.unseal(alloc)?;
        self.to.accept(packet)?;
        Ok(())
    }

    /// The other site passes for a sender.
    fn apply(&mut self, alloc: Global, origin: &SiteName) -> Result<(), CaseStop> {
        if self.to.moment() == u64::MAX {
            return Err(CaseStop::NoCase);
        }
        two_sites_run();
        match self.to.apply_pass(alloc, origin) {
            Ok(_) => Ok(()),
            Err(_) => Err(CaseStop::Memory),
        }
    }

    /// The site that writes commits each block, and its packet comes to the other one, which passes once it has so many.
    pub fn run(&mut self, alloc: Global, blocks: &[Block], applied: usize) -> Result<(), CaseStop> {
        let origin = *self.from.name();
        for place in 0..blocks.len() {
            self.commit(alloc, &blocks[place].statements)?;
            self.deliver(alloc, place as u64 + 1)?;
            if place + 1 == applied {
                self.apply(alloc, &origin)?;
            }
        }
        Ok(())
    }

    /// The other site, where it can make a pass for the one that writes, and that one's name.
    pub fn into_receiver(self) -> Result<(Site<NotingTables>, SiteName), CaseStop>
        ensures passes { IfOk result (λ receiver. CanPassInAnyOrder receiver.1 receiver.0) }
        ensures few { IfOk result (λ receiver. receiver.0.moment + 1 < 2 ^ 64) }
    {
        two_sites_run();
        let origin = *self.from.name();
        let Pair { from, to } = self;
        drop(from);
        if to.moment() < u64::MAX && is_master_site(to.store().schema(), &origin) {
            Ok((to, origin))
        } else {
            Err(CaseStop::NoCase)
        }
    }
}
