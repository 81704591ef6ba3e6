//! A site of the cases.
ghost use Rattle.std.specs.Prelude.{◌≡◌, [], length, replicate, IfOk};
ghost use Rattle.rep_schema.specs.Shape.{HasShape};
ghost use Rattle.rep_schema.specs.Sites.{senders_of, destinations_of, is_master_site};
ghost use Rattle.site_state.specs.Fits.{SchemaIsKeyed};

use case_reader::CaseStop;
use local_txn::{fill_base_rows, put_base_row, sound_schemas_fill_freely};
use master_join::copy_site;
use rep_calls::PastEntry;
use rep_laws::sound_schemas_have_keys;
use rep_lists::{Copies, Items, NoMemory};
use rep_schema::{RowStore, Schema, TableSet};
use rep_values::{Literal, Refusal, SiteName, TableName};
use row_tables::ListTables;
use schema_names::{destinations_of, first_master, is_master_site, senders_of};
use schema_rules::check;
use site_engine::Site;
use std::alloc::Global;
use txn_effects::Here;

/// A row that each site has when it is opened.
#[derive(Drop)]
pub struct BaseRow {
    pub table: TableName,
    pub values: Items<Literal>,
}

/// The sites that send to a site, and those that it sends to.
#[derive(Drop)]
pub struct Parties {
    pub senders: Items<SiteName>,
    pub destinations: Items<SiteName>,
}

/// A site, and those with which it exchanges packets.
#[derive(Drop)]
pub struct Member {
    pub name: SiteName,
    pub parties: Parties,
    pub site: Site<ListTables>,
}

fn parties_of(alloc: Global, schema: &Schema, name: &SiteName) -> Result<Parties, CaseStop>
    ensures senders { IfOk result (λ parties. parties.senders ≡ senders_of schema.now name.now) }
    ensures destinations { IfOk result (λ parties. parties.destinations ≡ destinations_of schema.now name.now) }
{
    Ok(Parties {
        senders: senders_of(alloc, schema, name)?,
        destinations: destinations_of(alloc, schema, name)?,
    })
}

fn put_row(alloc: Global, store: &mut ListTables, row: &BaseRow) -> Result<(), CaseStop>
    requires { HasShape store.old.schema }
    ensures { store.new.schema ≡ store.old.schema }
{
    match put_base_row(alloc, store, &row.table, row.values.as_slice()) {
        Ok(()) => Ok(()),
        Err(Refusal::Memory) => Err(CaseStop::Memory),
        Err(_) => Err(CaseStop::NoCase),
    }
}

fn put_rows(alloc: Global, store: &mut ListTables, rows: &[BaseRow]) -> Result<(), CaseStop>
    requires { HasShape store.old.schema }
    ensures { store.new.schema ≡ store.old.schema }
{
    for row in rows {
        put_row(alloc, store, row)?;
    }
    Ok(())
}

/// All of the first four tables.
fn here_of(schema: &Schema, name: SiteName) -> Here
    ensures site { result.site ≡ name }
    ensures master { result.is_master ≡ is_master_site schema.now name }
{
    Here {
        site: name,
        is_master: is_master_site(schema, &name),
        tables: TableSet::of(&[0, 1, 2, 3]),
    }
}

/// A store with the base rows. Where the schema breaks a rule there is no case.
fn base_store(alloc: Global, schema: &Schema, rows: &[BaseRow]) -> Result<ListTables, CaseStop>
    requires { HasShape schema.now }
    ensures keyed { IfOk result (λ store. SchemaIsKeyed store.schema) }
    ensures schema { IfOk result (λ store. store.schema ≡ schema.now) }
{
    let Ok(()) = check(schema) else {
        return Err(CaseStop::NoCase);
    };
    sound_schemas_have_keys();
    sound_schemas_fill_freely();
    let mut store = ListTables::make(alloc, schema.copy(alloc)?)?;
    put_rows(alloc, &mut store, rows)?;
    if let Some(master) = first_master(schema) {
        fill_base_rows(&mut store, &master)?;
    }
    Ok(store)
}

/// A store without rows.
fn empty_store(alloc: Global, schema: &Schema) -> Result<ListTables, NoMemory>
    ensures schema { IfOk result (λ store. store.schema ≡ schema.now) }
    ensures tables { IfOk result (λ store. store.tables ≡ replicate (length schema.now.tables) []) }
{
    let copied = schema.copy(alloc)?;
    ListTables::make(alloc, copied)
}

impl Member {
    /// The site of this name over a store.
    fn of(
        alloc: Global,
        schema: &Schema,
        store: ListTables,
        name: SiteName,
    ) -> Result<Member, CaseStop>
        requires keyed { SchemaIsKeyed store.schema }
        requires schema { store.schema ≡ schema.now }
    {
        let parties = parties_of(alloc, schema, &name)?;
        let site = Site::make(
            alloc,
            store,
            here_of(schema, name),
            parties.senders.as_slice(),
            parties.destinations.as_slice(),
            &TableSet::below(0),
            Items::new(alloc),
        )?;
        Ok(Member {
            name,
            parties,
            site,
        })
    }

    /// The site of this name, with these rows. Where the schema breaks a rule there is no case.
    pub fn open(
        alloc: Global,
        schema: &Schema,
        rows: &[BaseRow],
        name: SiteName,
    ) -> Result<Member, CaseStop>
        requires { HasShape schema.now }
    {
        let store = base_store(alloc, schema, rows)?;
        Member::of(alloc, schema, store, name)
    }

    /// The site of this name, with the rows that another one has now and with these first numbers.
    pub fn copy_of(
        alloc: Global,
        source: &Member,
        name: SiteName,
        firsts: &[PastEntry],
    ) -> Result<Member, CaseStop> {
        let schema = source.site.store().schema();
        let store = empty_store(alloc, schema)?;
        let parties = parties_of(alloc, schema, &name)?;
        let site = copy_site(
            alloc,
            &source.site,
            store,
            here_of(schema, name),
            parties.senders.as_slice(),
            parties.destinations.as_slice(),
            firsts,
        )?;
        Ok(Member {
            name,
            parties,
            site,
        })
    }
}
