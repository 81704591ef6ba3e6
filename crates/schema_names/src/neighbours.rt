//! Which site sends to which.
ghost use Rattle.std.specs.Prelude.{◌≡◌, List, [], map, filter, option_copied, IfOk};
ghost use Rattle.rep_schema.specs.Sites.{sends_to, names_of, senders_of, destinations_of, is_among};

use crate::find_site;
use rep_lists::{Items, NoMemory};
use rep_schema::{Schema, SiteEntry};
use rep_values::SiteName;
use std::alloc::Global;

/// A master sends to the other masters, a snapshot site to its master.
pub fn sends_to(from: &SiteEntry, to: &SiteEntry) -> bool
    ensures { result ≡ sends_to from.now to.now }
{
    if to.master.is_some() {
        return false;
    }
    match &from.master {
        None => !to.name.is_same(&from.name),
        Some(master) => to.name.is_same(master),
    }
}

/// The names of those that send to a site.
fn names_to(alloc: Global, sites: &[SiteEntry], to: &SiteEntry) -> Result<Items<SiteName>, NoMemory>
    ensures { IfOk result (λ names. names ≡ names_of (filter (λ from. sends_to from to.now) sites.now)) }
{
    let mut names = Items::new(alloc);
    for from in sites {
        if sends_to(from, to) {
            names.push(from.name)?;
        }
    }
    Ok(names)
}

/// The names of those that a site sends to.
fn names_from(
    alloc: Global,
    sites: &[SiteEntry],
    from: &SiteEntry,
) -> Result<Items<SiteName>, NoMemory>
    ensures { IfOk result (λ names. names ≡ names_of (filter (sends_to from.now) sites.now)) }
{
    let mut names = Items::new(alloc);
    for to in sites {
        if sends_to(from, to) {
            names.push(to.name)?;
        }
    }
    Ok(names)
}

/// Whether one of those that send to a site has this name.
fn has_sender(sites: &[SiteEntry], to: &SiteEntry, origin: &SiteName) -> bool
    ensures { result ≡ is_among (names_of (filter (λ from. sends_to from to.now) sites.now)) origin.now }
{
    sites
        .iter()
        .filter(|from| sends_to(from, to))
        .map(|from| from.name)
        .any(|name| name.is_same(origin))
}

/// Whether the schema gives the site of this name that of the other as a sender.
pub fn gets_from(schema: &Schema, site: &SiteName, origin: &SiteName) -> bool
    ensures { result ≡ is_among (senders_of schema.now site.now) origin.now }
{
    let sites = schema.sites.as_slice();
    match find_site(sites, site) {
        Some(to) => has_sender(sites, to, origin),
        None => false,
    }
}

/// The sites that send to the site of this name, as declared.
pub fn senders_of(
    alloc: Global,
    schema: &Schema,
    site: &SiteName,
) -> Result<Items<SiteName>, NoMemory>
    ensures { IfOk result (λ names. names ≡ senders_of schema.now site.now) }
{
    let sites = schema.sites.as_slice();
    match find_site(sites, site) {
        Some(to) => names_to(alloc, sites, to),
        None => Ok(Items::new(alloc)),
    }
}

/// The sites that the site of this name sends to, as declared.
pub fn destinations_of(
    alloc: Global,
    schema: &Schema,
    site: &SiteName,
) -> Result<Items<SiteName>, NoMemory>
    ensures { IfOk result (λ names. names ≡ destinations_of schema.now site.now) }
{
    let sites = schema.sites.as_slice();
    match find_site(sites, site) {
        Some(from) => names_from(alloc, sites, from),
        None => Ok(Items::new(alloc)),
    }
}
