//! Between which sites there are directions.
ghost use Rattle.std.specs.Prelude.{◌≡◌, ◌++◌, map, filter, OnOk, IfOk};
ghost use Rattle.rep_schema.specs.Sites.{are_linked, linked_pairs};

use crate::neighbours::sends_to;
use rep_lists::{Items, NoMemory};
use rep_schema::{Schema, SiteEntry};
use rep_values::SiteName;
use std::alloc::Global;

/// Whether one of two sites sends to the other.
fn are_linked(one: &SiteEntry, other: &SiteEntry) -> bool
    ensures { result ≡ are_linked one.now other.now }
{
    sends_to(one, other) || sends_to(other, one)
}

/// Adds the pairs of a site with those that it is linked to.
fn push_pairs(
    pairs: &mut Vec<(SiteName, SiteName)>,
    one: &SiteEntry,
    sites: &[SiteEntry],
) -> Result<(), NoMemory>
    ensures { OnOk result (pairs.new.items ≡ pairs.old.items ++ map (λ other. (one.now.name, other.name)) (filter (are_linked one.now) sites.now)) }
{
    for other in sites {
        if are_linked(one, other) {
            pairs.push((one.name, other.name))?;
        }
    }
    Ok(())
}

/// The pairs of sites of which one sends to the other, each in both orders: those that begin with the first declared site
/// come first.
pub fn linked_pairs(alloc: Global, schema: &Schema) -> Result<Items<(SiteName, SiteName)>, NoMemory>
    ensures { IfOk result (λ pairs. pairs ≡ linked_pairs schema.now.sites) }
{
    let sites = schema.sites.as_slice();
    let mut pairs = Vec::new(alloc);
    for one in sites {
        push_pairs(&mut pairs, one, sites)?;
    }
    Ok(Items::from_vec(pairs))
}
