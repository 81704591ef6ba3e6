//! Which sites are masters.
ghost use Rattle.std.specs.Prelude.{◌≡◌, ◌&&◌, option_map};
ghost use Rattle.rep_schema.specs.Shape.{is_master};
ghost use Rattle.rep_schema.specs.Named.{is_site};
ghost use Rattle.rep_schema.specs.Sites.{first_master, is_master_site, is_late_master};

use rep_schema::{Schema, SiteEntry};
use rep_values::SiteName;

/// Whether an entry is a master site of this name.
fn is_master_named(entry: &SiteEntry, name: &SiteName) -> bool
    ensures { result ≡ (is_site name.now entry.now && is_master entry.now) }
{
    entry.name.is_same(name) && entry.master.is_none()
}

/// Whether an entry is a late master site of this name.
fn is_late_named(entry: &SiteEntry, name: &SiteName) -> bool
    ensures { result ≡ (is_site name.now entry.now && (is_master entry.now && entry.now.late)) }
{
    entry.name.is_same(name) && (entry.master.is_none() && entry.late)
}

/// Whether a site of this name is a master site of the schema, there from the start or late.
pub fn is_master_site(schema: &Schema, name: &SiteName) -> bool
    ensures { result ≡ is_master_site schema.now name.now }
{
    schema
        .sites
        .iter()
        .any(|entry| is_master_named(entry, name))
}

/// Whether a site of this name is a master site of the schema that joins later.
pub fn is_late_master(schema: &Schema, name: &SiteName) -> bool
    ensures { result ≡ is_late_master schema.now name.now }
{
    schema.sites.iter().any(|entry| is_late_named(entry, name))
}

/// The name of the first declared of the master sites that are there from the start.
pub fn first_master(schema: &Schema) -> Option<SiteName>
    ensures { result ≡ option_map (λ entry. entry.name) (first_master schema.now) }
{
    let found = schema.sites.iter().find(|entry| entry.is_early_master());
    found.map(|entry| entry.name)
}
