//! The destinations of an outbox, in the order of its queue's marks.
ghost use Rattle.std.specs.Prelude.{◌≡◌, ◌-◌, ◌+◌, ◌≤◌, [], length, map, is_some, IfOk, vec_len, vec_capacity};
ghost use Rattle.std.specs.List.{AllByRecursion, list_any};
ghost use Rattle.deferred_queue.specs.Streams.{acked_by};
ghost use Rattle.rep_values.specs.SiteNames.{is_same_site};
ghost use Rattle.site_state.specs.Packets.{count_opened};
ghost use Rattle.site_state.specs.Purges.{acknowledged_by_all};
ghost use Rattle.site_outbox.specs.DestinationEntries.{new_destination_entry, destination_entry_opened, with_mark, EntriesApart};
ghost use Rattle.site_outbox.specs.Noting.{TokenStreams, AreNoted, Waits, Notes};

use crate::destination_entry::DestinationEntry;
use deferred_queue::{Destination, Queue};
use dependency_index::{Index, Tokens};
use rep_lists::NoMemory;
use rep_schema::Schema;
use rep_values::SiteName;
use std::alloc::Global;

/// An outlet to each of these sites.
pub(crate) fn new_each(
    alloc: Global,
    schema: &Schema,
    sites: &[SiteName],
) -> Result<Vec<DestinationEntry>, NoMemory>
    ensures { IfOk result (λ outlets. outlets.items ≡ map (new_destination_entry schema.now) sites.now) }
{
    let outlets = sites
        .iter()
        .map(|site| DestinationEntry::new(schema, *site))
        .collect(alloc)?;
    Ok(outlets)
}

/// Whether one is to a site.
pub(crate) fn is_among(outlets: &[DestinationEntry], site: &SiteName) -> bool
    ensures { result ≡ list_any (λ o. is_same_site o.site site.now) outlets.now }
{
    outlets.iter().any(|outlet| outlet.is_to(site))
}

/// Whether one is open.
pub(crate) fn has_open(outlets: &[DestinationEntry]) -> bool
    ensures { result ≡ list_any (λ o. is_some o.opened) outlets.now }
{
    outlets.iter().any(|outlet| outlet.is_open())
}

/// Opens those to a site from a count on, where they aren't open yet.
pub(crate) fn open_each(outlets: &mut [DestinationEntry], site: &SiteName, count: u64)
    ensures { outlets.new ≡ map (destination_entry_opened site.now count) outlets.old }
{
    for outlet in outlets.iter_mut() {
        outlet.open(site, count);
    }
}

/// Notes a transaction's tokens at the next position of the stream to each outlet that is open, and lists these
/// destinations. It takes no memory.
pub(crate) fn note_each(
    outlets: &[DestinationEntry],
    tokens: &Tokens,
    index: &mut Index,
    to: &mut Vec<Destination>,
)
    requires apart { EntriesApart outlets.now }
    requires waiting { AllByRecursion (Waits index.old.streams (length tokens.now.list)) outlets.now }
    requires noted { (streams : TokenStreams) × AreNoted index.old.streams streams }
    requires empty { to.old.items ≡ [] }
    requires room { length outlets.now ≤ vec_capacity to.old - vec_len to.old }
    ensures notes { (streams : TokenStreams) → AreNoted index.old.streams streams → Notes outlets.now tokens.now.list streams index.new.streams to.new.items }
    ensures destinations { map (λ s. s.kept.site) index.new.streams ≡ map (λ s. s.kept.site) index.old.streams }
{
    for outlet in outlets {
        if let Some(destination) = outlet.note(tokens, index) {
            to.push_reserved(destination);
        }
    }
}

/// Up to which number of so many each has acknowledged all that it has.
pub(crate) fn acknowledged_by_all(outlets: &[DestinationEntry], queue: &Queue, count: u64) -> u64
    requires { AllByRecursion (λ o. count_opened o.opened + acked_by o.site queue.now.marks ≤ count) outlets.now }
    ensures { result ≡ acknowledged_by_all count (map (with_mark queue.now.marks) outlets.now) }
{
    let mut least = count;
    for outlet in outlets {
        least = least.min(outlet.acknowledged(queue, count));
    }
    least
}
