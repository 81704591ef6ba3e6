//! A destination of an outbox.
ghost use Rattle.std.specs.Prelude.{◌≡◌, ◌≢◌, ◌+◌, ◌≤◌, length, map, is_some};
ghost use Rattle.rep_values.specs.declared.name.SiteName.{SiteName};
ghost use Rattle.dependency_index.specs.Dependencies.{room_for};
ghost use Rattle.deferred_queue.specs.Streams.{acked_by};
ghost use Rattle.rep_values.specs.SiteNames.{is_same_site};
ghost use Rattle.site_state.specs.Packets.{count_opened};
ghost use Rattle.site_state.specs.Purges.{acknowledged_by};
ghost use Rattle.site_outbox.specs.DestinationEntries.{new_destination_entry, destination_entry_opened};
ghost use Rattle.site_outbox.specs.Noting.{TokenStreams, AreNoted, Waits, placed, after_one};

use deferred_queue::{Destination, Queue};
use dependency_index::{Index, Tokens};
use rep_schema::Schema;
use rep_values::SiteName;
use schema_names::is_late_master;

/// A destination, and the queue count at which it was opened, none as long as it isn't open.
#[derive(Clone, Copy)]
pub(crate) struct DestinationEntry {
    site: SiteName,
    opened: Option<u64>,
}

impl DestinationEntry {
    /// It is open, unless the site is a late master.
    pub(crate) fn new(schema: &Schema, site: SiteName) -> DestinationEntry
        ensures { result ≡ new_destination_entry schema.now site }
    {
        let opened = if is_late_master(schema, &site) {
            None
        } else {
            Some(0)
        };
        DestinationEntry { site, opened }
    }

    /// Whether it is the destination of a name.
    pub(crate) fn is_to(&self, site: &SiteName) -> bool
        ensures { result ≡ is_same_site self.now.site site.now }
    {
        self.site.0.is_same(&site.0)
    }

    /// Whether it is open.
    pub(crate) fn is_open(&self) -> bool
        ensures { result ≡ is_some self.now.opened }
    {
        self.opened.is_some()
    }

    /// Opens it from a count on, where it is to a site and isn't open yet.
    pub(crate) fn open(&mut self, site: &SiteName, count: u64)
        ensures { self.new ≡ destination_entry_opened site.now count self.old }
    {
        if !self.is_to(site) {
            return;
        }
        if let None = self.opened {
            self.opened = Some(count);
        }
    }

    /// Notes a transaction's tokens at the next position of the stream, and answers the destination; None where it isn't
    /// open. It takes no memory.
    pub(crate) fn note(&self, tokens: &Tokens, index: &mut Index) -> Option<Destination>
        requires { Waits index.old.streams (length tokens.now.list) self.now }
        ensures place { (streams : TokenStreams) → AreNoted index.old.streams streams → result ≡ placed tokens.now.list streams self.now }
        ensures noted { (streams : TokenStreams) → AreNoted index.old.streams streams → AreNoted index.new.streams (after_one self.now tokens.now.list streams) }
        ensures room { (site : SiteName) → self.now.site ≢ site → room_for index.new.streams site ≡ room_for index.old.streams site }
        ensures destinations { map (λ s. s.kept.site) index.new.streams ≡ map (λ s. s.kept.site) index.old.streams }
    {
        match self.opened {
            None => None,
            Some(_) => {
                let position = index.count(&self.site) + 1;
                let dep = index.note(&self.site, position, tokens);
                Some(Destination {
                    site: self.site,
                    dep,
                })
            }
        }
    }

    /// Up to which number of so many it has acknowledged all that it has.
    pub(crate) fn acknowledged(&self, queue: &Queue, count: u64) -> u64
        requires { count_opened self.now.opened + acked_by self.now.site queue.now.marks ≤ count }
        ensures { result ≡ acknowledged_by count (acked_by self.now.site queue.now.marks) self.now.opened }
    {
        match self.opened {
            None => count,
            Some(opened) => opened + queue.acked(&self.site),
        }
    }
}
