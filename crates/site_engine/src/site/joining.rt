//! What a site is asked and told where a master joins.
ghost use Rattle.std.specs.Prelude.{◌≡◌, [], length};
ghost use Rattle.site_state.specs.Journal.{finished};
ghost use Rattle.site_state.specs.Streams.{count_of};
ghost use Rattle.site_state.specs.Joining.{site_open, site_first};

use super::Site;
use rep_schema::RowStore;
use rep_values::SiteName;
use sender_inbox::{inbox_from, place_from};

impl<R: RowStore> Site<R> {
    /// Whether the site is a master.
    pub fn is_master(&self) -> bool
        ensures { result ≡ self.now.here.is_master }
    {
        self.here.is_master
    }

    /// How many transactions the site has queued so far, purged ones among them.
    pub fn queue_count(&self) -> u64
        ensures { result ≡ count_of self.now }
    {
        self.outbox.count()
    }

    /// Whether a position of a site is finished here.
    pub fn is_finished(&self, origin: &SiteName, position: u64) -> bool
        ensures { result ≡ finished origin.now self.now.journal position }
    {
        match inbox_from(&self.inboxes, origin) {
            Some(inbox) => inbox.is_finished(position),
            None => false,
        }
    }

    /// Opens the stream to a destination: it gets each transaction that is queued from now on. Where it is open already, or the
    /// site is no destination, nothing changes. It takes no memory.
    pub fn open_to(&mut self, site: &SiteName)
        ensures { self.new ≡ site_open site.now self.old }
    {
        self.outbox.open(site);
    }

    /// Sets the first number of a sender: so much of its queue is in the rows that the site begins with. Where it is no sender,
    /// nothing changes. It is asked only before anything happened at the site, as a past is told by first numbers.
    pub fn set_first(&mut self, origin: &SiteName, number: u64)
        requires { self.old.journal ≡ [] }
        ensures { self.new ≡ site_first origin.now number self.old }
    {
        if let Some(place) = place_from(&self.inboxes, origin) {
            let inbox = &mut self.inboxes[place];
            inbox.set_first(number);
        }
    }
}
