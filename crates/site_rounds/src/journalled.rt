//! Sites whose journal and errors are read, whatever they apply.
ghost use Rattle.std.specs.Prelude.{◌≡◌, length, reverse, slice_get, option_copied};
ghost use Rattle.error_queue.specs.ErrorLists.{in_order};
ghost use Rattle.site_state.specs.State.{SiteState};
ghost use Rattle.site_state.specs.Errors.{errors_of};
ghost use Rattle.proc_state.specs.State.{as_site};

use error_queue::Errors;
use page_tables::PageTables;
use proc_calls::ProcSite;
use site_engine::Site;
use site_state::Entry;

/// A site with a journal, and with the errors that stand by it.
pub trait Journalled {
    // What contracts see: the journal and the senders, as those of a site.
    ghost told_of: { Self → SiteState };

    /// How many entries the journal has.
    fn entry_count(&self) -> u64
        ensures { result ≡ length (told_of self.now).journal };

    /// The entry at a place of the journal, the oldest at 0; None exactly where the place is at or behind its end.
    fn entry(&self, place: u64) -> Option<&Entry>
        ensures { option_copied result ≡ slice_get (reverse (told_of self.now).journal) place };

    /// The errors that stand.
    fn standing(&self) -> &Errors
        ensures { in_order result.now.lists ≡ errors_of (told_of self.now) };
}

impl Journalled for Site<PageTables> {
    ghost told_of = { λ x. x };

    fn entry_count(&self) -> u64 {
        self.journal_len()
    }

    fn entry(&self, place: u64) -> Option<&Entry> {
        self.journal(place)
    }

    fn standing(&self) -> &Errors {
        self.errors()
    }
}

impl Journalled for ProcSite {
    ghost told_of = { λ x. as_site x };

    fn entry_count(&self) -> u64 {
        self.journal_len()
    }

    fn entry(&self, place: u64) -> Option<&Entry> {
        self.journal(place)
    }

    fn standing(&self) -> &Errors {
        self.errors()
    }
}
