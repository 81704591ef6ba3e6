//! What a site notes of its changed rows.
ghost use Rattle.std.specs.Prelude.{◌≡◌};
ghost use Rattle.site_state.specs.Purges.{site_purge_log, purge_log_answer};

use super::Site;
use change_logs::Notes;
use rep_schema::RowStore;

impl<R: RowStore> Site<R> {
    /// The logs of the site's tables, and its snapshots.
    pub fn notes(&self) -> &Notes
        ensures logs { result.now.logs ≡ self.now.logs }
        ensures snapshots { result.now.snapshots ≡ self.now.snapshots }
    {
        &self.notes
    }

    /// Purges the log of a table up to the present moment, and answers how many keys that took. It takes no memory.
    pub fn purge_log(&mut self, table: u32) -> u64
        ensures site { self.new ≡ site_purge_log table self.old }
        ensures count { result ≡ purge_log_answer table self.old }
    {
        self.notes.purge_log(table, self.moment)
    }
}
