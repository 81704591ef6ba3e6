//! The newest entries of a journal.
ghost use Rattle.std.specs.Prelude.{◌≡◌, ◌+◌, ◌<◌, ◌≤◌, ◌^◌, ◌∷◌, [], length, take, drop};
ghost use Rattle.site_state.specs.Passes.{is_done, is_error};
ghost use Rattle.rep_lists.specs.Counting.{count_where};
ghost use Rattle.site_rounds.specs.Parts.{finished_in};

use crate::Journalled;
use crate::passed::NOTHING;
use site_state::{Entry, PassCount};

/// The entry that stands so many behind the newest.
pub(crate) fn entry_behind<J: Journalled>(site: &J, behind: u64) -> &Entry
    requires { behind < length (J.told_of site.now).journal }
    ensures { drop behind (J.told_of site.now).journal ≡ result.now ∷ drop (behind + 1) (J.told_of site.now).journal }
{
    match site.entry(site.entry_count() - 1 - behind) {
        Some(entry) => entry,
        None => unreachable!(),
    }
}

/// What was finished, with what one entry finished more.
fn with_entry(count: PassCount, entry: &Entry) -> PassCount
    requires done { count.done + 1 < 2 ^ 64 }
    requires errors { count.errors + 1 < 2 ^ 64 }
    ensures done { result.done ≡ count.done + count_where is_done (entry.now ∷ []) }
    ensures errors { result.errors ≡ count.errors + count_where is_error (entry.now ∷ []) }
{
    match entry {
        Entry::Done { .. } => PassCount {
            done: count.done + 1,
            errors: count.errors,
        },
        Entry::Error { .. } => PassCount {
            done: count.done,
            errors: count.errors + 1,
        },
        Entry::Local { .. }
        | Entry::Executed { .. }
        | Entry::Dropped { .. }
        | Entry::Refreshed { .. } => count,
    }
}

/// How many transactions the newest entries, so many, finished.
pub fn finished_by_newest<J: Journalled>(site: &J, count: u64) -> PassCount
    requires { count ≤ length (J.told_of site.now).journal }
    ensures { result ≡ finished_in (take count (J.told_of site.now).journal) }
{
    let mut finished = NOTHING.count;
    for behind in 0..count {
        finished = with_entry(finished, entry_behind(site, behind));
    }
    finished
}
