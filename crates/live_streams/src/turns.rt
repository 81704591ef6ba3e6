//! What one turn does to a site, and what it tells.
ghost use Rattle.std.specs.Prelude.{◌≡◌, ◌==◌, ◌∷◌, List, true, cond, None, unwrap_or, IfOk, IfSome, OnOk, OnErr};
ghost use Rattle.site_state.specs.declared.entry.Entry.{Entry as EntryValue};
ghost use Rattle.site_state.specs.Ready.{is_ready};
ghost use Rattle.site_state.specs.Passes.{site_apply};
ghost use Rattle.site_state.specs.Commits.{site_commit, commit_answer};
ghost use Rattle.live_laws.specs.declared.turn.Reply.TheVariants as reply;
ghost use Rattle.live_laws.specs.Turns.{at_number, reply_by, applied_turn};
ghost use Rattle.live_streams.specs.Newest.{turn_of};
ghost use Rattle.live_streams.specs.Quiet.{OriginIsQuiet};

use live_laws::{Block, LiveTurn, Reply};
use rep_lists::NoMemory;
use rep_schema::RowStore;
use rep_values::{Refusal, SiteName};
use site_engine::Site;
use site_state::Entry;
use std::alloc::Global;
use txn_effects::LocalStop;

/// The turn of which an entry tells, where it finishes a position that arrived.
fn turn_of(entry: &Entry) -> Option<LiveTurn>
    ensures { result ≡ turn_of entry.now }
{
    match entry {
        Entry::Done {
            origin,
            position,
            ..
        } => Some(LiveTurn::Applied {
            origin: *origin,
            position: *position,
            call: 0,
            error: None,
        }),
        Entry::Error {
            origin,
            position,
            call,
            error,
            ..
        } => Some(LiveTurn::Applied {
            origin: *origin,
            position: *position,
            call: *call,
            error: Some(*error),
        }),
        Entry::Local { .. }
        | Entry::Executed { .. }
        | Entry::Dropped { .. }
        | Entry::Refreshed { .. } => None,
    }
}

/// The turn of which the newest entry of a site's journal tells, where there is one.
fn newest_turn<R: RowStore>(site: &Site<R>) -> Option<LiveTurn>
    ensures { (newest : EntryValue) (older : List EntryValue) → site.now.journal ≡ newest ∷ older → result ≡ turn_of newest }
{
    let place = site.journal_len().checked_sub(1)?;
    let newest = site.journal(place)?;
    turn_of(newest)
}

/// The least position of an origin that is ready.
pub(crate) fn lowest_ready<R: RowStore>(site: &Site<R>, origin: &SiteName) -> Option<u64>
    ensures ready { IfSome result (λ position. is_ready origin.now position site.now ≡ true) }
    ensures quiet { result ≡ None → OriginIsQuiet origin.now site.now }
{
    site.arrivals_are_from_one(origin);
    let lowest = site.lowest_ready(origin, 0);
    lowest
}

/// Applies a position that is ready, and answers its turn.
pub(crate) fn apply_ready<R: RowStore>(
    site: &mut Site<R>,
    alloc: Global,
    origin: &SiteName,
    position: u64,
) -> Result<LiveTurn, NoMemory>
    requires { is_ready origin.now position site.old ≡ true }
    ensures ok { OnOk result (site.new ≡ site_apply origin.now position site.old) }
    ensures turn { IfOk result (λ turn. turn ≡ applied_turn origin.now position site.old) }
    ensures err { OnErr result (site.new ≡ site.old) }
{
    site.apply_one(alloc, origin, position)?;
    match newest_turn(site) {
        Some(turn) => Ok(turn),
        None => unreachable!(),
    }
}

/// The line of a statement of a block, by its number from 1; 0 where it has none.
fn line_of(lines: &[u32], statement: u32) -> u32
    ensures { result ≡ unwrap_or (at_number statement lines.now) 0 }
{
    let Some(place) = statement.checked_sub(1) else {
        return 0;
    };
    match lines.get(place as usize) {
        Some(line) => *line,
        None => 0,
    }
}

/// The reply to a block that is queued under a number, 0 where no row changed.
fn queued(number: u64) -> Reply
    ensures { result ≡ cond (number == 0) reply.Nothing (reply.Commit number) }
{
    if number == 0 {
        Reply::Nothing
    } else {
        Reply::Commit(number)
    }
}

/// Commits a block, and answers what its session is told. Where the block is refused, the site is as before.
pub(crate) fn commit_block<R: RowStore>(
    site: &mut Site<R>,
    alloc: Global,
    block: &Block,
) -> Result<Reply, NoMemory>
    ensures ok { OnOk result (site.new ≡ site_commit block.now.statements site.old) }
    ensures reply { IfOk result (λ reply. reply ≡ reply_by block.now.lines (commit_answer block.now.statements site.old)) }
    ensures err { OnErr result (site.new ≡ site.old) }
{
    // No machine makes so many commits.
    if site.moment() == u64::MAX {
        return Err(NoMemory);
    }
    match site.commit(alloc, block.statements.as_slice()) {
        Ok(number) => Ok(queued(number)),
        Err(LocalStop { statement, refusal }) => {
            if let Refusal::Memory = refusal {
                return Err(NoMemory);
            }
            Ok(Reply::Refused {
                line: line_of(block.lines.as_slice(), statement),
                refusal,
            })
        }
    }
}
