//! The calls of a site that an origin or a position names, and those of a site alone.

use crate::packets::last_number;
use crate::told::{Told, push_error, push_seen, refused, told};
use crate::works::{WorkAnswer, apply_by_work, settle_newest};
use case_reader::{CaseStop, Words, push_name, read_past};
use master_join::unfinished;
use rep_calls::Statement;
use rep_lists::NoMemory;
use rep_values::{ApplyError, SiteName};
use row_tables::ListTables;
use site_engine::Site;
use site_state::{Applied, Why};
use std::alloc::Global;

/// A space, and the number of a block, or `none` where no row changed.
fn push_block(out: &mut String, alloc: Global, number: u64) -> Result<(), NoMemory> {
    if number == 0 {
        out.push_str(" none")?;
        return Ok(());
    }
    out.push_str(&format!(in alloc; " {number}")?)?;
    Ok(())
}

/// `commit SITE NUMBER`, or `commit SITE none` where no row changed.
fn told_commit(alloc: Global, name: &SiteName, number: u64) -> Told {
    let mut out = format!(in alloc; "commit")?;
    push_name(&mut out, &name.0)?;
    push_block(&mut out, alloc, number)?;
    Ok(Some(out))
}

/// Which block it was, or why it was refused.
pub fn commit(
    alloc: Global,
    site: &mut Site<ListTables>,
    name: &SiteName,
    statements: &[Statement],
) -> Told {
    if site.moment() == u64::MAX {
        return Err(CaseStop::NoCase);
    }
    match site.commit(alloc, statements) {
        Ok(number) => told_commit(alloc, name, number),
        Err(stop) => refused(alloc, stop.statement, &stop.refusal),
    }
}

/// Nothing is told.
fn set_clock(site: &mut Site<ListTables>, words: &mut Words) -> Told {
    site.set_clock(last_number(words)?);
    Ok(None)
}

/// Nothing is told.
fn begin(site: &mut Site<ListTables>, words: &mut Words) -> Told {
    words.end()?;
    if site.moment() == u64::MAX {
        return Err(CaseStop::NoCase);
    }
    site.begin_pass();
    Ok(None)
}

/// Whether the newest entry is one that can be sorted.
fn settle(alloc: Global, site: &mut Site<ListTables>, words: &mut Words) -> Told {
    words.end()?;
    let word = if settle_newest(alloc, site)? {
        "settled"
    } else {
        "not settled"
    };
    told(alloc, word)
}

/// How many transactions are let go of.
fn purge(alloc: Global, site: &mut Site<ListTables>, words: &mut Words) -> Told {
    words.end()?;
    let count = site.purge();
    Ok(Some(format!(in alloc; "purged {count}")?))
}

/// What the site has seen of the masters among its senders.
fn seen(alloc: Global, site: &Site<ListTables>, words: &mut Words) -> Told {
    words.end()?;
    let past = site.past(alloc)?;
    let mut out = format!(in alloc; "seen")?;
    push_seen(&mut out, alloc, past.as_slice())?;
    Ok(Some(out))
}

/// What hinders a join at the site, of each origin its last position given.
fn hindered(alloc: Global, site: &Site<ListTables>, words: &mut Words) -> Told {
    let last = read_past(alloc, words)?;
    let count = unfinished(site, last.as_slice());
    Ok(Some(format!(in alloc; "unfinished {count}")?))
}

/// Nothing is told.
fn open_to(site: &mut Site<ListTables>, destination: &SiteName, words: &Words) -> Told {
    words.end()?;
    site.open_to(destination);
    Ok(None)
}

/// How much of an origin's queue was in the rows that were copied.
fn first(alloc: Global, site: &Site<ListTables>, origin: &SiteName, words: &Words) -> Told {
    words.end()?;
    let number = site.first_number(origin);
    Ok(Some(format!(in alloc; "first {number}")?))
}

fn pass(alloc: Global, site: &mut Site<ListTables>, origin: &SiteName, words: &Words) -> Told {
    words.end()?;
    if site.moment() == u64::MAX {
        return Err(CaseStop::NoCase);
    }
    let count = site.apply_pass(alloc, origin)?;
    let low = site.mark(origin);
    Ok(Some(format!(in alloc;
        "pass done {} errors {} low {low}",
        count.done, count.errors
    )?))
}

/// Up to which number all of an origin's blocks are covered.
fn covered(alloc: Global, site: &Site<ListTables>, origin: &SiteName, words: &Words) -> Told {
    words.end()?;
    let number = site.covered(origin);
    Ok(Some(format!(in alloc; "covered {number}")?))
}

fn word_of(why: Why) -> &'static str {
    match why {
        Why::Finished => "Finished",
        Why::NotArrived => "NotArrived",
        Why::NotReady => "NotReady",
    }
}

fn told_error(alloc: Global, error: &ApplyError) -> Told {
    let mut out = format!(in alloc; "Error")?;
    push_error(&mut out, error)?;
    Ok(Some(out))
}

fn told_stale(alloc: Global, why: Why) -> Told {
    let word = word_of(why);
    Ok(Some(format!(in alloc; "Stale {word}")?))
}

fn apply(alloc: Global, site: &mut Site<ListTables>, origin: &SiteName, position: u64) -> Told {
    match site.apply_one(alloc, origin, position)? {
        Applied::Done => told(alloc, "Done"),
        Applied::Error(error) => told_error(alloc, &error),
        Applied::Stale(why) => told_stale(alloc, why),
    }
}

fn work(alloc: Global, site: &mut Site<ListTables>, origin: &SiteName, position: u64) -> Told {
    match apply_by_work(alloc, site, origin, position)? {
        WorkAnswer::Applied(Applied::Done) => told(alloc, "Done"),
        WorkAnswer::Applied(Applied::Error(error)) => told_error(alloc, &error),
        WorkAnswer::Applied(Applied::Stale(why)) => told_stale(alloc, why),
        WorkAnswer::Unique => told(alloc, "Unique"),
    }
}

fn stale(alloc: Global, site: &Site<ListTables>, origin: &SiteName, position: u64) -> Told {
    match site.stale(origin, position) {
        Some(why) => told(alloc, word_of(why)),
        None => told(alloc, "ready"),
    }
}

fn lowest(alloc: Global, site: &Site<ListTables>, origin: &SiteName, above: u64) -> Told {
    match site.lowest_ready(origin, above) {
        Some(position) => Ok(Some(format!(in alloc; "lowest {position}")?)),
        None => told(alloc, "lowest none"),
    }
}

fn execute(alloc: Global, site: &mut Site<ListTables>, origin: &SiteName, position: u64) -> Told {
    if site.moment() == u64::MAX {
        return Err(CaseStop::NoCase);
    }
    match site.execute_error(alloc, origin, position) {
        Ok(()) => told(alloc, "executed"),
        Err(refusal) => refused(alloc, 0, &refusal),
    }
}

fn drop_error(
    alloc: Global,
    site: &mut Site<ListTables>,
    origin: &SiteName,
    position: u64,
) -> Told {
    if site.moment() == u64::MAX {
        return Err(CaseStop::NoCase);
    }
    match site.delete_error(origin, position) {
        Ok(()) => told(alloc, "dropped"),
        Err(refusal) => refused(alloc, 0, &refusal),
    }
}

/// What the call of this kind answers that an origin and a position name, which comes next.
fn at_position(
    alloc: Global,
    site: &mut Site<ListTables>,
    origin: &SiteName,
    kind: &[u8],
    words: &mut Words,
) -> Told {
    let position = last_number(words)?;
    match kind {
        b"apply" => apply(alloc, site, origin, position),
        b"work" => work(alloc, site, origin, position),
        b"stale" => stale(alloc, site, origin, position),
        b"lowest" => lowest(alloc, site, origin, position),
        b"execute" => execute(alloc, site, origin, position),
        b"drop-error" => drop_error(alloc, site, origin, position),
        _ => Err(CaseStop::NoCase),
    }
}

/// What the call of this kind answers that an origin or a destination names, which comes next.
fn from_origin(alloc: Global, site: &mut Site<ListTables>, kind: &[u8], words: &mut Words) -> Told {
    let origin = words.site()?;
    match kind {
        b"pass" => pass(alloc, site, &origin, words),
        b"covered" => covered(alloc, site, &origin, words),
        b"first" => first(alloc, site, &origin, words),
        b"open" => open_to(site, &origin, words),
        _ => at_position(alloc, site, &origin, kind, words),
    }
}

/// What a call of this kind answers, of the site alone or with an origin.
pub fn called(alloc: Global, site: &mut Site<ListTables>, kind: &[u8], words: &mut Words) -> Told {
    match kind {
        b"clock" => set_clock(site, words),
        b"begin" => begin(site, words),
        b"purge" => purge(alloc, site, words),
        b"settle" => settle(alloc, site, words),
        b"seen" => seen(alloc, site, words),
        b"unfinished" => hindered(alloc, site, words),
        _ => from_origin(alloc, site, kind, words),
    }
}
