//! What a live part leaves, as lines that are the same in whatever order its turns came.

use case_reader::{CaseStop, push_name, push_row};
use live_laws::{LiveTurn, Reply};
use live_streams::Live;
use rep_lists::NoMemory;
use rep_schema::RowStore;
use rep_values::{ApplyError, SiteName};
use std::alloc::{AllocError, Global};

/// A reply without the number of a commit.
fn reply_text(alloc: Global, reply: Reply) -> Result<String, AllocError> {
    match reply {
        Reply::Commit(_) => format!(in alloc; "commit"),
        Reply::Nothing => format!(in alloc; "none"),
        Reply::Refused { line, refusal } => format!(in alloc; "! {line} {refusal}"),
    }
}

fn push_committed(
    out: &mut String,
    alloc: Global,
    session: u32,
    block: u32,
    reply: Reply,
) -> Result<(), NoMemory> {
    let reply = reply_text(alloc, reply)?;
    out.push_str(&format!(in alloc; "\nsession {session} block {block} {reply}")?)?;
    Ok(())
}

/// The turns of a session in their order.
fn push_session(
    out: &mut String,
    alloc: Global,
    wanted: u32,
    turns: &[LiveTurn],
) -> Result<(), NoMemory> {
    for turn in turns {
        if let LiveTurn::Committed {
            session,
            block,
            reply,
        } = turn
            && *session == wanted
        {
            push_committed(out, alloc, *session, *block, *reply)?;
        }
    }
    Ok(())
}

/// How a position was applied.
fn applied_text(alloc: Global, error: Option<ApplyError>, call: u32) -> Result<String, AllocError> {
    match error {
        None => format!(in alloc; "done"),
        Some(error) => format!(in alloc; "error in call {call}, {error}"),
    }
}

fn push_position(
    out: &mut String,
    alloc: Global,
    origin: &SiteName,
    position: u64,
    how: &str,
) -> Result<(), NoMemory> {
    out.push_str("\nposition")?;
    push_name(out, &origin.0)?;
    out.push_str(&format!(in alloc; " {position} {how}")?)?;
    Ok(())
}

/// The turns of origins in their order.
fn push_positions(out: &mut String, alloc: Global, turns: &[LiveTurn]) -> Result<(), NoMemory> {
    for turn in turns {
        if let LiveTurn::Applied {
            origin,
            position,
            call,
            error,
        } = turn
        {
            let how = applied_text(alloc, *error, *call)?;
            push_position(out, alloc, origin, *position, how.as_str())?;
        }
    }
    Ok(())
}

/// The numbers of the commits in the order of their turns.
fn push_numbers(out: &mut String, alloc: Global, turns: &[LiveTurn]) -> Result<(), NoMemory> {
    out.push_str("\nnumbers")?;
    for turn in turns {
        if let LiveTurn::Committed {
            reply: Reply::Commit(number),
            ..
        } = turn
        {
            out.push_str(&format!(in alloc; " {number}")?)?;
        }
    }
    Ok(())
}

/// The rows of the first table, where there is one.
fn push_rows<R: RowStore>(out: &mut String, alloc: Global, store: &R) -> Result<(), NoMemory> {
    if store.schema().tables.is_empty() {
        return Ok(());
    }
    for place in 0..store.count(0) {
        if let Some(row) = store.row_in_order(0, place) {
            out.push_str("\nrow")?;
            push_row(out, alloc, row)?;
        }
    }
    Ok(())
}

/// How its sessions met, the turns of each session, those of the origins, the numbers of the commits, and the first table's rows.
pub fn live_lines<R: RowStore>(
    alloc: Global,
    live: &Live<R>,
    how: &str,
) -> Result<String, CaseStop> {
    let turns = live.turns.as_slice();
    let mut out = format!(in alloc; "{how}")?;
    for session in 1..9 {
        push_session(&mut out, alloc, session, turns)?;
    }
    push_positions(&mut out, alloc, turns)?;
    push_numbers(&mut out, alloc, turns)?;
    push_rows(&mut out, alloc, live.site.store())?;
    Ok(out)
}
