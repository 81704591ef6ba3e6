//! The same calls on tables in pages and on tables in lists: each line is a case, and its outcome is printed; where
//! the two stores differ, both outcomes.
//!
//! `declare DECLARATION` adds a declaration, and `make` makes both stores of the schema. `put T VALUES`, `get T VALUES`,
//! `take T VALUES` and `holds T C VALUES` are calls of a store. `puts T FIRST STEP COUNT WRAP ADDED` puts a row for each of
//! COUNT keys, from FIRST on in steps of STEP, that begin again at WRAP; its other columns have the key and ADDED. `takes T
//! FIRST STEP COUNT WRAP` takes such keys. `reserve T N` reserves room for so many rows more and counts those that are there.
//! `rows T EVERY` shows each so manieth row and the last one. `undo VALUES, VALUES, KEY, KEY` puts two rows in the first
//! table, takes two away and takes it all back. `change T VALUES` puts a row where it isn't there yet.
//!
//! A table is a snapshot of the rows whose second value is 0 or more. `only T KEY : VALUES : VALUES ..` refreshes it by this
//! key from a master that has these rows, if the table shows them under all other keys. `try T : VALUES : VALUES ..`
//! refreshes it to such a master's rows, and takes it all back.
//!
//! `picked T P COLUMN COLUMN ..` shows the rows of T whose parent, the row of P under the key in these columns, is there with a
//! second value of 0 or more. `renewed T P COLUMN .., : KEY : KEY .., : PARENT : PARENT .. , : VALUES : VALUES ..` makes them from the
//! rows behind the last comma, by the keys and the parents' keys before it, if these rows show what is up to date. It tells the look-ups
//! beside the most that there may be.
//!
//! The lines that follow need no store. `moment MARK, KEY : KEY : KEY ..` notes the keys behind the first colon at the moments
//! 1, 2 and so on, purges their log up to the mark, and tells the key's last moment. `detect VALUES : CALL` compares a row,
//! or none where there are no values, with a call. `apply SITE CALL` applies a transaction of a call, or of none, from a
//! site to the schema's tables without rows. An empty line and one that begins with `#` is printed as it is.
#![tactic(auto)]

mod applied;
mod calls;
mod cases;
mod detected;
mod families;
mod logged;
mod refreshed;
mod renewed;
mod series;
mod undone;
mod up_to_date;

use anyhow::Result;
use case_reader::CaseStop;
use cases::Cases;

fn echo(rt: &HostRuntime, line: &str) -> Result<()> {
    println!(rt; "{line}")?;
    Ok(())
}

fn tell(rt: &HostRuntime, outcome: Result<String, CaseStop>) -> Result<()> {
    match outcome {
        Ok(outcome) => echo(rt, outcome.as_str()),
        Err(CaseStop::NoCase) => echo(rt, "no case"),
        Err(CaseStop::Memory) => echo(rt, "no memory"),
    }
}

/// Prints the outcome of a line.
fn answer(rt: &HostRuntime, cases: &mut Cases, line: &str) -> Result<()> {
    if line.is_empty() || line.starts_with('#') {
        return echo(rt, line);
    }
    tell(rt, cases.outcome(rt.alloc(), line))
}

fn answer_all(rt: &HostRuntime, cases: &mut Cases) -> Result<()> {
    for line in rt.lines(rt.alloc()) {
        answer(rt, cases, &line?)?;
    }
    Ok(())
}

fn main(rt: HostRuntime) -> Result<()> {
    let mut cases = Cases::new(rt.alloc());
    answer_all(&rt, &mut cases)
}
