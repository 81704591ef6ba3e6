//! Calls of sites of procedures as cases: each line is one, and what the call answers is printed.
//!
//! `new` forgets all. `site NAME` and `table NAME COLUMN..` declare a master and a table, in the form that scripts have, and
//! `procedure NAME TABLE put`, `procedure NAME TABLE add COLUMN` and `procedure NAME TABLE drop` the next procedure. Tables, columns
//! and procedures are given by their places. `resume` opens the sites.
//!
//! `invoke PROCEDURE [VALUE..]` keeps a call of a procedure, and `send SITE [TO..]` makes the calls that are kept at a site, for
//! these masters. `packet FROM TO POSITION` shows what the packet of a position carries, and `relay FROM TO POSITION` delivers it.
//!
//! `call CALL` keeps a call in the form in which rows travel. `carry SITE FROM TO NUMBER POSITION DEP [past ORIGIN NUMBER ..]`
//! delivers the packet of the calls that are kept so to a site, and `mark SITE FROM TO MARK` one of a mark.
//!
//! `pass SITE ORIGIN`, `stale SITE ORIGIN POSITION` and `execute SITE ORIGIN POSITION` are calls of a site. `marks SITE OTHER`
//! shows its marks beside another master and how long its journal is, and `show SITE` its tables. An empty line and one that
//! begins with `#` is printed as it is.
#![tactic(auto)]

mod cases;
mod declared;
mod events;
mod fitting;
mod packets;
mod told;

use anyhow::Result;
use case_reader::CaseStop;
use cases::Cases;
use told::Told;

fn print(rt: &HostRuntime, line: &str) -> Result<()> {
    println!(rt; "{line}")?;
    Ok(())
}

/// What is printed of a line that tells nothing.
fn words_of(stop: CaseStop) -> &'static str {
    match stop {
        CaseStop::NoCase => "no case",
        CaseStop::Memory => "no memory",
    }
}

fn tell(rt: &HostRuntime, told: Told) -> Result<()> {
    match told {
        Ok(Some(told)) => print(rt, told.as_str()),
        Ok(None) => Ok(()),
        Err(stop) => print(rt, words_of(stop)),
    }
}

/// Prints what a line tells.
fn answer(rt: &HostRuntime, cases: &mut Cases, line: &str) -> Result<()> {
    if line.is_empty() || line.starts_with('#') {
        return print(rt, line);
    }
    tell(rt, cases.outcome(rt.alloc(), line))
}

fn answer_all(rt: &HostRuntime, cases: &mut Cases) -> Result<()> {
    for line in rt.lines(rt.alloc()) {
        answer(rt, cases, &line?)?;
    }
    Ok(())
}

fn main(rt: HostRuntime) -> Result<()> {
    let mut cases = Cases::new(rt.alloc());
    answer_all(&rt, &mut cases)
}
