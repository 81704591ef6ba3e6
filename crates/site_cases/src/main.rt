//! Calls of sites as cases: each line is one, and what the call answers is printed.
//!
//! `new` forgets all. A declaration has the form that scripts have, `row TABLE VALUE..` is a base row of each site, and
//! `resume` opens the sites that are there from the start; a refusal is printed behind `! 0`. A snapshot site holds all tables,
//! too. `copy SITE SOURCE [past ORIGIN NUMBER ..]` opens a site as a copy of another one, with these first numbers.
//!
//! `txn SITE`, the statements and `commit` are a block; where one is refused, its number stands in the place of the 0. `packet
//! FROM TO POSITION` keeps the packet of a position, and `send FROM TO POSITION` delivers it at once. `acknowledge FROM
//! TO` delivers the mark that a site has for another at once. `call CALL` keeps a call, `carry FROM TO NUMBER POSITION
//! DEP [past ORIGIN NUMBER ..]` keeps the packet of the calls that are kept, and `mark FROM TO MARK` one of a mark.
//! `deliver SITE NUMBER` delivers the packet that is kept under this number, counted from 1.
//!
//! `begin SITE`, `pass SITE ORIGIN`, `apply SITE ORIGIN POSITION`, `stale SITE ORIGIN POSITION`, `lowest SITE ORIGIN
//! ABOVE`, `execute SITE ORIGIN POSITION`, `drop-error SITE ORIGIN POSITION`, `purge SITE`, `clock SITE NUMBER`, `seen
//! SITE`, `covered SITE ORIGIN`, `first SITE ORIGIN` and `open SITE DESTINATION` are calls of a site. `unfinished SITE [past
//! ORIGIN LAST ..]` is what hinders a join there, of each origin its last position given. `work SITE ORIGIN POSITION` is an
//! `apply` of which the transaction is evaluated on copies of the rows that it names; it isn't, and `Unique` is told, where it
//! touches a constraint. `settle SITE` sorts the journal's newest entry. `show tables|queue|errors|marks|journal|site SITE`
//! shows what a site keeps. An empty line and one that begins with `#` is printed as it is.
#![tactic(auto)]

mod cases;
mod declared;
mod events;
mod member;
mod packets;
mod shown;
mod told;
mod works;

use anyhow::Result;
use case_reader::CaseStop;
use cases::Cases;
use told::Told;

fn print(rt: &HostRuntime, line: &str) -> Result<()> {
    println!(rt; "{line}")?;
    Ok(())
}

/// What is printed of a line that tells nothing.
fn words_of(stop: CaseStop) -> &'static str {
    match stop {
        CaseStop::NoCase => "no case",
        CaseStop::Memory => "no memory",
    }
}

fn tell(rt: &HostRuntime, told: Told) -> Result<()> {
    match told {
        Ok(Some(told)) => print(rt, told.as_str()),
        Ok(None) => Ok(()),
        Err(stop) => print(rt, words_of(stop)),
    }
}

/// Prints what a line tells.
fn answer(rt: &HostRuntime, cases: &mut Cases, line: &str) -> Result<()> {
    if line.is_empty() || line.starts_with('#') {
        return print(rt, line);
    }
    tell(rt, cases.outcome(rt.alloc(), line))
}

fn answer_all(rt: &HostRuntime, cases: &mut Cases) -> Result<()> {
    for line in rt.lines(rt.alloc()) {
        answer(rt, cases, &line?)?;
    }
    Ok(())
}

fn main(rt: HostRuntime) -> Result<()> {
    let mut cases = Cases::new(rt.alloc());
    answer_all(&rt, &mut cases)
}
