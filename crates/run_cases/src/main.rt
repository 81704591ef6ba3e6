//! Runs the scripts of its input as the program runs them, and prints the report and the status of each. A line that begins
//! with `== ` begins a script and names it, and `* COUNT LINE` stands for so many lines, or for so many times the lines between
//! `;`, with a number for `%`. With a name that begins with `cut ` the script is also run cut behind each byte, and the case tells
//! how many cuts print a front of the report, how many what their whole lines print and that the last line is malformed, and how
//! many what another last line prints.
//!
//! A script behind `== reads of MOST, writes of MOST, read CALL fails` is read and its report is written in pieces of so many bytes
//! at most, and that read fails; with `write CALL fails` a write does, and with `no call fails` none. The case tells how many reads
//! and writes were asked for. What was written may end in the middle of a line, and then the status stands behind it.
//!
//! A script behind `== crew APPLIERS TURNS` is run by so many appliers. Those that work on positions 2 and 3 of a sender are held
//! until both do, none for more than so many turns, and the case tells whether they met, which no contract says. With ` from FIRST`
//! behind the turns they are the two positions behind that one.
//!
//! A script behind `== live: NAME` may have a live part. With `== live as JSON: NAME` its turns are printed as one line of JSON, and
//! with `== live in any order: NAME` the lines of turns are put into the order of their bytes, as the order in which they came may
//! be another one each time.
#![tactic(auto)]

mod cases;
mod crews;
mod cuts;
mod live;
mod meeting;
mod pieces;
mod runs;

use cases::{Case, outcome, take_line};
use std::io;

fn read_cases(rt: &HostRuntime) -> io::Result<Vec<Case>> {
    let mut cases = Vec::new(rt.alloc());
    for line in rt.lines(rt.alloc()) {
        take_line(rt.alloc(), &mut cases, &line?)?;
    }
    Ok(cases)
}

fn main(rt: HostRuntime) -> io::Result<()> {
    let cases = read_cases(&rt)?;
    for case in &cases {
        let told = outcome(&rt, rt.alloc(), case)?;
        print!(rt; "{told}")?;
    }
    Ok(())
}
