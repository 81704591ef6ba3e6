//! Errors that stand at a site, and what puts them right.

use rep_values::{ApplyError, SiteName};
use std::fmt;

/// Which transactions are meant: those of rows, or those of calls.
#[derive(Clone, Copy, Debug, PartialEq, Eq)]
pub enum Stream {
    Rows,
    Calls,
}

/// An error that stands at a site. Its `Display` says where it stands, what happened, what puts it right, and the commands for that.
#[derive(Clone, Copy, Debug)]
pub struct ErrorNote {
    pub stream: Stream,
    /// Where it stands.
    pub site: SiteName,
    /// The sender of the transaction.
    pub origin: SiteName,
    /// The transaction's position in the sender's stream to the site.
    pub position: u64,
    /// The call that failed, from 1.
    pub call: u32,
    pub error: ApplyError,
}

/// What puts the cause of an error right, in front of an execution.
pub fn put_remedy<W: fmt::Write>(f: &mut fmt::Formatter<W>, error: &ApplyError) -> fmt::Result {
    match error {
        ApplyError::NoRow => {
            f.write_str("insert the row, or execute the error of its own insert first")
        }
        ApplyError::UpdateConflict(group) => write!(
            f,
            "write the old values of the group {group} back into the row, which a method for the group would make needless"
        ),
        ApplyError::DeleteConflict => f.write_str("make the row what it was at the sender"),
        ApplyError::UniqueConflict(constraint) => write!(
            f,
            "give the other row that has these values of {constraint} new ones, or delete it"
        ),
        ApplyError::ValueRange => f.write_str("bring the number down"),
        ApplyError::CheckFailed(check) => {
            write!(f, "give the row what it lacks for the check {check}")
        }
    }
}

impl ErrorNote {
    /// The commands that settle the error.
    fn put_commands<W: fmt::Write>(&self, f: &mut fmt::Formatter<W>) -> fmt::Result {
        let ErrorNote {
            stream,
            site,
            origin,
            position,
            ..
        } = self;
        match stream {
            Stream::Rows => write!(
                f,
                "`execute {site} {origin} {position}`; what nobody wants any more goes by `drop-error {site} {origin} {position}`"
            ),
            Stream::Calls => write!(f, "`execute-calls {site} {origin} {position}`"),
        }
    }
}

impl fmt::Display for ErrorNote {
    fn fmt<W: fmt::Write>(&self, f: &mut fmt::Formatter<W>) -> fmt::Result {
        let ErrorNote {
            site,
            origin,
            position,
            call,
            error,
            ..
        } = self;
        write!(
            f,
            "at {site} position {position} of {origin} failed at its call {call}, and nothing of it is done there: {error}. To put it right, "
        )?;
        put_remedy(f, error)?;
        f.write_str(", and say ")?;
        self.put_commands(f)
    }
}
