//! What may be meant otherwise in a script that the engine takes.

use rep_values::SiteName;
use schema_advice::Remark;
use std::fmt;

/// What may be meant otherwise.
#[derive(Clone, Copy, Debug)]
pub enum Advice {
    /// Something is remarked of the table at this place.
    Table {
        place: usize,
        remark: Remark,
    },
    /// The block of this line is open at the script's end.
    OpenBlock,
    /// The declarations haven't ended at the script's end.
    NoResume,
    /// Nothing is shown.
    NoShow,
    /// So many transactions of the first site wait for a push to the second, and there is no such push.
    NeverPushed {
        from: SiteName,
        to: SiteName,
        count: u64,
    },
    /// So many transactions of the first site aren't acknowledged by the second.
    Unfinished {
        from: SiteName,
        to: SiteName,
        count: u64,
    },
    /// So many errors stand at the site.
    Errors {
        site: SiteName,
        count: u64,
    },
}

/// An advice, and the line that it is about.
#[derive(Clone, Copy, Debug)]
pub struct AdviceFound {
    /// From 1; None for the script as a whole.
    pub line: Option<u32>,
    pub advice: Advice,
}

/// A sentence without its full stop. What is remarked of a table is told by `RemarkText`.
impl fmt::Display for Advice {
    fn fmt<W: fmt::Write>(&self, f: &mut fmt::Formatter<W>) -> fmt::Result {
        match self {
            Advice::Table { .. } => f.write_str("something is remarked of a table"),
            Advice::OpenBlock => f.write_str(
                "this block is open at the script's end, and is let go: say `commit` or `abandon`, or `send` where it is one of calls",
            ),
            Advice::NoResume => {
                f.write_str("no `resume` ended the declarations, so no site was made")
            }
            Advice::NoShow => f.write_str("there is no `show`, so the report has no rows"),
            Advice::NeverPushed { from, to, count } => write!(
                f,
                "of the transactions of {from} {count} wait for {to}, and there is no `push {from} {to}`"
            ),
            Advice::Unfinished { from, to, count } => write!(
                f,
                "of the transactions of {from} {count} wait for an acknowledgement of {to} at the end: push once more"
            ),
            Advice::Errors { site, count } => write!(
                f,
                "of the errors at {site} {count} stand at the end: `show errors {site}` lists them"
            ),
        }
    }
}
