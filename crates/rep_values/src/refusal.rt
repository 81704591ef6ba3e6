//! Why a transaction is in error, and why a command is refused.
ghost use Rattle.std.specs.Prelude.{◌≡◌};
ghost use Rattle.rep_values.specs.Refusal.{refusal_number};
ghost use Rattle.rep_values.specs.declared.refusal.Refusal.TheVariants.{Memory};

use crate::{Name, SiteName};
use rep_lists::NoMemory;
use std::fmt;
use thiserror::Error;

/// Why a transaction that came from another site is not applied. The group of the columns that are in no named
/// group is called `shadow`, and the primary key's constraint is called `key`.
#[derive(Clone, Copy, Debug, PartialEq, Eq, Error)]
pub enum ApplyError {
    /// The row that the call names isn't there.
    #[error("the row isn't there")]
    NoRow,
    /// No method settles the conflict of this column group.
    #[error("no method settles the conflict of the column group {0}")]
    UpdateConflict(Name),
    /// The row to be deleted is there and differs from the one that was sent.
    #[error("the row to be deleted differs from the one that was sent")]
    DeleteConflict,
    /// No method settles the violation of this uniqueness constraint.
    #[error("no method settles the violation of the constraint {0}")]
    UniqueConflict(Name),
    /// A number leaves ±10^15.
    #[error("a number is out of range")]
    ValueRange,
    /// The row doesn't meet this check.
    #[error("the row doesn't meet the check {0}")]
    CheckFailed(Name),
}

/// What is limited in number.
#[derive(Clone, Copy, Debug, PartialEq, Eq)]
pub enum Limit {
    /// 8 master sites.
    Masters,
    /// 8 snapshot sites.
    Snapshots,
    /// 32 tables.
    Tables,
    /// 32 columns of a table.
    Columns,
    /// 4 key columns of a table.
    Keys,
    /// 16 methods of a group or a constraint.
    Methods,
    /// 8 secondary constraints of a table.
    Constraints,
    /// 1,000 levels of a priority group.
    Levels,
    /// 1,000 statements of a block.
    Statements,
    /// 8 checks of a table.
    Checks,
    /// 8 sessions of a live part.
    Sessions,
}

/// The word of the limit, as reports print it.
impl fmt::Display for Limit {
    fn fmt<W: fmt::Write>(&self, f: &mut fmt::Formatter<W>) -> fmt::Result {
        f.write_str(match self {
            Limit::Masters => "masters",
            Limit::Snapshots => "snapshots",
            Limit::Tables => "tables",
            Limit::Columns => "columns",
            Limit::Keys => "keys",
            Limit::Methods => "methods",
            Limit::Constraints => "constraints",
            Limit::Levels => "levels",
            Limit::Statements => "statements",
            Limit::Checks => "checks",
            Limit::Sessions => "sessions",
        })
    }
}

/// Why a command is refused. The numbers are those of `number`.
#[derive(Clone, Copy, Debug, PartialEq, Eq, Error)]
pub enum Refusal {
    #[error("nothing has this name")]
    UnknownName,
    #[error("something has this name")]
    NameTaken,
    #[error("this isn't the phase for it")]
    WrongPhase,
    #[error("the values don't have the table's form")]
    RowShape,
    #[error("a row has this key")]
    KeyTaken,
    #[error("no row has this key")]
    NoRow,
    #[error("another row has these values of the constraint {0}")]
    UniqueTaken(Name),
    #[error("a number is out of range")]
    ValueRange,
    #[error("the key belongs to another site")]
    KeyNotOwn,
    #[error("it breaks a rule of the convergent column group {0}")]
    RuleBroken(Name),
    #[error("a convergent table bars it here")]
    Barred,
    #[error("a column is filled in by the site")]
    FilledBySite,
    #[error("the link is down")]
    LinkDown,
    #[error("no such error stands")]
    NoSuchError,
    #[error("it still fails: {0}")]
    StillFails(ApplyError),
    #[error("{0} transactions of the queue aren't finished")]
    QueueNotEmpty(u64),
    #[error("the log is purged up to {0}, and the snapshot's mark is {1}")]
    LogTooYoung(u64, u64),
    #[error("all is suspended")]
    Suspended,
    #[error("the limit of {0} is reached")]
    LimitReached(Limit),
    #[error("the schema breaks rule {0}")]
    SchemaRule(u8),
    #[error("the row doesn't meet the check {0}")]
    CheckFailed(Name),
    /// A master at which so many positions are unfinished and errors stand.
    #[error("at the site {0} {1} positions and errors are unfinished")]
    NotQuiet(SiteName, u64),
    #[error("there is no memory")]
    Memory,
}

impl From<NoMemory> for Refusal {
    ghost from_gives = { λ _ refusal. refusal ≡ Memory };

    fn from(_: NoMemory) -> Refusal {
        Refusal::Memory
    }
}

impl Refusal {
    /// The refusal's number, 1 to 23.
    pub fn number(&self) -> u8
        ensures { result ≡ refusal_number self.now }
    {
        match self {
            Refusal::UnknownName => 1,
            Refusal::NameTaken => 2,
            Refusal::WrongPhase => 3,
            Refusal::RowShape => 4,
            Refusal::KeyTaken => 5,
            Refusal::NoRow => 6,
            Refusal::UniqueTaken(_) => 7,
            Refusal::ValueRange => 8,
            Refusal::KeyNotOwn => 9,
            Refusal::RuleBroken(_) => 10,
            Refusal::Barred => 11,
            Refusal::FilledBySite => 12,
            Refusal::LinkDown => 13,
            Refusal::NoSuchError => 14,
            Refusal::StillFails(_) => 15,
            Refusal::QueueNotEmpty(_) => 16,
            Refusal::LogTooYoung(_, _) => 17,
            Refusal::Suspended => 18,
            Refusal::LimitReached(_) => 19,
            Refusal::SchemaRule(_) => 20,
            Refusal::CheckFailed(_) => 21,
            Refusal::NotQuiet(_, _) => 22,
            Refusal::Memory => 23,
        }
    }
}
