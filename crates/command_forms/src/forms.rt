//! The commands by their first words, and the form of each.

use std::fmt;

/// The form of a command, by its first word.
#[derive(Clone, Copy, Debug, PartialEq, Eq)]
pub enum Form {
    Site,
    LateSite,
    SnapSite,
    Table,
    Group,
    Method,
    Priority,
    SiteLevel,
    Unique,
    UniqueMethod,
    Check,
    Convergent,
    Snapshot,
    Subsnapshot,
    Row,
    Resume,
    Insert,
    Update,
    Delete,
    Txn,
    Commit,
    Abandon,
    Push,
    Fate,
    Link,
    Clock,
    Purge,
    Execute,
    DropError,
    Refresh,
    PurgeLog,
    Suspend,
    Join,
    Show,
    ProcTable,
    Procedure,
    Calls,
    Call,
    Send,
    PushCalls,
    FateCalls,
    ExecuteCalls,
}

impl Form {
    /// The form as the guide has it: S, T, C, G, U, K, P and F are the names of a site, a table, a column, a group, a
    /// constraint, a check, a priority group and a procedure.
    pub fn text(self) -> &'static str {
        match self {
            Form::Site => "site S",
            Form::LateSite => "latesite S",
            Form::SnapSite => "snapsite S S",
            Form::Table => "table T COLUMN+, a COLUMN being C : TYPE [: key]",
            Form::Group => "group T G C+",
            Form::Method => {
                "method T G M, an M being latest C, earliest C, maximum C, minimum C, priority C P, site-priority C, additive, \
average, overwrite or discard"
            }
            Form::Priority => "priority P VALUE N",
            Form::SiteLevel => "site-level S N",
            Form::Unique => "unique T U C+",
            Form::UniqueMethod => {
                "unique-method T U M, an M being append-site C, append-sequence C or discard"
            }
            Form::Check => "check T K C OP VALUE",
            Form::Convergent => "convergent T",
            Form::Snapshot => "snapshot S T [where TEST [and TEST]..], a TEST being C OP VALUE",
            Form::Subsnapshot => {
                "subsnapshot S T parent T by C+ [where TEST [and TEST]..], a TEST being C OP VALUE"
            }
            Form::Row => "row T VALUE+",
            Form::Resume => "resume",
            Form::Insert => "insert T VALUE+",
            Form::Update => "update T VALUE+ : SET [, SET].., a SET being C = VALUE or C + N",
            Form::Delete => "delete T VALUE+",
            Form::Txn => "txn S",
            Form::Commit => "commit",
            Form::Abandon => "abandon",
            Form::Push => "push S S [count WHOLE]",
            Form::Fate =>
                "fate S S FATE+ or fate S S clear, a FATE being pass, lose, twice or late",
            Form::Link => "link S S up|down",
            Form::Clock => "clock S WHOLE",
            Form::Purge => "purge S",
            Form::Execute => "execute S S WHOLE",
            Form::DropError => "drop-error S S WHOLE",
            Form::Refresh => "refresh S fast|complete|force",
            Form::PurgeLog => "purge-log S T",
            Form::Suspend => "suspend",
            Form::Join => "join S S",
            Form::Show => "show tables|queue|errors|marks|journal|log|calls S",
            Form::ProcTable => "proctable T COLUMN+, a COLUMN being C : TYPE [: key]",
            Form::Procedure => {
                "procedure F T ACTION, an ACTION being put, add C [where TESTS] or drop [where TESTS]"
            }
            Form::Calls => "calls S",
            Form::Call => "call F [VALUE]..",
            Form::Send => "send [S]..",
            Form::PushCalls => "push-calls S S",
            Form::FateCalls => "fate-calls S S FATE+, a FATE being pass, lose, twice or late",
            Form::ExecuteCalls => "execute-calls S S WHOLE",
        }
    }
}

impl fmt::Display for Form {
    fn fmt<W: fmt::Write>(&self, f: &mut fmt::Formatter<W>) -> fmt::Result {
        f.write_str(self.text())
    }
}
