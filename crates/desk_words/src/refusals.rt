//! Refused commands, and what to do instead.

use crate::errors::put_remedy;
use crate::limits::limit_text;
use rep_values::Refusal;
use schema_advice::rule_text;
use script_parse::{Command, ProcLine};
use std::fmt;

/// A command that was refused, and why. Its `Display` says what is wrong and what to do, without a full stop.
#[derive(Clone, Copy)]
pub struct RefusalNote<'a> {
    pub command: &'a Command,
    pub refusal: Refusal,
}

/// What to do where a direction is down.
fn put_link<W: fmt::Write>(f: &mut fmt::Formatter<W>, command: &Command) -> fmt::Result {
    if let Command::Push { from, to, .. }
    | Command::Procedures(ProcLine::Push { from, to }) = command
    {
        return write!(f, "say `link {from} {to} up` first");
    }
    f.write_str("say `link` with `up` first, in both directions between the site and its master")
}

/// What to do where a log doesn't reach back.
fn put_refresh<W: fmt::Write>(f: &mut fmt::Formatter<W>, command: &Command) -> fmt::Result {
    if let Command::Refresh { site, .. } = command {
        return write!(f, "say `refresh {site} complete`, or `force`");
    }
    f.write_str("say `refresh` with `complete` or `force`")
}

/// Where the errors are listed.
fn put_errors<W: fmt::Write>(f: &mut fmt::Formatter<W>, command: &Command) -> fmt::Result {
    if let Command::Execute { site, .. } | Command::DropError { site, .. } = command {
        return write!(f, "`show errors {site}` lists those that stand");
    }
    f.write_str("each that stands was printed as an `error` line behind a push of calls")
}

/// What to do about a refusal, where the same words serve every line and all that it names; None for the others.
fn fixed_advice(refusal: &Refusal) -> Option<&'static str> {
    let text = match refusal {
        Refusal::UnknownName => {
            "upper and lower case differ; declare the name, or write the declared one"
        }
        Refusal::NameTaken => "each name, each level and each grouped column stands once",
        Refusal::WrongPhase => {
            "declarations stand above `resume`, statements in a block, and all else behind `resume` and outside of blocks"
        }
        Refusal::RowShape => {
            "give a value for each column that the site doesn't fill in, numbers for NUMBER and DATE, texts for TEXT and SITE"
        }
        Refusal::KeyTaken => "`update` changes it",
        Refusal::NoRow => "`insert` adds one",
        Refusal::UniqueTaken(_) => "give it other values",
        Refusal::ValueRange => "numbers go from -1000000000000000 to 1000000000000000",
        Refusal::KeyNotOwn => {
            "in a convergent table a new key begins with the name of the site that writes it"
        }
        Refusal::RuleBroken(_) => "its maximum never falls, and its minimum never rises",
        Refusal::Barred => {
            "nothing is deleted from it, and a block writes convergent tables alone or others alone"
        }
        Refusal::FilledBySite => "leave it out",
        Refusal::QueueNotEmpty(_) => "push them to the master first",
        Refusal::Suspended => "say `resume` first",
        Refusal::CheckFailed(_) => "give values that meet it",
        Refusal::Memory => "give the program more",
        _ => return None,
    };
    Some(text)
}

/// What to do about a refusal.
fn put_advice<W: fmt::Write>(
    f: &mut fmt::Formatter<W>,
    command: &Command,
    refusal: &Refusal,
) -> fmt::Result {
    match refusal {
        Refusal::LinkDown => put_link(f, command),
        Refusal::NoSuchError => put_errors(f, command),
        Refusal::StillFails(error) => {
            f.write_str("first ")?;
            put_remedy(f, error)
        }
        Refusal::LogTooYoung(_, _) => put_refresh(f, command),
        Refusal::LimitReached(limit) => write!(f, "there may be {}", limit_text(*limit)),
        Refusal::SchemaRule(rule) => {
            f.write_str(rule_text(*rule).unwrap_or("see the rules of schemas"))
        }
        Refusal::NotQuiet(site, _) => write!(
            f,
            "push from each master to {site}, and execute or drop the errors that `show errors {site}` lists"
        ),
        _ => f.write_str(fixed_advice(refusal).unwrap_or("see the guide")),
    }
}

impl<'a> fmt::Display for RefusalNote<'a> {
    fn fmt<W: fmt::Write>(&self, f: &mut fmt::Formatter<W>) -> fmt::Result {
        write!(f, "{}: ", self.refusal)?;
        put_advice(f, self.command, &self.refusal)
    }
}
