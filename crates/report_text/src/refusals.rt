//! The lines of errors and of refused commands.
ghost use Rattle.std.specs.Prelude.{◌≡◌, ◌≤◌, ◌+◌, length};
ghost use Rattle.report_text.specs.Sheet.{Appends, most_line, spaced};
ghost use Rattle.report_text.specs.Refusals.{most_kind, kind_words, refusal_name, refusal_values, limit_word, error_text, refused_text};

use crate::{Lines, Word};
use rep_values::{ApplyError, Limit, Refusal, SiteName};

/// The kind of an error, and the name of its group, constraint or check, each behind a space.
fn put_kind(lines: &mut Lines, error: &ApplyError)
    requires { most_kind ≤ lines.old.room }
    ensures text { Appends lines.old lines.new (spaced (kind_words error.now)) }
    ensures room { lines.old.room ≤ lines.new.room + most_kind }
{
    match error {
        ApplyError::NoRow => lines.put_words(&[Word::Plain(b"NoRow")]),
        ApplyError::UpdateConflict(group) => {
            lines.put_words(&[Word::Plain(b"UpdateConflict"), Word::Name(*group)]);
        }
        ApplyError::DeleteConflict => lines.put_words(&[Word::Plain(b"DeleteConflict")]),
        ApplyError::UniqueConflict(constraint) => {
            lines.put_words(&[Word::Plain(b"UniqueConflict"), Word::Name(*constraint)]);
        }
        ApplyError::ValueRange => lines.put_words(&[Word::Plain(b"ValueRange")]),
        ApplyError::CheckFailed(check) => {
            lines.put_words(&[Word::Plain(b"CheckFailed"), Word::Name(*check)]);
        }
    }
}

/// `error ORIGIN POSITION call C KIND`
pub fn error_line(
    lines: &mut Lines,
    origin: &SiteName,
    position: u64,
    call: u32,
    error: &ApplyError,
)
    requires { most_line ≤ lines.old.room }
    ensures { Appends lines.old lines.new (error_text origin.now.0 position call error.now) }
{
    lines.put(b"error");
    lines.put_words(&[
        Word::Name(origin.0),
        Word::Number(position),
        Word::Plain(b"call"),
        Word::Number(u64::from(call)),
    ]);
    put_kind(lines, error);
    lines.put(b"\n");
}

fn limit_word(limit: Limit) -> &'static [u8]
    ensures word { result.now ≡ limit_word limit }
    ensures short { length result.now ≤ 11 }
{
    match limit {
        Limit::Masters => b"masters",
        Limit::Snapshots => b"snapshots",
        Limit::Tables => b"tables",
        Limit::Columns => b"columns",
        Limit::Keys => b"keys",
        Limit::Methods => b"methods",
        Limit::Constraints => b"constraints",
        Limit::Levels => b"levels",
        Limit::Statements => b"statements",
        Limit::Checks => b"checks",
        Limit::Sessions => b"sessions",
    }
}

fn name_of(refusal: &Refusal) -> &'static [u8]
    ensures name { result.now ≡ refusal_name refusal.now }
    ensures short { length result.now ≤ 13 }
{
    match refusal {
        Refusal::UnknownName => b"UnknownName",
        Refusal::NameTaken => b"NameTaken",
        Refusal::WrongPhase => b"WrongPhase",
        Refusal::RowShape => b"RowShape",
        Refusal::KeyTaken => b"KeyTaken",
        Refusal::NoRow => b"NoRow",
        Refusal::UniqueTaken(_) => b"UniqueTaken",
        Refusal::ValueRange => b"ValueRange",
        Refusal::KeyNotOwn => b"KeyNotOwn",
        Refusal::RuleBroken(_) => b"RuleBroken",
        Refusal::Barred => b"Barred",
        Refusal::FilledBySite => b"FilledBySite",
        Refusal::LinkDown => b"LinkDown",
        Refusal::NoSuchError => b"NoSuchError",
        Refusal::StillFails(_) => b"StillFails",
        Refusal::QueueNotEmpty(_) => b"QueueNotEmpty",
        Refusal::LogTooYoung(_, _) => b"LogTooYoung",
        Refusal::Suspended => b"Suspended",
        Refusal::LimitReached(_) => b"LimitReached",
        Refusal::SchemaRule(_) => b"SchemaRule",
        Refusal::CheckFailed(_) => b"CheckFailed",
        Refusal::NotQuiet(_, _) => b"NotQuiet",
        Refusal::Memory => b"Memory",
    }
}

/// The values of a refusal, each behind a space.
fn put_values(lines: &mut Lines, refusal: &Refusal)
    requires { most_kind ≤ lines.old.room }
    ensures text { Appends lines.old lines.new (spaced (refusal_values refusal.now)) }
    ensures room { lines.old.room ≤ lines.new.room + most_kind }
{
    match refusal {
        Refusal::UniqueTaken(name) | Refusal::RuleBroken(name) | Refusal::CheckFailed(name) => {
            lines.put_words(&[Word::Name(*name)]);
        }
        Refusal::StillFails(error) => put_kind(lines, error),
        Refusal::QueueNotEmpty(count) => lines.put_words(&[Word::Number(*count)]),
        Refusal::LogTooYoung(purged, mark) => {
            lines.put_words(&[Word::Number(*purged), Word::Number(*mark)]);
        }
        Refusal::LimitReached(limit) => lines.put_words(&[Word::Plain(limit_word(*limit))]),
        Refusal::SchemaRule(rule) => lines.put_words(&[Word::Number(u64::from(*rule))]),
        Refusal::NotQuiet(site, count) => {
            lines.put_words(&[Word::Name(site.0), Word::Number(*count)]);
        }
        Refusal::UnknownName
        | Refusal::NameTaken
        | Refusal::WrongPhase
        | Refusal::RowShape
        | Refusal::KeyTaken
        | Refusal::NoRow
        | Refusal::ValueRange
        | Refusal::KeyNotOwn
        | Refusal::Barred
        | Refusal::FilledBySite
        | Refusal::LinkDown
        | Refusal::NoSuchError
        | Refusal::Suspended
        | Refusal::Memory => {}
    }
}

/// `! LINE TEXT`, or nothing where there is no memory: that ends a run.
pub fn refused_line(lines: &mut Lines, line: u32, refusal: &Refusal)
    requires { most_line ≤ lines.old.room }
    ensures { Appends lines.old lines.new (refused_text line refusal.now) }
{
    if let Refusal::Memory = refusal {
        return;
    }
    lines.put(b"!");
    lines.put_words(&[Word::Number(u64::from(line)), Word::Plain(name_of(refusal))]);
    put_values(lines, refusal);
    lines.put(b"\n");
}
