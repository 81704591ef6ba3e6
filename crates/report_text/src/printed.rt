//! Lines of at most 256 bytes, which are put into room that is there.
ghost use Rattle.std.specs.Prelude.{◌≤◌, length};
ghost use Rattle.report_text.specs.Sheet.{Appends, line, most_line};
ghost use Rattle.report_text.specs.Texts.{commit_text, nothing_committed_text, purge_text, purge_log_text, execute_text, drop_error_text, push_words, push_text, push_calls_text, sent_text, nothing_sent_text, execute_calls_text, refresh_fast_text, refresh_complete_text, join_text, malformed_text};

use crate::{Lines, Word};
use rep_values::{SiteName, TableName};

/// What a push tells: how many transactions were sent, one that went twice counted once; how many were applied at the
/// receiver and how many are in error there; and the receiver's low-water mark for the sender.
#[derive(Clone, Copy, Debug, PartialEq, Eq)]
pub struct PushCount {
    pub sent: u64,
    pub done: u64,
    pub errors: u64,
    pub low: u64,
}

/// `commit SITE NUMBER`
pub fn commit_line(lines: &mut Lines, site: SiteName, number: u64)
    requires { most_line ≤ lines.old.room }
    ensures { Appends lines.old lines.new (commit_text site.0 number) }
{
    lines.put_line(b"commit", &[Word::Name(site.0), Word::Number(number)]);
}

/// `commit SITE none`
pub fn nothing_committed_line(lines: &mut Lines, site: SiteName)
    requires { most_line ≤ lines.old.room }
    ensures { Appends lines.old lines.new (nothing_committed_text site.0) }
{
    lines.put_line(b"commit", &[Word::Name(site.0), Word::Plain(b"none")]);
}

/// `purge SITE N`
pub fn purge_line(lines: &mut Lines, site: SiteName, count: u64)
    requires { most_line ≤ lines.old.room }
    ensures { Appends lines.old lines.new (purge_text site.0 count) }
{
    lines.put_line(b"purge", &[Word::Name(site.0), Word::Number(count)]);
}

/// `purge-log SITE TABLE N`
pub fn purge_log_line(lines: &mut Lines, site: SiteName, table: TableName, count: u64)
    requires { most_line ≤ lines.old.room }
    ensures { Appends lines.old lines.new (purge_log_text site.0 table.0 count) }
{
    lines.put_line(
        b"purge-log",
        &[Word::Name(site.0), Word::Name(table.0), Word::Number(count)],
    );
}

/// `refresh SITE fast keys K rows R`
pub fn refresh_fast_line(lines: &mut Lines, site: SiteName, keys: u64, rows: u64)
    requires { most_line ≤ lines.old.room }
    ensures { Appends lines.old lines.new (refresh_fast_text site.0 keys rows) }
{
    lines.put_line(
        b"refresh",
        &[
            Word::Name(site.0),
            Word::Plain(b"fast"),
            Word::Plain(b"keys"),
            Word::Number(keys),
            Word::Plain(b"rows"),
            Word::Number(rows),
        ],
    );
}

/// `refresh SITE complete rows R`
pub fn refresh_complete_line(lines: &mut Lines, site: SiteName, rows: u64)
    requires { most_line ≤ lines.old.room }
    ensures { Appends lines.old lines.new (refresh_complete_text site.0 rows) }
{
    lines.put_line(
        b"refresh",
        &[
            Word::Name(site.0),
            Word::Plain(b"complete"),
            Word::Plain(b"rows"),
            Word::Number(rows),
        ],
    );
}

/// `join SITE from SOURCE rows N`
pub fn join_line(lines: &mut Lines, site: SiteName, source: SiteName, rows: u64)
    requires { most_line ≤ lines.old.room }
    ensures { Appends lines.old lines.new (join_text site.0 source.0 rows) }
{
    lines.put_line(
        b"join",
        &[
            Word::Name(site.0),
            Word::Plain(b"from"),
            Word::Name(source.0),
            Word::Plain(b"rows"),
            Word::Number(rows),
        ],
    );
}

/// `execute SITE ORIGIN POSITION done`
pub fn execute_line(lines: &mut Lines, site: SiteName, origin: SiteName, position: u64)
    requires { most_line ≤ lines.old.room }
    ensures { Appends lines.old lines.new (execute_text site.0 origin.0 position) }
{
    lines.put_line(
        b"execute",
        &[
            Word::Name(site.0),
            Word::Name(origin.0),
            Word::Number(position),
            Word::Plain(b"done"),
        ],
    );
}

/// `drop-error SITE ORIGIN POSITION`
pub fn drop_error_line(lines: &mut Lines, site: SiteName, origin: SiteName, position: u64)
    requires { most_line ≤ lines.old.room }
    ensures { Appends lines.old lines.new (drop_error_text site.0 origin.0 position) }
{
    lines.put_line(
        b"drop-error",
        &[
            Word::Name(site.0),
            Word::Name(origin.0),
            Word::Number(position),
        ],
    );
}

fn counted_line(lines: &mut Lines, first: &[u8], from: SiteName, to: SiteName, count: PushCount)
    requires first { length first.now ≤ 10 }
    requires room { most_line ≤ lines.old.room }
    ensures { Appends lines.old lines.new (line first.now (push_words from.0 to.0 count)) }
{
    lines.put_line(
        first,
        &[
            Word::Name(from.0),
            Word::Name(to.0),
            Word::Plain(b"sent"),
            Word::Number(count.sent),
            Word::Plain(b"done"),
            Word::Number(count.done),
            Word::Plain(b"errors"),
            Word::Number(count.errors),
            Word::Plain(b"low"),
            Word::Number(count.low),
        ],
    );
}

/// `push A B sent N done D errors E low M`
pub fn push_line(lines: &mut Lines, from: SiteName, to: SiteName, count: PushCount)
    requires { most_line ≤ lines.old.room }
    ensures { Appends lines.old lines.new (push_text from.0 to.0 count) }
{
    counted_line(lines, b"push", from, to, count);
}

/// `push-calls A B sent N done D errors E low M`
pub fn push_calls_line(lines: &mut Lines, from: SiteName, to: SiteName, count: PushCount)
    requires { most_line ≤ lines.old.room }
    ensures { Appends lines.old lines.new (push_calls_text from.0 to.0 count) }
{
    counted_line(lines, b"push-calls", from, to, count);
}

/// `sent SITE NUMBER`
pub fn sent_line(lines: &mut Lines, site: SiteName, number: u64)
    requires { most_line ≤ lines.old.room }
    ensures { Appends lines.old lines.new (sent_text site.0 number) }
{
    lines.put_line(b"sent", &[Word::Name(site.0), Word::Number(number)]);
}

/// `sent SITE none`
pub fn nothing_sent_line(lines: &mut Lines, site: SiteName)
    requires { most_line ≤ lines.old.room }
    ensures { Appends lines.old lines.new (nothing_sent_text site.0) }
{
    lines.put_line(b"sent", &[Word::Name(site.0), Word::Plain(b"none")]);
}

/// `execute-calls SITE ORIGIN POSITION done`
pub fn execute_calls_line(lines: &mut Lines, site: SiteName, origin: SiteName, position: u64)
    requires { most_line ≤ lines.old.room }
    ensures { Appends lines.old lines.new (execute_calls_text site.0 origin.0 position) }
{
    lines.put_line(
        b"execute-calls",
        &[
            Word::Name(site.0),
            Word::Name(origin.0),
            Word::Number(position),
            Word::Plain(b"done"),
        ],
    );
}

/// `malformed LINE RULE`
pub fn malformed_line(lines: &mut Lines, line: u32, rule: u8)
    requires { most_line ≤ lines.old.room }
    ensures { Appends lines.old lines.new (malformed_text line rule) }
{
    lines.put_line(
        b"malformed",
        &[Word::Number(u64::from(line)), Word::Number(u64::from(rule))],
    );
}
