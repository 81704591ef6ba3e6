//! The lines of turns.
ghost use Rattle.std.specs.Prelude.{◌≡◌, ◌≤◌, ◌+◌, [], ◌∷◌, ◌++◌, flat_map, OnOk};
ghost use Rattle.report_text.specs.Sheet.{Appends, most_line, spaced};
ghost use Rattle.live_laws.specs.declared.turn.LiveTurn.TheVariants.{Applied, Committed};
ghost use Rattle.live_laws.specs.declared.turn.Reply.TheVariants.{Refused};
ghost use Rattle.live_report.specs.PartTexts.{most_turn, reply_words, turn_line};

use live_laws::{LiveTurn, Reply};
use rep_lists::NoMemory;
use rep_values::{ApplyError, Refusal, SiteName};
use report_text::{Lines, MOST_LINE, Word, error_line, refused_line};

/// The most bytes of a turn's line: `turn session K block J`, and a refused line behind it.
pub(crate) const MOST_TURN: u64 = 2 * MOST_LINE;

/// `turn done O P`, or `turn error O P call C KIND`
fn put_applied(
    lines: &mut Lines,
    origin: &SiteName,
    position: u64,
    call: u32,
    error: &Option<ApplyError>,
)
    requires { most_turn ≤ lines.old.room }
    ensures { Appends lines.old lines.new (turn_line (Applied origin.now position call error.now)) }
{
    match error {
        Some(error) => {
            lines.put(b"turn ");
            error_line(lines, origin, position, call, error);
        }
        None => lines.put_line(
            b"turn",
            &[
                Word::Plain(b"done"),
                Word::Name(origin.0),
                Word::Number(position),
            ],
        ),
    }
}

/// ` ! LINE TEXT` and the end of the line; the end alone where there is no memory.
fn put_refused(lines: &mut Lines, line: u32, refusal: &Refusal)
    requires { 1 + most_line ≤ lines.old.room }
    ensures { Appends lines.old lines.new (spaced (reply_words (Refused line refusal.now)) ++ 10 ∷ []) }
{
    if let Refusal::Memory = refusal {
        lines.put(b"\n");
        return;
    }
    lines.put(b" ");
    refused_line(lines, line, refusal);
}

/// ` commit N`, ` none` or ` ! LINE TEXT`, and the end of the line
fn put_reply(lines: &mut Lines, reply: &Reply)
    requires { 1 + most_line ≤ lines.old.room }
    ensures { Appends lines.old lines.new (spaced (reply_words reply.now) ++ 10 ∷ []) }
{
    match reply {
        Reply::Commit(number) => lines.put_line(b" commit", &[Word::Number(*number)]),
        Reply::Nothing => lines.put(b" none\n"),
        Reply::Refused { line, refusal } => put_refused(lines, *line, refusal),
    }
}

/// `turn session K block J` and the reply
fn put_committed(lines: &mut Lines, session: u32, block: u32, reply: &Reply)
    requires { most_turn ≤ lines.old.room }
    ensures { Appends lines.old lines.new (turn_line (Committed session block reply.now)) }
{
    lines.put(b"turn");
    lines.put_words(&[
        Word::Plain(b"session"),
        Word::Number(u64::from(session)),
        Word::Plain(b"block"),
        Word::Number(u64::from(block)),
    ]);
    put_reply(lines, reply);
}

/// The line of a turn.
pub(crate) fn put_turn(lines: &mut Lines, turn: &LiveTurn)
    requires { most_turn ≤ lines.old.room }
    ensures { Appends lines.old lines.new (turn_line turn.now) }
{
    match turn {
        LiveTurn::Applied {
            origin,
            position,
            call,
            error,
        } => put_applied(lines, origin, *position, *call, error),
        LiveTurn::Committed {
            session,
            block,
            reply,
        } => put_committed(lines, *session, *block, reply),
    }
}

/// A line for each turn.
pub(crate) fn add_turns(lines: &mut Lines, turns: &[LiveTurn]) -> Result<(), NoMemory>
    ensures { OnOk result (lines.new.bytes ≡ lines.old.bytes ++ flat_map turn_line turns.now) }
{
    for turn in turns {
        lines.reserve(MOST_TURN)?;
        put_turn(lines, turn);
    }
    Ok(())
}
