//! Lines of scripts with live parts: three forms more.
ghost use Rattle.std.specs.Prelude.{IfOk};
ghost use Rattle.script_lex.specs.Stop.{Gives, GivesExactly};
ghost use Rattle.script_words.specs.Reading.{whole};
ghost use Rattle.script_words.specs.Parts.{choice};
ghost use Rattle.script_words.specs.Readers.{ReadsExactly};
ghost use Rattle.script_parse.specs.Parsed.{HasForm};
ghost use Rattle.script_parse.specs.LiveLines.{live_heads, live_row_of, live_row, live_command_of, LiveNamesColumn};

use crate::Command;
use crate::forms::command_of;
use crate::parts::site;
use rep_values::SiteName;
use script_lex::{BrokenRule, LineStop};
use script_words::Reader;
use std::alloc::Global;

/// A line of a script with live parts.
#[derive(Drop)]
pub enum LiveCommand {
    /// A line that every script may have.
    Plain(Command),
    /// `live NAME`
    Open(SiteName),
    /// `session`
    Session,
    /// `end`
    End,
}

/// The first word of a line that no other script has.
#[derive(Clone, Copy, Debug, PartialEq, Eq)]
pub enum LiveHead {
    Open,
    Session,
    End,
}

const LIVE_HEADS: [(&[u8], LiveHead); 3] = [
    (b"live", LiveHead::Open),
    (b"session", LiveHead::Session),
    (b"end", LiveHead::End),
];

fn live_head(tokens: &mut Reader<'_>) -> Result<LiveHead, BrokenRule>
    ensures { ReadsExactly (choice live_heads) result tokens.old tokens.new }
{
    tokens.choice(&LIVE_HEADS)
}

/// What stands behind the first word.
fn live_behind(head: LiveHead, tokens: &mut Reader<'_>) -> Result<LiveCommand, BrokenRule>
    ensures read { ReadsExactly (live_row_of head) result tokens.old tokens.new }
    ensures named { IfOk result LiveNamesColumn }
{
    match head {
        LiveHead::Open => Ok(LiveCommand::Open(site(tokens)?)),
        LiveHead::Session => Ok(LiveCommand::Session),
        LiveHead::End => Ok(LiveCommand::End),
    }
}

/// `live NAME`, `session` or `end`
fn live_parts(tokens: &mut Reader<'_>) -> Result<LiveCommand, BrokenRule>
    ensures read { ReadsExactly live_row result tokens.old tokens.new }
    ensures named { IfOk result LiveNamesColumn }
{
    let head = live_head(tokens)?;
    live_behind(head, tokens)
}

/// One of the three forms, and nothing behind it.
fn live_form(tokens: &mut Reader<'_>) -> Result<LiveCommand, BrokenRule>
    ensures read { GivesExactly (λ command. command) result (whole live_row tokens.old) }
    ensures named { IfOk result LiveNamesColumn }
{
    let command = live_parts(tokens)?;
    tokens.end()?;
    Ok(command)
}

/// The command that the tokens are.
#[tactic(auto, unfolding(crate::specs::LiveLines::live_command_of))]
pub(crate) fn live_command_of(
    alloc: Global,
    tokens: &mut Reader<'_>,
) -> Result<LiveCommand, LineStop>
    ensures read { Gives (HasForm tokens.old) (λ command. command) result (live_command_of tokens.old) }
    ensures named { IfOk result LiveNamesColumn }
{
    if tokens.is_at_choice(&LIVE_HEADS) {
        return Ok(live_form(tokens)?);
    }
    Ok(LiveCommand::Plain(command_of(alloc, tokens)?))
}
