//! Lines that are read one after the other.
ghost use Rattle.std.specs.Prelude.{IfOk};
ghost use Rattle.script_lex.specs.Lines.{HasTokens};
ghost use Rattle.script_lex.specs.Stop.{Gives};
ghost use Rattle.script_parse.specs.Named.{NamesColumn};
ghost use Rattle.script_parse.specs.Parsed.{parsed};
ghost use Rattle.script_parse.specs.LiveLines.{live_parsed, LiveNamesColumn};

use crate::forms::command_of;
use crate::live_lines::live_command_of;
use crate::{Command, LiveCommand};
use script_lex::{LineStop, Span, spans};
use script_words::Reader;
use std::alloc::Global;

/// What reads lines. It keeps the room for a line's tokens, so where one reads many lines, few of them take memory for these.
#[derive(Drop)]
pub struct LineParser {
    found: Vec<Span>,
}

impl LineParser {
    /// One that has no room yet, which takes no memory.
    pub fn new(alloc: Global) -> LineParser {
        LineParser {
            found: Vec::new(alloc),
        }
    }

    /// The command that a line is, as `parse_line` gives it.
    pub fn parse_line(&mut self, alloc: Global, line: &[u8]) -> Result<Command, LineStop>
        ensures read { Gives (HasTokens line.now) (λ command. command) result (parsed line.now) }
        ensures named { IfOk result NamesColumn }
    {
        spans(line, &mut self.found)?;
        command_of(alloc, &mut Reader::of(line, &self.found))
    }

    /// The command that a line of a script with live parts is, as `parse_live` gives it.
    pub fn parse_live(&mut self, alloc: Global, line: &[u8]) -> Result<LiveCommand, LineStop>
        ensures read { Gives (HasTokens line.now) (λ command. command) result (live_parsed line.now) }
        ensures named { IfOk result LiveNamesColumn }
    {
        spans(line, &mut self.found)?;
        live_command_of(alloc, &mut Reader::of(line, &self.found))
    }
}

/// The command that a line is, which has no end of line in it. It stops at the first of the rules 1, 3, 4, 5 and 6 that
/// the line breaks. Want of memory is answered only where the line has tokens, that is, where it breaks none of the rules 1, 3
/// and 4 and isn't passed over. A declared group or constraint names a column.
pub fn parse_line(alloc: Global, line: &[u8]) -> Result<Command, LineStop>
    ensures read { Gives (HasTokens line.now) (λ command. command) result (parsed line.now) }
    ensures named { IfOk result NamesColumn }
{
    LineParser::new(alloc).parse_line(alloc, line)
}

/// The command that a line of a script with live parts is; the line has no end of line in it. Where one of the words `live`,
/// `session` and `end` is in front, it is the command of that form, or breaks rule 6; every other line is read as `parse_line`
/// reads it. Want of memory is answered only where the line has tokens. A declared group or constraint names a column.
pub fn parse_live(alloc: Global, line: &[u8]) -> Result<LiveCommand, LineStop>
    ensures read { Gives (HasTokens line.now) (λ command. command) result (live_parsed line.now) }
    ensures named { IfOk result LiveNamesColumn }
{
    LineParser::new(alloc).parse_live(alloc, line)
}
