//! Lines as commands, or what is wrong with them.
ghost use Rattle.std.specs.Prelude.{◌≡◌, ◌≤◌, ℕ, true, length, IfOk, OnErr, Err};
ghost use Rattle.std.specs.List.{list_all, prefix_len};
ghost use Rattle.rep_values.specs.Bytes.{is_printable};
ghost use Rattle.script_lex.specs.Bytes.{is_space};
ghost use Rattle.script_lex.specs.Spans.{is_span};
ghost use Rattle.script_lex.specs.Lines.{HasTokens};
ghost use Rattle.script_parse.specs.Named.{NamesColumn};
ghost use Rattle.script_parse.specs.Parsed.{parsed};
ghost use Rattle.line_advice.specs.Fronts.{has_at_most, IsLongest};
ghost use Rattle.line_advice.specs.Mistakes.{IsMistake, ReadsLine};

use crate::bytes::{byte_hint, is_word_byte, token_hint};
use crate::fronts::{counted_front, read_front};
use crate::near::command_hint;
use crate::{Hint, LineError, Mistake};
use command_forms::{Wanted, form_at};
use form_stops::follow;
use rep_lists::NoMemory;
use script_lex::{LineStop, Span, spans};
use script_parse::{Command, LineParser};
use script_words::Reader;
use std::alloc::Global;

/// The greatest number of bytes of a line.
const LINE_BYTES: usize = 1024;

fn is_printable(byte: u8) -> bool
    ensures { result ≡ is_printable byte }
{
    b' ' <= byte && byte <= b'~'
}

/// How many printable bytes stand in front.
fn printable_run(line: &[u8]) -> usize
    ensures value { result ≡ prefix_len is_printable line.now }
    ensures within { result ≤ length line.now }
{
    line.iter().take_while(|byte| is_printable(**byte)).count()
}

/// How many spaces stand in front.
fn space_run(line: &[u8]) -> usize
    ensures value { result ≡ prefix_len is_space line.now }
    ensures within { result ≤ length line.now }
{
    line.iter().take_while(|byte| **byte == b' ').count()
}

/// How many bytes of words stand in front.
fn word_run(bytes: &[u8]) -> usize
    ensures { result ≤ length bytes.now }
{
    bytes.iter().take_while(|byte| is_word_byte(**byte)).count()
}

/// The first byte that isn't printable.
fn odd_byte(line: &[u8]) -> Mistake
    requires { parsed line.now ≡ Err 3 }
    ensures { IsMistake line.now result }
{
    let place = printable_run(line);
    let (_, behind) = line.split_at(place);
    Mistake {
        rule: 3,
        column: place + 1,
        hint: byte_hint(behind),
    }
}

/// The first place at which no token stands.
fn no_token(alloc: Global, line: &[u8]) -> Mistake
    requires { parsed line.now ≡ Err 4 }
    ensures { IsMistake line.now result }
{
    let mut found = Vec::new(alloc);
    let place = read_front(line, &mut found);
    let (before, behind) = line.split_at(place);
    Mistake {
        rule: 4,
        column: place + 1,
        hint: token_hint(before, behind),
    }
}

/// A first word that is no command.
fn no_command(alloc: Global, line: &[u8]) -> Result<Mistake, NoMemory>
    requires { parsed line.now ≡ Err 5 }
    ensures { IfOk result (IsMistake line.now) }
{
    let place = space_run(line);
    let (_, behind) = line.split_at(place);
    let (word, _) = behind.split_at(word_run(behind));
    let hint = command_hint(alloc, word)?;
    Ok(Mistake {
        rule: 5,
        column: place + 1,
        hint,
    })
}

/// How many tokens the form of the line's command goes on with, that word included, and what it goes on with then.
fn form_hint(line: &[u8], found: &[Span]) -> (usize, Hint)
    requires { list_all (is_span line.now) found.now ≡ true }
{
    let mut tokens = Reader::of(line, found);
    let Some(first) = tokens.next() else {
        return (0, Hint::UnknownCommand);
    };
    let Some(form) = form_at(first) else {
        return (0, Hint::UnknownCommand);
    };
    let wanted = match follow(form, &mut tokens) {
        Ok(()) => Wanted::End(&[]),
        Err(wanted) => wanted,
    };
    let count = found.len().saturating_sub(tokens.len());
    (count, Hint::Form { wanted, form })
}

/// How many bytes stand before the first token that the form doesn't go on with, and what it goes on with.
fn form_stop(alloc: Global, line: &[u8]) -> Result<(usize, Hint), NoMemory>
    ensures { IfOk result (λ stop. (k : ℕ) × IsLongest (has_at_most k) line.now stop.0) }
{
    let mut found = Vec::new(alloc);
    let Ok(()) = spans(line, &mut found) else {
        return Err(NoMemory);
    };
    let (count, hint) = form_hint(line, &found);
    let place = counted_front(line, count, &mut found)?;
    Ok((place, hint))
}

/// What is wrong with a line that breaks this rule.
fn mistake_of(alloc: Global, line: &[u8], rule: u8) -> Result<Mistake, NoMemory>
    requires { parsed line.now ≡ Err rule }
    ensures ok { IfOk result (IsMistake line.now) }
    ensures err { OnErr result (HasTokens line.now) }
{
    if rule == 1 {
        return Ok(Mistake {
            rule,
            column: LINE_BYTES + 1,
            hint: Hint::LongLine(line.len()),
        });
    }
    if rule == 3 {
        return Ok(odd_byte(line));
    }
    if rule == 4 {
        return Ok(no_token(alloc, line));
    }
    if rule == 5 {
        return no_command(alloc, line);
    }
    let (place, hint) = form_stop(alloc, line)?;
    Ok(Mistake {
        rule,
        column: place + 1,
        hint,
    })
}

/// The command that a line is, as `parse_line` gives it, or what is wrong with it.
pub fn read_line(alloc: Global, parser: &mut LineParser, line: &[u8]) -> Result<Command, LineError>
    ensures read { ReadsLine line.now result }
    ensures named { IfOk result NamesColumn }
{
    match parser.parse_line(alloc, line) {
        Ok(command) => Ok(command),
        Err(LineStop::Rule(rule)) => Err(LineError::Mistake(mistake_of(alloc, line, rule)?)),
        Err(LineStop::Memory) => Err(LineError::Memory),
    }
}
