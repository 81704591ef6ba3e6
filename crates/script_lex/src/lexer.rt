//! The tokens of a line.
ghost use Rattle.std.specs.Prelude.{◌≡◌, ◌≢◌, ◌≤◌, true, [], length, map, Ok, IsOk, OnOk};
ghost use Rattle.std.specs.List.{list_all};
ghost use Rattle.rep_values.specs.Bytes.{is_printable};
ghost use Rattle.script_lex.specs.Tokens.{tokens_from};
ghost use Rattle.script_lex.specs.Spans.{span_token, is_span};
ghost use Rattle.script_lex.specs.Lines.{lexed, or_rule, HasTokens};
ghost use Rattle.script_lex.specs.Stop.{Gives};

use crate::bytes::{are_printable, is_passed_over};
use crate::front::{first_of, token_front};
use crate::{LineStop, Span, Token};
use std::alloc::Global;

/// The greatest number of bytes of a line, its end left out.
const LINE_BYTES: usize = 1024;

/// The tokens of printable bytes, or rule 4. Where a token finds no memory, those behind it are looked at all the same.
fn spans_of(line: &[u8], found: &mut Vec<Span>) -> Result<(), LineStop>
    requires short { length line.now ≤ 1024 }
    requires printable { list_all is_printable line.now ≡ true }
    requires empty { found.old.items ≡ [] }
    ensures read { Gives (IsOk (or_rule 4 (tokens_from 0 line.now))) (λ _. map (span_token line.now) found.new.items) result (or_rule 4 (tokens_from 0 line.now)) }
    ensures form { OnOk result (list_all (is_span line.now) found.new.items ≡ true) }
{
    // Most lines have fewer tokens, so their list is made at once. Where there is no memory, each token asks for its own.
    let _ = found.reserve(line.len() / 3 + 1);
    let mut lacks = false;
    let mut rest = line;
    while let Some((first, after)) = first_of(rest) {
        if first == b' ' {
            rest = after;
        } else {
            let Some((lexeme, behind)) = token_front(rest) else {
                return Err(LineStop::Rule(4));
            };
            let span = Span::of(line.len() - rest.len(), &lexeme);
            lacks |= found.push(span).is_err();
            rest = behind;
        }
    }
    if lacks {
        return Err(LineStop::Memory);
    }
    Ok(())
}

/// The tokens of a line by where they stand in it. What the list had before is gone; its room stays, so where one list serves
/// for many lines few of them take memory. It stops where `lex` does.
#[tactic(auto, using(crate::proofs::Steps::line_facts))]
pub fn spans(line: &[u8], found: &mut Vec<Span>) -> Result<(), LineStop>
    ensures read { Gives (HasTokens line.now) (λ _. map (span_token line.now) found.new.items) result (lexed line.now) }
    ensures form { OnOk result (list_all (is_span line.now) found.new.items ≡ true) }
{
    found.clear();
    if line.len() > LINE_BYTES {
        return Err(LineStop::Rule(1));
    }
    if !are_printable(line) {
        return Err(LineStop::Rule(3));
    }
    if is_passed_over(line) {
        return Ok(());
    }
    spans_of(line, found)
}

/// The tokens, with bytes of their own.
fn tokens_of(alloc: Global, line: &[u8], found: &[Span]) -> Result<Vec<Token>, LineStop>
    requires { list_all (is_span line.now) found.now ≡ true }
    ensures { Gives (found.now ≢ []) (λ tokens. tokens.items) result (Ok (map (span_token line.now) found.now)) }
{
    let mut tokens = Vec::new(alloc);
    for span in found {
        tokens.push(span.lexeme(line).token())?;
    }
    Ok(tokens)
}

/// The tokens of a line, which has no end of line in it. It stops at the first of the rules 1, 3 and 4 that the line
/// breaks. Want of memory is answered only where it breaks none of them and isn't passed over.
pub fn lex(alloc: Global, line: &[u8]) -> Result<Vec<Token>, LineStop>
    ensures { Gives (HasTokens line.now) (λ tokens. tokens.items) result (lexed line.now) }
{
    let mut found = Vec::new(alloc);
    spans(line, &mut found)?;
    tokens_of(alloc, line, &found)
}
