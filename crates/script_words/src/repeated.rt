//! Parts of a form that stand several times.
ghost use Rattle.std.specs.Prelude.{◌≡◌, ◌≤◌, ℕ, Bool, List, Result, IfOk, length};
ghost use Rattle.script_lex.specs.declared.token.Token.{Token};
ghost use Rattle.script_words.specs.Words.{is_named, is_valued};
ghost use Rattle.script_words.specs.Reading.{begins, several, one_or_more, separated};
ghost use Rattle.script_words.specs.Parts.{name, value};
ghost use Rattle.script_words.specs.Readers.{Reads, ReadsExactly};

use crate::Reader;
use rep_lists::Items;
use rep_values::{Literal, Name};
use script_lex::{BrokenRule, LineStop};
use std::alloc::Global;

/// A part of a form that may stand several times. Its first token tells that it stands there.
pub trait Part {
    /// What is read.
    type Item: Drop;

    ghost starts: { Token → Bool };

    ghost reading: { List Token → Result (Self.Item × List Token) ℕ };

    /// Whether one begins here.
    fn is_next(tokens: &Reader<'_>) -> bool
        ensures { result ≡ begins starts tokens.now };

    /// Reads one, or stops at rule 6.
    fn read(tokens: &mut Reader<'_>) -> Result<Self::Item, BrokenRule>
        ensures { ReadsExactly reading result tokens.old tokens.new };
}

/// NAME
pub struct NamePart;

impl Part for NamePart {
    type Item = Name;

    ghost starts = { is_named };

    ghost reading = { name };

    fn is_next(tokens: &Reader<'_>) -> bool {
        tokens.is_at_name()
    }

    fn read(tokens: &mut Reader<'_>) -> Result<Name, BrokenRule> {
        tokens.name()
    }
}

/// VALUE
pub struct ValuePart;

impl Part for ValuePart {
    type Item = Literal;

    ghost starts = { is_valued };

    ghost reading = { value };

    fn is_next(tokens: &Reader<'_>) -> bool {
        tokens.is_at_value()
    }

    fn read(tokens: &mut Reader<'_>) -> Result<Literal, BrokenRule> {
        tokens.value()
    }
}

/// As many as there are. Where one finds no memory, those behind it are read all the same.
pub fn several<P: Part>(alloc: Global, tokens: &mut Reader<'_>) -> Result<Items<P::Item>, LineStop>
    ensures { Reads (several P.starts P.reading) result tokens.old tokens.new }
{
    let mut found = Items::new(alloc);
    let mut lacks = false;
    let most = tokens.len();
    for _ in 0..most {
        if !P::is_next(tokens) {
            break;
        }
        lacks |= found.push(P::read(tokens)?).is_err();
    }
    if lacks {
        return Err(LineStop::Memory);
    }
    Ok(found)
}

/// One or more.
pub fn one_or_more<P: Part>(
    alloc: Global,
    tokens: &mut Reader<'_>,
) -> Result<Items<P::Item>, LineStop>
    ensures read { Reads (one_or_more P.starts P.reading) result tokens.old tokens.new }
    ensures some { IfOk result (λ found. 1 ≤ length found) }
{
    if !P::is_next(tokens) {
        return Err(LineStop::Rule(6));
    }
    several::<P>(alloc, tokens)
}

/// One, and as many further ones as stand behind the mark. Where one finds no memory, those behind it are read all the
/// same.
pub fn separated<P: Part>(
    alloc: Global,
    word: &[u8],
    tokens: &mut Reader<'_>,
) -> Result<Items<P::Item>, LineStop>
    ensures { Reads (separated word.now P.reading) result tokens.old tokens.new }
{
    let mut found = Items::new(alloc);
    let mut lacks = found.push(P::read(tokens)?).is_err();
    for _ in 0..tokens.len() {
        if !tokens.passes(word) {
            break;
        }
        lacks |= found.push(P::read(tokens)?).is_err();
    }
    if lacks {
        return Err(LineStop::Memory);
    }
    Ok(found)
}
