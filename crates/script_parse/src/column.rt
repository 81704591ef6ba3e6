//! The columns of a table, as its line gives them.
ghost use Rattle.std.specs.Prelude.{codes};
ghost use Rattle.script_words.specs.Words.{is_named, entries};
ghost use Rattle.script_words.specs.Reading.{flag};
ghost use Rattle.script_words.specs.Readers.{ReadsExactly};
ghost use Rattle.script_parse.specs.Columns.{column_among, column, plain_column};

use rep_schema::{Column, Kind};
use script_lex::BrokenRule;
use script_words::{Part, Reader};

const KINDS: [(&[u8], Kind); 5] = [
    (b"NUMBER", Kind::Number),
    (b"TEXT", Kind::Words),
    (b"DATE", Kind::Date),
    (b"STAMP", Kind::Stamp),
    (b"SITE", Kind::Site),
];

const PLAIN_KINDS: [(&[u8], Kind); 3] = [
    (b"NUMBER", Kind::Number),
    (b"TEXT", Kind::Words),
    (b"DATE", Kind::Date),
];

/// `[: key]`
fn key_flag(tokens: &mut Reader<'_>) -> Result<bool, BrokenRule>
    ensures { ReadsExactly (flag (codes ":") (codes "key")) result tokens.old tokens.new }
{
    if !tokens.passes(b":") {
        return Ok(false);
    }
    tokens.expect(b"key")?;
    Ok(true)
}

/// `NAME : TYPE [: key]`, with a type of these.
#[tactic(auto, unfolding(crate::specs::Columns::column_among))]
fn column_among(types: &[(&[u8], Kind)], tokens: &mut Reader<'_>) -> Result<Column, BrokenRule>
    ensures { ReadsExactly (column_among (entries types.now)) result tokens.old tokens.new }
{
    let name = tokens.name()?;
    tokens.expect(b":")?;
    let kind = tokens.choice(types)?;
    let key = key_flag(tokens)?;
    Ok(Column { name, kind, key })
}

/// `NAME : TYPE [: key]`
pub struct ColumnPart;

impl Part for ColumnPart {
    type Item = Column;

    ghost starts = { is_named };

    ghost reading = { column };

    fn is_next(tokens: &Reader<'_>) -> bool {
        tokens.is_at_name()
    }

    fn read(tokens: &mut Reader<'_>) -> Result<Column, BrokenRule> {
        column_among(&KINDS, tokens)
    }
}

/// `NAME : TYPE [: key]`, without STAMP and SITE.
pub struct PlainColumnPart;

impl Part for PlainColumnPart {
    type Item = Column;

    ghost starts = { is_named };

    ghost reading = { plain_column };

    fn is_next(tokens: &Reader<'_>) -> bool {
        tokens.is_at_name()
    }

    fn read(tokens: &mut Reader<'_>) -> Result<Column, BrokenRule> {
        column_among(&PLAIN_KINDS, tokens)
    }
}
