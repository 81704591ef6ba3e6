//! The parts that forms share.
ghost use Rattle.std.specs.Prelude.{codes};
ghost use Rattle.script_words.specs.Words.{is_named, is_chosen};
ghost use Rattle.script_words.specs.Reading.{either};
ghost use Rattle.script_words.specs.Parts.{choice};
ghost use Rattle.script_words.specs.Readers.{ReadsExactly};
ghost use Rattle.script_parse.specs.Parts.{site, table, rels, row_test, setting, set_part, fates};

use crate::TestWords;
use net_plan::Fate;
use rep_calls::{How, Set};
use rep_schema::Rel;
use rep_values::{Name, SiteName, TableName};
use script_lex::BrokenRule;
use script_words::{Part, Reader};

/// NAME, of a site.
pub fn site(tokens: &mut Reader<'_>) -> Result<SiteName, BrokenRule>
    ensures { ReadsExactly site result tokens.old tokens.new }
{
    Ok(SiteName(tokens.name()?))
}

/// NAME, of a site.
pub struct SitePart;

impl Part for SitePart {
    type Item = SiteName;

    ghost starts = { is_named };

    ghost reading = { site };

    fn is_next(tokens: &Reader<'_>) -> bool {
        tokens.is_at_name()
    }

    fn read(tokens: &mut Reader<'_>) -> Result<SiteName, BrokenRule> {
        site(tokens)
    }
}

/// NAME, of a table.
pub fn table(tokens: &mut Reader<'_>) -> Result<TableName, BrokenRule>
    ensures { ReadsExactly table result tokens.old tokens.new }
{
    Ok(TableName(tokens.name()?))
}

const RELS: [(&[u8], Rel); 6] = [
    (b"=", Rel::Eq),
    (b"!=", Rel::Ne),
    (b"<", Rel::Lt),
    (b"<=", Rel::Le),
    (b">", Rel::Gt),
    (b">=", Rel::Ge),
];

/// OP
pub fn rel(tokens: &mut Reader<'_>) -> Result<Rel, BrokenRule>
    ensures { ReadsExactly (choice rels) result tokens.old tokens.new }
{
    tokens.choice(&RELS)
}

/// `NAME OP VALUE`
pub struct TestPart;

impl Part for TestPart {
    type Item = TestWords;

    ghost starts = { is_named };

    ghost reading = { row_test };

    fn is_next(tokens: &Reader<'_>) -> bool {
        tokens.is_at_name()
    }

    #[tactic(auto, unfolding(crate::specs::Parts::row_test))]
    fn read(tokens: &mut Reader<'_>) -> Result<TestWords, BrokenRule> {
        let column = tokens.name()?;
        let rel = rel(tokens)?;
        let value = tokens.value()?;
        Ok(TestWords { column, rel, value })
    }
}

/// `= VALUE` or `+ number`
fn setting(column: Name, tokens: &mut Reader<'_>) -> Result<Set, BrokenRule>
    ensures { ReadsExactly (setting column) result tokens.old tokens.new }
{
    if tokens.passes(b"=") {
        let how = How::To(tokens.value()?);
        return Ok(Set { column, how });
    }
    tokens.expect(b"+")?;
    let how = How::Add(tokens.number()?);
    Ok(Set { column, how })
}

/// `NAME = VALUE` or `NAME + number`
pub struct SetPart;

impl Part for SetPart {
    type Item = Set;

    ghost starts = { is_named };

    ghost reading = { set_part };

    fn is_next(tokens: &Reader<'_>) -> bool {
        tokens.is_at_name()
    }

    #[tactic(auto, unfolding(crate::specs::Parts::set_part))]
    fn read(tokens: &mut Reader<'_>) -> Result<Set, BrokenRule> {
        let column = tokens.name()?;
        setting(column, tokens)
    }
}

const FATES: [(&[u8], Fate); 4] = [
    (b"pass", Fate::Pass),
    (b"lose", Fate::Lose),
    (b"twice", Fate::Twice),
    (b"late", Fate::Late),
];

/// FATE
pub struct FatePart;

impl Part for FatePart {
    type Item = Fate;

    ghost starts = { is_chosen fates };

    ghost reading = { choice fates };

    fn is_next(tokens: &Reader<'_>) -> bool {
        tokens.is_at_choice(&FATES)
    }

    fn read(tokens: &mut Reader<'_>) -> Result<Fate, BrokenRule> {
        tokens.choice(&FATES)
    }
}
