//! The tests of rows that a form may end with.
ghost use Rattle.script_words.specs.Readers.{Takes};
ghost use Rattle.script_parse.specs.Parts.{where_tests};

use crate::TestWords;
use crate::parts::TestPart;
use rep_lists::Items;
use script_lex::LineStop;
use script_words::{Reader, separated};
use std::alloc::Global;

/// `[where TEST [and TEST]..]`
pub fn where_tests(
    alloc: Global,
    tokens: &mut Reader<'_>,
) -> Result<Option<Items<TestWords>>, LineStop>
    ensures { Takes where_tests result tokens.old tokens.new }
{
    if !tokens.passes(b"where") {
        return Ok(None);
    }
    Ok(Some(separated::<TestPart>(alloc, b"and", tokens)?))
}
