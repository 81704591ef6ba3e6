//! The actions of procedures.
ghost use Rattle.script_words.specs.Parts.{choice};
ghost use Rattle.script_words.specs.Readers.{ReadsExactly, Takes};
ghost use Rattle.script_parse.specs.Actions.{action_heads, action_behind, action};

use crate::ActionWords;
use crate::conditions::where_tests;
use script_lex::{BrokenRule, LineStop};
use script_words::Reader;
use std::alloc::Global;

/// The first word of an action.
#[derive(Clone, Copy, Debug, PartialEq, Eq)]
pub enum ActionHead {
    Put,
    Add,
    Drop,
}

const ACTIONS: [(&[u8], ActionHead); 3] = [
    (b"put", ActionHead::Put),
    (b"add", ActionHead::Add),
    (b"drop", ActionHead::Drop),
];

fn action_head(tokens: &mut Reader<'_>) -> Result<ActionHead, BrokenRule>
    ensures { ReadsExactly (choice action_heads) result tokens.old tokens.new }
{
    tokens.choice(&ACTIONS)
}

/// What stands behind the first word.
fn action_behind(
    alloc: Global,
    head: ActionHead,
    tokens: &mut Reader<'_>,
) -> Result<ActionWords, LineStop>
    ensures { Takes (action_behind head) result tokens.old tokens.new }
{
    match head {
        ActionHead::Put => Ok(ActionWords::Put),
        ActionHead::Add => {
            let column = tokens.name()?;
            let tests = where_tests(alloc, tokens)?;
            Ok(ActionWords::Add { column, tests })
        }
        ActionHead::Drop => {
            let tests = where_tests(alloc, tokens)?;
            Ok(ActionWords::Drop { tests })
        }
    }
}

/// ACTION
pub fn action(alloc: Global, tokens: &mut Reader<'_>) -> Result<ActionWords, LineStop>
    ensures { Takes action result tokens.old tokens.new }
{
    let head = action_head(tokens)?;
    action_behind(alloc, head, tokens)
}
