//! The forms of lines about procedures.
ghost use Rattle.script_words.specs.Readers.{ReadsExactly, Takes};
ghost use Rattle.script_parse.specs.ProcRows.{proc_table_row, procedure_row, calls_row, call_row, send_row, push_calls_row, fate_calls_row, execute_calls_row, proc_row_of};

use crate::actions::action;
use crate::column::PlainColumnPart;
use crate::heads::ProcHead;
use crate::parts::{FatePart, SitePart, site, table};
use crate::{CallWords, ProcLine};
use script_lex::{BrokenRule, LineStop};
use script_words::{Reader, ValuePart, one_or_more, several};
use std::alloc::Global;

/// `proctable NAME COLUMN+`
fn proc_table_form(alloc: Global, tokens: &mut Reader<'_>) -> Result<ProcLine, LineStop>
    ensures { Takes proc_table_row result tokens.old tokens.new }
{
    let table = table(tokens)?;
    let columns = one_or_more::<PlainColumnPart>(alloc, tokens)?;
    Ok(ProcLine::Table { table, columns })
}

/// `procedure NAME NAME ACTION`
fn procedure_form(alloc: Global, tokens: &mut Reader<'_>) -> Result<ProcLine, LineStop>
    ensures { Takes procedure_row result tokens.old tokens.new }
{
    let procedure = tokens.name()?;
    let table = table(tokens)?;
    let action = action(alloc, tokens)?;
    Ok(ProcLine::Procedure {
        procedure,
        table,
        action,
    })
}

/// `calls NAME`
fn calls_form(tokens: &mut Reader<'_>) -> Result<ProcLine, BrokenRule>
    ensures { ReadsExactly calls_row result tokens.old tokens.new }
{
    let site = site(tokens)?;
    Ok(ProcLine::Calls { site })
}

/// `call NAME [VALUE]..`
fn call_form(alloc: Global, tokens: &mut Reader<'_>) -> Result<ProcLine, LineStop>
    ensures { Takes call_row result tokens.old tokens.new }
{
    let procedure = tokens.name()?;
    let values = several::<ValuePart>(alloc, tokens)?;
    Ok(ProcLine::Call(CallWords { procedure, values }))
}

/// `send [NAME]..`
fn send_form(alloc: Global, tokens: &mut Reader<'_>) -> Result<ProcLine, LineStop>
    ensures { Takes send_row result tokens.old tokens.new }
{
    let to = several::<SitePart>(alloc, tokens)?;
    Ok(ProcLine::Send { to })
}

/// `push-calls NAME NAME`
fn push_calls_form(tokens: &mut Reader<'_>) -> Result<ProcLine, BrokenRule>
    ensures { ReadsExactly push_calls_row result tokens.old tokens.new }
{
    let from = site(tokens)?;
    let to = site(tokens)?;
    Ok(ProcLine::Push { from, to })
}

/// `fate-calls NAME NAME FATE+`
fn fate_calls_form(alloc: Global, tokens: &mut Reader<'_>) -> Result<ProcLine, LineStop>
    ensures { Takes fate_calls_row result tokens.old tokens.new }
{
    let from = site(tokens)?;
    let to = site(tokens)?;
    let fates = one_or_more::<FatePart>(alloc, tokens)?;
    Ok(ProcLine::Fates { from, to, fates })
}

/// `execute-calls NAME NAME WHOLE`
fn execute_calls_form(tokens: &mut Reader<'_>) -> Result<ProcLine, BrokenRule>
    ensures { ReadsExactly execute_calls_row result tokens.old tokens.new }
{
    let here = site(tokens)?;
    let origin = site(tokens)?;
    let position = tokens.whole_number()?;
    Ok(ProcLine::Execute {
        site: here,
        origin,
        position,
    })
}

/// What stands behind the first word.
pub fn proc_line(
    alloc: Global,
    head: ProcHead,
    tokens: &mut Reader<'_>,
) -> Result<ProcLine, LineStop>
    ensures { Takes (proc_row_of head) result tokens.old tokens.new }
{
    match head {
        ProcHead::Table => proc_table_form(alloc, tokens),
        ProcHead::Procedure => procedure_form(alloc, tokens),
        ProcHead::Calls => Ok(calls_form(tokens)?),
        ProcHead::Call => call_form(alloc, tokens),
        ProcHead::Send => send_form(alloc, tokens),
        ProcHead::Push => Ok(push_calls_form(tokens)?),
        ProcHead::Fates => fate_calls_form(alloc, tokens),
        ProcHead::Execute => Ok(execute_calls_form(tokens)?),
    }
}
