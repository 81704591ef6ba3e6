//! Lines as commands.
ghost use Rattle.std.specs.Prelude.{◌≡◌, IsOk, IfOk};
ghost use Rattle.script_lex.specs.Stop.{Gives};
ghost use Rattle.script_words.specs.Reading.{whole};
ghost use Rattle.script_words.specs.Readers.{Takes};
ghost use Rattle.script_parse.specs.Named.{NamesColumn};
ghost use Rattle.script_parse.specs.Heads.{row_of};
ghost use Rattle.script_parse.specs.Parsed.{command_of, HasForm};

use crate::Command;
use crate::commands::{
    clock_form, delete_form, drop_error_form, execute_form, fate_form, insert_form, join_form,
    link_form, purge_form, purge_log_form, push_form, refresh_form, row_form, show_form,
    snapshot_form, subsnapshot_form, txn_form, update_form,
};
use crate::declarations::declaration;
use crate::heads::{Head, head_of};
use crate::procedures::proc_line;
use script_lex::LineStop;
use script_words::Reader;
use std::alloc::Global;

/// The parts behind a command word.
fn parts(alloc: Global, head: Head, tokens: &mut Reader<'_>) -> Result<Command, LineStop>
    ensures read { Takes (row_of head) result tokens.old tokens.new }
    ensures named { IfOk result NamesColumn }
{
    match head {
        Head::Declare(declaring) => Ok(Command::Declare(declaration(alloc, declaring, tokens)?)),
        Head::Snapshot => snapshot_form(alloc, tokens),
        Head::Subsnapshot => subsnapshot_form(alloc, tokens),
        Head::Row => row_form(alloc, tokens),
        Head::Resume => Ok(Command::Resume),
        Head::Insert => insert_form(alloc, tokens),
        Head::Update => update_form(alloc, tokens),
        Head::Delete => delete_form(alloc, tokens),
        Head::Txn => Ok(txn_form(tokens)?),
        Head::Commit => Ok(Command::Commit),
        Head::Abandon => Ok(Command::Abandon),
        Head::Push => Ok(push_form(tokens)?),
        Head::Fate => fate_form(alloc, tokens),
        Head::Link => Ok(link_form(tokens)?),
        Head::Clock => Ok(clock_form(tokens)?),
        Head::Purge => Ok(purge_form(tokens)?),
        Head::Execute => Ok(execute_form(tokens)?),
        Head::DropError => Ok(drop_error_form(tokens)?),
        Head::Refresh => Ok(refresh_form(tokens)?),
        Head::PurgeLog => Ok(purge_log_form(tokens)?),
        Head::Suspend => Ok(Command::Suspend),
        Head::Join => Ok(join_form(tokens)?),
        Head::Show => Ok(show_form(tokens)?),
        Head::Procedures(head) => Ok(Command::Procedures(proc_line(alloc, head, tokens)?)),
    }
}

/// The form behind a command word.
fn form(alloc: Global, head: Head, tokens: &mut Reader<'_>) -> Result<Command, LineStop>
    ensures read { Gives (IsOk (row_of head tokens.old)) (λ command. command) result (whole (row_of head) tokens.old) }
    ensures named { IfOk result NamesColumn }
{
    let command = parts(alloc, head, tokens)?;
    tokens.end()?;
    Ok(command)
}

/// The command that the tokens are.
#[tactic(auto, unfolding(crate::specs::Parsed::command_of))]
pub(crate) fn command_of(alloc: Global, tokens: &mut Reader<'_>) -> Result<Command, LineStop>
    ensures read { Gives (HasForm tokens.old) (λ command. command) result (command_of tokens.old) }
    ensures named { IfOk result NamesColumn }
{
    let Some(first) = tokens.next() else {
        return Ok(Command::Nothing);
    };
    let Some(head) = head_of(first) else {
        return Err(LineStop::Rule(5));
    };
    form(alloc, head, tokens)
}
