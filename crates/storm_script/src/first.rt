//! How a storm begins.
ghost use Rattle.std.specs.Prelude.{◌≡◌, ◌++◌, ◌<◌, IfOk, OnOk};
ghost use Rattle.storm_script.specs.Opening.{row_line, row_lines, opening};

use crate::declarations::add_declarations;
use crate::words::{list_of, stock, words};
use rep_lists::NoMemory;
use rep_values::Literal;
use script_parse::Command;
use std::alloc::Global;

// A row of the first site.
fn row(alloc: Global, id: u8) -> Result<Command, NoMemory>
    ensures { IfOk result (λ command. command ≡ row_line id) }
{
    let values = [
        words(b"A"),
        Literal::Num(i64::from(id)),
        Literal::Num(1_000),
        Literal::Num(0),
        words(b"base"),
    ];
    Ok(Command::Row {
        table: stock(),
        values: list_of(alloc, &values)?,
    })
}

// The rows of the first site.
fn add_rows(alloc: Global, commands: &mut Vec<Command>, number: u8) -> Result<(), NoMemory>
    ensures { OnOk result (commands.new.items ≡ commands.old.items ++ row_lines number) }
{
    for id in 0..number {
        commands.push(row(alloc, id)?)?;
    }
    Ok(())
}

/// The commands before the rounds: what is declared, the rows, and the end of Setup.
pub fn opening(alloc: Global) -> Result<Vec<Command>, NoMemory>
    ensures { IfOk result (λ commands. commands.items ≡ opening) }
{
    let mut commands = Vec::new(alloc);
    add_declarations(alloc, &mut commands)?;
    add_rows(alloc, &mut commands, 100)?;
    commands.push(Command::Resume)?;
    Ok(commands)
}
