//! The commands of one round.
ghost use Rattle.std.specs.Prelude.{◌≡◌, ◌<◌, ◌++◌, pos, codes, IfOk, OnOk};
ghost use Rattle.storm_script.specs.Rounds.{amount_of, name_of, stock_update, transaction, fated_push};

use crate::ways::Way;
use crate::words::{list_of, name, stock, words};
use itoa::Buffer;
use net_plan::Fate;
use rep_calls::{How, Set, Statement};
use rep_lists::NoMemory;
use rep_values::{Literal, SiteName};
use script_parse::Command;
use std::alloc::Global;

// What the round of a number adds.
fn amount_of(number: u32) -> i64
    ensures { result ≡ amount_of number }
{
    (number % 9) as i64 - 4
}

// The name that the round of a number sets.
fn name_of(alloc: Global, number: u32) -> Result<Literal, NoMemory>
    ensures { IfOk result (λ literal. literal ≡ Literal.Words (name_of number)) }
{
    let mut buffer = Buffer::new();
    let mut text = Vec::from_slice(alloc, b"n")?;
    text.extend_from_slice(buffer.format(number).as_bytes())?;
    Ok(words(&text))
}

// The update of the row of an ID.
fn stock_update(alloc: Global, number: u32, id: usize) -> Result<Statement, NoMemory>
    requires { id < 100 }
    ensures { IfOk result (λ statement. statement ≡ stock_update number id) }
{
    let key = list_of(alloc, &[words(b"A"), Literal::Num(id as i64)])?;
    let amount = Set {
        column: name(b"QTY"),
        how: How::Add(amount_of(number)),
    };
    let top = Set {
        column: name(b"TOP"),
        how: How::To(Literal::Num(number as i64)),
    };
    let told = Set {
        column: name(b"NAME"),
        how: How::To(name_of(alloc, number)?),
    };
    Ok(Statement::Update {
        table: stock(),
        key,
        sets: list_of(alloc, &[amount, top, told])?,
    })
}

/// The transaction of the round of a number.
pub fn transaction(
    alloc: Global,
    number: u32,
    site: SiteName,
    id: usize,
) -> Result<Vec<Command>, NoMemory>
    requires { id < 100 }
    ensures { IfOk result (λ commands. commands.items ≡ transaction number site id) }
{
    let statement = stock_update(alloc, number, id)?;
    let mut commands = Vec::new(alloc);
    commands.push(Command::Txn { site })?;
    commands.push(Command::Statement(statement))?;
    commands.push(Command::Commit)?;
    Ok(commands)
}

/// Adds a push, and what becomes of its first packets.
pub fn add_fated_push(
    alloc: Global,
    commands: &mut Vec<Command>,
    way: Way,
    fates: &[Fate],
) -> Result<(), NoMemory>
    ensures { OnOk result (commands.new.items ≡ commands.old.items ++ fated_push way fates.now) }
{
    commands.push(Command::Fates {
        from: way.from,
        to: way.to,
        fates: list_of(alloc, fates)?,
    })?;
    commands.push(Command::Push {
        from: way.from,
        to: way.to,
        count: None,
    })?;
    Ok(())
}
