//! What a storm declares.
ghost use Rattle.std.specs.Prelude.{◌≡◌, ◌++◌, ◌∷◌, ◌<◌, [], true, pos, IfOk, OnOk};
ghost use Rattle.rep_values.specs.Name.{is_name};
ghost use Rattle.script_parse.specs.Columns.{column_of};
ghost use Rattle.storm_script.specs.Opening.{site_lines, stock_columns, table_line, group_line, method_line, amount_lines, greatest_lines, latest_lines, level_line, level_lines, convergent_line, declarations};

use crate::ways::sites;
use crate::words::{list_of, name, stock};
use rep_declare::{Declare, MethodWords};
use rep_lists::{Items, NoMemory};
use rep_schema::{Column, Kind};
use rep_values::{Name, SiteName};
use script_parse::Command;
use std::alloc::Global;

// The sites.
fn add_sites(commands: &mut Vec<Command>) -> Result<(), NoMemory>
    ensures { OnOk result (commands.new.items ≡ commands.old.items ++ site_lines) }
{
    let [a, b, c] = sites();
    commands.push(Command::Declare(Declare::Site { name: a }))?;
    commands.push(Command::Declare(Declare::Site { name: b }))?;
    commands.push(Command::Declare(Declare::Site { name: c }))?;
    Ok(())
}

// A column of this name.
fn column(bytes: &[u8], kind: Kind, key: bool) -> Column
    requires { is_name bytes.now ≡ true }
    ensures { result ≡ column_of bytes.now kind key }
{
    Column {
        name: name(bytes),
        kind,
        key,
    }
}

// The columns of the table.
fn stock_columns(alloc: Global) -> Result<Items<Column>, NoMemory>
    ensures { IfOk result (λ columns. columns ≡ stock_columns) }
{
    list_of(
        alloc,
        &[
            column(b"HOME", Kind::Site, true),
            column(b"ID", Kind::Number, true),
            column(b"QTY", Kind::Number, false),
            column(b"TOP", Kind::Number, false),
            column(b"NAME", Kind::Words, false),
            column(b"CHG", Kind::Stamp, false),
            column(b"BY", Kind::Site, false),
        ],
    )
}

// The table.
fn add_table(alloc: Global, commands: &mut Vec<Command>) -> Result<(), NoMemory>
    ensures { OnOk result (commands.new.items ≡ commands.old.items ++ table_line ∷ []) }
{
    commands.push(Command::Declare(Declare::Table {
        name: stock(),
        columns: stock_columns(alloc)?,
    }))?;
    Ok(())
}

// A group of the table.
fn group(alloc: Global, bytes: &[u8], columns: &[Name]) -> Result<Command, NoMemory>
    requires { is_name bytes.now ≡ true }
    ensures { IfOk result (λ command. command ≡ group_line bytes.now columns.now) }
{
    Ok(Command::Declare(Declare::Group {
        table: stock(),
        group: name(bytes),
        columns: list_of(alloc, columns)?,
    }))
}

// A method of a group of the table.
fn method(bytes: &[u8], method: MethodWords) -> Command
    requires { is_name bytes.now ≡ true }
    ensures { result ≡ method_line bytes.now method }
{
    Command::Declare(Declare::Method {
        table: stock(),
        group: name(bytes),
        method,
    })
}

// The group whose amounts are added.
fn add_amounts(alloc: Global, commands: &mut Vec<Command>) -> Result<(), NoMemory>
    ensures { OnOk result (commands.new.items ≡ commands.old.items ++ amount_lines) }
{
    commands.push(group(alloc, b"q", &[name(b"QTY")])?)?;
    commands.push(method(b"q", MethodWords::Additive))?;
    Ok(())
}

// The group whose greatest number stays.
fn add_greatest(alloc: Global, commands: &mut Vec<Command>) -> Result<(), NoMemory>
    ensures { OnOk result (commands.new.items ≡ commands.old.items ++ greatest_lines) }
{
    let top = name(b"TOP");
    commands.push(group(alloc, b"t", &[top])?)?;
    commands.push(method(b"t", MethodWords::Maximum(top)))?;
    commands.push(method(b"t", MethodWords::Discard))?;
    Ok(())
}

// The group whose latest name stays.
fn add_latest(alloc: Global, commands: &mut Vec<Command>) -> Result<(), NoMemory>
    ensures { OnOk result (commands.new.items ≡ commands.old.items ++ latest_lines) }
{
    let moment = name(b"CHG");
    let by = name(b"BY");
    commands.push(group(alloc, b"n", &[name(b"NAME"), moment, by])?)?;
    commands.push(method(b"n", MethodWords::Latest(moment)))?;
    commands.push(method(b"n", MethodWords::SitePriority(by)))?;
    Ok(())
}

// The level of a site.
fn level(site: SiteName, level: u8) -> Command
    ensures { result ≡ level_line site level }
{
    Command::Declare(Declare::SiteLevel {
        site,
        level: i64::from(level),
    })
}

// The levels of the sites.
fn add_levels(commands: &mut Vec<Command>) -> Result<(), NoMemory>
    ensures { OnOk result (commands.new.items ≡ commands.old.items ++ level_lines) }
{
    let [a, b, c] = sites();
    commands.push(level(a, 1))?;
    commands.push(level(b, 2))?;
    commands.push(level(c, 3))?;
    Ok(())
}

/// Adds all that is declared.
pub fn add_declarations(alloc: Global, commands: &mut Vec<Command>) -> Result<(), NoMemory>
    ensures { OnOk result (commands.new.items ≡ commands.old.items ++ declarations) }
{
    add_sites(commands)?;
    add_table(alloc, commands)?;
    add_amounts(alloc, commands)?;
    add_greatest(alloc, commands)?;
    add_latest(alloc, commands)?;
    add_levels(commands)?;
    commands.push(Command::Declare(Declare::Convergent { table: stock() }))?;
    Ok(())
}
