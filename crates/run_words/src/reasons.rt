//! Why commands are refused, and what to do.

use desk_words::RefusalNote;
use rep_lists::NoMemory;
use rep_schema::Schema;
use rep_values::Refusal;
use schema_advice::{BrokenPart, broken_parts, rule_text};
use script_flow::{Cause, Named, unknown};
use script_parse::Command;
use site_words::add_note;
use std::alloc::{AllocError, Global};

/// Appends why a command was refused, and what to do.
pub fn add_refusal(
    text: &mut String,
    command: &Command,
    refusal: &Refusal,
) -> Result<(), AllocError> {
    let refusal = *refusal;
    add_note(text, &RefusalNote { command, refusal })
}

/// Appends that a command isn't for now for the same cause as an earlier line.
pub fn add_same_cause(text: &mut String, line: u32) -> Result<(), AllocError> {
    add_note(text, &format_args!("for the cause of line {line}"))
}

/// Appends why a command isn't for now, and which line was to bring that about.
pub fn add_new_cause(
    text: &mut String,
    cause: &Cause,
    first: Option<u32>,
) -> Result<(), AllocError> {
    add_note(text, cause)?;
    match first {
        Some(first) => add_note(
            text,
            &format_args!("line {first} was to do that, and was refused"),
        ),
        None => Ok(()),
    }
}

/// Appends that nothing is done of the block that a line closes.
pub fn add_block(text: &mut String, number: u32) -> Result<(), AllocError> {
    add_note(
        text,
        &format_args!("nothing of the block is done that line {number} closes"),
    )
}

/// Appends that a name stands for nothing.
fn add_named(text: &mut String, named: &Named) -> Result<(), AllocError> {
    add_note(
        text,
        &format_args!(
            "`{}` is no {}: upper and lower case differ",
            named.name,
            named.of.word()
        ),
    )
}

/// Appends which name of a command stands for nothing.
pub fn add_unknown(
    text: &mut String,
    schema: &Schema,
    command: &Command,
) -> Result<(), AllocError> {
    match unknown(schema, command) {
        Some(named) => add_named(text, &named),
        None => add_note(
            text,
            &"what it names is declared, but not for this: a site pushes and sends to others alone, and not every site and table has each use",
        ),
    }
}

/// Appends which tables and groups of a schema break rules, where a command was refused for one.
pub fn add_broken(
    alloc: Global,
    text: &mut String,
    schema: &Schema,
    told: u8,
) -> Result<(), NoMemory> {
    let parts = broken_parts(alloc, schema)?;
    Ok(add_parts(text, told, parts.as_slice())?)
}

/// Appends which of these tables and groups break which rules.
fn add_parts(text: &mut String, told: u8, parts: &[BrokenPart]) -> Result<(), AllocError> {
    for part in parts {
        add_part(text, told, part)?;
    }
    Ok(())
}

/// Appends which table or group breaks a rule.
fn add_whose(text: &mut String, part: &BrokenPart) -> Result<(), AllocError> {
    let rule = part.rule;
    let table = &part.table.0;
    match &part.group {
        Some(group) => add_note(
            text,
            &format_args!("group {group} of {table} breaks rule {rule}"),
        ),
        None => add_note(text, &format_args!("{table} breaks rule {rule}")),
    }
}

/// Appends what a rule asks for, if there is one of this number.
fn add_rule(text: &mut String, rule: u8) -> Result<(), AllocError> {
    match rule_text(rule) {
        Some(asked) => add_note(text, &format_args!("rule {rule}: {asked}")),
        None => Ok(()),
    }
}

/// Appends which table or group breaks a rule, and what that asks for where it is another one than was told.
fn add_part(text: &mut String, told: u8, part: &BrokenPart) -> Result<(), AllocError> {
    add_whose(text, part)?;
    if part.rule == told {
        return Ok(());
    }
    add_rule(text, part.rule)
}
