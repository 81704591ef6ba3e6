//! The first name of a command that stands for nothing.

use command_forms::NameOf;
use rep_calls::Statement;
use rep_declare::{Declare, MethodWords, UniqueWords};
use rep_lists::Items;
use rep_schema::{Schema, TableEntry, is_key_name};
use rep_values::{Name, SiteName, TableName};
use schema_names::{find_constraint, find_group, find_site, find_table, has_column};
use script_parse::{Command, ParentWords, ProcLine, TestWords};

/// A name, and what was to have it.
#[derive(Clone, Copy, Debug, PartialEq, Eq)]
pub struct Named {
    pub of: NameOf,
    pub name: Name,
}

fn site(schema: &Schema, name: &SiteName) -> Option<Named> {
    match find_site(schema.sites.as_slice(), name) {
        Some(_) => None,
        None => Some(Named {
            of: NameOf::Site,
            name: name.0,
        }),
    }
}

fn two_sites(schema: &Schema, first: &SiteName, second: &SiteName) -> Option<Named> {
    match site(schema, first) {
        Some(named) => Some(named),
        None => site(schema, second),
    }
}

fn table(schema: &Schema, name: &TableName) -> Option<Named> {
    match find_table(schema.tables.as_slice(), name) {
        Some(_) => None,
        None => Some(Named {
            of: NameOf::Table,
            name: name.0,
        }),
    }
}

fn column(table: &TableEntry, name: &Name) -> Option<Named> {
    if has_column(table.columns.as_slice(), name) {
        None
    } else {
        Some(Named {
            of: NameOf::Column,
            name: *name,
        })
    }
}

/// The first of these names that is no column of the table, or the table's where there is no such table.
fn columns(schema: &Schema, name: &TableName, names: &[Name]) -> Option<Named> {
    let Some(entry) = find_table(schema.tables.as_slice(), name) else {
        return table(schema, name);
    };
    for name in names {
        let named = column(entry, name);
        if named.is_some() {
            return named;
        }
    }
    None
}

/// The first column of the tests that the table doesn't have, or the table's name where there is no such table.
fn tests(schema: &Schema, name: &TableName, words: &Option<Items<TestWords>>) -> Option<Named> {
    let Some(entry) = find_table(schema.tables.as_slice(), name) else {
        return table(schema, name);
    };
    let Some(words) = words else {
        return None;
    };
    for test in words.as_slice() {
        let named = column(entry, &test.column);
        if named.is_some() {
            return named;
        }
    }
    None
}

fn group(schema: &Schema, name: &TableName, own: &Name) -> Option<Named> {
    let Some(entry) = find_table(schema.tables.as_slice(), name) else {
        return table(schema, name);
    };
    match find_group(entry.groups.as_slice(), own) {
        Some(_) => None,
        None => Some(Named {
            of: NameOf::Group,
            name: *own,
        }),
    }
}

fn constraint(schema: &Schema, name: &TableName, own: &Name) -> Option<Named> {
    let Some(entry) = find_table(schema.tables.as_slice(), name) else {
        return table(schema, name);
    };
    if is_key_name(own) || find_constraint(entry.constraints.as_slice(), own).is_some() {
        return None;
    }
    Some(Named {
        of: NameOf::Constraint,
        name: *own,
    })
}

/// The first name of a declaration that stands for nothing.
fn unknown_in_declaration(schema: &Schema, declaration: &Declare) -> Option<Named> {
    match declaration {
        Declare::Site { .. }
        | Declare::LateSite { .. }
        | Declare::Table { .. }
        | Declare::Priority { .. } => None,
        Declare::SnapSite { master, .. } => site(schema, master),
        Declare::SiteLevel { site: name, .. } => site(schema, name),
        Declare::Convergent { table: name } => table(schema, name),
        Declare::Group {
            table,
            columns: names,
            ..
        }
        | Declare::Unique {
            table,
            columns: names,
            ..
        } => columns(schema, table, names.as_slice()),
        Declare::Method {
            table,
            group: name,
            method,
        } => group(schema, table, name).or(match method_column(method) {
            Some(column) => columns(schema, table, &[column]),
            None => None,
        }),
        Declare::UniqueMethod {
            table,
            constraint: name,
            method,
        } => constraint(schema, table, name).or(match unique_column(method) {
            Some(column) => columns(schema, table, &[column]),
            None => None,
        }),
        Declare::Check { table, column, .. } => columns(schema, table, &[*column]),
    }
}

/// The column that a method of a group names.
fn method_column(method: &MethodWords) -> Option<Name> {
    match method {
        MethodWords::Latest(column)
        | MethodWords::Earliest(column)
        | MethodWords::Maximum(column)
        | MethodWords::Minimum(column)
        | MethodWords::Priority { column, .. }
        | MethodWords::SitePriority(column) => Some(*column),
        MethodWords::Overwrite
        | MethodWords::Discard
        | MethodWords::Additive
        | MethodWords::Average => None,
    }
}

/// The column that a method of a constraint names.
fn unique_column(method: &UniqueWords) -> Option<Name> {
    match method {
        UniqueWords::AppendSite(column) | UniqueWords::AppendSequence(column) => Some(*column),
        UniqueWords::Discard => None,
    }
}

/// The first name of a snapshot's line that stands for nothing.
fn unknown_in_snapshot(
    schema: &Schema,
    own: &TableName,
    parent: &Option<ParentWords>,
    words: &Option<Items<TestWords>>,
) -> Option<Named> {
    match parent {
        None => tests(schema, own, words),
        Some(parent) => columns(schema, own, parent.columns.as_slice()).or(tests(
            schema,
            &parent.table,
            words,
        )),
    }
}

/// The first name of a statement that stands for nothing.
fn unknown_in_statement(schema: &Schema, statement: &Statement) -> Option<Named> {
    match statement {
        Statement::Insert { table: name, .. } | Statement::Delete { table: name, .. } => {
            table(schema, name)
        }
        Statement::Update { table, sets, .. } => {
            let Some(entry) = find_table(schema.tables.as_slice(), table) else {
                return columns(schema, table, &[]);
            };
            for set in sets.as_slice() {
                let named = column(entry, &set.column);
                if named.is_some() {
                    return named;
                }
            }
            None
        }
    }
}

/// The first name of a line about procedures that stands for no site; the names of tables and procedures aren't looked up.
fn unknown_in_procedures(schema: &Schema, line: &ProcLine) -> Option<Named> {
    match line {
        ProcLine::Table { .. } | ProcLine::Procedure { .. } | ProcLine::Call(_) => None,
        ProcLine::Calls { site: name } => site(schema, name),
        ProcLine::Send { to } => {
            for name in to.as_slice() {
                let named = site(schema, name);
                if named.is_some() {
                    return named;
                }
            }
            None
        }
        ProcLine::Push { from, to } | ProcLine::Fates { from, to, .. } => {
            two_sites(schema, from, to)
        }
        ProcLine::Execute {
            site: here,
            origin,
            ..
        } => two_sites(schema, here, origin),
    }
}

/// The first name of a command that stands for nothing in the schema. Where there is none, a name may still stand for something
/// that isn't wanted there.
pub fn unknown(schema: &Schema, command: &Command) -> Option<Named> {
    match command {
        Command::Nothing
        | Command::Resume
        | Command::Suspend
        | Command::Commit
        | Command::Abandon => None,
        Command::Declare(declaration) => unknown_in_declaration(schema, declaration),
        Command::Snapshot {
            site: name,
            table,
            parent,
            tests: words,
        } => site(schema, name).or(unknown_in_snapshot(schema, table, parent, words)),
        Command::Row { table: name, .. } => table(schema, name),
        Command::Statement(statement) => unknown_in_statement(schema, statement),
        Command::Txn { site: name }
        | Command::Clock { site: name, .. }
        | Command::Purge { site: name }
        | Command::Refresh { site: name, .. }
        | Command::Show { site: name, .. } => site(schema, name),
        Command::Push { from, to, .. }
        | Command::Fates { from, to, .. }
        | Command::ClearFates { from, to }
        | Command::Link { from, to, .. } => two_sites(schema, from, to),
        Command::Execute {
            site: here,
            origin,
            ..
        }
        | Command::DropError {
            site: here,
            origin,
            ..
        } => two_sites(schema, here, origin),
        Command::Join { site: late, source } => two_sites(schema, late, source),
        Command::PurgeLog {
            master,
            table: name,
        } => site(schema, master).or(table(schema, name)),
        Command::Procedures(line) => unknown_in_procedures(schema, line),
    }
}
