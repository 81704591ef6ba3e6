//! What may be meant otherwise, at the end of a script.

use crate::{Advice, AdviceFound, Trail};
use command_forms::NameOf;
use rep_lists::NoMemory;
use rep_schema::{Schema, TableEntry};
use rep_values::{Name, SiteName};
use schema_advice::{BrokenPart, Remark, table_remarks};
use script_flow::Spots;
use std::alloc::Global;

/// The group that a remark of a table is about.
fn group_of<'a>(table: &'a TableEntry, remark: &Remark) -> Option<&'a Name> {
    match remark {
        Remark::Undecided(group) | Remark::Parting { group, .. } => {
            Some(&table.groups.as_slice().get(*group)?.name)
        }
        Remark::OwnRows(_) | Remark::Ungrouped | Remark::Hindered(_) | Remark::Convergent => None,
    }
}

/// The constraint that a remark of a table is about.
fn constraint_of<'a>(table: &'a TableEntry, remark: &Remark) -> Option<&'a Name> {
    match remark {
        Remark::OwnRows(Some(constraint)) => {
            Some(&table.constraints.as_slice().get(*constraint)?.name)
        }
        Remark::Undecided(_)
        | Remark::Parting { .. }
        | Remark::OwnRows(None)
        | Remark::Ungrouped
        | Remark::Hindered(_)
        | Remark::Convergent => None,
    }
}

/// The line of the declaration that a remark is about.
fn remark_line(spots: &Spots, table: &TableEntry, remark: &Remark) -> Option<u32> {
    if let Some(group) = group_of(table, remark) {
        return spots.line_of(NameOf::Group, Some(table.name), group);
    }
    if let Some(constraint) = constraint_of(table, remark) {
        return spots.line_of(NameOf::Constraint, Some(table.name), constraint);
    }
    spots.line_of(NameOf::Table, None, &table.name.0)
}

/// Adds an advice about the script as a whole.
fn add_whole(advice: Advice, found: &mut Vec<AdviceFound>) -> Result<(), NoMemory> {
    found.push(AdviceFound { line: None, advice })?;
    Ok(())
}

/// Adds what is remarked of the table at a place.
fn add_each(
    spots: &Spots,
    place: usize,
    table: &TableEntry,
    remarks: &[Remark],
    found: &mut Vec<AdviceFound>,
) -> Result<(), NoMemory> {
    for remark in remarks {
        found.push(AdviceFound {
            line: remark_line(spots, table, remark),
            advice: Advice::Table {
                place,
                remark: *remark,
            },
        })?;
    }
    Ok(())
}

impl Trail {
    /// The line that declares a table or a group.
    pub fn line_of(&self, part: &BrokenPart) -> Option<u32> {
        match &part.group {
            Some(group) => self.spots().line_of(NameOf::Group, Some(part.table), group),
            None => self.spots().line_of(NameOf::Table, None, &part.table.0),
        }
    }

    /// Adds that the block is open, if one is, and that the declarations haven't ended, if they haven't.
    pub fn add_open(&self, found: &mut Vec<AdviceFound>) -> Result<(), NoMemory> {
        if let Some(line) = self.flow().open_block() {
            found.push(AdviceFound {
                line: Some(line),
                advice: Advice::OpenBlock,
            })?;
        }
        if self.flow().is_resumed() {
            return Ok(());
        }
        add_whole(Advice::NoResume, found)
    }

    /// Adds what is remarked of a table of a schema, which stands at a place.
    fn add_table(
        &self,
        alloc: Global,
        schema: &Schema,
        place: usize,
        table: &TableEntry,
        found: &mut Vec<AdviceFound>,
    ) -> Result<(), NoMemory> {
        let remarks = table_remarks(alloc, schema, table)?;
        add_each(self.spots(), place, table, remarks.as_slice(), found)
    }

    /// Adds what is remarked of the tables of a schema.
    pub fn add_remarks(
        &self,
        alloc: Global,
        schema: &Schema,
        found: &mut Vec<AdviceFound>,
    ) -> Result<(), NoMemory> {
        for (place, table) in schema.tables.iter().enumerate() {
            self.add_table(alloc, schema, place, table, found)?;
        }
        Ok(())
    }

    /// Adds that so many transactions of the first site aren't acknowledged by the second, if there are any.
    pub fn add_left(
        &self,
        from: &SiteName,
        to: &SiteName,
        count: u64,
        found: &mut Vec<AdviceFound>,
    ) -> Result<(), NoMemory> {
        if count == 0 {
            return Ok(());
        }
        let (from, to) = (*from, *to);
        if self.is_pushed(&from, &to) {
            return add_whole(Advice::Unfinished { from, to, count }, found);
        }
        add_whole(Advice::NeverPushed { from, to, count }, found)
    }

    /// Adds that so many errors stand at the site, if there are any.
    pub fn add_standing(
        &self,
        site: &SiteName,
        count: u64,
        found: &mut Vec<AdviceFound>,
    ) -> Result<(), NoMemory> {
        if count == 0 {
            return Ok(());
        }
        add_whole(Advice::Errors { site: *site, count }, found)
    }

    /// Adds that nothing was shown, where that is so.
    pub fn add_no_show(&self, found: &mut Vec<AdviceFound>) -> Result<(), NoMemory> {
        if self.shows() {
            return Ok(());
        }
        add_whole(Advice::NoShow, found)
    }
}
