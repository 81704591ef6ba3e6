//! What is declared before the sites are opened.
ghost use Rattle.rep_schema.specs.Shape.{HasShape};

use crate::member::{BaseRow, Member};
use crate::told::{Told, refused};
use case_reader::{CaseStop, Words, declare};
use rep_lists::NoMemory;
use rep_schema::Schema;
use rep_values::{ApplyError, Refusal, SiteName};
use schema_rules::check;
use std::alloc::Global;
use std::marker::Model;

/// A schema, and the rows that each site has when it is opened.
#[derive(Drop)]
pub struct Declared {
    schema: Schema,
    rows: Vec<BaseRow>,
}

impl Model for Declared {
    ghost use Rattle.rep_schema.specs.declared.schema.Schema.{Schema as SchemaValue};
    ghost use Rattle.rep_schema.specs.Shape.{HasShape};

    ghost Value = { SchemaValue };

    ghost view = { λ d. d.schema };

    ghost invariant = { λ d. HasShape d.schema };
}

/// The declaration that a line is, or why it is refused.
fn add_declaration(alloc: Global, schema: &mut Schema, words: &mut Words) -> Told
    requires { HasShape schema.old }
    ensures { HasShape schema.new }
{
    let why: Option<Refusal> = declare(alloc, schema, words)?;
    // No declaration has this refusal; the check of this function asks that the error's type is named.
    if let Some(Refusal::StillFails(ApplyError::NoRow)) = why {
        return Err(CaseStop::NoCase);
    }
    match why {
        None => Ok(None),
        Some(refusal) => refused(alloc, 0, &refusal),
    }
}

impl Declared {
    /// Nothing is declared.
    pub fn new(alloc: Global) -> Declared {
        Declared {
            schema: Schema::empty(alloc),
            rows: Vec::new(alloc),
        }
    }

    /// Adds the declaration that a line is, or tells why it is refused.
    pub fn declare(&mut self, alloc: Global, words: &mut Words) -> Told {
        add_declaration(alloc, &mut self.schema, words)
    }

    /// Keeps a base row, which is read and tested when a site is opened.
    pub fn add_row(&mut self, alloc: Global, words: &mut Words) -> Told {
        let table = words.table()?;
        let values = words.literals(alloc)?;
        words.end()?;
        self.rows.push(BaseRow { table, values })?;
        Ok(None)
    }

    /// The names of all sites that are there from the start.
    pub fn sites(&self, alloc: Global) -> Result<Vec<SiteName>, NoMemory> {
        let mut names = Vec::new(alloc);
        for entry in self.schema.sites.as_slice() {
            if !entry.late {
                names.push(entry.name)?;
            }
        }
        Ok(names)
    }

    /// The rule that the schema breaks.
    pub fn broken_rule(&self) -> Option<u8> {
        match check(&self.schema) {
            Ok(()) => None,
            Err(rule) => Some(rule),
        }
    }

    /// The site of a name. Where the schema breaks a rule there is no case.
    pub fn open(&self, alloc: Global, name: SiteName) -> Result<Member, CaseStop> {
        Member::open(alloc, &self.schema, &self.rows, name)
    }
}
