//! What is remarked of a table, in words.

use crate::rules::rule_text;
use rep_schema::{Column, Group, Method, TableEntry, UniqueMethod, is_grouped};
use rep_values::Name;
use std::fmt;

/// What is remarked of a table. A number is the place of a group or of a constraint.
#[derive(Clone, Copy, Debug, PartialEq, Eq)]
pub enum Remark {
    /// Some columns are in no group.
    Ungrouped,
    /// No method of the group decides every conflict.
    Undecided(usize),
    /// By this method of the group sites that write it at once end apart.
    Parting { group: usize, method: Method },
    /// The constraint has methods, by which sites end with rows of their own. None stands for the key.
    OwnRows(Option<usize>),
    /// The table would be convergent, but for this rule.
    Hindered(u8),
    /// The table keeps all rules of convergent ones.
    Convergent,
}

/// A remark of a table. Its `Display` is a sentence without its full stop.
#[derive(Clone, Copy)]
pub struct RemarkText<'a> {
    pub table: &'a TableEntry,
    pub remark: Remark,
}

/// The word of a method.
pub fn method_word(method: &Method) -> &'static str {
    match method {
        Method::Latest(_) => "latest",
        Method::Earliest(_) => "earliest",
        Method::Overwrite => "overwrite",
        Method::Discard => "discard",
        Method::Additive => "additive",
        Method::Average => "average",
        Method::Maximum(_) => "maximum",
        Method::Minimum(_) => "minimum",
        Method::Priority { .. } => "priority",
        Method::SitePriority(_) => "site-priority",
    }
}

/// When the last method of a group doesn't decide, and what to put behind it.
fn gap_text(last: Option<&Method>) -> &'static str {
    match last {
        None => "has no method: two sites that write it at once end in UpdateConflict at both",
        Some(Method::Latest(_)) | Some(Method::Earliest(_)) => {
            "isn't decided where both have one time: put `site-priority` behind, or `discard` where sites may differ then"
        }
        Some(Method::Maximum(_)) | Some(Method::Minimum(_)) => {
            "isn't decided where both have the same number: put `discard` behind"
        }
        Some(Method::Priority { .. }) | Some(Method::SitePriority(_)) => {
            "isn't decided where levels are equal or one is missing: put `discard` behind, or give each value a level"
        }
        Some(Method::Overwrite)
        | Some(Method::Discard)
        | Some(Method::Additive)
        | Some(Method::Average) => "is decided",
    }
}

/// What a method does by which sites end apart.
fn parting_text(method: &Method) -> &'static str {
    match method {
        Method::Overwrite => "exchanges the values of two sites that write at once",
        Method::Discard => "leaves each of two sites that write at once its own values",
        Method::Average => "of more than two sites depends on which push comes first",
        Method::Latest(_)
        | Method::Earliest(_)
        | Method::Additive
        | Method::Maximum(_)
        | Method::Minimum(_)
        | Method::Priority { .. }
        | Method::SitePriority(_) => "decides",
    }
}

/// The names of the columns outside the key that are in no group, each behind a space.
fn put_ungrouped<W: fmt::Write>(
    f: &mut fmt::Formatter<W>,
    columns: &[Column],
    groups: &[Group],
) -> fmt::Result {
    for place in 0..columns.len() {
        if !columns[place].key && !is_grouped(groups, place) {
            write!(f, " {}", columns[place].name)?;
        }
    }
    Ok(())
}

impl<'a> RemarkText<'a> {
    fn group_name(&self, place: usize) -> Option<&Name> {
        let group = self.table.groups.as_slice().get(place)?;
        Some(&group.name)
    }

    fn put_group<W: fmt::Write>(&self, f: &mut fmt::Formatter<W>, place: usize) -> fmt::Result {
        match self.group_name(place) {
            Some(name) => write!(f, "group {name} of {}", self.table.name.0),
            None => write!(f, "a group of {}", self.table.name.0),
        }
    }

    fn put_undecided<W: fmt::Write>(&self, f: &mut fmt::Formatter<W>, place: usize) -> fmt::Result {
        self.put_group(f, place)?;
        let last = match self.table.groups.as_slice().get(place) {
            Some(group) => group.methods.as_slice().last(),
            None => None,
        };
        write!(f, " {}", gap_text(last))
    }

    fn put_own_rows<W: fmt::Write>(
        &self,
        f: &mut fmt::Formatter<W>,
        place: Option<usize>,
    ) -> fmt::Result {
        let table = &self.table.name.0;
        let constraints = self.table.constraints.as_slice();
        match place.and_then(|place| constraints.get(place)) {
            Some(constraint) => write!(
                f,
                "constraint {} of {table}: each site keeps its own row under a value that two write at once",
                constraint.name
            ),
            None => write!(
                f,
                "the key of {table}: each site keeps its own row under a key that two write at once"
            ),
        }
    }
}

impl<'a> fmt::Display for RemarkText<'a> {
    fn fmt<W: fmt::Write>(&self, f: &mut fmt::Formatter<W>) -> fmt::Result {
        let table = &self.table.name.0;
        match &self.remark {
            Remark::Ungrouped => {
                write!(f, "{table} has columns in no group:")?;
                put_ungrouped(
                    f,
                    self.table.columns.as_slice(),
                    self.table.groups.as_slice(),
                )?;
                f.write_str("; two sites that write them at once end in UpdateConflict shadow")
            }
            Remark::Undecided(group) => self.put_undecided(f, *group),
            Remark::Parting { group, method } => {
                self.put_group(f, *group)?;
                write!(f, ": `{}` {}", method_word(method), parting_text(method))
            }
            Remark::OwnRows(constraint) => self.put_own_rows(f, *constraint),
            Remark::Hindered(rule) => write!(
                f,
                "{table} isn't convergent: if it were declared so, it would break rule {rule}, that {}",
                rule_text(*rule).unwrap_or("there is none of this number")
            ),
            Remark::Convergent => write!(
                f,
                "{table} keeps the rules of convergent tables: `convergent {table}` bars what would break them"
            ),
        }
    }
}
