//! Names of at most 30 bytes, kept in place.
ghost use Rattle.std.specs.Prelude.{◌≡◌, ℕ, ◌-◌, ◌≤◌, ◌++◌, ◌↔◌, length, replicate, nat_eq, true, IsTrue, Some, None, refl, if◌then◌else◌};
ghost use Rattle.std.specs.Ordering.{nat_cmp};
ghost use Rattle.std.specs.Cmp.{partial_equiv_from_equiv};
ghost use Rattle.std.specs.Cmp.Lexicographic.{pointwise, slice_cmp, nat_list_eq_equiv, nat_list_cmp_total, texts_po, texts_ties};
ghost use Rattle.std.specs.List.{list_all};
ghost use Rattle.rep_values.specs.Name.{is_name, is_name_byte, same_bytes};

use crate::{Text, is_digit, is_letter};
use std::cmp::Ordering;
use std::fmt;
use std::marker::Model;

/// 1 to 30 bytes: a letter, then letters, digits and underscores. It is kept in place and takes no memory.
#[derive(Clone, Copy)]
pub struct Name {
    cells: [u8; 30],
    len: u8,
}

impl Model for Name {
    ghost use Rattle.std.specs.Prelude.{◌≡◌, ℕ, List, ◌++◌, ◌-◌, length, take, replicate, true};
    ghost use Rattle.rep_values.specs.Name.{is_name};
    ghost use Rattle.rep_values.specs.Padded.{IsPadded, cells-of_front, len-of_front};

    ghost Value = { List ℕ };

    ghost view = { λ n. take n.len n.cells };

    ghost invariant = { λ n. (is_name (take n.len n.cells) ≡ true) × IsPadded 30 0 n.len n.cells };

    ghost inverse = { λ bytes. record { cells = bytes ++ replicate (30 - length bytes) 0; len = length bytes } };

    ghost inverse_ok = { λ n h i. record {
      cells = cells-of_front 30 0 n.len n.cells h.1 i;
      len = len-of_front 30 0 n.len n.cells h.1 i;
    } };
}

fn is_name_byte(byte: u8) -> bool
    ensures { result ≡ is_name_byte byte }
{
    is_letter(byte) || is_digit(byte) || byte == b'_'
}

fn are_name_bytes(bytes: &[u8]) -> bool
    ensures { result ≡ list_all is_name_byte bytes.now }
{
    bytes.iter().all(|byte| is_name_byte(*byte))
}

/// The bytes, and zeros behind them.
fn padded(bytes: &[u8]) -> [u8; 30]
    requires { length bytes.now ≤ 30 }
    ensures { result ≡ bytes.now ++ replicate (30 - length bytes.now) 0 }
{
    let mut cells = [0; 30];
    cells[..bytes.len()].copy_from_slice(bytes);
    cells
}

impl Name {
    /// The name of these bytes; None exactly where they don't have the form of a name.
    pub fn of(bytes: &[u8]) -> Option<Name>
        ensures { result ≡ (if is_name bytes.now then Some bytes.now else None) }
    {
        if bytes.is_empty() {
            return None;
        }
        if bytes.len() > 30 {
            return None;
        }
        if !is_letter(bytes[0]) {
            return None;
        }
        if !are_name_bytes(bytes) {
            return None;
        }
        Some(Name {
            cells: padded(bytes),
            len: bytes.len() as u8,
        })
    }

    /// The bytes of the name.
    pub fn bytes(&self) -> &[u8]
        ensures value { result.now ≡ self.now }
        ensures form { is_name self.now ≡ true }
    {
        &self.cells[..self.len as usize]
    }

    /// The name as a text, which each name is.
    pub fn text(&self) -> Text
        ensures { result ≡ self.now }
    {
        match Text::of(self.bytes()) {
            Some(text) => text,
            None => unreachable!(),
        }
    }

    /// Whether two names are as long and begin with the same byte, as the same names do. Most names that differ, differ here.
    fn begins_as(&self, other: &Name) -> bool
        ensures { self.now ≡ other.now → IsTrue result }
    {
        self.len == other.len && self.cells[0] == other.cells[0]
    }

    /// Whether two names are the same.
    pub fn is_same(&self, other: &Name) -> bool
        ensures value { result ≡ same_bytes self.now other.now }
        ensures meaning { IsTrue result ↔ (self.now ≡ other.now) }
    {
        self == other
    }
}

/// The bytes of the name, as they are.
impl fmt::Display for Name {
    fn fmt<W: fmt::Write>(&self, f: &mut fmt::Formatter<W>) -> fmt::Result {
        for byte in self.bytes() {
            f.write_char(char::from(*byte))?;
        }
        Ok(())
    }
}

/// As it is displayed.
impl fmt::Debug for Name {
    fn fmt<W: fmt::Write>(&self, f: &mut fmt::Formatter<W>) -> fmt::Result {
        fmt::Display::fmt(self, f)
    }
}

impl PartialEq for Name {
    ghost eq = { pointwise nat_eq };

    ghost laws = { partial_equiv_from_equiv nat_list_eq_equiv };

    fn eq(&self, other: &Name) -> bool {
        self.begins_as(other) && self.bytes() == other.bytes()
    }
}

impl Eq for Name {
    ghost laws = { nat_list_eq_equiv };
}

impl PartialOrd for Name {
    ghost partial_cmp = { λ a b. Some (slice_cmp nat_cmp a b) };

    ghost laws = { texts_po };

    fn partial_cmp(&self, other: &Name) -> Option<Ordering> {
        Some(self.cmp(other))
    }
}

impl Ord for Name {
    ghost cmp = { slice_cmp nat_cmp };

    ghost total = { nat_list_cmp_total };

    ghost matches_partial_cmp = { λ a b. refl };

    ghost matches_eq = { texts_ties };

    fn cmp(&self, other: &Name) -> Ordering {
        self.bytes().cmp(other.bytes())
    }
}

/// The name of a site.
#[derive(Clone, Copy, Debug, PartialEq, Eq, PartialOrd, Ord)]
pub struct SiteName(pub Name);

/// The name of a table.
#[derive(Clone, Copy, PartialEq, Eq, PartialOrd, Ord)]
pub struct TableName(pub Name);

impl fmt::Display for SiteName {
    fn fmt<W: fmt::Write>(&self, f: &mut fmt::Formatter<W>) -> fmt::Result {
        fmt::Display::fmt(&self.0, f)
    }
}

impl SiteName {
    /// Whether two sites have the same name.
    pub fn is_same(&self, other: &SiteName) -> bool
        ensures value { result ≡ same_bytes self.now.0 other.now.0 }
        ensures meaning { IsTrue result ↔ (self.now ≡ other.now) }
    {
        self.0.is_same(&other.0)
    }
}

impl TableName {
    /// Whether two tables have the same name.
    pub fn is_same(&self, other: &TableName) -> bool
        ensures value { result ≡ same_bytes self.now.0 other.now.0 }
        ensures meaning { IsTrue result ↔ (self.now ≡ other.now) }
    {
        self.0.is_same(&other.0)
    }
}
