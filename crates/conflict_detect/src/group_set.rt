//! Groups of a table, by number.
ghost use Rattle.std.specs.Prelude.{◌≡◌, ◌<◌, [], ◌∷◌, ◌++◌, ◌==◌, ◌↔◌, length, IsTrue};
ghost use Rattle.std.specs.List.{list_any};

use std::marker::Model;

/// Some of a table's groups: at most 32 named ones and the shadow group. It is kept in place and takes no memory.
#[derive(Clone, Copy)]
pub struct GroupSet {
    cells: [u8; 33],
    len: u8,
}

impl Model for GroupSet {
    ghost use Rattle.std.specs.Prelude.{ℕ, List, ◌++◌, ◌-◌, length, take, replicate};
    ghost use Rattle.rep_values.specs.Padded.{IsPadded, cells-of_front, len-of_front};

    ghost Value = { List ℕ };

    ghost view = { λ s. take s.len s.cells };

    ghost invariant = { λ s. IsPadded 33 0 s.len s.cells };

    ghost inverse = { λ groups. record { cells = groups ++ replicate (33 - length groups) 0; len = length groups } };

    ghost inverse_ok = { λ s h i. record {
      cells = cells-of_front 33 0 s.len s.cells h i;
      len = len-of_front 33 0 s.len s.cells h i;
    } };
}

impl GroupSet {
    /// No group.
    pub(crate) fn empty() -> GroupSet
        ensures { result ≡ [] }
    {
        GroupSet {
            cells: [0; 33],
            len: 0,
        }
    }

    pub(crate) fn is_empty(&self) -> bool
        ensures { IsTrue result ↔ (self.now ≡ []) }
    {
        self.len == 0
    }

    /// The groups in the order in which they were added.
    pub(crate) fn as_slice(&self) -> &[u8]
        ensures { result.now ≡ self.now }
    {
        &self.cells[..self.len as usize]
    }

    /// Adds a group behind the others.
    pub(crate) fn add(&mut self, group: u8)
        requires { length self.old < 33 }
        ensures { self.new ≡ self.old ++ group ∷ [] }
    {
        self.cells[self.len as usize] = group;
        self.len += 1;
    }

    /// Whether a group is among them.
    pub fn has(&self, group: u8) -> bool
        ensures { result ≡ list_any (λ g. g == group) self.now }
    {
        self.as_slice().contains(&group)
    }
}
