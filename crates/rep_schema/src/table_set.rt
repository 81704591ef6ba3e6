//! Tables that a site holds, by number.
ghost use Rattle.std.specs.Prelude.{◌≡◌, ◌<◌, ◌==◌, ℕ, false, map, nat_lt, slice_index_or};
ghost use Rattle.std.specs.List.{list_any, range_with_len, AllByRecursion};
ghost use Rattle.rep_schema.specs.Sites.{has_table};

use std::marker::Model;

/// Some of the tables 0 to 31. It is kept in place and takes no memory.
#[derive(Clone, Copy)]
pub struct TableSet {
    held: [bool; 32],
}

impl Model for TableSet {
    ghost use Rattle.std.specs.Prelude.{Bool, List, refl};

    ghost Value = { List Bool };

    ghost view = { λ s. s.held };

    ghost inverse = { λ held. record { held = held } };

    ghost inverse_ok = { λ s i. refl };
}

fn has_number(tables: &[u32], number: usize) -> bool
    ensures { result ≡ list_any (λ t. t == number) tables.now }
{
    tables.iter().any(|table| *table as usize == number)
}

impl TableSet {
    /// The tables of these numbers, each below 32.
    pub fn of(tables: &[u32]) -> TableSet
        requires { AllByRecursion (λ t. t < 32) tables.now }
        ensures { (t : ℕ) → has_table result t ≡ list_any (λ n. n == t) tables.now }
    {
        let mut held = [false; 32];
        for i in 0..32usize {
            held[i] = has_number(tables, i);
        }
        TableSet { held }
    }

    /// The tables below a number.
    pub fn below(number: usize) -> TableSet
        ensures { result ≡ map (λ table. nat_lt table number) (range_with_len 0 32) }
    {
        let mut held = [false; 32];
        for i in 0..32usize {
            held[i] = i < number;
        }
        TableSet { held }
    }

    /// Whether a table is among them.
    pub fn has(&self, table: u32) -> bool
        ensures { result ≡ has_table self.now table }
    {
        match self.held.get(table as usize) {
            Some(held) => *held,
            None => false,
        }
    }
}
