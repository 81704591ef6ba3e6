//! A list over a vector, which contracts see as its list.
ghost use Rattle.std.specs.Prelude.{◌≡◌, ◌<◌, ◌↔◌, [], ◌∷◌, ◌++◌, length, slice_index_or, option_to_list, IsTrue, IfOk, OnOk, OnErr};
ghost use Rattle.std.specs.Borrow.{sem};
ghost use Rattle.rep_lists.specs.Lends.{lends_place};
ghost use Rattle.std.specs.Slice.Iter.{iter_rest};

use crate::{Copies, NoMemory};
use std::alloc::Global;
use std::marker::Model;
use std::slice;

/// Values in order. Where a type has a list of values, its field is of this type.
#[derive(Drop)]
pub struct Items<T> {
    kept: Vec<T>,
}

impl<T> Model for Items<T> {
    ghost use Rattle.std.specs.Prelude.{List};

    ghost Value = { List T };

    ghost view = { λ a. a.kept.items };
}

impl<T> Items<T> {
    /// The empty list, which takes no memory.
    pub fn new(alloc: Global) -> Items<T>
        ensures { result ≡ [] }
    {
        Items {
            kept: Vec::new(alloc),
        }
    }

    /// The empty list. It asks for room for so many values at once; no clause says how much is taken.
    pub fn with_capacity(alloc: Global, capacity: usize) -> Result<Items<T>, NoMemory>
        ensures { IfOk result (λ items. items ≡ []) }
    {
        Ok(Items {
            kept: Vec::with_capacity(alloc, capacity)?,
        })
    }

    /// The values of a vector, which is taken over as it is.
    pub fn from_vec(kept: Vec<T>) -> Items<T>
        ensures { result ≡ kept.items }
    {
        Items { kept }
    }

    /// The values as a vector, without a copy.
    pub fn into_vec(self) -> Vec<T>
        ensures { result.items ≡ self }
    {
        self.kept
    }

    /// How many values there are.
    pub fn len(&self) -> usize
        ensures { result ≡ length self.now }
    {
        self.kept.len()
    }

    /// Whether there is no value.
    pub fn is_empty(&self) -> bool
        ensures { IsTrue result ↔ (self.now ≡ []) }
    {
        self.kept.is_empty()
    }

    /// The values as a slice.
    pub fn as_slice(&self) -> &[T]
        ensures { result.now ≡ self.now }
    {
        self.kept.as_slice()
    }

    /// The value at a place, from 0.
    pub fn at(&self, place: usize) -> &T
        requires { place < length self.now }
        ensures { result.now ≡ slice_index_or self.now place result.now }
    {
        &self.kept[place]
    }

    /// The value at a place, to be changed where it stands.
    pub fn at_mut(&mut self, place: usize) -> &mut T
        requires { place < length self.old }
        ensures* writes_back { sem 𝓛 (lends_place T.row self.entry place result) }
        ensures value { result.now ≡ slice_index_or self.old place result.now }
    {
        &mut self.kept[place]
    }

    /// Takes the last value away, if there is one.
    pub fn pop(&mut self) -> Option<T>
        ensures { self.old ≡ self.new ++ option_to_list result }
    {
        self.kept.pop()
    }

    /// An iterator over the values in order.
    pub fn iter(&self) -> slice::Iter<'_, T>
        ensures { iter_rest result ≡ self.now }
    {
        self.kept.iter()
    }
}

impl<T: Drop> Items<T> {
    /// Adds a value behind the others, or finds no memory and leaves the list as it was.
    pub fn push(&mut self, value: T) -> Result<(), NoMemory>
        ensures ok { OnOk result (self.new ≡ self.old ++ value ∷ []) }
        ensures err { OnErr result (self.new ≡ self.old) }
    {
        self.kept.push(value)?;
        Ok(())
    }
}

impl<T: Copies + Drop> Copies for Items<T> {
    fn copy(&self, alloc: Global) -> Result<Items<T>, NoMemory> {
        let mut kept = Vec::with_capacity(alloc, self.kept.len())?;
        for value in &self.kept {
            kept.push(value.copy(alloc)?)?;
        }
        Ok(Items { kept })
    }
}
