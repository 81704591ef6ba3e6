//! A list that stands once and has several owners.
ghost use Rattle.std.specs.Prelude.{◌≡◌, ◌<◌, ◌↔◌, [], length, slice_index_or, IsTrue, IfOk};
ghost use Rattle.std.specs.Slice.Iter.{iter_rest};

use crate::{Copies, NoMemory};
use std::alloc::Global;
use std::marker::Model;
use std::slice;
use std::sync::Arc;

/// Values in order, which don't change and stand in memory once, however many owners they have.
#[derive(Drop)]
pub struct Shared<T> {
    kept: Arc<Vec<T>>,
}

impl<T> Model for Shared<T> {
    ghost use Rattle.std.specs.Prelude.{List};
    ghost use Rattle.std.specs.Arc.{arc_value};

    ghost Value = { List T };

    ghost view = { λ a. (arc_value a.kept).items };
}

impl<T> Shared<T> {
    /// How many values there are.
    pub fn len(&self) -> usize
        ensures { result ≡ length self.now }
    {
        self.kept.len()
    }

    /// Whether there is no value.
    pub fn is_empty(&self) -> bool
        ensures { IsTrue result ↔ (self.now ≡ []) }
    {
        self.kept.is_empty()
    }

    /// The values as a slice.
    pub fn as_slice(&self) -> &[T]
        ensures { result.now ≡ self.now }
    {
        self.kept.as_slice()
    }

    /// The value at a place, from 0.
    pub fn at(&self, place: usize) -> &T
        requires { place < length self.now }
        ensures { result.now ≡ slice_index_or self.now place result.now }
    {
        &self.kept.as_slice()[place]
    }

    /// An iterator over the values in order.
    pub fn iter(&self) -> slice::Iter<'_, T>
        ensures { iter_rest result ≡ self.now }
    {
        self.kept.as_slice().iter()
    }

    /// One more owner of the same list, at no memory: it is refused only where 2^63 owners share the list.
    pub fn share(&self) -> Result<Shared<T>, NoMemory>
        ensures { IfOk result (λ shared. shared ≡ self.now) }
    {
        Ok(Shared {
            kept: Arc::try_clone(&self.kept)?,
        })
    }
}

impl<T: Drop> Shared<T> {
    /// The values of a vector, which is taken over as it is.
    pub fn new(alloc: Global, kept: Vec<T>) -> Result<Shared<T>, NoMemory>
        ensures { IfOk result (λ shared. shared ≡ kept.items) }
    {
        Ok(Shared {
            kept: Arc::new(alloc, kept)?,
        })
    }
}

impl<T: Drop> Copies for Shared<T> {
    fn copy(&self, _alloc: Global) -> Result<Shared<T>, NoMemory> {
        self.share()
    }
}
