//! A list that takes its room before it grows.
ghost use Rattle.std.specs.Prelude.{◌≡◌, ◌+◌, ◌<◌, ◌≤◌, ◌↔◌, [], ◌∷◌, ◌++◌, length, vec_len, vec_capacity, slice_index_or, slice_set, insert, remove, option_to_list, IsTrue, IsOk, IfOk, OnOk};
ghost use Rattle.std.specs.Slice.Iter.{iter_rest};

use crate::NoMemory;
use std::alloc::Global;
use std::marker::Model;
use std::{mem, slice};

/// Values in order, and the room for more of them. Only `with_room` and `reserve` take memory.
#[derive(Drop)]
pub struct RoomyList<T> {
    kept: Vec<T>,
}

impl<T> Model for RoomyList<T> {
    ghost use Rattle.std.specs.Prelude.{◌-◌, vec_len, vec_capacity};
    ghost use Rattle.rep_lists.specs.Roomy.{Roomy};

    ghost Value = { Roomy T };

    ghost view = { λ a. record { items = a.kept.items; spare = vec_capacity a.kept - vec_len a.kept } };
}

impl<T> RoomyList<T> {
    /// The empty list, which takes no memory.
    pub fn new(alloc: Global) -> RoomyList<T>
        ensures { result.items ≡ [] }
    {
        RoomyList {
            kept: Vec::new(alloc),
        }
    }

    /// The empty list with room for so many values.
    pub fn with_room(alloc: Global, room: usize) -> Result<RoomyList<T>, NoMemory>
        ensures items { IfOk result (λ list. list.items ≡ []) }
        ensures spare { IfOk result (λ list. room ≤ list.spare) }
    {
        Ok(RoomyList {
            kept: Vec::with_capacity(alloc, room)?,
        })
    }

    /// How many values there are.
    pub fn len(&self) -> usize
        ensures { result ≡ length self.now.items }
    {
        self.kept.len()
    }

    /// Whether there is no value.
    pub fn is_empty(&self) -> bool
        ensures { IsTrue result ↔ (self.now.items ≡ []) }
    {
        self.kept.is_empty()
    }

    /// The values as a slice.
    pub fn as_slice(&self) -> &[T]
        ensures { result.now ≡ self.now.items }
    {
        self.kept.as_slice()
    }

    /// The value at a place, from 0.
    pub fn at(&self, place: usize) -> &T
        requires { place < length self.now.items }
        ensures { result.now ≡ slice_index_or self.now.items place result.now }
    {
        &self.kept[place]
    }

    /// An iterator over the values in order.
    pub fn iter(&self) -> slice::Iter<'_, T>
        ensures { iter_rest result ≡ self.now.items }
    {
        self.kept.iter()
    }

    /// Takes the room for so many more values.
    pub fn reserve(&mut self, more: usize) -> Result<(), NoMemory>
        ensures ok { OnOk result (more ≤ self.new.spare) }
        ensures succeeds { more ≤ self.old.spare → IsOk result }
        ensures items { self.new.items ≡ self.old.items }
        ensures spare { self.old.spare ≤ self.new.spare }
    {
        self.kept.reserve(more)?;
        Ok(())
    }

    /// Adds a value behind the others. It takes no memory.
    pub fn push(&mut self, value: T)
        requires { 1 ≤ self.old.spare }
        ensures items { self.new.items ≡ self.old.items ++ value ∷ [] }
        ensures spare { self.new.spare + 1 ≡ self.old.spare }
    {
        self.kept.push_reserved(value);
    }

    /// Takes the last value away, if there is one, and keeps its room.
    pub fn pop(&mut self) -> Option<T>
        ensures items { self.old.items ≡ self.new.items ++ option_to_list result }
        ensures spare { self.old.spare + length (option_to_list result) ≡ self.new.spare }
    {
        self.kept.pop()
    }

    /// Takes the value at a place away, and keeps its room.
    pub fn remove(&mut self, place: usize) -> T
        requires { place < length self.old.items }
        ensures value { result ≡ slice_index_or self.old.items place result }
        ensures items { self.new.items ≡ remove self.old.items place }
        ensures spare { self.new.spare ≡ self.old.spare + 1 }
    {
        self.kept.remove(place)
    }

    /// Puts a value in the place of another one, which is handed back.
    pub fn replace(&mut self, place: usize, value: T) -> T
        requires { place < length self.old.items }
        ensures value { result ≡ slice_index_or self.old.items place result }
        ensures items { self.new.items ≡ slice_set self.old.items place value }
        ensures spare { self.new.spare ≡ self.old.spare }
    {
        mem::replace(&mut self.kept[place], value)
    }
}

impl<T: Drop> RoomyList<T> {
    /// Adds a value at a place, in front of those from there on. It takes no memory.
    pub fn insert(&mut self, place: usize, value: T)
        requires place { place ≤ length self.old.items }
        requires room { 1 ≤ self.old.spare }
        ensures items { self.new.items ≡ insert self.old.items place value }
        ensures spare { self.new.spare + 1 ≡ self.old.spare }
    {
        insert_in_room(&mut self.kept, place, value);
    }
}

/// Adds a value at a place of a vector that has room for it, in front of those from there on. It takes no memory.
pub fn insert_in_room<T: Drop>(values: &mut Vec<T>, place: usize, value: T)
    requires place { place ≤ vec_len values.old }
    requires room { vec_len values.old + 1 ≤ vec_capacity values.old }
    ensures items { values.new.items ≡ insert values.old.items place value }
    ensures capacity { vec_capacity values.new ≡ vec_capacity values.old }
    ensures number { vec_len values.new ≡ vec_len values.old + 1 }
{
    let _ = values.insert(place, value);
}
