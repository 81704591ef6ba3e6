//! A list with room, in which a change at any place costs little.
ghost use Rattle.std.specs.Prelude.{◌≡◌, ◌+◌, ◌<◌, ◌≤◌, [], ◌∷◌, ◌++◌, length, insert, set, map, slice_get, slice_index_or, option_copied, IsOk, IfOk, IfErr, OnOk};
ghost use Rattle.rep_lists.specs.Rising.{IsRising, IsThere, IsGap};
ghost use Rattle.ordered_keys.specs.Keys.{by_key, beside_key, entries_above, keys_above};

use crate::Noted;
use crate::change::{changed, purged};
use crate::join::inserted;
use crate::read::{entry_at, push_above, push_keys, search};
use crate::tree::{Fork, Sum, Tree};
use rep_lists::{Items, NoMemory};
use rep_values::Key;
use std::alloc::Global;
use std::marker::Model;
use std::mem;

/// Entries in order, kept as a tree, and the room for more of them. Only `reserve`, `keys` and `keys_above` take
/// memory.
#[derive(Drop)]
pub struct TreeList<E: Noted> {
    alloc: Global,
    root: Tree<E>,
    // Roots that aren't used, with room for all others.
    unused: Vec<Box<Fork<E>>>,
}

impl<E: Noted> Model for TreeList<E> {
    ghost use Rattle.std.specs.Prelude.{◌+◌, ◌≤◌, length, vec_len, vec_capacity};
    ghost use Rattle.rep_lists.specs.Roomy.{Roomy};
    ghost use Rattle.ordered_keys.specs.Trees.{entries, AreSummed};

    ghost Value = { Roomy E };

    ghost view = { λ l. record { items = entries l.root; spare = vec_len l.unused } };

    ghost invariant = { λ l. AreSummed E.moment l.root × (vec_len l.unused + length (entries l.root) ≤ vec_capacity l.unused) };
}

/// A root without sides, which isn't used yet.
fn unused_root<E: Noted>(alloc: Global) -> Result<Box<Fork<E>>, NoMemory> {
    Ok(Box::new(
        alloc,
        Fork {
            left: Tree::Leaf,
            right: Tree::Leaf,
            entry: E::blank(),
            sum: Sum {
                len: 0,
                first: 0,
                last: 0,
            },
        },
    )?)
}

impl<E: Noted> TreeList<E> {
    /// The empty list, which takes no memory.
    pub fn new(alloc: Global) -> TreeList<E>
        ensures { result.items ≡ [] }
    {
        TreeList {
            alloc,
            root: Tree::Leaf,
            unused: Vec::new(alloc),
        }
    }

    /// How many entries there are.
    pub fn len(&self) -> usize
        ensures { result ≡ length self.now.items }
    {
        self.root.sum().len as usize
    }

    /// The entry at a place, from 0; None exactly where the place is at or behind the end.
    pub fn get(&self, place: usize) -> Option<&E>
        ensures { option_copied result ≡ slice_get self.now.items place }
    {
        entry_at(&self.root, place)
    }

    /// The entry at a place that has one.
    pub fn at(&self, place: usize) -> &E
        requires { place < length self.now.items }
        ensures { result.now ≡ slice_index_or self.now.items place result.now }
    {
        match self.get(place) {
            Some(entry) => entry,
            None => unreachable!(),
        }
    }

    /// The place of a key, or else the place where it would stand.
    pub fn search(&self, key: &Key) -> Result<usize, usize>
        requires { IsRising (by_key E.key) self.now.items }
        ensures found { IfOk result (IsThere (beside_key E.key key.now) self.now.items) }
        ensures absent { IfErr result (IsGap (beside_key E.key key.now) self.now.items) }
    {
        search(&self.root, key)
    }

    /// The keys of all entries, in their order.
    pub fn keys(&self, alloc: Global) -> Result<Items<Key>, NoMemory>
        ensures { IfOk result (λ keys. keys ≡ map E.key self.now.items) }
    {
        let mut keys = Items::new(alloc);
        push_keys(&self.root, &mut keys)?;
        Ok(keys)
    }

    /// The keys of the entries with a moment above a mark, in their order.
    pub fn keys_above(&self, alloc: Global, mark: u64) -> Result<Items<Key>, NoMemory>
        ensures { IfOk result (λ keys. keys ≡ keys_above E.key E.moment mark self.now.items) }
    {
        let mut keys = Items::new(alloc);
        push_above(&self.root, mark, &mut keys)?;
        Ok(keys)
    }

    /// Takes the room for so many more entries.
    pub fn reserve(&mut self, more: usize) -> Result<(), NoMemory>
        ensures ok { OnOk result (more ≤ self.new.spare) }
        ensures succeeds { more ≤ self.old.spare → IsOk result }
        ensures items { self.new.items ≡ self.old.items }
        ensures spare { self.old.spare ≤ self.new.spare }
    {
        if more <= self.unused.len() {
            return Ok(());
        }
        let all = self.len().saturating_add(more);
        self.unused.reserve(all)?;
        while self.unused.len() < more {
            self.unused.push_reserved(unused_root(self.alloc)?);
        }
        Ok(())
    }

    /// Adds an entry at a place. It takes no memory.
    pub fn insert(&mut self, place: usize, entry: E)
        requires place { place ≤ length self.old.items }
        requires room { 1 ≤ self.old.spare }
        ensures items { self.new.items ≡ insert self.old.items place entry }
        ensures spare { self.new.spare + 1 ≡ self.old.spare }
    {
        let Some(mut one) = self.unused.pop() else {
            unreachable!()
        };
        one.entry = entry;
        self.root = inserted(mem::replace(&mut self.root, Tree::Leaf), place, one);
    }

    /// Adds an entry behind the others. It takes no memory.
    pub fn push(&mut self, entry: E)
        requires { 1 ≤ self.old.spare }
        ensures items { self.new.items ≡ self.old.items ++ entry ∷ [] }
        ensures spare { self.new.spare + 1 ≡ self.old.spare }
    {
        self.insert(self.len(), entry);
    }

    /// Puts another entry in the place of one.
    pub fn set(&mut self, place: usize, entry: E)
        ensures items { self.new.items ≡ set self.old.items place entry }
        ensures spare { self.new.spare ≡ self.old.spare }
    {
        self.root = changed(mem::replace(&mut self.root, Tree::Leaf), place, entry);
    }

    /// Drops the entries with a moment up to a mark. Their room stays.
    pub fn purge(&mut self, mark: u64)
        ensures items { self.new.items ≡ entries_above E.moment mark self.old.items }
        ensures spare { self.new.spare + length self.new.items ≡ self.old.spare + length self.old.items }
    {
        let root = mem::replace(&mut self.root, Tree::Leaf);
        self.root = purged(root, mark, &mut self.unused);
    }
    /// Drops all entries. Their room stays.
    pub fn clear(&mut self)
        ensures items { self.new.items ≡ [] }
        ensures spare { self.new.spare ≡ self.old.spare + length self.old.items }
    {
        let last = self.root.sum().last;
        self.purge(last);
    }
}
