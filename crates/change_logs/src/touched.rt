//! The touched keys of a snapshot.
ghost use Rattle.std.specs.Prelude.{◌≡◌, ◌↔◌, ◌+◌, ◌<◌, ◌≤◌, [], drop, insert, length, IsTrue, IsOk, IfOk, IfErr, OnOk};
ghost use Rattle.rep_lists.specs.Rising.{IsRising, put_at};
ghost use Rattle.rep_values.specs.Order.{key_cmp};
ghost use Rattle.change_logs.specs.Noted.{IsBelowNext};

use ordered_keys::TreeList;
use rep_lists::{Items, NoMemory};
use rep_values::{Key, compare_keys};
use std::alloc::Global;
use std::cmp::Ordering;
use std::marker::Model;

/// Keys, among which more come, each in its place. Only `of`, `reserve` and `keys` take memory.
#[derive(Drop)]
pub(crate) struct Touched {
    keys: TreeList<Key>,
    // Holds only where the keys rise, so that one needn't go through them.
    rising: bool,
}

impl Model for Touched {
    ghost use Rattle.std.specs.Prelude.{IsTrue};
    ghost use Rattle.rep_lists.specs.Rising.{IsRising};
    ghost use Rattle.rep_lists.specs.Roomy.{Roomy};
    ghost use Rattle.rep_values.specs.Order.{key_cmp};
    ghost use Rattle.rep_schema.specs.Tables.{Cells};

    ghost Value = { Roomy Cells };

    ghost view = { λ t. t.keys };

    ghost invariant = { λ t. IsTrue t.rising → IsRising key_cmp t.keys.items };
}

/// Whether the key at a place is below the next one, if there is one.
fn is_below_next(keys: &[Key], place: usize) -> bool
    requires { place < length keys.now }
    ensures { IsTrue result ↔ IsBelowNext (drop place keys.now) }
{
    if place + 1 == keys.len() {
        return true;
    }
    compare_keys(&keys[place], &keys[place + 1]).is_lt()
}

/// Whether keys rise.
fn is_rising(keys: &[Key]) -> bool
    ensures { IsTrue result ↔ IsRising key_cmp keys.now }
{
    let mut place = keys.len();
    while place > 0 {
        place -= 1;
        if !is_below_next(keys, place) {
            return false;
        }
    }
    true
}

/// These keys as a list to which more come.
fn listed(alloc: Global, keys: &[Key]) -> Result<TreeList<Key>, NoMemory>
    ensures { IfOk result (λ list. list.items ≡ keys.now) }
{
    let mut list = TreeList::new(alloc);
    list.reserve(keys.len())?;
    for key in keys {
        list.push(*key);
    }
    Ok(list)
}

/// The place of a key among any, or else the place where it comes: before the first that isn't lower.
fn scan(keys: &TreeList<Key>, key: &Key) -> Result<usize, usize>
    ensures found { IfOk result (λ place. put_at (λ k. key_cmp k key.now) key.now keys.now.items ≡ keys.now.items) }
    ensures place { IfErr result (λ place. place ≤ length keys.now.items) }
    ensures absent { IfErr result (λ place. put_at (λ k. key_cmp k key.now) key.now keys.now.items ≡ insert keys.now.items place key.now) }
{
    for place in 0..keys.len() {
        match compare_keys(keys.at(place), key) {
            Ordering::Less => {}
            Ordering::Equal => return Ok(place),
            Ordering::Greater => return Err(place),
        }
    }
    Err(keys.len())
}

/// The place of a key, or else the place where it comes. Rising keys aren't gone through one by one.
fn place_of(keys: &TreeList<Key>, rising: bool, key: &Key) -> Result<usize, usize>
    requires { IsTrue rising → IsRising key_cmp keys.now.items }
    ensures found { IfOk result (λ place. put_at (λ k. key_cmp k key.now) key.now keys.now.items ≡ keys.now.items) }
    ensures place { IfErr result (λ place. place ≤ length keys.now.items) }
    ensures absent { IfErr result (λ place. put_at (λ k. key_cmp k key.now) key.now keys.now.items ≡ insert keys.now.items place key.now) }
{
    if rising {
        keys.search(key)
    } else {
        scan(keys, key)
    }
}

/// Puts a key among the others, where it doesn't stand there yet.
fn put_in(keys: &mut TreeList<Key>, rising: bool, key: Key)
    requires room { 1 ≤ keys.old.spare }
    requires rising { IsTrue rising → IsRising key_cmp keys.old.items }
    ensures items { keys.new.items ≡ put_at (λ k. key_cmp k key) key keys.old.items }
    ensures spare { keys.old.spare ≤ keys.new.spare + 1 }
{
    match place_of(keys, rising, &key) {
        Ok(_) => {}
        Err(place) => keys.insert(place, key),
    }
}

impl Touched {
    /// The keys as they are.
    pub(crate) fn of(alloc: Global, keys: Items<Key>) -> Result<Touched, NoMemory>
        ensures { IfOk result (λ touched. touched.items ≡ keys) }
    {
        let rising = is_rising(keys.as_slice());
        Ok(Touched {
            keys: listed(alloc, keys.as_slice())?,
            rising,
        })
    }

    /// A copy of the keys, in their order.
    pub(crate) fn keys(&self, alloc: Global) -> Result<Items<Key>, NoMemory>
        ensures { IfOk result (λ keys. keys ≡ self.now.items) }
    {
        self.keys.keys(alloc)
    }

    /// Takes the room for so many more keys.
    pub(crate) fn reserve(&mut self, more: u64) -> Result<(), NoMemory>
        ensures ok { OnOk result (more ≤ self.new.spare) }
        ensures succeeds { more ≤ self.old.spare → IsOk result }
        ensures items { self.new.items ≡ self.old.items }
        ensures spare { self.old.spare ≤ self.new.spare }
    {
        self.keys.reserve(more as usize)
    }

    /// Puts a key in its place.
    pub(crate) fn put(&mut self, key: Key)
        requires { 1 ≤ self.old.spare }
        ensures items { self.new.items ≡ put_at (λ k. key_cmp k key) key self.old.items }
        ensures spare { self.old.spare ≤ self.new.spare + 1 }
    {
        put_in(&mut self.keys, self.rising, key);
    }

    /// Takes all keys away, and keeps their room.
    pub(crate) fn clear(&mut self)
        ensures items { self.new.items ≡ [] }
        ensures spare { self.old.spare ≤ self.new.spare }
    {
        self.keys.clear();
        self.rising = true;
    }
}
