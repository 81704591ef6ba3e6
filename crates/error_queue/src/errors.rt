//! The errors that stand at a site.
ghost use Rattle.std.specs.Prelude.{◌≡◌, ◌↔◌, ℕ, ◌+◌, ◌≤◌, [], None, length, map, option_copied, slice_get, IfOk, OnOk, IsTrue};
ghost use Rattle.std.specs.List.{position};
ghost use Rattle.error_queue.specs.ErrorLists.{no_errors, error_in, in_order, added, removed, IsOrigin};
ghost use Rattle.error_queue.specs.ErrorQueueState.{lists_of, rooms_of, is_list_of};
ghost use Rattle.rep_lists.specs.Counting.{least};

use crate::ErrorEntry;
use crate::origin_errors::OriginErrors;
use rep_lists::NoMemory;
use rep_values::SiteName;
use std::alloc::Global;
use std::marker::Model;

/// The errors that stand, of each origin by position.
#[derive(Drop)]
pub struct Errors {
    // How many errors stand in all lists.
    count: u64,
    lists: Vec<OriginErrors>,
}

impl Model for Errors {
    ghost use Rattle.std.specs.Prelude.{◌≡◌, ◌-◌, ◌^◌, length};
    ghost use Rattle.error_queue.specs.ErrorLists.{ErrorQueue, in_order};
    ghost use Rattle.error_queue.specs.ErrorQueueState.{lists_of, rooms_of};
    ghost use Rattle.rep_lists.specs.Counting.{least};

    ghost Value = { ErrorQueue };

    ghost view = { λ e. record {
      lists = lists_of e.lists.items;
      spare = least (2 ^ 64 - 1 - e.count) (rooms_of e.lists.items);
    } };

    ghost invariant = { λ e. e.count ≡ length (in_order (lists_of e.lists.items)) };
}

/// A list for each of these origins, without an error.
fn new_lists(alloc: Global, origins: &[SiteName]) -> Result<Vec<OriginErrors>, NoMemory>
    ensures { IfOk result (λ lists. lists_of lists.items ≡ map no_errors origins.now) }
{
    let mut lists = Vec::with_capacity(alloc, origins.len())?;
    for origin in origins {
        lists.push(OriginErrors::new(alloc, *origin))?;
    }
    Ok(lists)
}

/// The place of the list of an origin, the first one where two have its name.
fn place_of(lists: &[OriginErrors], origin: &SiteName) -> Option<usize>
    ensures { result ≡ position (is_list_of origin.now) lists.now }
{
    lists.iter().position(|list| list.is_of(origin))
}

/// Takes the room for one more error in each list.
fn reserve_each(lists: &mut [OriginErrors]) -> Result<(), NoMemory>
    ensures ok { OnOk result (1 ≤ least 1 (rooms_of lists.new)) }
    ensures lists { lists_of lists.new ≡ lists_of lists.old }
    ensures room { (free : ℕ) → least free (rooms_of lists.old) ≤ least free (rooms_of lists.new) }
{
    for list in lists.iter_mut() {
        list.reserve()?;
    }
    Ok(())
}

/// The error at a place of the lists one behind the other.
fn entry_at(lists: &[OriginErrors], place: u64) -> Option<&ErrorEntry>
    ensures { option_copied result ≡ slice_get (in_order (lists_of lists.now)) place }
{
    let mut left = place;
    for list in lists {
        if left < list.len() {
            return list.at(left);
        }
        left -= list.len();
    }
    None
}

impl Errors {
    /// No error of these origins, which stand in declared order.
    pub fn make(alloc: Global, origins: &[SiteName]) -> Result<Errors, NoMemory>
        ensures { IfOk result (λ errors. errors.lists ≡ map no_errors origins.now) }
    {
        let lists = new_lists(alloc, origins)?;
        Ok(Errors { count: 0, lists })
    }

    /// How many errors stand.
    pub fn len(&self) -> u64
        ensures { result ≡ length (in_order self.now.lists) }
    {
        self.count
    }

    /// Whether no error stands.
    pub fn is_empty(&self) -> bool
        ensures { IsTrue result ↔ (in_order self.now.lists ≡ []) }
    {
        self.count == 0
    }

    /// Takes the room to add one more error of any origin.
    pub fn reserve(&mut self) -> Result<(), NoMemory>
        ensures ok { OnOk result (1 ≤ self.new.spare) }
        ensures lists { self.new.lists ≡ self.old.lists }
        ensures spare { self.old.spare ≤ self.new.spare }
    {
        // The count of the errors has to fit its type.
        if self.count == u64::MAX {
            return Err(NoMemory);
        }
        reserve_each(&mut self.lists)?;
        Ok(())
    }

    /// Adds an error. It takes no memory.
    pub fn add(&mut self, error: ErrorEntry)
        requires origin { IsOrigin self.old.lists error.origin }
        requires absent { error_in error.origin error.position self.old.lists ≡ None }
        requires room { 1 ≤ self.old.spare }
        ensures lists { self.new.lists ≡ added error self.old.lists }
        ensures spare { self.old.spare ≤ self.new.spare + 1 }
    {
        let Some(place) = place_of(&self.lists, &error.origin) else {
            unreachable!()
        };
        let list = &mut self.lists[place];
        list.add(error);
        self.count += 1;
    }

    /// The error of a position; None exactly where none stands.
    pub fn get(&self, origin: &SiteName, position: u64) -> Option<&ErrorEntry>
        ensures { option_copied result ≡ error_in origin.now position self.now.lists }
    {
        match place_of(&self.lists, origin) {
            Some(place) => self.lists[place].get(position),
            None => None,
        }
    }

    /// Takes the error of a position out, if it stands.
    pub fn remove(&mut self, origin: &SiteName, position: u64) -> Option<ErrorEntry>
        ensures error { result ≡ error_in origin.now position self.old.lists }
        ensures lists { self.new.lists ≡ removed origin.now position self.old.lists }
        ensures spare { self.old.spare ≤ self.new.spare }
    {
        let place = place_of(&self.lists, origin)?;
        let list = &mut self.lists[place];
        let error = list.take(position)?;
        self.count -= 1;
        Some(error)
    }

    /// The errors of each origin, as declared.
    pub fn by_origin(&self) -> &[OriginErrors]
        ensures { lists_of result.now ≡ self.now.lists }
    {
        &self.lists
    }

    /// The errors by origin as declared, then by position, places from 0; None exactly where the place is at or behind
    /// their end.
    pub fn entry_in_order(&self, place: u64) -> Option<&ErrorEntry>
        ensures { option_copied result ≡ slice_get (in_order self.now.lists) place }
    {
        entry_at(&self.lists, place)
    }
}
