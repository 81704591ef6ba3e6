//! The errors of one origin.
ghost use Rattle.std.specs.Prelude.{◌≡◌, ◌↔◌, ◌+◌, ◌-◌, ◌≤◌, [], true, None, length, option_copied, slice_get, IfOk, IfErr, OnOk, IsTrue};
ghost use Rattle.std.specs.VecDeque.{deque_len, deque_capacity};
ghost use Rattle.rep_lists.specs.Rising.{IsRising, IsThere, IsGap, find_at, put_at, take_at};
ghost use Rattle.rep_values.specs.Name.{same_bytes};
ghost use Rattle.error_queue.specs.ErrorLists.{error_beside, no_errors};
ghost use Rattle.error_queue.specs.ErrorQueueState.{by_error_position, is_list_of, AreErrorsOf};

use crate::ErrorEntry;
use rep_lists::NoMemory;
use rep_values::SiteName;
use std::alloc::Global;
use std::cmp::Ordering;
use std::collections::VecDeque;
use std::marker::Model;

/// The errors of one origin, in rising order of position.
#[derive(Drop)]
pub struct OriginErrors {
    origin: SiteName,
    // Most errors come behind the others, and many are taken from the front.
    entries: VecDeque<ErrorEntry>,
}

impl Model for OriginErrors {
    ghost use Rattle.std.specs.Prelude.{◌-◌};
    ghost use Rattle.std.specs.VecDeque.{deque_len, deque_capacity};
    ghost use Rattle.error_queue.specs.ErrorQueueState.{OriginErrorsState, AreErrorsOf};

    ghost Value = { OriginErrorsState };

    ghost view = { λ o. record { list = record { origin = o.origin; entries = o.entries.items }; room = deque_capacity o.entries - deque_len o.entries } };

    ghost invariant = { λ o. AreErrorsOf o.origin o.entries.items };
}

/// The place of a position, or else the place where it would stand.
fn search(entries: &VecDeque<ErrorEntry>, position: u64) -> Result<usize, usize>
    requires { IsRising by_error_position entries.now.items }
    ensures found { IfOk result (IsThere (error_beside position) entries.now.items) }
    ensures absent { IfErr result (IsGap (error_beside position) entries.now.items) }
{
    entries.binary_search_by(
        |entry: &ErrorEntry| -> Ordering
            ensures { result ≡ error_beside position entry.now }
        { entry.position.cmp(&position) },
    )
}

fn find(entries: &VecDeque<ErrorEntry>, position: u64) -> Option<&ErrorEntry>
    requires { IsRising by_error_position entries.now.items }
    ensures { option_copied result ≡ find_at (error_beside position) entries.now.items }
{
    match search(entries, position) {
        Ok(place) => Some(&entries[place]),
        Err(_) => None,
    }
}

fn take_out(entries: &mut VecDeque<ErrorEntry>, position: u64) -> Option<ErrorEntry>
    requires { IsRising by_error_position entries.old.items }
    ensures taken { result ≡ find_at (error_beside position) entries.old.items }
    ensures entries { entries.new.items ≡ take_at (error_beside position) entries.old.items }
    ensures room { deque_capacity entries.old - deque_len entries.old ≤ deque_capacity entries.new - deque_len entries.new }
{
    match search(entries, position) {
        Ok(place) => entries.remove(place),
        Err(_) => None,
    }
}

/// Puts an error in its place, where none stands. It takes no memory.
fn put_in(entries: &mut VecDeque<ErrorEntry>, error: ErrorEntry)
    requires rising { IsRising by_error_position entries.old.items }
    requires absent { find_at (error_beside error.position) entries.old.items ≡ None }
    requires room { 1 ≤ deque_capacity entries.old - deque_len entries.old }
    ensures entries { entries.new.items ≡ put_at (error_beside error.position) error entries.old.items }
    ensures room { deque_capacity entries.old - deque_len entries.old ≤ deque_capacity entries.new - deque_len entries.new + 1 }
{
    match search(entries, error.position) {
        Ok(_) => unreachable!(),
        Err(place) => {
            let _ = entries.insert(place, error);
        }
    }
}

impl OriginErrors {
    /// No error, which takes no memory.
    pub(crate) fn new(alloc: Global, origin: SiteName) -> OriginErrors
        ensures { result.list ≡ no_errors origin }
    {
        OriginErrors {
            origin,
            entries: VecDeque::new(alloc),
        }
    }

    /// The origin.
    pub fn origin(&self) -> &SiteName
        ensures { result.now ≡ self.now.list.origin }
    {
        &self.origin
    }

    /// Positions rise, and each error is the origin's.
    pub fn laws(&self)
        ensures { AreErrorsOf self.now.list.origin self.now.list.entries }
    {
        let _origin = &self.origin;
    }

    /// Whether these are the errors of an origin.
    pub(crate) fn is_of(&self, origin: &SiteName) -> bool
        ensures { result ≡ is_list_of origin.now self.now }
    {
        self.origin.0.is_same(&origin.0)
    }

    /// Whether no error stands.
    pub fn is_empty(&self) -> bool
        ensures { IsTrue result ↔ (self.now.list.entries ≡ []) }
    {
        self.entries.is_empty()
    }

    /// How many errors stand.
    pub(crate) fn len(&self) -> u64
        ensures { result ≡ length self.now.list.entries }
    {
        self.entries.len() as u64
    }

    /// The error at a place in rising order, from 0.
    pub(crate) fn at(&self, place: u64) -> Option<&ErrorEntry>
        ensures { option_copied result ≡ slice_get self.now.list.entries place }
    {
        self.entries.get(place as usize)
    }

    /// The error of a position; None exactly where none stands.
    pub fn get(&self, position: u64) -> Option<&ErrorEntry>
        ensures { option_copied result ≡ find_at (error_beside position) self.now.list.entries }
    {
        find(&self.entries, position)
    }

    /// Takes the room for one more error.
    pub(crate) fn reserve(&mut self) -> Result<(), NoMemory>
        ensures ok { OnOk result (1 ≤ self.new.room) }
        ensures list { self.new.list ≡ self.old.list }
        ensures room { self.old.room ≤ self.new.room }
    {
        self.entries.reserve(1)?;
        Ok(())
    }

    /// Adds an error of the origin, of a position that has none. It takes no memory.
    pub(crate) fn add(&mut self, error: ErrorEntry)
        requires own { same_bytes self.old.list.origin.0 error.origin.0 ≡ true }
        requires absent { find_at (error_beside error.position) self.old.list.entries ≡ None }
        requires room { 1 ≤ self.old.room }
        ensures origin { self.new.list.origin ≡ self.old.list.origin }
        ensures entries { self.new.list.entries ≡ put_at (error_beside error.position) error self.old.list.entries }
        ensures room { self.old.room ≤ self.new.room + 1 }
    {
        put_in(&mut self.entries, error);
    }

    /// Takes the error of a position out, if it stands, and keeps its room.
    pub(crate) fn take(&mut self, position: u64) -> Option<ErrorEntry>
        ensures error { result ≡ find_at (error_beside position) self.old.list.entries }
        ensures origin { self.new.list.origin ≡ self.old.list.origin }
        ensures entries { self.new.list.entries ≡ take_at (error_beside position) self.old.list.entries }
        ensures room { self.old.room ≤ self.new.room }
    {
        take_out(&mut self.entries, position)
    }
}
