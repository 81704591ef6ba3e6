//! Pages of slots, where each starts, and empty pages for later.
ghost use Rattle.std.specs.Prelude.{◌≡◌, ◌+◌, ◌-◌, ◌<◌, ◌≤◌, ◌⊎◌, ◌↔◌, [], ◌∷◌, ◌++◌, length, vec_len, vec_capacity, slice_get};
ghost use Rattle.std.specs.Prelude.{slice_index_or, slice_set, insert, remove, IsTrue, IsSome, IfOk, OnOk};
ghost use Rattle.std.specs.List.{AllByRecursion};
ghost use Rattle.rep_lists.specs.Rising.{find_at, take_at};
ghost use Rattle.page_tables.specs.Pages.{entered, starts_of, IsParted};
ghost use Rattle.page_tables.specs.Directory.{slots_in, page_at, slots_with, page_count, room_in, IsDirectory};

use crate::page::{HALF, PAGE, Page};
use crate::page_search::{SlotPlace, find, found_near, page_for, search, slot_at};
use crate::sought::Sought;
use crate::starts::{add_start, copy_starts, lower, raise};
use rep_lists::NoMemory;
use std::alloc::Global;
use std::cell::Cell;

/// More would not fit into any memory.
const MOST_PAGES: usize = 1 << 32;

/// Pages that hold slots, for each the number of slots before it, and empty pages that wait.
#[derive(Drop)]
pub(crate) struct Directory {
    pages: Vec<Page>,
    starts: Vec<usize>,
    waiting: Vec<Page>,
}

/// Keeps an empty page for later. There is a place for it, so this takes no memory.
fn keep(waiting: &mut Vec<Page>, page: Page)
    requires empty { page ≡ [] }
    requires blank { AllByRecursion (λ page. page ≡ []) waiting.old.items }
    requires room { vec_len waiting.old < vec_capacity waiting.old }
    ensures blank { AllByRecursion (λ page. page ≡ []) waiting.new.items }
    ensures one { vec_len waiting.new ≡ vec_len waiting.old + 1 }
    ensures room { vec_capacity waiting.new ≡ vec_capacity waiting.old }
{
    waiting.push_reserved(page);
}

/// Whether a page and the one behind it have fewer than 32 slots.
fn is_short(pages: &[Page], at: usize) -> bool
    requires { at < length pages.now }
    ensures { IsTrue result
        ↔ ((at + 1 < length pages.now) × (length (slice_index_or pages.now at []) + length (slice_index_or pages.now (at + 1) []) < 32)) }
{
    match pages.get(at + 1) {
        Some(next) => pages[at].len() + next.len() < HALF,
        None => false,
    }
}

/// Whether a page and the one before it have fewer than 32 slots.
fn is_short_before(pages: &[Page], at: usize) -> bool
    requires { at < length pages.now }
    ensures { IsTrue result
        ↔ ((0 < at) × (length (slice_index_or pages.now (at - 1) []) + length (slice_index_or pages.now (at - 1 + 1) []) < 32)) }
{
    at > 0 && is_short(pages, at - 1)
}

/// Makes pages until so many wait, or finds no memory.
fn fill_up(waiting: &mut Vec<Page>, alloc: Global, number: usize) -> Result<(), NoMemory>
    requires room { number ≤ vec_capacity waiting.old }
    requires blank { AllByRecursion (λ page. page ≡ []) waiting.old.items }
    ensures ok { OnOk result (number ≤ vec_len waiting.new) }
    ensures kept { vec_len waiting.old ≤ vec_len waiting.new }
    ensures most { (vec_len waiting.new ≤ number) ⊎ (vec_len waiting.new ≡ vec_len waiting.old) }
    ensures blank { AllByRecursion (λ page. page ≡ []) waiting.new.items }
    ensures room { vec_capacity waiting.new ≡ vec_capacity waiting.old }
{
    for _ in waiting.len()..number {
        waiting.push_reserved(Page::make(alloc)?);
    }
    Ok(())
}

/// The same pages once more, with places for so many.
fn copy_pages(alloc: Global, pages: &[Page], places: usize) -> Result<Vec<Page>, NoMemory>
    requires { length pages.now ≤ places }
    ensures pages { IfOk result (λ copied. copied.items ≡ pages.now) }
    ensures places { IfOk result (λ copied. places ≤ vec_capacity copied) }
{
    let mut copied = Vec::with_capacity(alloc, places)?;
    for page in pages {
        copied.push_reserved(page.copy(alloc)?);
    }
    Ok(copied)
}

impl Directory {
    /// No pages.
    pub(crate) fn new(alloc: Global) -> Directory
        ensures pages { result.pages.items ≡ [] }
        ensures whole { IsDirectory result }
    {
        Directory {
            pages: Vec::new(alloc),
            starts: Vec::new(alloc),
            waiting: Vec::new(alloc),
        }
    }

    /// How many pages there are in all.
    pub(crate) fn count(&self) -> usize
        requires { IsDirectory self.now }
        ensures { result ≡ page_count self.now }
    {
        self.pages.len() + self.waiting.len()
    }

    /// The slot at a place.
    pub(crate) fn at(&self, place: usize) -> Option<u32>
        requires { IsDirectory self.now }
        ensures { result ≡ slice_get (slots_in self.now) place }
    {
        slot_at(&self.pages, &self.starts, place)
    }

    /// The slot that is sought. Where it was found is noted.
    pub(crate) fn find<S: Sought>(&self, sought: &S, last: &Cell<SlotPlace>) -> Option<u32>
        requires parted { IsParted (S.at sought.now) (slots_in self.now) }
        requires whole { IsDirectory self.now }
        ensures { result ≡ find_at (S.at sought.now) (slots_in self.now) }
    {
        find(&self.pages, sought, last)
    }

    /// The same slots in as many pages, with as many that wait, or want of memory.
    pub(crate) fn copy(&self, alloc: Global) -> Result<Directory, NoMemory>
        requires { IsDirectory self.now }
        ensures pages { IfOk result (λ copied. copied.pages.items ≡ self.now.pages.items) }
        ensures waiting { IfOk result (λ copied. copied.waiting.items ≡ self.now.waiting.items) }
        ensures whole { IfOk result IsDirectory }
    {
        let places = self.count();
        Ok(Directory {
            pages: copy_pages(alloc, &self.pages, places)?,
            starts: copy_starts(alloc, &self.starts, places)?,
            waiting: copy_pages(alloc, &self.waiting, places)?,
        })
    }

    /// Puts the first slot of all into a page that waits.
    fn start(&mut self, slot: u32)
        requires none { self.old.pages.items ≡ [] }
        requires waits { 1 ≤ vec_len self.old.waiting }
        requires room { length (slots_in self.old) < room_in self.old }
        requires whole { IsDirectory self.old }
        ensures slots { slots_in self.new ≡ slot ∷ [] }
        ensures whole { IsDirectory self.new }
        ensures all { page_count self.new ≡ page_count self.old }
    {
        if let Some(mut page) = self.waiting.pop() {
            page.insert(0, slot);
            self.pages.push_reserved(page);
            self.starts.push_reserved(0);
        }
    }

    /// Takes an empty page out.
    fn drop_page(&mut self, at: usize)
        requires at { at < length self.old.pages.items }
        requires starts { self.old.starts.items ≡ starts_of self.old.pages.items }
        requires empty { page_at self.old at ≡ [] }
        requires blank { AllByRecursion (λ page. page ≡ []) self.old.waiting.items }
        requires room { vec_len self.old.waiting < vec_capacity self.old.waiting }
        ensures pages { self.new.pages.items ≡ remove self.old.pages.items at }
        ensures starts { self.new.starts.items ≡ starts_of self.new.pages.items }
        ensures starts_room { vec_capacity self.new.starts ≡ vec_capacity self.old.starts }
        ensures blank { AllByRecursion (λ page. page ≡ []) self.new.waiting.items }
        ensures one { vec_len self.new.waiting ≡ vec_len self.old.waiting + 1 }
        ensures places { vec_capacity self.new.pages ≡ vec_capacity self.old.pages }
        ensures room { vec_capacity self.new.waiting ≡ vec_capacity self.old.waiting }
    {
        let page = self.pages.remove(at);
        let _ = self.starts.remove(at);
        keep(&mut self.waiting, page);
    }

    /// Joins a page and the one behind it.
    fn join_pages(&mut self, at: usize)
        requires at { at + 1 < length self.old.pages.items }
        requires starts { self.old.starts.items ≡ starts_of self.old.pages.items }
        requires short { length (page_at self.old at) + length (page_at self.old (at + 1)) < 32 }
        requires blank { AllByRecursion (λ page. page ≡ []) self.old.waiting.items }
        requires room { vec_len self.old.waiting < vec_capacity self.old.waiting }
        ensures pages { self.new.pages.items
            ≡ slice_set (remove self.old.pages.items (at + 1)) at (page_at self.old at ++ page_at self.old (at + 1)) }
        ensures starts { self.new.starts.items ≡ starts_of self.new.pages.items }
        ensures starts_room { vec_capacity self.new.starts ≡ vec_capacity self.old.starts }
        ensures blank { AllByRecursion (λ page. page ≡ []) self.new.waiting.items }
        ensures one { vec_len self.new.waiting ≡ vec_len self.old.waiting + 1 }
        ensures places { vec_capacity self.new.pages ≡ vec_capacity self.old.pages }
        ensures room { vec_capacity self.new.waiting ≡ vec_capacity self.old.waiting }
    {
        let mut next = self.pages.remove(at + 1);
        let _ = self.starts.remove(at + 1);
        self.pages[at].join(&mut next);
        keep(&mut self.waiting, next);
    }

    /// Takes a slot out of a page. A page that is then empty is taken out, and one that is then short is joined with its
    /// neighbour.
    fn take_from(&mut self, at: usize, place: usize) -> u32
        requires at { at < length self.old.pages.items }
        requires place { place < length (page_at self.old at) }
        requires whole { IsDirectory self.old }
        ensures value { result ≡ slice_index_or (page_at self.old at) place result }
        ensures slots { slots_in self.new ≡ slots_with self.old at (remove (page_at self.old at) place) }
        ensures whole { IsDirectory self.new }
        ensures all { page_count self.new ≡ page_count self.old }
    {
        let slot = self.pages[at].remove(place);
        lower(&mut self.starts, at + 1);
        if self.pages[at].is_empty() {
            self.drop_page(at);
        } else if is_short(&self.pages, at) {
            self.join_pages(at);
        } else if is_short_before(&self.pages, at) {
            self.join_pages(at - 1);
        }
        slot
    }

    /// Takes the slot that is sought out of its page.
    pub(crate) fn take_out<S: Sought>(&mut self, sought: &S) -> Option<u32>
        requires parted { IsParted (S.at sought.now) (slots_in self.old) }
        requires whole { IsDirectory self.old }
        ensures taken { result ≡ find_at (S.at sought.now) (slots_in self.old) }
        ensures slots { slots_in self.new ≡ take_at (S.at sought.now) (slots_in self.old) }
        ensures whole { IsDirectory self.new }
        ensures all { page_count self.new ≡ page_count self.old }
    {
        if self.pages.is_empty() {
            return None;
        }
        let at = page_for(&self.pages, sought);
        match search(self.pages[at].slots(), sought) {
            Ok(place) => Some(self.take_from(at, place)),
            Err(_) => None,
        }
    }

    /// Inserts a slot into a page, which is split in two where it is full.
    fn insert_into(&mut self, at: usize, place: usize, slot: u32)
        requires at { at < length self.old.pages.items }
        requires place { place ≤ length (page_at self.old at) }
        requires waits { 1 ≤ vec_len self.old.waiting }
        requires room { length (slots_in self.old) < room_in self.old }
        requires whole { IsDirectory self.old }
        ensures slots { slots_in self.new ≡ slots_with self.old at (insert (page_at self.old at) place slot) }
        ensures whole { IsDirectory self.new }
        ensures all { page_count self.new ≡ page_count self.old }
    {
        raise(&mut self.starts, at + 1);
        if self.pages[at].len() < PAGE {
            self.pages[at].insert(place, slot);
            return;
        }
        if let Some(mut behind) = self.waiting.pop() {
            self.pages[at].split_insert(&mut behind, place, slot);
            add_start(&mut self.starts, at, self.pages[at].len());
            let _ = self.pages.insert(at + 1, behind);
        }
    }

    /// Puts a slot in its place, unless another one is found there. It is looked for first where one was found last.
    pub(crate) fn enter<S: Sought>(&mut self, sought: &S, slot: u32, last: SlotPlace) -> Option<u32>
        requires parted { IsParted (S.at sought.now) (slots_in self.old) }
        requires room { IsSome (find_at (S.at sought.now) (slots_in self.old))
            ⊎ (length (slots_in self.old) < room_in self.old) }
        requires whole { IsDirectory self.old }
        ensures found { result ≡ find_at (S.at sought.now) (slots_in self.old) }
        ensures slots { slots_in self.new ≡ entered result (S.at sought.now) slot (slots_in self.old) }
        ensures whole { IsDirectory self.new }
        ensures all { page_count self.new ≡ page_count self.old }
    {
        if self.pages.is_empty() {
            self.start(slot);
            return None;
        }
        if let Some(found) = found_near(&self.pages, sought, last) {
            return Some(found);
        }
        let at = page_for(&self.pages, sought);
        let slots = self.pages[at].slots();
        match search(slots, sought) {
            Ok(place) => Some(self.pages[at].slot(place)),
            Err(place) => {
                self.insert_into(at, place, slot);
                None
            }
        }
    }

    /// Makes pages until there are so many in all, each with a place in the directory, or finds no memory.
    pub(crate) fn make_room(&mut self, number: usize) -> Result<(), NoMemory>
        requires whole { IsDirectory self.old }
        ensures ok { OnOk result (number ≤ page_count self.new) }
        ensures kept { page_count self.old ≤ page_count self.new }
        ensures slots { self.new.pages.items ≡ self.old.pages.items }
        ensures whole { IsDirectory self.new }
    {
        if number > MOST_PAGES {
            return Err(NoMemory);
        }
        if number <= self.count() {
            return Ok(());
        }
        self.pages.reserve(number - self.pages.len())?;
        self.starts.reserve(number - self.starts.len())?;
        self.waiting.reserve(number - self.waiting.len())?;
        let alloc = *self.pages.allocator();
        fill_up(&mut self.waiting, alloc, number - self.pages.len())
    }
}
