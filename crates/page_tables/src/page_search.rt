//! Where slots lie in pages, and where they would lie.
ghost use Rattle.std.specs.Prelude.{◌≡◌, ◌<◌, ◌↔◌, [], Some, length, slice_get, slice_index_or, IsTrue, IfOk, IfErr, IfSome};
ghost use Rattle.std.specs.List.{AllByRecursion};
ghost use Rattle.std.specs.declared.cmp.Ordering.TheVariants.{Greater};
ghost use Rattle.rep_lists.specs.Rising.{IsThere, IsGap, find_at};
ghost use Rattle.page_tables.specs.Pages.{page_values, at_first, starts_of, IsParted, IsPage, IsPageFor};

use crate::page::Page;
use crate::sought::Sought;
use crate::starts::started;
use std::cell::Cell;
use std::cmp::Ordering;

/// Where a slot lies: the page, and the place in it.
#[derive(Clone, Copy)]
pub(crate) struct SlotPlace {
    pub page: usize,
    pub place: usize,
}

/// Whether the first slot of a page stands behind the place.
#[inline(always)]
fn begins_behind<S: Sought>(page: &Page, sought: &S) -> bool
    ensures { IsTrue result ↔ (at_first (S.at sought.now) page.now ≡ Greater) }
{
    match page.first() {
        Some(slot) => sought.beside(slot).is_gt(),
        None => false,
    }
}

/// The page in which what is sought stands or would stand: the last one that doesn't begin behind it, or else the
/// first one.
#[inline(always)]
pub(crate) fn page_for<S: Sought>(pages: &[Page], sought: &S) -> usize
    requires some { 0 < length pages.now }
    requires filled { AllByRecursion IsPage pages.now }
    requires parted { IsParted (S.at sought.now) (page_values pages.now) }
    ensures { IsPageFor (S.at sought.now) pages.now result }
{
    let mut low = 0;
    let mut high = pages.len();
    while high - low > 1 {
        let middle = low + (high - low) / 2;
        if begins_behind(&pages[middle], sought) {
            high = middle;
        } else {
            low = middle;
        }
    }
    low
}

/// The place of the slot that is sought, or else the place where it would stand.
#[inline(always)]
pub(crate) fn search<S: Sought>(slots: &[u32], sought: &S) -> Result<usize, usize>
    requires { IsParted (S.at sought.now) slots.now }
    ensures found { IfOk result (IsThere (S.at sought.now) slots.now) }
    ensures absent { IfErr result (IsGap (S.at sought.now) slots.now) }
{
    let mut low = 0;
    let mut high = slots.len();
    while low < high {
        let middle = low + (high - low) / 2;
        match sought.beside(slots[middle]) {
            Ordering::Less => low = middle + 1,
            Ordering::Equal => return Ok(middle),
            Ordering::Greater => high = middle,
        }
    }
    Err(low)
}

fn slot_in(slots: &[u32], place: usize) -> Option<u32>
    ensures { result ≡ slice_get slots.now place }
{
    slots.get(place).copied()
}

/// The slot at a page and a place, where it is the one that is sought.
#[inline(always)]
pub(crate) fn found_near<S: Sought>(pages: &[Page], sought: &S, near: SlotPlace) -> Option<u32>
    requires { IsParted (S.at sought.now) (page_values pages.now) }
    ensures { IfSome result (λ slot. find_at (S.at sought.now) (page_values pages.now) ≡ Some slot) }
{
    if near.page >= pages.len() {
        return None;
    }
    let slot = slot_of(pages, near.page, near.place)?;
    match sought.beside(slot) {
        Ordering::Equal => Some(slot),
        Ordering::Less | Ordering::Greater => None,
    }
}

/// The slot that is sought. Where it was found is noted.
pub(crate) fn find<S: Sought>(pages: &[Page], sought: &S, last: &Cell<SlotPlace>) -> Option<u32>
    requires filled { AllByRecursion IsPage pages.now }
    requires parted { IsParted (S.at sought.now) (page_values pages.now) }
    ensures { result ≡ find_at (S.at sought.now) (page_values pages.now) }
{
    if pages.is_empty() {
        return None;
    }
    let at = page_for(pages, sought);
    let slots = pages[at].slots();
    match search(slots, sought) {
        Ok(place) => {
            last.set(SlotPlace { page: at, place });
            slot_in(slots, place)
        }
        Err(_) => None,
    }
}

/// The slot at a place of a page.
fn slot_of(pages: &[Page], at: usize, place: usize) -> Option<u32>
    requires { at < length pages.now }
    ensures { result ≡ slice_get (slice_index_or pages.now at []) place }
{
    slot_in(pages[at].slots(), place)
}

/// The slot at a place. It lies in the last page that starts there or before it.
pub(crate) fn slot_at(pages: &[Page], starts: &[usize], place: usize) -> Option<u32>
    requires { starts.now ≡ starts_of pages.now }
    ensures { result ≡ slice_get (page_values pages.now) place }
{
    match started(starts, place) {
        0 => None,
        count => slot_of(pages, count - 1, place - starts[count - 1]),
    }
}
