//! A store of rows whose tables lie in pages, with an index of the values of each constraint.
#![tactic(auto)]

mod change;
mod directory;
mod indexed_rows;
mod page;
mod page_search;
mod paged_rows;
mod pages;
mod slots;
mod sought;
mod starts;
mod store;
mod unique_index;

pub use store::PageTables;
