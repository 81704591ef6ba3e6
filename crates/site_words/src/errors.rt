//! Errors that stand at sites.

use crate::failed::{Here, add_failed};
use crate::texts::add_note;
use desk_words::{ErrorNote, Stream};
use error_queue::{ErrorEntry, Errors};
use page_tables::PageTables;
use rep_lists::NoMemory;
use rep_values::SiteName;
use site_engine::Site;
use std::alloc::{AllocError, Global};

/// Tells where an error stands, why, and what to do.
fn add_error(
    text: &mut String,
    stream: Stream,
    site: &SiteName,
    entry: &ErrorEntry,
) -> Result<(), AllocError> {
    add_note(
        text,
        &ErrorNote {
            stream,
            site: *site,
            origin: entry.origin,
            position: entry.position,
            call: entry.call,
            error: entry.error,
        },
    )
}

/// Tells of an error of rows at a site, if one stands there for the position of an origin: where, why, what to do, and of the call that
/// failed the values that the sender saw and wrote, and those that stand at the site now.
pub fn add_row_error(
    alloc: Global,
    text: &mut String,
    site: &Site<PageTables>,
    origin: &SiteName,
    position: u64,
) -> Result<(), NoMemory> {
    let Some(entry) = site.errors().get(origin, position) else {
        return Ok(());
    };
    add_error(text, Stream::Rows, site.name(), entry)?;
    let here = Here {
        name: site.name(),
        store: site.store(),
    };
    add_failed(alloc, text, here, entry)
}

/// Tells of an error of calls at a site of these errors, if one stands there for the position of an origin: where, why, and what to do.
pub fn add_call_error(
    text: &mut String,
    site: &SiteName,
    errors: &Errors,
    origin: &SiteName,
    position: u64,
) -> Result<(), AllocError> {
    match errors.get(origin, position) {
        Some(entry) => add_error(text, Stream::Calls, site, entry),
        None => Ok(()),
    }
}
