//! The forms, followed up to what isn't expected.

use crate::declared::{
    check, column_list, method, priority, site_level, snapshot, subsnapshot, table, unique_method,
};
use crate::parts::end;
use crate::procedures::{call, proc_table, procedure, send};
use crate::running::{
    clock, error_place, fate, fate_calls, link, one_name, purge_log, push, refresh, row, show,
    two_sites, update,
};
use command_forms::{Form, NameOf, Wanted};
use script_words::Reader;

/// Passes over what stands behind a command word as far as its form goes on with it. What it goes on with then is the error.
pub fn follow(form: Form, tokens: &mut Reader<'_>) -> Result<(), Wanted> {
    match form {
        Form::Site | Form::LateSite | Form::Txn | Form::Purge | Form::Calls => {
            one_name(tokens, NameOf::Site)
        }
        Form::Convergent => one_name(tokens, NameOf::Table),
        Form::SnapSite | Form::Join | Form::PushCalls => two_sites(tokens),
        Form::Resume | Form::Commit | Form::Abandon | Form::Suspend => end(tokens, &[]),
        Form::Execute | Form::DropError | Form::ExecuteCalls => error_place(tokens),
        Form::Row | Form::Insert | Form::Delete => row(tokens),
        Form::Table => table(tokens),
        Form::Group => column_list(tokens, NameOf::Group),
        Form::Method => method(tokens),
        Form::Priority => priority(tokens),
        Form::SiteLevel => site_level(tokens),
        Form::Unique => column_list(tokens, NameOf::Constraint),
        Form::UniqueMethod => unique_method(tokens),
        Form::Check => check(tokens),
        Form::Snapshot => snapshot(tokens),
        Form::Subsnapshot => subsnapshot(tokens),
        Form::Update => update(tokens),
        Form::Push => push(tokens),
        Form::Fate => fate(tokens),
        Form::Link => link(tokens),
        Form::Clock => clock(tokens),
        Form::Refresh => refresh(tokens),
        Form::PurgeLog => purge_log(tokens),
        Form::Show => show(tokens),
        Form::ProcTable => proc_table(tokens),
        Form::Procedure => procedure(tokens),
        Form::Call => call(tokens),
        Form::Send => send(tokens),
        Form::FateCalls => fate_calls(tokens),
    }
}
