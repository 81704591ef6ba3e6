//! The bytes of the report's lines.
#![tactic(auto)]

mod calls;
mod lines;
mod printed;
mod refusals;
mod shown;
mod word;

pub use calls::add_calls;
pub use lines::{Lines, MOST_LINE};
pub use printed::{
    PushCount, commit_line, drop_error_line, execute_calls_line, execute_line, join_line,
    malformed_line, nothing_committed_line, nothing_sent_line, purge_line, purge_log_line,
    push_calls_line, push_line, refresh_complete_line, refresh_fast_line, sent_line,
};
pub use refusals::{error_line, refused_line};
pub use shown::{add_logged_key, add_proc_tables, add_tables};
pub use word::Word;
