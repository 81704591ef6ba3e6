//! Lines of a script as commands.
#![tactic(auto)]

mod actions;
mod column;
mod command;
mod commands;
mod conditions;
mod declarations;
mod forms;
mod heads;
mod laws;
mod line_parser;
mod live_lines;
mod methods;
mod parts;
mod proc_line;
mod procedures;

pub use command::{Command, Link, ParentWords, Refresh, Shown, TestWords};
pub use laws::{form_laws, live_line_laws};
pub use line_parser::{LineParser, parse_line, parse_live};
pub use live_lines::LiveCommand;
pub use proc_line::{ActionWords, CallWords, ProcLine};
