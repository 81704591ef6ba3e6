//! An office: a master site over tables in pages, opened from a text, and the bytes that come to it and go from it.
#![tactic(auto)]

mod desk;
mod due;
mod error;
mod errors;
mod founding;
mod letter;
mod lines;
mod mail;
mod rows;
mod site_of_store;
mod work;
mod write;

pub use desk::Office;
pub use due::Due;
pub use error::OfficeError;
pub use letter::Letter;
pub use site_state::{Accepted, PassCount};
