//! Drawings of lanes: where things stand, shapes one after the other, packets as arrows, and what the marks mean.
#![tactic(auto)]

mod layout;
mod meanings;
mod packets;
mod pen;

pub use layout::{BADGE_ROW, Layout, NUMBER_AT, ROW, WIDTH, WORDS_AT};
pub use meanings::key;
pub use packets::{Arrow, Bundle, Ends, draw_bundle};
pub use pen::Pen;
