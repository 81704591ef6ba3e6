//! Lists that contracts see as lists, alone, shared or with room, deep copies, and lists in rising order.
#![tactic(auto)]

mod copies;
mod items;
mod laws;
mod memory;
mod roomy;
mod shared;

pub use copies::Copies;
pub use items::Items;
pub use laws::rising_list_laws;
pub use memory::NoMemory;
pub use roomy::{RoomyList, insert_in_room};
pub use shared::Shared;
