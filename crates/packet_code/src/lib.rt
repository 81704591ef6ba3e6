//! Packets between sites as bytes.
#![tactic(auto)]

mod body;
mod call_reading;
mod decoding;
mod encoding;
mod head_reading;
mod laws;
mod limits;
mod packet;
mod past_reading;
mod reader;
mod repeated;
mod room;
mod route;
mod sealed;
mod stop;
mod stream_position;
mod value_reading;
mod version;

pub use body::Body;
pub use decoding::decode;
pub use encoding::encode;
pub use laws::no_encoding_begins_another;
pub use limits::is_packet;
pub use packet::Packet;
pub use route::Route;
pub use sealed::Sealed;
pub use stream_position::StreamPosition;
