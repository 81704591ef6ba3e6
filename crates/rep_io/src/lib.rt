//! Where a program's bytes come from and go to, with the faults on the way counted.
#![tactic(auto)]

mod bytes_sink;
mod bytes_source;
mod failing_sink;
mod failing_source;
mod schedule;
mod sink;
mod source;
mod standard;
mod watch;

pub use bytes_sink::BytesSink;
pub use bytes_source::BytesSource;
pub use failing_sink::FailingSink;
pub use failing_source::FailingSource;
pub use sink::{Sink, offer};
pub use source::{Failed, Source};
pub use standard::{StdSink, StdSource};
pub use watch::{Still, Watch};
