//! How bytes come in and go out: a source and a sink, which count their faults, each in memory for tests
//! and over a reader or a writer of the system; and what the answer of a call of the system comes to.
#![tactic(auto)]

pub mod answer;
mod calls;
mod mem_sink;
mod mem_source;
mod read;
mod sink;
mod source;
mod std_sink;
mod std_source;

pub use mem_sink::MemSink;
pub use mem_source::MemSource;
pub use read::{ReadFault, read_to_end};
pub use sink::Sink;
pub use source::Source;
pub use std_sink::StdSink;
pub use std_source::StdSource;

/// What is sent between threads.
fn sends<T: Send>() {}

/// The values in memory may be sent.
pub fn all_may_be_sent() {
    sends::<MemSource>();
    sends::<MemSink>();
    sends::<ReadFault>();
    sends::<answer::Answer>();
}
