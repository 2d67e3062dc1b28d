//! The edge to the outside: where scripts come from, and where texts go.
//!
//! A source may tell what it has left to give, and a sink what it has taken. Each counts its faults. Those in memory
//! tell both, and fail at the calls that they are told. `put` writes a whole text to any sink, and `read_all` reads a
//! source to its end, within the most bytes that a script may have. Bytes, sums and numbers are printed in one form.
#![tactic(auto)]

mod calls;
mod memory_sink;
mod memory_source;
mod printed;
mod reading;
mod sink;
mod source;
mod text;

pub use memory_sink::{MemorySink, SINK_ROOM};
pub use memory_source::MemorySource;
pub use printed::{push_number, push_printed, push_sum, put_printed};
pub use reading::{ReadFault, read_all};
pub use sink::{Sink, SinkFailed};
pub use source::{Source, SourceFailed};
pub use text::{put, put_all};
