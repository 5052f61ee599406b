//! What a rewriting reads from and writes to: byte sources and sinks that tell what became of the bytes,
//! devices in memory and over `std::io`, and the loops that read an input and write an output.
#![tactic(auto)]

mod device;
mod input;
mod lines;
mod memory;
mod output;
mod standard;

pub use device::{DeviceFailed, Sink, Source};
pub use input::{MAX_INPUT_LEN, ReadFault, read_all};
pub use lines::send_places;
pub use memory::{MemorySink, MemorySource, SinkFail};
pub use output::{WriteFault, send};
pub use standard::{StdSink, StdSource};
