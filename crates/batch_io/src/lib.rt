//! Where the bytes of a batch come from, and where its listing goes.
#![tactic(auto)]

mod files;
mod gate;
mod memory;
mod outside;
mod pacer;
mod ports;

pub use files::{FileSink, FileSource};
pub use gate::{Gate, OpenGate};
pub use memory::{MemSink, MemSource};
pub use outside::{StdSink, StdSource};
pub use ports::{ReadFailed, Sink, Source, WriteFailed};
