//! Sources and sinks of bytes. Each counts its faults, and a call fails only where that count rose.
#![tactic(auto)]

mod gate;
mod memory;
mod sink;
mod source;
mod standard;
mod sure;
#[cfg(test)]
mod tests;

pub use gate::{Gate, OpenGate};
pub use memory::{MemSink, MemSource};
pub use sink::{Sink, WriteError, write_all};
pub use source::{Failed, Input, ReadError, Source, read_all};
pub use standard::{StdSink, StdSource};
pub use sure::{SureSink, SureSource};
