//! Sources, sinks and inputs in memory. They tell all that they hold. Those of the first three
//! kinds fail at calls of given numbers, and those of the last three never fail.

mod inputs;
mod known;
mod no_fault;
mod reader;
mod sink;
mod source;

pub use inputs::MemInputs;
pub use no_fault::{NoFaultInputs, NoFaultSink, NoFaultSource};
pub use sink::MemSink;
pub use source::MemSource;
