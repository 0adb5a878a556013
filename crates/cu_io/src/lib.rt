//! Where bytes come from and where they go: a source is read, a sink is written, inputs are found
//! by name.
//!
//! What an object of the outside holds is a meaning of its trait that may be told or not; its count
//! of faults is always known, and a call answers a fault only where that count rose. `read_whole`
//! gives all that was left and `write_whole` appends all, or the answer says what happened instead.
#![tactic(auto)]

mod files;
mod inputs;
mod loaded;
mod memory;
mod read;
mod sink;
mod source;
mod stream;
mod write;

pub use files::{FileInputs, FileSource, StdSink};
pub use inputs::{Inputs, OpenFault};
pub use loaded::Loaded;
pub use memory::{MemInputs, MemSink, MemSource, NoFaultInputs, NoFaultSink, NoFaultSource};
pub use read::{ReadFault, read_whole};
pub use sink::{Sink, SinkFault};
pub use source::Source;
pub use stream::{Room, Stream, StreamFault};
pub use write::{WriteFault, write_whole};
