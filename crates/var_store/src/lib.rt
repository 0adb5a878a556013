//! The variables of the log as an ordered map, whose commit takes no memory.
//!
//! A store is the map that the bytes of the banks are: at every answer but a fault of the flash,
//! and in every image that a power cut may leave, wholly.
#![tactic(auto)]

mod fault;
mod key;
mod names;
mod note;
mod places;
mod prepared;
mod store;
mod write;

pub use fault::StoreFault;
pub use names::{VarName, VarNames};
pub use note::{Note, Value};
pub use prepared::Prepared;
pub use store::VarStore;
