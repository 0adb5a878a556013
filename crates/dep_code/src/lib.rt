//! Dependency sections of update images (UEFI 2.10, 23.2): operations of a stack machine that say
//! which versions the devices of a platform must have.
//!
//! `read_ops` reads the section at the front of bytes: its operations with their places, or the
//! first wrong place and what is wrong there. An `Ops` is made by it alone, so `write_ops` gives
//! the bytes back, `tree_of` the one tree that the operations are the postfix form of, and `eval`
//! says whether it is satisfied. The laws of `laws` say that bytes begin with one section or are
//! refused at one place for one cause, and never both.
#![tactic(auto)]

mod building;
mod evaluation;
mod fault;
mod kind;
pub mod laws;
mod limits;
mod op;
mod ops;
mod read;
mod reading;
mod stack;
mod tree;
mod typing;
mod writing;

pub use building::tree_of;
pub use evaluation::eval;
pub use fault::{DepFault, DepRefusal, DepWhy};
pub use limits::MAX_SECTION_BYTES;
pub use op::Op;
pub use ops::Ops;
pub use read::read_ops;
pub use tree::{CompareKind, Compared, DepTree};
pub use writing::write_ops;

/// A list of pairs of GUID and version.
pub type Versions = cu_base::Items<(cu_base::Guid, u32)>;
