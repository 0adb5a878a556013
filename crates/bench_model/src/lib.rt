//! What a platform is made of, for a simulation of its flash: the board with its devices, and the
//! traits of its flash, its volume and its memory.
//!
//! A `Board` and a `Device` keep every limit: contracts see them as records of their fields, and
//! the calls that hand one out tell again that it keeps the limits. So no later code tests them.
//!
//! All that a flash, a volume and a memory mean is one record, the `state` of `BenchState`.
#![tactic(auto)]

mod bench;
mod board;
mod choice;
mod counts;
mod device;
mod devices;
mod faults;
mod file_names;
mod flash;
pub mod laws;
mod limits;
mod listing;
mod names;
mod orders;
mod outside_limits;
mod phys_mem;
mod plan;
mod segment;
mod segments;
#[cfg(test)]
mod tests;
mod volume;

pub use bench::{Bench, Platform};
pub use board::{Board, Digests};
pub use choice::Choice;
pub use counts::Counts;
pub use device::Device;
pub use devices::Devices;
pub use faults::{LayFault, VolumeFault};
pub use file_names::{is_file_name, is_same_name};
pub use flash::{BenchState, Flash};
pub use limits::{
    BANK_BASE, MAX_BANK, MAX_CAPACITIES, MAX_CAPACITY, MAX_DEVICE_NAME, MAX_DEVICES, MAX_DIGESTS,
    MAX_FW_TYPE, MAX_INSTANCE, MAX_STORE, MAX_TWO_BANK_CAPACITIES, MIN_BANK, MIN_CAPACITY,
    MIN_STORE, RESULT_ROOM,
};
pub use listing::{Listed, Listing};
pub use names::is_device_name;
pub use orders::{Order, Ordered};
pub use outside_limits::{
    MAX_FILE_BYTES, MAX_FILE_NAME, MAX_FILES, MAX_FOLDER_BYTES, MAX_MEMORY_BYTES, MAX_SEGMENTS,
    ORDER_ROOM, SLOT_LEAD,
};
pub use phys_mem::PhysMem;
pub use plan::{Armed, Call, Plan, Strike};
pub use segment::Segment;
pub use segments::Segments;
pub use volume::Volume;
