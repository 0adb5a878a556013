//! A bench in memory: the flash, the volume and the memory of a platform, whose power is cut and
//! whose calls fail by plan.
#![tactic(auto)]

mod bench;
mod blocks;
mod clerk;
mod factory;
mod flash;
mod folder;
mod last_sync;
mod lists;
mod never_fails;
mod order_book;
mod orders;
mod region;
mod reset;
mod room;
mod stored_file;
mod tickets;
mod told;
mod volume;

pub use bench::MemBench;
pub use never_fails::NeverFails;
