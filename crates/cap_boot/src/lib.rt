//! A boot of a platform on a bench: what it does to each image of the flash is what a boot of the
//! reference machine does, whole or stopped.
#![tactic(auto)]

mod booting;
mod decoding;
mod doing;
mod fault;
mod file_bytes;
mod folder;
mod laws;
mod opening;
mod single_steps;
mod step_batches;
mod to_be_built;
mod trying;
mod unit_list;
mod unit_steps;
mod units;
mod untried;
mod verdict;
mod waiting;
mod writing;

pub use booting::boot;
pub use fault::BootFault;
pub use laws::{an_image_stands_for_one_of_two, begun_tickets_are_of_attempts};
pub use reference_machine::Report;
