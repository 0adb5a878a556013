//! Plays on lists: the plain program of the reference machine, for a board of one device and
//! deliveries by file.

mod attempt;
mod delivery;
mod folder;
mod line;
mod platform;
mod running;
mod spent;
mod verdict;

pub use delivery::is_thin_on;
pub use running::play;
