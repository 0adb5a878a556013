//! What an operating system asks of the platform while it runs, and what waits for the next boot.
//! Each request opens the store of variables and commits at most one batch. Staged deliveries and
//! the files of the folder are listed in the order in which a boot takes them.
#![tactic(auto)]

mod checks;
mod fault;
mod folder;
mod laws;
mod opening;
mod request;
mod sets;
mod staging;
mod waiting;

pub use fault::InboxFault;
pub use folder::files_in_order;
pub use laws::{a_delivery_is_staged, a_signal_asks_for_files};
pub use reference_machine::{Staged, StagedPair};
pub use request::signal;
pub use staging::update_capsule;
pub use waiting::staged;
