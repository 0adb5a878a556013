//! The log of variables in two banks of flash: batches of changes that stand wholly or not at all,
//! in every image that a power cut may leave.
#![tactic(auto)]

mod batch;
mod change;
mod choosing;
mod fault;
mod formatting;
pub mod laws;
mod limits;
mod log;
mod moving;
mod opening;
mod reclaiming;
mod record;
mod scanning;
mod seen;
mod settling;

pub use batch::Batch;
pub use change::{Change, is_name};
pub use fault::LogFault;
pub use limits::{
    BANK_HEAD, CLOSED_GATE, MAX_CHANGES, MAX_DATA, MAX_NAME, MAX_RECORD, OPEN_GATE, RECORD_HEAD,
};
pub use log::VarLog;
pub use record::Record;
