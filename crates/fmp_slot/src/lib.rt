//! Device slots: sealed means received, in every image of the flash.
//!
//! A slot is unsealed, or sealed with a head, a dependency section and a payload. How the bytes of
//! a region hold it is the form of the slot (`SlotForm`); `OneBank` is the form of a device with
//! one bank. A slot is unsealed before anything else of it is written, each piece and the head are
//! read back, and it is sealed last, once all else lasts. So whatever a power cut leaves is
//! unsealed, the slot as it was, or the new slot wholly.
#![tactic(auto)]

mod faults;
mod form;
pub mod laws;
mod layout;
mod limits;
mod moves;
mod one_bank;
mod slot;
mod steps;
mod whole;
mod writer;

pub use faults::SlotFault;
pub use form::SlotForm;
pub use limits::{MAX_KEPT_SECTION, PIECE};
pub use one_bank::{OneBank, look, set_image};
pub use slot::{Slot, SlotHead};
pub use whole::finish;
pub use writer::SlotWriter;
