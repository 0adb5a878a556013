//! What the platform reports of firmware updates: the EFI System Resource Table (UEFI 2.10, 23.4)
//! and the variables that hold the result of a capsule (UEFI 2.10, 8.5.6), written and read.
//!
//! Each layout is a definition by its fields. Writing gives the layout, and reading accepts exactly
//! what is written, of a result with any Reserved.
#![tactic(auto)]

mod entries;
mod esrt;
mod faults;
pub mod laws;
mod names;
mod result;
mod result_bytes;
mod units;

pub use entries::esrt_of;
pub use esrt::{ENTRY_BYTES, ESRT_HEADER_BYTES, ESRT_VERSION, Esrt, EsrtEntry};
pub use faults::ReportFault;
pub use names::{next_number, push_result_name, result_name};
pub use result::{FMP_RESULT_BYTES, FMP_RESULT_VERSION, FmpResult, RESULT_HEADER_BYTES, ResultVar};

/// The entries of an EFI System Resource Table.
pub type EsrtEntries = cu_base::Items<EsrtEntry>;
