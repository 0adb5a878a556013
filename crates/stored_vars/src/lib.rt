//! The variables of the platform: their names, and what each of them holds, spelled once.
//!
//! What is written of a value is its spelling. What is read are exactly the bytes that are written
//! of some value; any others read as if the variable was not there.
#![tactic(auto)]

mod claim;
mod guids;
mod last;
pub mod laws;
mod limits;
mod numbers;
mod progress;
mod put;
mod record;
mod variable;

pub use claim::{Claim, DevRec, is_key_name};
pub use guids::{EFI_CAPSULE_REPORT_GUID, EFI_GLOBAL_VARIABLE, PLATFORM_GUID};
pub use last::{RESULT_NAME_BYTES, result_name_bytes, stored_result_number};
pub use limits::{MAX_STAGE_VARIABLES, OS_INDICATIONS_FILE_CAPSULE_DELIVERY_SUPPORTED};
pub use numbers::{PAIR_BYTES, pair_bytes, stored_number, stored_pair};
pub use progress::{
    PROGRESS_ENTRY_BYTES, ProgressEntries, ProgressEntry, progress_bytes, stored_progress,
    stored_units,
};
pub use record::{DEVICE_RECORD_BYTES, has_stored_claim, stored_state};
pub use variable::{
    EFI_VARIABLE_BOOTSERVICE_ACCESS, EFI_VARIABLE_NON_VOLATILE, EFI_VARIABLE_RUNTIME_ACCESS,
    StoredVar,
};
