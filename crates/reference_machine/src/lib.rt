//! The reference machine: what a platform that takes capsules is, and what each event makes of it.
//!
//! `specs/` says what a delivery is made of, what the list of spent units is and what is read off
//! it, which checks stand before an attempt, which steps a boot has, and which machine each event
//! leaves. The types are those that these definitions speak of. The laws say what holds of every
//! machine that is reached, whatever is delivered and whatever fails.
#![tactic(auto)]

mod attempt_status;
mod event;
mod laws;
mod limits;
mod names;
mod report;
mod samples;
mod snapshot;
mod trace;
mod unit;

pub use attempt_status::{
    LAST_ATTEMPT_STATUS_ERROR_AUTH_ERROR, LAST_ATTEMPT_STATUS_ERROR_INCORRECT_VERSION,
    LAST_ATTEMPT_STATUS_ERROR_INSUFFICIENT_RESOURCES, LAST_ATTEMPT_STATUS_ERROR_INVALID_FORMAT,
    LAST_ATTEMPT_STATUS_ERROR_UNSATISFIED_DEPENDENCIES, LAST_ATTEMPT_STATUS_ERROR_UNSUCCESSFUL,
    LAST_ATTEMPT_STATUS_SUCCESS,
};
pub use bench_model::{MAX_FILES, MAX_FOLDER_BYTES, MAX_MEMORY_BYTES, MAX_SEGMENTS};
use cu_base::Items;
pub use event::Event;
pub use laws::{
    a_boot_comes_to_units_in_order, a_boot_is_short, a_whole_boot_is_done,
    attempts_reach_the_floor, cut_events_leave_reached_machines, deliveries_are_apart,
    floor_never_falls, limits_are_kept, lines_tell_of_closed_units, memory_is_full_past_its_limits,
    spent_files_have_progress, the_bound_on_moves_grows, the_checks_stand_in_order,
    the_heal_stands_before_the_volume, the_last_alone_is_open, the_limits_are_these,
    the_list_only_grows, units_of_a_file_are_few, units_stand_in_order,
    without_faults_there_is_one_machine,
};
pub use limits::{MAX_CAPSULE_ITEMS, MAX_DELIVERY_CAPSULES, MAX_DELIVERY_UNITS, MAX_STAGED};
pub use names::compare_names;
pub use report::Report;
pub use report_tables::{EsrtEntry, FmpResult, ResultVar};
pub use samples::{
    sample_boots, sample_deliveries, sample_moves, sample_orders, sample_results, sample_staging,
};
pub use snapshot::{CapsuleResult, FolderFile, Snapshot, StagedPair};
pub use trace::{Answer, BootEnd, Entry};
pub use unit::{End, Kind, UnitKey, UnitLine};

/// The lines of a boot, in order.
pub type UnitLines = Items<UnitLine>;

/// Serials of deliveries.
pub type Serials = Items<u64>;

/// The deliveries that wait in memory.
pub type Staged = Items<StagedPair>;
