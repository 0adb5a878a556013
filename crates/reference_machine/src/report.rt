ghost use Rattle.std.specs.Prelude.{◌≡◌};

use crate::{Serials, UnitLines};
use cu_base::Items;
use std::alloc::Global;

/// What a boot did, as far as it came.
#[derive(Drop)]
pub struct Report {
    /// How many batches the store had taken when it was opened. None where it was not opened.
    pub opened: Option<u64>,
    /// How many steps were finished. It stays at its last value once there.
    pub steps: u32,
    /// The units that were closed, in order.
    pub lines: UnitLines,
    /// The serials of the staged deliveries that were taken out.
    pub unstaged: Serials,
    /// The serials of the files that were taken out.
    pub removed: Serials,
    /// The number of the batch whose commit failed. None where none did.
    pub pending: Option<u64>,
}

impl Report {
    ghost use Rattle.reference_machine.specs.Report.{report_value, nothing_done};

    /// The report of a boot that did nothing. It takes no memory.
    pub fn new(alloc: Global) -> Report
        ensures { report_value result ≡ nothing_done }
    {
        Report {
            opened: None,
            steps: 0,
            lines: Items::new(alloc),
            unstaged: Items::new(alloc),
            removed: Items::new(alloc),
            pending: None,
        }
    }
}
