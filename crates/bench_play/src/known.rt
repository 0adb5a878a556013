//! What a play knows of the platform beside its bench.

ghost use Rattle.std.specs.Prelude.{◌≡◌, None};
ghost use Rattle.reference_machine.specs.Machine.{first_moment};
ghost use Rattle.reference_machine.specs.TraceValues.{answer_value, entry_value};

use crate::{Answer, Entry};
use cu_base::EfiTime;

/// What a play knows of the platform beside its bench.
#[derive(Clone, Copy)]
pub struct Known {
    /// The moment.
    pub moment: EfiTime,
    /// An event since the last reset answered a fault.
    pub failed: bool,
}

/// 2000-01-01T00:00:00, of no time zone.
pub(crate) fn first_moment() -> EfiTime
    ensures { result ≡ first_moment }
{
    EfiTime {
        year: 2000,
        month: 1,
        day: 1,
        hour: 0,
        minute: 0,
        second: 0,
        nanosecond: 0,
        zone: 2047,
        daylight: 0,
        pad1: 0,
        pad2: 0,
    }
}

/// The entry of an event that did not open the store.
pub(crate) fn plain(answer: Answer) -> Entry
    ensures { entry_value result
        ≡ record { opened = None; pending = None; answer = answer_value answer } }
{
    Entry {
        opened: None,
        pending: None,
        answer,
    }
}
