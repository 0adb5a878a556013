//! A boot as an event.

ghost use Rattle.std.specs.Prelude.{◌≡◌};
ghost use Rattle.bench_play.specs.Counted.{Tells};
ghost use Rattle.bench_play.specs.Happens.{Does, KeepsLengths};
ghost use Rattle.cap_boot.specs.Given.{setting};
ghost use Rattle.cap_boot.specs.Stands.{HasRegions};
ghost use Rattle.reference_machine.specs.Events.{InputBytes};
ghost use Rattle.reference_machine.specs.Machine.{first_moment};
ghost use Rattle.reference_machine.specs.Report.{report_value};
ghost use Rattle.reference_machine.specs.TraceValues.{entry_value};
ghost use Rattle.reference_machine.specs.Events.{booted};

use crate::known::Known;
use crate::{Answer, BootEnd, Entry, Event};
use bench_model::{Bench, Board};
use cap_boot::{BootFault, Report, boot};
use cu_base::NoMemory;
use fmp_slot::SlotForm;
use std::alloc::Global;

/// The entry of a boot.
fn told(report: Report, end: BootEnd) -> Entry
    ensures { entry_value result ≡ booted (report_value report) end }
{
    Entry {
        opened: report.opened,
        pending: report.pending,
        answer: Answer::Booted(report, end),
    }
}

/// Boots the platform. Where there is no store, or it takes no further batch, the play ends as for
/// want of memory.
pub(crate) fn boot_once<W: Bench, S: SlotForm>(
    alloc: Global,
    board: &Board,
    form: &S,
    bench: &mut W,
    known: &mut Known,
) -> Result<Entry, NoMemory>
    requires regions { HasRegions S.size_of board.now (W.state bench.old) }
    ensures does { (bytes_of : InputBytes) → Does (setting board.now first_moment S.slot_of)
        bytes_of Event.Boot known.old (W.state bench.old) result known.new (W.state bench.new) }
    ensures tells { Tells Event.Boot (W.state bench.old) result (W.state bench.new) }
    ensures frame { KeepsLengths (W.state bench.old) (W.state bench.new) }
{
    let mut report = Report::new(alloc);
    match boot(alloc, board, &known.moment, form, bench, &mut report) {
        Ok(()) => Ok(told(report, BootEnd::Ok)),
        Err(BootFault::Flash) => {
            known.failed = true;
            Ok(told(report, BootEnd::Flash))
        }
        Err(BootFault::Volume) => {
            known.failed = true;
            Ok(told(report, BootEnd::Volume))
        }
        Err(BootFault::NoBank) => Err(NoMemory),
        Err(BootFault::Memory) => Err(NoMemory),
    }
}
