//! A whole boot.

ghost use Rattle.std.specs.Prelude.{◌≡◌, ◌≤◌, ◌+◌, ◌^◌, find, None, IfOk, OnOk};
ghost use Rattle.reference_machine.specs.Boots.{boot_of};
ghost use Rattle.reference_machine.specs.Spent.{is_open};
ghost use Rattle.delivery_formats.specs.TrueFormats.{true_formats};
ghost use Rattle.reset_play.specs.Whole.{between_tasks, tasks_done, heal_tasks};
ghost use Rattle.reference_machine.specs.declared.unit.End.TheVariants.{Sealed};

use super::ListPlatform;
use crate::{Kind, Report};
use cu_base::NoMemory;
use std::alloc::Global;

impl<'a> ListPlatform<'a> {
    // The attempt that an earlier boot left open, if any, is settled.
    fn heal(&mut self, alloc: Global, report: &mut Report) -> Result<(), NoMemory>
        requires batches { self.old.batches ≤ 2 ^ 62 }
        requires steps { report.old.steps ≤ 2 ^ 30 }
        ensures ok { OnOk result
            (between_tasks self.new report.new
            ≡ tasks_done true_formats (between_tasks self.old report.old)
            (heal_tasks (find is_open self.old.list))) }
        ensures rule { OnOk result (find is_open self.new.list ≡ None) }
        ensures frame { self.new.board ≡ self.old.board }
        ensures counts { OnOk result
            ((self.new.batches ≤ self.old.batches + 1)
            × (report.new.steps ≤ report.old.steps + 1)) }
    {
        if self.claimed.is_none() {
            return Ok(());
        }
        self.settle(alloc, Kind::Heal, report)?;
        Ok(())
    }

    /// Boots the platform. An attempt that an earlier boot left open is settled by what the device
    /// holds, which is its image.
    pub fn boot(&mut self, alloc: Global) -> Result<Report, NoMemory>
        requires { self.old.batches ≤ 2 ^ 59 }
        ensures ok { IfOk result
            (λ report. between_tasks self.new report ≡ boot_of true_formats self.old Sealed) }
        ensures frame { self.new.board ≡ self.old.board }
        ensures counts { OnOk result (self.new.batches ≤ self.old.batches + 131) }
    {
        let mut report = Report::new(alloc);
        report.opened = Some(self.batches);
        self.heal(alloc, &mut report)?;
        self.take_folder(alloc, &mut report)?;
        Ok(report)
    }
}
