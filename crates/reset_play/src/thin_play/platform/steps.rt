//! The steps of a boot.

ghost use Rattle.std.specs.Prelude.{◌≡◌, ◌≤◌, ◌+◌, ◌∷◌, [], ◌^◌, IsTrue, not, ◌==◌, filter, find};
ghost use Rattle.std.specs.Prelude.{None, OnOk, IsSome};
ghost use Rattle.std.specs.List.{list_any};
ghost use Rattle.reference_machine.specs.Boots.{progress_with, with_element, with_claim};
ghost use Rattle.reference_machine.specs.Boots.{with_lines, one_step, next_line};
ghost use Rattle.reference_machine.specs.Boots.BootBatch.{Settles, Clears};
ghost use Rattle.reference_machine.specs.Boots.BootTask.{Commits, Removes};
ghost use Rattle.reference_machine.specs.Report.{report_value};
ghost use Rattle.reference_machine.specs.Spent.{is_open, is_closed};
ghost use Rattle.delivery_formats.specs.TrueFormats.{true_formats};
ghost use Rattle.reset_play.specs.Whole.{between_tasks, task_done};
ghost use Rattle.reference_machine.specs.declared.unit.End.TheVariants.{Sealed};
ghost use Rattle.reference_machine.specs.declared.unit.Kind.TheVariants.{Try};

use super::ListPlatform;
use crate::thin_play::folder::StoredFile;
use crate::thin_play::line::line_of;
use crate::thin_play::spent::{SpentTry, Standing};
use crate::{End, Kind, Report, Serials, UnitKey};
use cu_base::NoMemory;
use std::alloc::Global;

// Whether a serial is kept.
fn is_kept(in_progress: &[u64], serial: u64) -> bool
    ensures { result ≡ list_any (λ s. s == serial) in_progress.now }
{
    in_progress.iter().any(|known| *known == serial)
}

// Keeps the serial of the key's file, where it is not kept yet.
fn keep(in_progress: &mut Serials, key: &UnitKey) -> Result<(), NoMemory>
    ensures { OnOk result (in_progress.new.items ≡ progress_with in_progress.old.items key.now) }
{
    let serial = key.ticket.serial;
    if key.ticket.route == 1 && !is_kept(in_progress.as_slice(), serial) {
        in_progress.push(serial)?;
    }
    Ok(())
}

// Takes the files of a serial out of the folder.
fn take_out(files: &mut Vec<StoredFile<'_>>, serial: u64)
    ensures { files.new.items ≡ filter (λ x. not (x.serial == serial)) files.old.items }
{
    files.retain(|file| file.serial != serial);
}

impl<'a> ListPlatform<'a> {
    // An attempt that no check let begin is spent.
    pub(super) fn close(
        &mut self,
        alloc: Global,
        attempt: SpentTry<'a>,
        report: &mut Report,
    ) -> Result<(), NoMemory>
        requires closed { IsTrue (is_closed attempt) }
        requires rests { find is_open self.old.list ≡ None }
        requires batches { self.old.batches ≤ 2 ^ 63 }
        requires steps { report.old.steps ≤ 2 ^ 31 }
        ensures ok { OnOk result
            (between_tasks self.new report.new
            ≡ record {
              machine = with_element self.old attempt.entry;
              left = [];
              report = with_lines (report_value report.old)
                  (next_line self.old Try attempt.entry ∷ []);
            }) }
        ensures rule { OnOk result (find is_open self.new.list ≡ None) }
        ensures frame { self.new.board ≡ self.old.board }
        ensures counts { OnOk result
            ((self.new.batches ≡ self.old.batches + 1)
            × (report.new.steps ≡ report.old.steps + 1)) }
    {
        let line = line_of(alloc, self.board, Kind::Try, self.done.len(), &attempt)?;
        report.lines.push(line)?;
        keep(&mut self.in_progress, &attempt.key)?;
        self.done.push(attempt)?;
        self.batches += 1;
        report.steps += 1;
        Ok(())
    }

    // An attempt is begun.
    pub(super) fn claim(&mut self, attempt: SpentTry<'a>, report: &mut Report)
        requires open { IsTrue (is_open attempt) }
        requires rests { find is_open self.old.list ≡ None }
        requires batches { self.old.batches ≤ 2 ^ 63 }
        requires steps { report.old.steps ≤ 2 ^ 31 }
        ensures value { between_tasks self.new report.new
            ≡ record {
              machine = with_claim self.old attempt.entry;
              left = [];
              report = one_step (report_value report.old);
            } }
        ensures rule { IsSome (find is_open self.new.list) }
        ensures frame { self.new.board ≡ self.old.board }
        ensures counts { (self.new.batches ≡ self.old.batches + 1)
            × (report.new.steps ≡ report.old.steps + 1) }
    {
        self.claimed = Some(attempt);
        self.batches += 1;
        report.steps += 1;
    }

    // The attempt that is open is sealed.
    pub(super) fn settle(
        &mut self,
        alloc: Global,
        kind: Kind,
        report: &mut Report,
    ) -> Result<(), NoMemory>
        requires pends { IsSome (find is_open self.old.list) }
        requires batches { self.old.batches ≤ 2 ^ 63 }
        requires steps { report.old.steps ≤ 2 ^ 31 }
        ensures ok { OnOk result
            (between_tasks self.new report.new
            ≡ task_done true_formats (between_tasks self.old report.old) (Commits
            (Settles kind Sealed))) }
        ensures rule { OnOk result (find is_open self.new.list ≡ None) }
        ensures frame { self.new.board ≡ self.old.board }
        ensures counts { OnOk result
            ((self.new.batches ≡ self.old.batches + 1)
            × (report.new.steps ≡ report.old.steps + 1)) }
    {
        let mut attempt = match self.claimed.take() {
            Some(attempt) => attempt,
            None => unreachable!(),
        };
        attempt.standing = Standing::Closed(End::Sealed);
        let line = line_of(alloc, self.board, kind, self.done.len(), &attempt)?;
        report.lines.push(line)?;
        keep(&mut self.in_progress, &attempt.key)?;
        self.done.push(attempt)?;
        self.batches += 1;
        report.steps += 1;
        Ok(())
    }

    // A file is taken out of the folder.
    pub(super) fn remove(&mut self, serial: u64, report: &mut Report) -> Result<(), NoMemory>
        requires steps { report.old.steps ≤ 2 ^ 31 }
        ensures ok { OnOk result
            (between_tasks self.new report.new
            ≡ task_done true_formats (between_tasks self.old report.old) (Removes serial)) }
        ensures frame { (self.new.list ≡ self.old.list) × (self.new.board ≡ self.old.board) }
        ensures counts { OnOk result
            ((self.new.batches ≡ self.old.batches) × (report.new.steps ≡ report.old.steps + 1)) }
    {
        report.removed.push(serial)?;
        take_out(&mut self.files, serial);
        report.steps += 1;
        Ok(())
    }

    // The files that were asked for are taken.
    pub(super) fn clear(&mut self, alloc: Global, report: &mut Report)
        requires batches { self.old.batches ≤ 2 ^ 63 }
        requires steps { report.old.steps ≤ 2 ^ 31 }
        ensures value { between_tasks self.new report.new
            ≡ task_done true_formats (between_tasks self.old report.old) (Commits Clears) }
        ensures frame { self.new.board ≡ self.old.board }
        ensures counts { (self.new.batches ≡ self.old.batches + 1)
            × (report.new.steps ≡ report.old.steps + 1) }
    {
        self.asked = false;
        self.in_progress = Serials::new(alloc);
        self.batches += 1;
        report.steps += 1;
    }
}
