//! The work of a boot on the folder.

ghost use Rattle.std.specs.Prelude.{◌≡◌, ◌≤◌, ◌+◌, ◌*◌, ◌^◌, [], ◌∷◌, IsTrue, not, filter, find};
ghost use Rattle.std.specs.Prelude.{None, IfOk, OnOk, length, if◌then◌else◌};
ghost use Rattle.std.specs.List.{list_any, list_all};
ghost use Rattle.reference_machine.specs.Boots.{is_file, prune_tasks, folder_tasks};
ghost use Rattle.reference_machine.specs.Boots.BootBatch.{Does};
ghost use Rattle.reference_machine.specs.Boots.BootTask.{Commits};
ghost use Rattle.reset_play.specs.Plays.{is_thin_on};
ghost use Rattle.reference_machine.specs.Spent.{is_open};
ghost use Rattle.delivery_formats.specs.TrueFormats.{true_formats};
ghost use Rattle.reset_play.specs.Whole.{between_tasks, task_done, tasks_done, file_unit};
ghost use Rattle.reset_play.specs.Whole.{marked_tasks, all_marked_tasks, marks_of};

use super::ListPlatform;
use crate::thin_play::attempt::{attempt_of, item_in};
use crate::thin_play::delivery::parts_in;
use crate::thin_play::folder::{StoredFile, has_serial, ordered_files};
use crate::thin_play::spent::{SpentTry, Standing, is_file_spent};
use crate::thin_play::verdict::refusal;
use crate::{End, Kind, MAX_FILES, Report, Serials};
use cu_base::{Items, NoMemory};
use std::alloc::Global;

// Whether a serial is of no file.
fn lacks_a_file(files: &[StoredFile<'_>], in_progress: &[u64]) -> bool
    ensures { result ≡ list_any (λ s. not (is_file files.now s)) in_progress.now }
{
    in_progress.iter().any(|serial| !has_serial(files, *serial))
}

// The serials that are of files.
fn with_files(
    alloc: Global,
    files: &[StoredFile<'_>],
    in_progress: &[u64],
) -> Result<Serials, NoMemory>
    ensures { IfOk result (λ left. left.items ≡ filter (is_file files.now) in_progress.now) }
{
    let mut left = Serials::new(alloc);
    for serial in in_progress {
        if has_serial(files, *serial) {
            left.push(*serial)?;
        }
    }
    Ok(left)
}

// Whether a unit of a file is spent, for each file.
fn marks_of(
    alloc: Global,
    list: &[SpentTry<'_>],
    files: &[StoredFile<'_>],
) -> Result<Items<bool>, NoMemory>
    ensures { IfOk result (λ marks. marks.items ≡ marks_of list.now files.now) }
{
    let mut marks = Items::new(alloc);
    for file in files {
        marks.push(is_file_spent(list, file.serial))?;
    }
    Ok(marks)
}

impl<'a> ListPlatform<'a> {
    // The one unit of a thin file is refused, or tried.
    fn try_file(
        &mut self,
        alloc: Global,
        file: &StoredFile<'a>,
        report: &mut Report,
    ) -> Result<(), NoMemory>
        requires thin { IsTrue (is_thin_on self.old.board (file.now).bytes) }
        requires rests { find is_open self.old.list ≡ None }
        requires batches { self.old.batches ≤ 2 ^ 62 }
        requires steps { report.old.steps ≤ 2 ^ 30 }
        ensures ok { OnOk result
            (between_tasks self.new report.new
            ≡ task_done true_formats (between_tasks self.old report.old)
            (Commits (Does (file_unit file.now)))) }
        ensures rule { OnOk result (find is_open self.new.list ≡ None) }
        ensures frame { self.new.board ≡ self.old.board }
        ensures counts { OnOk result
            ((self.new.batches ≤ self.old.batches + 2)
            × (report.new.steps ≤ report.old.steps + 2)) }
    {
        let item = item_in(file.bytes);
        let parts = parts_in(alloc, item.image);
        let mut attempt = attempt_of(alloc, file, &item, &parts)?;
        match refusal(self.board, self.done.as_slice(), item.image, &parts) {
            Some(status) => {
                attempt.standing = Standing::Closed(End::Refused(status));
                self.close(alloc, attempt, report)?;
                Ok(())
            }
            None => {
                self.claim(attempt, report);
                self.settle(alloc, Kind::Try, report)?;
                Ok(())
            }
        }
    }

    // Its unit, where it is not spent.
    fn try_unspent(
        &mut self,
        alloc: Global,
        file: &StoredFile<'a>,
        is_spent: bool,
        report: &mut Report,
    ) -> Result<(), NoMemory>
        requires thin { IsTrue (is_thin_on self.old.board (file.now).bytes) }
        requires rests { find is_open self.old.list ≡ None }
        requires batches { self.old.batches ≤ 2 ^ 62 }
        requires steps { report.old.steps ≤ 2 ^ 30 }
        ensures ok { OnOk result
            (between_tasks self.new report.new
            ≡ tasks_done true_formats (between_tasks self.old report.old)
            (if is_spent then [] else Commits (Does (file_unit file.now)) ∷ [])) }
        ensures rule { OnOk result (find is_open self.new.list ≡ None) }
        ensures frame { self.new.board ≡ self.old.board }
        ensures counts { OnOk result
            ((self.new.batches ≤ self.old.batches + 2)
            × (report.new.steps ≤ report.old.steps + 2)) }
    {
        if is_spent {
            return Ok(());
        }
        self.try_file(alloc, file, report)?;
        Ok(())
    }

    // The whole work on a file.
    fn do_file(
        &mut self,
        alloc: Global,
        file: &StoredFile<'a>,
        is_spent: bool,
        report: &mut Report,
    ) -> Result<(), NoMemory>
        requires thin { IsTrue (is_thin_on self.old.board (file.now).bytes) }
        requires rests { find is_open self.old.list ≡ None }
        requires batches { self.old.batches ≤ 2 ^ 62 }
        requires steps { report.old.steps ≤ 2 ^ 30 }
        ensures ok { OnOk result
            (between_tasks self.new report.new
            ≡ tasks_done true_formats (between_tasks self.old report.old)
            (marked_tasks file.now is_spent)) }
        ensures rule { OnOk result (find is_open self.new.list ≡ None) }
        ensures frame { self.new.board ≡ self.old.board }
        ensures counts { OnOk result
            ((self.new.batches ≤ self.old.batches + 2)
            × (report.new.steps ≤ report.old.steps + 3)) }
    {
        self.try_unspent(alloc, file, is_spent, report)?;
        self.remove(file.serial, report)?;
        Ok(())
    }

    // The work on these files, in order.
    fn do_files(
        &mut self,
        alloc: Global,
        files: &[StoredFile<'a>],
        marks: &[bool],
        report: &mut Report,
    ) -> Result<(), NoMemory>
        requires long { length marks.now ≡ length files.now }
        requires few { length files.now ≤ MAX_FILES }
        requires thin { IsTrue (list_all (λ x. is_thin_on self.old.board x.bytes) files.now) }
        requires rests { find is_open self.old.list ≡ None }
        requires batches { self.old.batches ≤ 2 ^ 61 }
        requires steps { report.old.steps ≤ 2 ^ 29 }
        ensures ok { OnOk result
            (between_tasks self.new report.new
            ≡ tasks_done true_formats (between_tasks self.old report.old)
            (all_marked_tasks files.now marks.now)) }
        ensures frame { self.new.board ≡ self.old.board }
        ensures counts { OnOk result
            ((self.new.batches ≤ self.old.batches + 128)
            × (report.new.steps ≤ report.old.steps + 192)) }
    {
        for (i, file) in files.iter().enumerate() {
            self.do_file(alloc, file, marks[i], report)?;
        }
        Ok(())
    }

    // The serials of files that are gone are kept no longer.
    fn prune(&mut self, alloc: Global, report: &mut Report) -> Result<(), NoMemory>
        requires batches { self.old.batches ≤ 2 ^ 62 }
        requires steps { report.old.steps ≤ 2 ^ 30 }
        ensures ok { OnOk result
            (between_tasks self.new report.new
            ≡ tasks_done true_formats (between_tasks self.old report.old) (prune_tasks self.old)) }
        ensures frame { (self.new.list ≡ self.old.list) × (self.new.board ≡ self.old.board) }
        ensures counts { OnOk result
            ((self.new.batches ≤ self.old.batches + 1)
            × (report.new.steps ≤ report.old.steps + 1)) }
    {
        if !lacks_a_file(&self.files, self.in_progress.as_slice()) {
            return Ok(());
        }
        self.in_progress = with_files(alloc, &self.files, self.in_progress.as_slice())?;
        self.batches += 1;
        report.steps += 1;
        Ok(())
    }

    // The folder is taken, where that was asked for.
    pub(super) fn take_folder(&mut self, alloc: Global, report: &mut Report) -> Result<(), NoMemory>
        requires rests { find is_open self.old.list ≡ None }
        requires batches { self.old.batches ≤ 2 ^ 60 }
        requires steps { report.old.steps ≤ 2 ^ 28 }
        ensures ok { OnOk result
            (between_tasks self.new report.new
            ≡ tasks_done true_formats (between_tasks self.old report.old)
            (folder_tasks true_formats self.old)) }
        ensures frame { self.new.board ≡ self.old.board }
        ensures counts { OnOk result (self.new.batches ≤ self.old.batches + 130) }
    {
        if !self.asked {
            return Ok(());
        }
        let ordered = ordered_files(alloc, &self.files)?;
        let marks = marks_of(alloc, self.done.as_slice(), &ordered)?;
        self.prune(alloc, report)?;
        self.do_files(alloc, &ordered, marks.as_slice(), report)?;
        self.clear(alloc, report);
        Ok(())
    }
}
