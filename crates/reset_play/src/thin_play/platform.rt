//! The platform of a play on lists.

mod boot;
mod folder_work;
mod steps;

ghost use Rattle.std.specs.Prelude.{◌≡◌, ◌≤◌, ◌+◌, ◌++◌, ◌∷◌, [], ◌^◌, ◌<◌, ◌-◌, false, IsTrue};
ghost use Rattle.std.specs.Prelude.{not, filter, length, IfOk, OnOk, OnErr};
ghost use Rattle.bench_model.specs.Files.{is_folder_full, is_same_name};
ghost use Rattle.reference_machine.specs.Events.{dropped, plain, requested};
ghost use Rattle.reference_machine.specs.Machine.{folder_of, fresh};
ghost use Rattle.reset_play.specs.Plays.{has_one_device, is_thin_on};
ghost use Rattle.reference_machine.specs.TraceValues.{answer_value, entry_value};

use super::folder::{StoredFile, bytes_of_others, has_file};
use super::spent::{SpentTries, SpentTry};
use crate::{Answer, Entry, MAX_FILES, MAX_FOLDER_BYTES, Serials};
use bench_model::{Board, is_same_name};
use cu_base::{Items, NoMemory, Text};
use std::alloc::Global;
use std::marker::Model;

/// A platform of one device, in lists. Contracts see the reference machine.
#[derive(Drop)]
pub struct ListPlatform<'a> {
    board: &'a Board,
    files: Vec<StoredFile<'a>>,
    last_file: u64,
    asked: bool,
    /// The attempts that are closed, in order.
    done: SpentTries<'a>,
    /// The attempt that an earlier boot left open.
    claimed: Option<SpentTry<'a>>,
    in_progress: Serials,
    batches: u64,
}

impl<'a> Model for ListPlatform<'a> {
    ghost use Rattle.std.specs.Prelude.{◌++◌, [], false};
    ghost use Rattle.reference_machine.specs.Machine.{Machine, first_moment};
    ghost use Rattle.reset_play.specs.Whole.{open_rest, IsListPlatform};

    ghost Value = { Machine };

    ghost view = { λ p. record {
      board = p.board.now;
      now = first_moment;
      files = p.files.items;
      last_file = p.last_file;
      memory = [];
      staged = [];
      last_staged = 0;
      is_signalled = p.asked;
      list = p.done.items ++ open_rest p.claimed;
      in_progress = p.in_progress.items;
      batches = p.batches;
      failed = false;
    } };

    ghost invariant = { λ p. IsListPlatform p.board.now p.files.items p.done.items p.claimed };
}

impl<'a> ListPlatform<'a> {
    /// A platform as it leaves the factory. It takes no memory.
    pub fn new(alloc: Global, board: &'a Board) -> ListPlatform<'a>
        requires { IsTrue (has_one_device board.now) }
        ensures { result ≡ fresh board.now }
    {
        ListPlatform {
            board,
            files: Vec::new(alloc),
            last_file: 0,
            asked: false,
            done: Items::new(alloc),
            claimed: None,
            in_progress: Items::new(alloc),
            batches: 0,
        }
    }

    // Whether the folder does not take a file.
    fn is_full(&self, name: &Text, bytes: &[u8]) -> bool
        ensures value { result ≡ is_folder_full (folder_of self.now) name.now (length bytes.now) }
        ensures bound { result ≡ false → self.now.last_file < 2 ^ 64 - 1 }
    {
        let is_known = has_file(&self.files, name.as_str());
        let is_crowded = self.files.len() >= MAX_FILES;
        let sum = bytes_of_others(&self.files, name.as_str()).saturating_add(bytes.len());
        is_crowded && !is_known || sum > MAX_FOLDER_BYTES as usize || self.last_file == u64::MAX
    }

    /// Puts a thin file that has a target into the folder.
    pub fn drop_file(
        &mut self,
        alloc: Global,
        name: &Text,
        bytes: &'a [u8],
    ) -> Result<Entry, NoMemory>
        requires { IsTrue (is_thin_on self.old.board bytes.now) }
        ensures ok { IfOk result
            (λ entry. (entry_value entry, self.new)
            ≡ dropped self.old name.now bytes.now) }
        ensures frame { self.new.board ≡ self.old.board }
        ensures counts { self.new.batches ≡ self.old.batches }
    {
        if self.is_full(name, bytes) {
            return Ok(plain_entry(Answer::Full));
        }
        let file = StoredFile {
            name: Text::from_str(alloc, name.as_str())?,
            serial: self.last_file + 1,
            bytes,
        };
        put(&mut self.files, file)?;
        self.last_file += 1;
        Ok(plain_entry(Answer::Serial(self.last_file)))
    }

    /// Asks for the files to be taken at the next boot.
    pub fn signal(&mut self) -> Entry
        requires { self.old.batches ≤ 2 ^ 63 }
        ensures value { (entry_value result, self.new) ≡ requested self.old }
        ensures frame { self.new.board ≡ self.old.board }
        ensures counts { self.new.batches ≤ self.old.batches + 1 }
    {
        let opened = Some(self.batches);
        self.asked = true;
        self.batches += 1;
        Entry {
            opened,
            pending: None,
            answer: Answer::Done,
        }
    }
}

// What an event tells that does not open the store.
fn plain_entry(answer: Answer) -> Entry
    ensures { entry_value result ≡ plain (answer_value answer) }
{
    Entry {
        opened: None,
        pending: None,
        answer,
    }
}

// Puts a file into the folder in place of those of the same name.
fn put<'a>(files: &mut Vec<StoredFile<'a>>, file: StoredFile<'a>) -> Result<(), NoMemory>
    ensures ok { OnOk result
        (files.new.items
        ≡ filter (λ x. not (is_same_name x.name file.entry.name)) files.old.items
        ++ file.entry ∷ []) }
    ensures err { OnErr result
        (files.new.items
        ≡ filter (λ x. not (is_same_name x.name file.entry.name)) files.old.items) }
{
    forget(files, &file.name);
    match files.push(file) {
        Ok(()) => Ok(()),
        Err(_) => Err(NoMemory),
    }
}

// Takes the files of a name out of the folder.
fn forget(files: &mut Vec<StoredFile<'_>>, name: &Text)
    ensures { files.new.items ≡ filter (λ x. not (is_same_name x.name name.now)) files.old.items }
{
    files.retain(|known| !is_same_name(known.name.as_str(), name.as_str()));
}
