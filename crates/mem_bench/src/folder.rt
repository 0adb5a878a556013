ghost use Rattle.std.specs.Prelude.{◌≡◌, ◌+◌, ◌≤◌, [], length, IsTrue, IfOk, OnErr, false};
ghost use Rattle.cu_base.specs.Fields.{field};
ghost use Rattle.bench_model.specs.Files.{file_bytes, has_serial, is_file_name, is_folder_full};
ghost use Rattle.bench_model.specs.Files.{listed, with_put, without_serial};

use crate::stored_file::{StoredFile, bytes_of_others, drop_name, drop_serial, file_of, has_file};
use bench_model::{Listed, Listing, MAX_FILE_BYTES, MAX_FILES, MAX_FOLDER_BYTES};
use cu_base::{NoMemory, Text};
use std::alloc::Global;
use std::marker::Model;

/// The folder of a volume in memory. Contracts see its files and the last serial.
#[derive(Drop)]
pub struct Folder {
    files: Vec<StoredFile>,
    last_serial: u64,
}

impl Model for Folder {
    ghost use Rattle.bench_model.specs.Files.{FolderValue};
    ghost use Rattle.mem_bench.specs.Folders.{IsFolder};

    ghost Value = { FolderValue };

    ghost view = { λ f. record { files = f.files.items; last_serial = f.last_serial } };

    ghost invariant = { λ f. IsFolder (record { files = f.files.items; last_serial = f.last_serial }) };
}

impl Folder {
    /// No files, and no serial drawn. It takes no memory.
    pub fn new(alloc: Global) -> Folder
        ensures { result ≡ record { files = []; last_serial = 0 } }
    {
        Folder {
            files: Vec::new(alloc),
            last_serial: 0,
        }
    }

    /// The names, serials and sizes of the files.
    pub fn list(&self, alloc: Global) -> Result<Listing, NoMemory>
        ensures { IfOk result (λ listing. listing.items ≡ listed self.now.files) }
    {
        let mut listing = Listing::new(alloc);
        for file in &self.files {
            listing.push(listed(alloc, file)?)?;
        }
        Ok(listing)
    }

    /// Whether a file has this serial.
    pub fn has_serial(&self, serial: u64) -> bool
        ensures { result ≡ has_serial serial self.now.files }
    {
        self.files.iter().any(|file| file.serial == serial)
    }

    /// Reads bytes of the file of a serial, from a place on.
    pub fn read(&self, serial: u64, at: u32, out: &mut [u8])
        requires { at + length out.old ≤ length (file_bytes serial self.now.files) }
        ensures { out.new ≡ field (file_bytes serial self.now.files) at (length out.old) }
    {
        if let Some(file) = file_of(&self.files, serial) {
            let at = at as usize;
            out.copy_from_slice(&file.bytes()[at..at + out.len()]);
        }
    }

    /// Whether it takes no file of this name and size.
    pub fn is_full(&self, name: &Text, size: u32) -> bool
        ensures { result ≡ is_folder_full self.now name.now size }
    {
        let name = name.as_str();
        self.files.len() >= MAX_FILES && !has_file(&self.files, name)
            || bytes_of_others(&self.files, name) + size as u64 > MAX_FOLDER_BYTES as u64
            || self.last_serial == u64::MAX
    }

    /// Puts a file into it, in place of one of the same name, and tells its serial.
    pub fn put(&mut self, alloc: Global, name: &Text, bytes: &[u8]) -> Result<u64, NoMemory>
        requires name { IsTrue (is_file_name name.now) }
        requires size { length bytes.now ≤ MAX_FILE_BYTES }
        requires room { is_folder_full self.old name.now (length bytes.now) ≡ false }
        ensures value { IfOk result (λ serial. serial ≡ self.old.last_serial + 1) }
        ensures ok { IfOk result (λ serial. self.new ≡ with_put self.old name.now bytes.now) }
        ensures err { OnErr result (self.new ≡ self.old) }
    {
        let serial = self.last_serial + 1;
        let file = StoredFile::new(alloc, name, serial, bytes)?;
        if self.files.reserve(1).is_err() {
            return Err(NoMemory);
        }
        drop_name(&mut self.files, name);
        self.files.push_reserved(file);
        self.last_serial = serial;
        Ok(serial)
    }

    /// Takes the file of a serial out of it.
    pub fn remove(&mut self, serial: u64)
        ensures { self.new ≡ without_serial self.old serial }
    {
        drop_serial(&mut self.files, serial);
    }
}

/// What a listing tells of a file.
fn listed(alloc: Global, file: &StoredFile) -> Result<Listed, NoMemory>
    requires name { IsTrue (is_file_name file.now.name) }
    requires size { length file.now.bytes ≤ MAX_FILE_BYTES }
    ensures { IfOk result (λ x. x ≡ record
        { name = file.now.name; serial = file.now.serial; size = length file.now.bytes }) }
{
    Ok(Listed {
        name: Text::from_str(alloc, file.name.as_str())?,
        serial: file.serial,
        size: file.bytes().len() as u32,
    })
}
