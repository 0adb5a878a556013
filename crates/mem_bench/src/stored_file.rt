ghost use Rattle.std.specs.Prelude.{◌≡◌, ◌==◌, ◌+◌, ◌≤◌, ◌∷◌, [], ◌++◌, filter, not, length};
ghost use Rattle.std.specs.Prelude.{vec_len, vec_capacity, option_map, find, IfOk};
ghost use Rattle.std.specs.List.{list_any};
ghost use Rattle.bench_model.specs.Files.{bytes_in, has_file, is_same_name, others_than};

use bench_model::{MAX_FOLDER_BYTES, is_same_name};
use cu_base::{Blob, NoMemory, Text};
use std::alloc::Global;
use std::marker::Model;

/// A file of a folder in memory. Contracts see name, serial and bytes.
#[derive(Drop)]
pub struct StoredFile {
    pub name: Text,
    pub serial: u64,
    pub bytes: Blob,
}

impl Model for StoredFile {
    ghost use Rattle.bench_model.specs.Files.{File};

    ghost Value = { File };

    ghost view = { λ f. record { name = f.name; serial = f.serial; bytes = f.bytes } };
}

impl StoredFile {
    /// A file of this name and these bytes.
    pub fn new(
        alloc: Global,
        name: &Text,
        serial: u64,
        bytes: &[u8],
    ) -> Result<StoredFile, NoMemory>
        ensures { IfOk result (λ f. f ≡ record
            { name = name.now; serial = serial; bytes = bytes.now }) }
    {
        Ok(StoredFile {
            name: Text::from_str(alloc, name.as_str())?,
            serial,
            bytes: Blob::from_slice(alloc, bytes)?,
        })
    }

    /// Whether it has this name, whatever the case.
    pub fn is_named(&self, name: &str) -> bool
        ensures { result ≡ is_same_name self.now.name name.now }
    {
        is_same_name(self.name.as_str(), name)
    }

    /// Its bytes.
    pub fn bytes(&self) -> &[u8]
        ensures { result.now ≡ self.now.bytes }
    {
        self.bytes.as_slice()
    }
}

/// Whether a file has this name.
pub fn has_file(files: &[StoredFile], name: &str) -> bool
    ensures { result ≡ has_file name.now files.now }
{
    files.iter().any(|file| file.is_named(name))
}

/// The bytes of all files but those of a name.
pub fn bytes_of_others(files: &[StoredFile], name: &str) -> u64
    requires { bytes_in files.now ≤ MAX_FOLDER_BYTES }
    ensures value { result ≡ bytes_in (others_than name.now files.now) }
    ensures bound { result ≤ MAX_FOLDER_BYTES }
{
    let mut sum = 0;
    for file in files {
        if !file.is_named(name) {
            sum += file.bytes().len() as u64;
        }
    }
    sum
}

/// The file of a serial.
pub fn file_of(files: &[StoredFile], serial: u64) -> Option<&StoredFile>
    ensures { option_map (λ f. f.now) result ≡ find (λ x. x.serial == serial) files.now }
{
    files.iter().find(|file| file.serial == serial)
}

/// Takes the files of a name out of the folder.
pub fn drop_name(files: &mut Vec<StoredFile>, name: &Text)
    ensures others { files.new.items ≡ others_than name.now files.old.items }
    ensures room { vec_capacity files.new ≡ vec_capacity files.old }
    ensures fewer { vec_len files.new ≤ vec_len files.old }
{
    files.retain(|file| !file.is_named(name.as_str()));
}

/// Takes the file of a serial out of the folder.
pub fn drop_serial(files: &mut Vec<StoredFile>, serial: u64)
    ensures { files.new.items ≡ filter (λ x. not (x.serial == serial)) files.old.items }
{
    files.retain(|file| file.serial != serial);
}
