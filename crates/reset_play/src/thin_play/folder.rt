//! The update folder of a play on lists.

ghost use Rattle.std.specs.Prelude.{◌≡◌, ◌≤◌, ◌-◌, ◌^◌, min, length, if◌then◌else◌, not, IfOk};
ghost use Rattle.std.specs.Prelude.{OnOk, OnErr, position};
ghost use Rattle.std.specs.List.{list_any, position_or_len};
ghost use Rattle.reference_machine.specs.Boots.{is_file};
ghost use Rattle.bench_model.specs.Files.{bytes_in, is_same_name, others_than};
ghost use Rattle.reference_machine.specs.Names.{is_taken_before};
ghost use Rattle.reference_machine.specs.Order.{in_order, inserted};

use bench_model::is_same_name;
use cu_base::{NoMemory, Text};
use reference_machine::compare_names;
use std::alloc::Global;
use std::marker::Model;

/// A file of the update folder. Contracts see name, serial and bytes.
#[derive(Drop)]
pub struct StoredFile<'a> {
    pub name: Text,
    pub serial: u64,
    pub bytes: &'a [u8],
}

impl<'a> Model for StoredFile<'a> {
    ghost use Rattle.bench_model.specs.Files.{File};

    ghost Value = { File };

    ghost view = { λ f. record { name = f.name; serial = f.serial; bytes = f.bytes.now } };
}

impl<'a> StoredFile<'a> {
    /// The name of the file.
    pub fn name(&self) -> &str
        ensures { result.now ≡ self.now.name }
    {
        self.name.as_str()
    }
}

/// Whether the file of the first name is taken before that of the second: by the upper-cased names.
#[tactic(auto, using(reference_machine::proofs::Sorted::taken_before_is))]
pub fn is_taken_before(a: &str, b: &str) -> bool
    ensures { result ≡ is_taken_before a.now b.now }
{
    compare_names(a, b).is_lt()
}

/// Whether a file has this name.
pub fn has_file(files: &[StoredFile<'_>], name: &str) -> bool
    ensures { result ≡ list_any (λ x. is_same_name x.name name.now) files.now }
{
    files.iter().any(|file| is_same_name(file.name(), name))
}

/// Whether a file has this serial.
pub fn has_serial(files: &[StoredFile<'_>], serial: u64) -> bool
    ensures { result ≡ is_file files.now serial }
{
    files.iter().any(|file| file.serial == serial)
}

// How many bytes a file has, and none where it has this name.
fn bytes_but(file: &StoredFile<'_>, name: &str) -> usize
    ensures { result
        ≡ (if is_same_name (file.now).name name.now then 0 else length (file.now).bytes) }
{
    if is_same_name(file.name(), name) {
        0
    } else {
        file.bytes.len()
    }
}

/// How many bytes the files of other names have, up to the greatest number.
#[tactic(auto, using(crate::proofs::FolderLemmas::bytes_more))]
pub fn bytes_of_others(files: &[StoredFile<'_>], name: &str) -> usize
    ensures { result ≡ min (bytes_in (others_than name.now files.now)) (2 ^ 64 - 1) }
{
    let mut sum = 0usize;
    for file in files {
        sum = sum.saturating_add(bytes_but(file, name));
    }
    sum
}

// A file with a name of its own.
fn copy_of<'a>(alloc: Global, file: &StoredFile<'a>) -> Result<StoredFile<'a>, NoMemory>
    ensures { IfOk result (λ copy. copy ≡ file.now) }
{
    let name = Text::from_str(alloc, file.name())?;
    Ok(StoredFile {
        name,
        serial: file.serial,
        bytes: file.bytes,
    })
}

// The place of the first file that is not taken before one of this name.
fn first_behind(files: &[StoredFile<'_>], name: &str) -> Option<usize>
    ensures { result ≡ position (λ x. not (is_taken_before x.name name.now)) files.now }
{
    files
        .iter()
        .position(|file| !is_taken_before(file.name(), name))
}

// How many files stand before the first that is not taken before one of this name.
#[tactic(auto, using(crate::proofs::FolderLemmas::none_passes, crate::proofs::FolderLemmas::place_at_most))]
fn place_of(files: &[StoredFile<'_>], name: &str) -> usize
    ensures value { result
        ≡ position_or_len (λ x. not (is_taken_before x.name name.now)) files.now }
    ensures bound { result ≤ length files.now }
{
    match first_behind(files, name) {
        Some(place) => place,
        None => files.len(),
    }
}

// Puts a file before the first that is not taken before it.
fn put_in_order<'a>(ordered: &mut Vec<StoredFile<'a>>, file: StoredFile<'a>) -> Result<(), NoMemory>
    ensures ok { OnOk result
        (ordered.new.items
        ≡ inserted (λ a b. is_taken_before a.name b.name) file.entry ordered.old.items) }
    ensures err { OnErr result (ordered.new.items ≡ ordered.old.items) }
{
    let place = place_of(ordered, file.name());
    if ordered.insert(place, file).is_err() {
        return Err(NoMemory);
    }
    Ok(())
}

/// The files in the order in which a boot takes them, each with a name of its own.
#[tactic(auto, using(crate::proofs::FolderLemmas::one_more_in_order))]
pub fn ordered_files<'a>(
    alloc: Global,
    files: &[StoredFile<'a>],
) -> Result<Vec<StoredFile<'a>>, NoMemory>
    ensures { IfOk result
        (λ ordered. ordered.items ≡ in_order (λ a b. is_taken_before a.name b.name) files.now) }
{
    let mut ordered = Vec::new(alloc);
    let mut left = files.len();
    'files: while left > 0 {
        left -= 1;
        put_in_order(&mut ordered, copy_of(alloc, &files[left])?)?;
    }
    Ok(ordered)
}
