//! The capsule files of the folder.

ghost use Rattle.std.specs.Prelude.{◌≡◌, IfOk, IfErr, OnOk};
ghost use Rattle.std.specs.List.Sorted.{IsPermutation};
ghost use Rattle.cu_base.specs.Causes.{HasCauseOf};
ghost use Rattle.bench_model.specs.Bench.{ChangesCounts, CountsFolderLook};
ghost use Rattle.bench_model.specs.Files.{IsListing};
ghost use Rattle.reference_machine.specs.Names.{is_taken_before};
ghost use Rattle.reference_machine.specs.Order.{in_order};
ghost use Rattle.update_inbox.specs.Folders.{IsFolderFault, ListsInOrder};

use crate::InboxFault;
use bench_model::{Listed, Listing, Volume, VolumeFault};
use cu_base::{NoMemory, Text};
use reference_machine::compare_names;
use std::alloc::Global;

/// The files of the folder in the order in which a boot takes them, by their upper-cased names
/// (UEFI 2.10, 8.5.5). It answers Volume or Memory alone.
pub fn files_in_order<V: Volume>(alloc: Global, volume: &mut V) -> Result<Listing, InboxFault>
    ensures value { IfOk result (λ files. ListsInOrder files.items (V.state volume.old)) }
    ensures refused { IfErr result IsFolderFault }
    ensures frame { ChangesCounts (V.state volume.old) (V.state volume.new) }
    ensures counts { CountsFolderLook (V.state volume.old) (V.state volume.new) }
    ensures cause { HasCauseOf InboxFault.Volume (V.state volume.old).counts.volume_faults
        (V.state volume.new).counts.volume_faults result }
{
    match volume.list(alloc) {
        Ok(listing) => Ok(ordered(alloc, &listing)?),
        Err(VolumeFault::Memory) => Err(InboxFault::Memory),
        Err(_) => Err(InboxFault::Volume),
    }
}

/// The same files in order.
#[tactic(auto, using(crate::proofs::FolderLemmas::order_is_listing))]
fn ordered(alloc: Global, listing: &Listing) -> Result<Listing, NoMemory>
    ensures { IfOk result
        (λ files. files.items ≡ in_order (λ a b. is_taken_before a.name b.name) listing.now.items) }
{
    let mut files = copies_of(alloc, listing.as_slice())?;
    put_in_order(&mut files)?;
    listing_of(alloc, files)
}

/// Puts files in order.
fn put_in_order(files: &mut Vec<Listed>) -> Result<(), NoMemory>
    ensures order { OnOk result (files.new.items
        ≡ in_order (λ a b. is_taken_before a.name b.name) files.old.items) }
    ensures same { IsPermutation files.old.items files.new.items }
{
    match files.sort_by(|a, b| compare_names(a.name.as_str(), b.name.as_str())) {
        Ok(()) => Ok(()),
        Err(_) => Err(NoMemory),
    }
}

/// The same files, each with a name of its own.
fn copies_of(alloc: Global, files: &[Listed]) -> Result<Vec<Listed>, NoMemory>
    ensures { IfOk result (λ copies. copies.items ≡ files.now) }
{
    let mut copies = Vec::new(alloc);
    for file in files {
        if copies.push(copy_of(alloc, file)?).is_err() {
            return Err(NoMemory);
        }
    }
    Ok(copies)
}

/// The file with a name of its own.
fn copy_of(alloc: Global, file: &Listed) -> Result<Listed, NoMemory>
    ensures { IfOk result (λ copy. copy ≡ file.now) }
{
    Ok(Listed {
        name: Text::from_str(alloc, file.name.as_str())?,
        serial: file.serial,
        size: file.size,
    })
}

/// The listing of these files.
fn listing_of(alloc: Global, mut files: Vec<Listed>) -> Result<Listing, NoMemory>
    requires { IsListing files.items }
    ensures { IfOk result (λ listing. listing.items ≡ files.items) }
{
    let mut listing = Listing::new(alloc);
    'files: while !files.is_empty() {
        listing.push(files.remove(0))?;
    }
    Ok(listing)
}
