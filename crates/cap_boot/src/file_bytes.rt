//! The bytes of a file of the folder.

ghost use Rattle.std.specs.Prelude.{◌≡◌, ◌++◌, IfErr, IfOk, OnOk, length, true};
ghost use Rattle.bench_model.specs.Bench.{ChangesCounts, HasFile, IsInFile};
ghost use Rattle.bench_model.specs.Files.{file_bytes};
ghost use Rattle.cap_boot.specs.Faults.{HasFlashCause, IsOfListing};
ghost use Rattle.cap_boot.specs.Tasks.{TellsFile};
ghost use Rattle.cu_base.specs.Fields.{field};

use crate::BootFault;
use bench_model::{Listed, Volume};
use cu_base::Blob;
use std::alloc::Global;

/// The bytes that are read of a file at once.
const PIECE_BYTES: u32 = 4_096;

/// The bytes of a file of the folder. It answers Volume where the volume failed.
pub(crate) fn bytes_in<V: Volume>(
    alloc: Global,
    volume: &mut V,
    file: &Listed,
) -> Result<Blob, BootFault>
    requires there { TellsFile file.now (V.state volume.old) }
    ensures value { (V.state volume.old).contents.told ≡ true → IfOk result (λ bytes. bytes
        ≡ file_bytes file.now.serial (V.state volume.old).contents.rest.folder.files) }
    ensures refused { IfErr result IsOfListing }
    ensures frame { ChangesCounts (V.state volume.old) (V.state volume.new) }
    ensures cause { HasFlashCause (V.state volume.old) (V.state volume.new) result }
{
    let mut bytes = Blob::new(alloc);
    bytes.reserve(file.size as usize)?;
    let mut piece = [0; PIECE_BYTES as usize];
    let mut at = 0;
    while at < file.size {
        let size = (file.size - at).min(PIECE_BYTES);
        push_piece(
            volume,
            file.serial,
            at,
            &mut piece[..size as usize],
            &mut bytes,
        )?;
        at += size;
    }
    Ok(bytes)
}

/// Appends the bytes of a file from a place on, as many as the buffer takes.
fn push_piece<V: Volume>(
    volume: &mut V,
    serial: u64,
    at: u32,
    piece: &mut [u8],
    bytes: &mut Blob,
) -> Result<(), BootFault>
    requires there { HasFile serial (V.state volume.old) }
    requires within { IsInFile serial at (length piece.old) (V.state volume.old) }
    ensures ok { (V.state volume.old).contents.told ≡ true → OnOk result (bytes.new ≡ bytes.old
        ++ field (file_bytes serial (V.state volume.old).contents.rest.folder.files) at
        (length piece.old)) }
    ensures refused { IfErr result IsOfListing }
    ensures frame { ChangesCounts (V.state volume.old) (V.state volume.new) }
    ensures cause { HasFlashCause (V.state volume.old) (V.state volume.new) result }
{
    if volume.read_file(serial, at, piece).is_err() {
        return Err(BootFault::Volume);
    }
    bytes.push_slice(piece)?;
    Ok(())
}
