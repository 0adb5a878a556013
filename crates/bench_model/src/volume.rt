ghost use Rattle.std.specs.Prelude.{◌≡◌, ◌≢◌, ◌≤◌, length, IsTrue, IfOk, IfErr, OnOk, OnErr};
ghost use Rattle.bench_model.specs.Files.{is_file_name};
ghost use Rattle.bench_model.specs.Bench.{HasFile, IsInFile, FileReads, Lists, IsPutAnswer, Puts};
ghost use Rattle.bench_model.specs.Bench.{PutStops};
ghost use Rattle.bench_model.specs.Bench.{Removes, RemoveStops, ChangesCounts, ChangesContents};
ghost use Rattle.bench_model.specs.Bench.{CountsFolderLook, CountsFolderChange};
ghost use Rattle.bench_model.specs.Bench.{VolumeCause, VolumeCauseOf, VolumeFollows};
ghost use Rattle.bench_model.specs.Bench.{VolumeFollowsOf};

use crate::{BenchState, Call, Listing, MAX_FILE_BYTES, VolumeFault};
use cu_base::{Failed, Text};
use std::alloc::Global;

/// The volume of a platform, with its folder of capsule files `\EFI\UpdateCapsule` (UEFI 2.10,
/// 8.5.5). What it did stays: no power cut takes it back.
pub trait Volume: BenchState {
    /// The files of the folder, in the order in which they were put. A look. It never answers Full.
    fn list(&mut self, alloc: Global) -> Result<Listing, VolumeFault>
        ensures reads { IfOk result (λ listing. Lists listing.items (Self.state self.old)) }
        ensures refused { IfErr result (λ fault. fault ≢ VolumeFault.Full) }
        ensures frame { ChangesCounts (Self.state self.old) (Self.state self.new) }
        ensures counts { CountsFolderLook (Self.state self.old) (Self.state self.new) }
        ensures cause { VolumeCauseOf (Self.state self.old) (Self.state self.new) result }
        ensures strikes { VolumeFollowsOf Call.Look result (Self.state self.old) (Self.state self.new) };

    /// Reads the bytes from place `at` of a file. A look.
    fn read_file(&mut self, serial: u64, at: u32, out: &mut [u8]) -> Result<(), Failed>
        requires there { HasFile serial (Self.state self.old) }
        requires within { IsInFile serial at (length out.old) (Self.state self.old) }
        ensures reads { OnOk result (FileReads serial at out.new (Self.state self.old)) }
        ensures frame { ChangesCounts (Self.state self.old) (Self.state self.new) }
        ensures counts { CountsFolderLook (Self.state self.old) (Self.state self.new) }
        ensures cause { VolumeCause (Self.state self.old) (Self.state self.new) result }
        ensures strikes { VolumeFollows Call.Look result (Self.state self.old) (Self.state self.new) };

    /// Puts a file into the folder, in place of one whose name differs in case alone, and tells its
    /// serial, the next one. It is neither a move nor a look. Where it failed it was done wholly or
    /// not at all. It answers Full exactly where it did not fail and the folder takes no such file.
    fn put(&mut self, alloc: Global, name: &Text, bytes: &[u8]) -> Result<u64, VolumeFault>
        requires name { IsTrue (is_file_name name.now) }
        requires size { length bytes.now ≤ MAX_FILE_BYTES }
        ensures ok { IfOk result (λ serial. Puts name.now bytes.now serial (Self.state self.old)
            (Self.state self.new)) }
        ensures err { IfErr result (PutStops name.now bytes.now (Self.state self.old)
            (Self.state self.new)) }
        ensures refused { IsPutAnswer name.now (length bytes.now) (Self.state self.old) result }
        ensures frame { ChangesContents (Self.state self.old) (Self.state self.new) }
        ensures counts { CountsFolderChange (Self.state self.old) (Self.state self.new) }
        ensures cause { VolumeCauseOf (Self.state self.old) (Self.state self.new) result }
        ensures strikes { VolumeFollowsOf Call.Step result (Self.state self.old) (Self.state self.new) };

    /// Takes a file out of the folder. It is neither a move nor a look. Where it failed it was done
    /// or it was not.
    fn remove(&mut self, serial: u64) -> Result<(), Failed>
        requires there { HasFile serial (Self.state self.old) }
        ensures ok { OnOk result (Removes serial (Self.state self.old) (Self.state self.new)) }
        ensures err { OnErr result (RemoveStops serial (Self.state self.old) (Self.state self.new)) }
        ensures frame { ChangesContents (Self.state self.old) (Self.state self.new) }
        ensures counts { CountsFolderChange (Self.state self.old) (Self.state self.new) }
        ensures cause { VolumeCause (Self.state self.old) (Self.state self.new) result }
        ensures strikes { VolumeFollows Call.Step result (Self.state self.old) (Self.state self.new) };
}
