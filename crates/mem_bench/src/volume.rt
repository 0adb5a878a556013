ghost use Rattle.std.specs.Prelude.{◌≡◌, ◌≤◌, length, IsTrue, IfOk, IfErr, OnOk, OnErr};
ghost use Rattle.bench_model.specs.Bench.{ChangesContents, CountsFolderChange, IsPutAnswer, Puts};
ghost use Rattle.bench_model.specs.Bench.{PutStops, Removes, RemoveStops, VolumeCause};
ghost use Rattle.bench_model.specs.Bench.{VolumeCauseOf, VolumeFollows, VolumeFollowsOf};
ghost use Rattle.bench_model.specs.Files.{is_file_name};
ghost use Rattle.mem_bench.specs.Parts.{keeps_change};
ghost use Rattle.mem_bench.specs.State.{PutIsDropped, RemoveIsKept, state_of};

use crate::MemBench;
use bench_model::{Call, Choice, Listing, MAX_FILE_BYTES, Strike, Volume, VolumeFault};
use cu_base::{Failed, Text};
use std::alloc::Global;

impl Volume for MemBench {
    fn list(&mut self, alloc: Global) -> Result<Listing, VolumeFault> {
        if self.clerk.count_folder_look().is_struck() {
            return Err(VolumeFault::Failed);
        }
        match self.folder.list(alloc) {
            Ok(listing) => Ok(listing),
            Err(_) => Err(VolumeFault::Memory),
        }
    }

    fn read_file(&mut self, serial: u64, at: u32, out: &mut [u8]) -> Result<(), Failed> {
        if self.clerk.count_folder_look().is_struck() {
            return Err(Failed);
        }
        self.folder.read(serial, at, out);
        Ok(())
    }

    fn put(&mut self, alloc: Global, name: &Text, bytes: &[u8]) -> Result<u64, VolumeFault>
        requires name { IsTrue (is_file_name name.now) }
        requires size { length bytes.now ≤ MAX_FILE_BYTES }
        ensures ok { IfOk result (λ serial. Puts name.now bytes.now serial (state_of self.old)
            (state_of self.new)) }
        ensures err { IfErr result (PutStops name.now bytes.now (state_of self.old)
            (state_of self.new)) }
        ensures refused { IsPutAnswer name.now (length bytes.now) (state_of self.old) result }
        ensures frame { ChangesContents (state_of self.old) (state_of self.new) }
        ensures counts { CountsFolderChange (state_of self.old) (state_of self.new) }
        ensures cause { VolumeCauseOf (state_of self.old) (state_of self.new) result }
        ensures strikes { VolumeFollowsOf Call.Step result (state_of self.old) (state_of self.new) }

        // Where the cut keeps it, it is done, unless memory is wanting.
        ensures kept { PutIsDropped self.old self.new }
    {
        let strike = self.clerk.count_folder_change();
        let is_full = self.folder.is_full(name, bytes.len() as u32);
        if strike.is_struck() {
            if keeps_change(strike) && !is_full {
                let _ = self.folder.put(alloc, name, bytes);
            }
            return Err(VolumeFault::Failed);
        }
        if is_full {
            return Err(VolumeFault::Full);
        }
        match self.folder.put(alloc, name, bytes) {
            Ok(serial) => Ok(serial),
            Err(_) => Err(VolumeFault::Memory),
        }
    }

    fn remove(&mut self, serial: u64) -> Result<(), Failed>
        ensures ok { OnOk result (Removes serial (state_of self.old) (state_of self.new)) }
        ensures err { OnErr result (RemoveStops serial (state_of self.old) (state_of self.new)) }
        ensures frame { ChangesContents (state_of self.old) (state_of self.new) }
        ensures counts { CountsFolderChange (state_of self.old) (state_of self.new) }
        ensures cause { VolumeCause (state_of self.old) (state_of self.new) result }
        ensures strikes { VolumeFollows Call.Step result (state_of self.old) (state_of self.new) }
        ensures kept { RemoveIsKept serial self.old self.new }
    {
        let strike = self.clerk.count_folder_change();
        if strike.is_struck() {
            if keeps_change(strike) {
                self.folder.remove(serial);
            }
            return Err(Failed);
        }
        self.folder.remove(serial);
        Ok(())
    }
}

/// Whether a change of the folder that this strikes is done all the same: where power is cut and
/// the choice is not `Old`.
fn keeps_change(strike: Strike) -> bool
    ensures { result ≡ keeps_change strike }
{
    match strike {
        Strike::Cut(choice) => choice != Choice::Old,
        Strike::Passes | Strike::Off | Strike::Fault => false,
    }
}
