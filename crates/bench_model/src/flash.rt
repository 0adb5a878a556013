ghost use Rattle.std.specs.Prelude.{◌≡◌, ℕ, ◌≤◌, length, OnOk, OnErr, IsOk};
ghost use Rattle.bench_model.specs.Bench.{BenchValue, HasRegion, HasDevice, IsWithin, MayWrite};
ghost use Rattle.bench_model.specs.Bench.{RegionReads, RegionWrites, RegionSyncs, IsRegionStable};
ghost use Rattle.bench_model.specs.Bench.{ChangesCounts, ChangesRegion, ChangesContents, Begins};
ghost use Rattle.bench_model.specs.Bench.{after_end};
ghost use Rattle.bench_model.specs.Bench.{CountsMove, CountsLook, FlashCause, FlashFollows};

use crate::Call;
use cu_base::{Failed, NoMemory, Ticket};

/// What a bench is. It has no calls: the flash and the volume of one bench stand on it.
pub trait BenchState {
    /// All that its calls speak of.
    ghost state: { Self → BenchValue };
}

/// A flash whose power may fail. Regions 0 and 1 are banks, and region `2 + d` is that of device
/// `d`. A written place is dirty until its region is synced: a power cut may leave any byte there.
pub trait Flash: BenchState {
    /// How many regions there are.
    fn regions(&self) -> u32
        ensures value { result ≡ (Self.state self.now).contents.regions };

    /// The bytes of a region.
    fn size(&self, region: u32) -> u32
        requires there { HasRegion region (Self.state self.now) }
        ensures value { result ≡ length ((Self.state self.now).contents.bytes region) };

    /// Reads the bytes from place `at` of a region. A look.
    fn read(&mut self, region: u32, at: u32, out: &mut [u8]) -> Result<(), Failed>
        requires there { HasRegion region (Self.state self.old) }
        requires within { IsWithin region at (length out.old) (Self.state self.old) }
        ensures reads { OnOk result (RegionReads region at out.new (Self.state self.old)) }
        ensures frame { ChangesCounts (Self.state self.old) (Self.state self.new) }
        ensures counts { CountsLook (Self.state self.old) (Self.state self.new) }
        ensures cause { FlashCause (Self.state self.old) (Self.state self.new) result }
        ensures strikes { FlashFollows Call.Look result (Self.state self.old) (Self.state self.new) };

    /// Writes bytes from place `at` of a region on. A move. Where it failed the range may read as
    /// any bytes.
    fn write(&mut self, region: u32, at: u32, bytes: &[u8]) -> Result<(), Failed>
        requires there { HasRegion region (Self.state self.old) }
        requires within { IsWithin region at (length bytes.now) (Self.state self.old) }
        requires begun { MayWrite region (Self.state self.old) }
        ensures ok { OnOk result (RegionReads region at bytes.now (Self.state self.new)) }
        ensures writes { RegionWrites region at (length bytes.now) (Self.state self.old)
            (Self.state self.new) }
        ensures frame { ChangesRegion region (Self.state self.old) (Self.state self.new) }
        ensures counts { CountsMove (Self.state self.old) (Self.state self.new) }
        ensures cause { FlashCause (Self.state self.old) (Self.state self.new) result }
        ensures strikes { FlashFollows Call.Step result (Self.state self.old) (Self.state self.new) };

    /// Makes the bytes as read of a region last: no place of it is dirty then. A move. Where it
    /// failed nothing changed.
    fn sync(&mut self, region: u32) -> Result<(), Failed>
        requires there { HasRegion region (Self.state self.old) }
        ensures ok { OnOk result (IsRegionStable region (Self.state self.new)) }
        ensures err { OnErr result (ChangesCounts (Self.state self.old) (Self.state self.new)) }
        ensures writes { RegionSyncs region (Self.state self.old) (Self.state self.new) }
        ensures frame { ChangesRegion region (Self.state self.old) (Self.state self.new) }
        ensures counts { CountsMove (Self.state self.old) (Self.state self.new) }
        ensures cause { FlashCause (Self.state self.old) (Self.state self.new) result }
        ensures strikes { FlashFollows Call.Step result (Self.state self.old) (Self.state self.new) };

    /// Makes the room that one begin of a device needs. It is no move, and no fault strikes it.
    fn ready(&mut self, device: u8) -> Result<(), NoMemory>
        requires there { HasDevice device (Self.state self.old) }
        ensures ok { OnOk result (1 ≤ (Self.state self.new).spare device) }
        ensures enough { 1 ≤ (Self.state self.old).spare device → IsOk result }
        ensures err { OnErr result (Self.state self.new ≡ Self.state self.old) }
        ensures frame { Self.state self.new
            ≡ record (Self.state self.old) { spare = (Self.state self.new).spare } }
        ensures spare { (d : ℕ) → (Self.state self.old).spare d ≤ (Self.state self.new).spare d };

    /// Begins the update of a device with this ticket: its region may be written until it is ended.
    /// A move. Where it failed nothing changed.
    fn begin(&mut self, device: u8, ticket: Ticket) -> Result<(), Failed>
        requires there { HasDevice device (Self.state self.old) }
        requires ready { 1 ≤ (Self.state self.old).spare device }
        ensures ok { OnOk result (Begins device ticket (Self.state self.old) (Self.state self.new)) }
        ensures err { OnErr result (ChangesCounts (Self.state self.old) (Self.state self.new)) }
        ensures frame { (Self.state self.new).orders ≡ (Self.state self.old).orders }
        ensures counts { CountsMove (Self.state self.old) (Self.state self.new) }
        ensures cause { FlashCause (Self.state self.old) (Self.state self.new) result }
        ensures strikes { FlashFollows Call.Step result (Self.state self.old) (Self.state self.new) };

    /// Ends the update of a device: no device is open then. A move. Where it failed nothing
    /// changed.
    fn end(&mut self, device: u8) -> Result<(), Failed>
        requires there { HasDevice device (Self.state self.old) }
        ensures ok { OnOk result ((Self.state self.new).contents
            ≡ after_end (Self.state self.old).contents) }
        ensures err { OnErr result (ChangesCounts (Self.state self.old) (Self.state self.new)) }
        ensures frame { ChangesContents (Self.state self.old) (Self.state self.new) }
        ensures counts { CountsMove (Self.state self.old) (Self.state self.new) }
        ensures cause { FlashCause (Self.state self.old) (Self.state self.new) result }
        ensures strikes { FlashFollows Call.Step result (Self.state self.old) (Self.state self.new) };
}
