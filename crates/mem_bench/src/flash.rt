ghost use Rattle.std.specs.Prelude.{◌≡◌, false, length, OnOk, OnErr};
ghost use Rattle.bench_model.specs.Bench.{ChangesCounts, ChangesRegion, CountsMove, FlashCause};
ghost use Rattle.bench_model.specs.Bench.{FlashFollows, HasRegion, IsRegionStable, IsWithin};
ghost use Rattle.bench_model.specs.Bench.{MayWrite};
ghost use Rattle.bench_model.specs.Bench.{RegionReads, RegionSyncs, RegionWrites};
ghost use Rattle.bench_model.specs.Plans.{has_no_power};
ghost use Rattle.mem_bench.specs.Regions.{written};
ghost use Rattle.mem_bench.specs.State.{after_sync, kept_region, next_strike, state_of};

use crate::MemBench;
use bench_model::{Call, Flash};
use cu_base::{Failed, NoMemory, Ticket};

impl Flash for MemBench {
    fn regions(&self) -> u32 {
        self.regions.len() as u32
    }

    fn size(&self, region: u32) -> u32 {
        self.regions[region as usize].size()
    }

    fn read(&mut self, region: u32, at: u32, out: &mut [u8]) -> Result<(), Failed> {
        if self.clerk.count_look().is_struck() {
            return Err(Failed);
        }
        self.regions[region as usize].read(at, out);
        Ok(())
    }

    fn write(&mut self, region: u32, at: u32, bytes: &[u8]) -> Result<(), Failed>
        requires there { HasRegion region (state_of self.old) }
        requires within { IsWithin region at (length bytes.now) (state_of self.old) }
        requires begun { MayWrite region (state_of self.old) }
        ensures ok { OnOk result (RegionReads region at bytes.now (state_of self.new)) }
        ensures writes { RegionWrites region at (length bytes.now) (state_of self.old)
            (state_of self.new) }
        ensures frame { ChangesRegion region (state_of self.old) (state_of self.new) }
        ensures counts { CountsMove (state_of self.old) (state_of self.new) }
        ensures cause { FlashCause (state_of self.old) (state_of self.new) result }
        ensures strikes { FlashFollows Call.Step result (state_of self.old) (state_of self.new) }

        // Also where it is struck it writes, wherever it has power.
        ensures kept { has_no_power (next_strike self.old) ≡ false
            → kept_region region self.new ≡ written at bytes.now (kept_region region self.old) }
    {
        let strike = self.clerk.count_move();
        if strike.has_no_power() {
            return Err(Failed);
        }
        self.regions[region as usize].write(at, bytes);
        if strike.is_struck() {
            return Err(Failed);
        }
        Ok(())
    }

    fn sync(&mut self, region: u32) -> Result<(), Failed>
        requires there { HasRegion region (state_of self.old) }
        ensures ok { OnOk result (IsRegionStable region (state_of self.new)) }
        ensures err { OnErr result (ChangesCounts (state_of self.old) (state_of self.new)) }
        ensures writes { RegionSyncs region (state_of self.old) (state_of self.new) }
        ensures frame { ChangesRegion region (state_of self.old) (state_of self.new) }
        ensures counts { CountsMove (state_of self.old) (state_of self.new) }
        ensures cause { FlashCause (state_of self.old) (state_of self.new) result }
        ensures strikes { FlashFollows Call.Step result (state_of self.old) (state_of self.new) }
        ensures kept { kept_region region self.new
            ≡ after_sync (next_strike self.old) (kept_region region self.old) }
    {
        if self.clerk.count_move().is_struck() {
            return Err(Failed);
        }
        self.regions[region as usize].sync();
        Ok(())
    }

    fn ready(&mut self, device: u8) -> Result<(), NoMemory> {
        self.devices[device as usize].ready()?;
        Ok(())
    }

    fn begin(&mut self, device: u8, ticket: Ticket) -> Result<(), Failed> {
        if self.clerk.count_move().is_struck() {
            return Err(Failed);
        }
        self.devices[device as usize].push(ticket);
        self.open_device = Some(device);
        Ok(())
    }

    fn end(&mut self, device: u8) -> Result<(), Failed> {
        if self.clerk.count_move().is_struck() {
            return Err(Failed);
        }
        self.open_device = None;
        Ok(())
    }
}
