//! The variables that live are written into the other bank, where the log goes on.

ghost use Rattle.std.specs.Prelude.{◌≡◌, ◌+◌, ◌-◌, ◌^◌, ◌≤◌, ◌<◌, true, false, All, IsTrue, OnOk};
ghost use Rattle.std.specs.Prelude.{length, IfOk, List, ℕ, if◌then◌else◌};
ghost use Rattle.bench_model.specs.Bench.{ChangesRegion, FlashCause, HasRegion, IsWithin};
ghost use Rattle.bench_model.specs.Bench.{IsRegionStable};
ghost use Rattle.bench_model.specs.Bench.{region_at};
ghost use Rattle.bench_model.specs.Regions.{IsImage};
ghost use Rattle.cu_base.specs.Causes.{HasCauseOf};
ghost use Rattle.var_log.specs.Banks.{reclaimed};
ghost use Rattle.var_log.specs.Changes.{has_sizes, keeps_limits};
ghost use Rattle.var_log.specs.Counts.{raised, with_room};
ghost use Rattle.var_log.specs.Logs.{free_of, HasBanks, LiesOn, StandsOn, is_stale, is_full};
ghost use Rattle.var_log.specs.Logs.{is_bank_full, is_log_full, IsLive, KeepsVariables};
ghost use Rattle.var_log.specs.Logs.{ChangesBanks, ReclaimLeaves, RoomLeaves, StaysUnlessFlash};
ghost use Rattle.var_log.specs.Moves.{IsReclaiming, Reclaims};
ghost use Rattle.var_log.specs.Records.{body_of, record_size};

use crate::limits::{BANK_HEAD, MAX_CHANGES, MAX_RECORD};
use crate::moving::{open_behind, shut};
use crate::record::{put, put_record, size_within};
use crate::{Batch, Change, LogFault, VarLog};
use bench_model::Flash;
use cu_base::{Failed, NoMemory, bytes_of_u64};
use std::alloc::Global;

/// The name and the format of a bank.
const NAME: [u8; 7] = [b'C', b'U', b'V', 2, 0, 0, 0];

impl VarLog {
    /// Makes room for records of so many bytes, where there is less by a reclaim of the variables
    /// that live into the other bank.
    pub fn room<F: Flash>(
        &mut self,
        alloc: Global,
        flash: &mut F,
        live: &Batch,
        bytes: u32,
    ) -> Result<(), LogFault>
        requires banks { HasBanks (F.state flash.old) }
        requires stands { self.old.stale ≡ false → StandsOn self.old (F.state flash.old) }
        requires live { self.old.stale ≡ false → IsLive live.now.items (F.state flash.old) }
        requires limits { All (λ c. IsTrue (keeps_limits c)) live.now.items }
        ensures value { RoomLeaves (record_size 2 (length (body_of live.now.items))) bytes self.old
            self.new result }
        ensures images { self.old.stale ≡ false
            → KeepsVariables (F.state flash.old) (F.state flash.new) }
        ensures free { OnOk result (bytes ≤ free_of self.new) }
        ensures next { OnOk result (self.new.seq < 2 ^ 64 - 1) }
        ensures stands { OnOk result (StandsOn self.new (F.state flash.new)) }
        ensures refused { is_stale result ≡ self.old.stale }
        ensures err { StaysUnlessFlash (F.state flash.old) (F.state flash.new) result }
        ensures full { self.old.stale ≡ false → is_full result
            ≡ is_log_full (record_size 2 (length (body_of live.now.items))) bytes self.old }
        ensures frame { ChangesBanks (F.state flash.old) (F.state flash.new) }
        ensures bank { ChangesRegion (1 - self.old.bank) (F.state flash.old) (F.state flash.new) }
        ensures moves { OnOk result ((F.state flash.new).counts.moves
            ≡ with_room (F.state flash.old).counts.moves bytes (free_of self.old)) }
        ensures bound { (F.state flash.new).counts.moves ≤ (F.state flash.old).counts.moves + 6 }
        ensures looks { (F.state flash.new).counts.looks ≡ (F.state flash.old).counts.looks }
        ensures cause { HasCauseOf LogFault.Flash (F.state flash.old).counts.flash_faults
            (F.state flash.new).counts.flash_faults result }
    {
        if self.stale {
            return Err(LogFault::Stale);
        }
        if self.seq == u64::MAX {
            return Err(LogFault::Full);
        }
        if bytes <= self.free() {
            return Ok(());
        }
        self.reclaim_live(alloc, flash, live.as_slice(), bytes)
    }

    /// Writes the variables that live into the other bank, in format 2 and under the next
    /// generation. `Full` where they and so many bytes more do not fit, or there is no next one.
    pub(crate) fn reclaim_live<F: Flash>(
        &mut self,
        alloc: Global,
        flash: &mut F,
        live: &[Change],
        bytes: u32,
    ) -> Result<(), LogFault>
        requires banks { HasBanks (F.state flash.old) }
        requires lies { LiesOn self.old (F.state flash.old) }
        requires live { IsLive live.now (F.state flash.old) }
        requires limits { All (λ c. IsTrue (keeps_limits c)) live.now }
        ensures value { ReclaimLeaves (record_size 2 (length (body_of live.now))) self.old self.new
            result }
        ensures images { KeepsVariables (F.state flash.old) (F.state flash.new) }
        ensures free { OnOk result (bytes ≤ free_of self.new) }
        ensures stands { OnOk result (StandsOn self.new (F.state flash.new)) }
        ensures err { StaysUnlessFlash (F.state flash.old) (F.state flash.new) result }
        ensures full { is_full result
            ≡ is_bank_full (record_size 2 (length (body_of live.now))) bytes self.old }
        ensures frame { ChangesRegion (1 - self.old.bank) (F.state flash.old) (F.state flash.new) }
        ensures long { length ((F.state flash.new).contents.bytes (1 - self.old.bank))
            ≡ length ((F.state flash.old).contents.bytes (1 - self.old.bank)) }
        ensures moves { OnOk result ((F.state flash.new).counts.moves
            ≡ raised (F.state flash.old).counts.moves 6) }
        ensures bound { (F.state flash.new).counts.moves ≤ (F.state flash.old).counts.moves + 6 }
        ensures looks { (F.state flash.new).counts.looks ≡ (F.state flash.old).counts.looks }
        ensures cause { HasCauseOf LogFault.Flash (F.state flash.old).counts.flash_faults
            (F.state flash.new).counts.flash_faults result }
    {
        if self.generation == u64::MAX {
            return Err(LogFault::Full);
        }
        let Some(n) = size_within(live, self.size as usize) else {
            return Err(LogFault::Full);
        };
        if (self.size as usize) < BANK_HEAD + n + bytes as usize + 1 {
            return Err(LogFault::Full);
        }
        let written = match bank_bytes(alloc, self.generation + 1, self.seq, live) {
            Ok(written) => written,
            Err(_) => return Err(LogFault::Memory),
        };
        let other = 1 - self.bank;
        match reclaim(flash, other, closing_place(self.other_gate), &written) {
            Ok(()) => {
                self.bank = other;
                self.at = BANK_HEAD as u32 + n as u32;
                self.generation += 1;
                self.closed = true;
                self.other_gate = true;
                Ok(())
            }
            Err(_) => {
                self.stale = true;
                Err(LogFault::Flash)
            }
        }
    }
}

// The place of the other bank that is closed first: its gate, or the name behind a gate that is no
// open one, since a write that fails there could open an older reclaim again.
fn closing_place(other_gate: bool) -> u32
    ensures { result ≡ (if other_gate then 0 else 1) }
{
    if other_gate { 0 } else { 1 }
}

// What is written behind the gate of a reclaimed bank.
fn bank_bytes(
    alloc: Global,
    generation: u64,
    seq: u64,
    live: &[Change],
) -> Result<Vec<u8>, NoMemory>
    requires limits { All (λ c. IsTrue (keeps_limits c)) live.now }
    requires count { length live.now ≤ MAX_CHANGES }
    requires size { record_size 2 (length (body_of live.now)) ≤ MAX_RECORD }
    ensures value { IfOk result (λ v. v.items ≡ reclaimed generation seq live.now) }
    ensures sizes { OnOk result (All (λ c. IsTrue (has_sizes c)) live.now) }
{
    let mut bytes = Vec::new(alloc);
    put(&mut bytes, &NAME)?;
    put(&mut bytes, &bytes_of_u64(generation))?;
    put_record(&mut bytes, seq, live)?;
    Ok(bytes)
}

// Closes the gate at a place of a bank, and then puts the bytes behind the gate at its front.
fn reclaim<F: Flash>(flash: &mut F, bank: u32, place: u32, bytes: &[u8]) -> Result<(), Failed>
    requires bank { bank < 2 }
    requires there { HasRegion bank (F.state flash.old) }
    requires place { IsWithin bank place 1 (F.state flash.old) }
    requires within { IsWithin bank 0 (1 + length bytes.now) (F.state flash.old) }
    requires small { length bytes.now < 2 ^ 32 - 1 }
    ensures images { IsRegionStable bank (F.state flash.old) → (image : List ℕ)
        → IsImage (region_at (F.state flash.new).contents bank) image
        → IsReclaiming place bytes.now ((F.state flash.old).contents.bytes bank) image }
    ensures ok { OnOk result (IsRegionStable bank (F.state flash.new)) }
    ensures done { OnOk result ((F.state flash.new).contents.told ≡ true
        → Reclaims place bytes.now ((F.state flash.old).contents.bytes bank)
        ((F.state flash.new).contents.bytes bank)) }
    ensures long { length ((F.state flash.new).contents.bytes bank)
        ≡ length ((F.state flash.old).contents.bytes bank) }
    ensures frame { ChangesRegion bank (F.state flash.old) (F.state flash.new) }
    ensures moves { OnOk result ((F.state flash.new).counts.moves
        ≡ raised (F.state flash.old).counts.moves 6) }
    ensures bound { (F.state flash.new).counts.moves ≤ (F.state flash.old).counts.moves + 6 }
    ensures looks { (F.state flash.new).counts.looks ≡ (F.state flash.old).counts.looks }
    ensures cause { FlashCause (F.state flash.old) (F.state flash.new) result }
{
    shut(flash, bank, place)?;
    open_behind(flash, bank, 0, bytes)?;
    Ok(())
}
