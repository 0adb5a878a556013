//! A log is opened: both banks are synced, the log is read, and one of format 1 is written anew.

ghost use Rattle.std.specs.Prelude.{◌≡◌, ◌+◌, ◌/◌, ◌≤◌, ◌<◌, ◌^◌, ℕ, All, IsTrue, IfOk, OnOk, drop};
ghost use Rattle.std.specs.Prelude.{false, length, take, true};
ghost use Rattle.bench_model.specs.Bench.{ChangesCounts, FlashCause, HasRegion, IsRegionStable};
ghost use Rattle.bench_model.specs.Bench.{IsWithin, RegionReads, region_at};
ghost use Rattle.bench_model.specs.declared.limits.TheConstants.{MAX_BANK};
ghost use Rattle.std.specs.Prelude.{IfSome};
ghost use Rattle.bench_model.specs.Regions.{KeepsImages};
ghost use Rattle.cu_base.specs.Causes.{HasCauseOf};
ghost use Rattle.var_log.specs.Changes.{keeps_limits};
ghost use Rattle.var_log.specs.Counts.{raised};
ghost use Rattle.var_log.specs.Logs.{ChangesBanks, HasBanks, IsFresh, IsLive, StandsOn, is_stale};
ghost use Rattle.var_log.specs.Opens.{FoundOn, IsChosen, IsFlashOrMemory, IsFoundIn};
ghost use Rattle.var_log.specs.Opens.{IsReadingFault, KeepsStores, OpenAnswers, opening_moves};

use crate::choosing::{Chosen, choose};
use crate::limits::{BANK_HEAD, OPEN_GATE};
use crate::scanning::scan;
use crate::settling::settle;
use crate::{Batch, LogFault, VarLog};
use bench_model::Flash;
use cu_base::{Failed, NoMemory};
use std::alloc::Global;

/// The most bytes of one read.
const PIECE: usize = 65_536;

/// The format that is written anew as it is opened.
const OLD_FORMAT: u32 = 1;

/// A log that was read, the format of its bank, and its variables.
#[derive(Drop)]
struct Found {
    format: u32,
    log: VarLog,
    live: Batch,
}

// Makes the bytes of both banks last.
fn sync_banks<F: Flash>(flash: &mut F) -> Result<(), Failed>
    requires banks { HasBanks (F.state flash.old) }
    ensures first { OnOk result (IsRegionStable 0 (F.state flash.new)) }
    ensures second { OnOk result (IsRegionStable 1 (F.state flash.new)) }
    ensures bytes { (F.state flash.new).contents.bytes ≡ (F.state flash.old).contents.bytes }
    ensures images { (k : ℕ) → KeepsImages (region_at (F.state flash.old).contents k)
        (region_at (F.state flash.new).contents k) }
    ensures frame { ChangesBanks (F.state flash.old) (F.state flash.new) }
    ensures moves { OnOk result ((F.state flash.new).counts.moves
        ≡ raised (F.state flash.old).counts.moves 2) }
    ensures bound { (F.state flash.new).counts.moves ≤ (F.state flash.old).counts.moves + 2 }
    ensures looks { (F.state flash.new).counts.looks ≡ (F.state flash.old).counts.looks }
    ensures cause { FlashCause (F.state flash.old) (F.state flash.new) result }
{
    flash.sync(0)?;
    flash.sync(1)?;
    Ok(())
}

// Reads the bytes of a bank from a place on, by pieces.
fn read_pieces<F: Flash>(flash: &mut F, bank: u32, at: u32, out: &mut [u8]) -> Result<(), Failed>
    requires there { HasRegion bank (F.state flash.old) }
    requires within { IsWithin bank at (length out.old) (F.state flash.old) }
    requires small { at + length out.old < 2 ^ 32 }
    ensures reads { OnOk result (RegionReads bank at out.new (F.state flash.old)) }
    ensures long { length out.new ≡ length out.old }
    ensures frame { ChangesCounts (F.state flash.old) (F.state flash.new) }
    ensures moves { (F.state flash.new).counts.moves ≡ (F.state flash.old).counts.moves }
    ensures looks { (F.state flash.new).counts.looks
        ≤ (F.state flash.old).counts.looks + (length out.old + 65535) / 65536 }
    ensures cause { FlashCause (F.state flash.old) (F.state flash.new) result }
{
    let mut read = 0;
    while read < out.len() {
        let n = PIECE.min(out.len() - read);
        flash.read(bank, at + read as u32, &mut out[read..read + n])?;
        read += n;
    }
    Ok(())
}

// The header of a bank.
fn read_head<F: Flash>(flash: &mut F, bank: u32) -> Result<[u8; 16], Failed>
    requires banks { HasBanks (F.state flash.old) }
    requires bank { bank < 2 }
    ensures value { IfOk result (λ head. (F.state flash.old).contents.told ≡ true
        → head ≡ take 16 ((F.state flash.old).contents.bytes bank)) }
    ensures frame { ChangesCounts (F.state flash.old) (F.state flash.new) }
    ensures moves { (F.state flash.new).counts.moves ≡ (F.state flash.old).counts.moves }
    ensures looks { (F.state flash.new).counts.looks ≤ (F.state flash.old).counts.looks + 1 }
    ensures cause { FlashCause (F.state flash.old) (F.state flash.new) result }
{
    let mut head = [0; BANK_HEAD];
    flash.read(bank, 0, &mut head)?;
    Ok(head)
}

// The bytes of a bank behind its header.
fn read_records<F: Flash>(alloc: Global, flash: &mut F, bank: u32) -> Result<Vec<u8>, LogFault>
    requires banks { HasBanks (F.state flash.old) }
    requires bank { bank < 2 }
    ensures value { IfOk result (λ v. (F.state flash.old).contents.told ≡ true
        → v.items ≡ drop 16 ((F.state flash.old).contents.bytes bank)) }
    ensures long { IfOk result (λ v. 16 + length v.items
        ≡ length ((F.state flash.old).contents.bytes bank)) }
    ensures only { IsFlashOrMemory result }
    ensures frame { ChangesCounts (F.state flash.old) (F.state flash.new) }
    ensures moves { (F.state flash.new).counts.moves ≡ (F.state flash.old).counts.moves }
    ensures looks { (F.state flash.new).counts.looks ≤ (F.state flash.old).counts.looks + 16 }
    ensures cause { HasCauseOf LogFault.Flash (F.state flash.old).counts.flash_faults
        (F.state flash.new).counts.flash_faults result }
{
    let len = flash.size(bank) as usize - BANK_HEAD;
    let mut bytes = match zeros(alloc, len) {
        Ok(bytes) => bytes,
        Err(_) => return Err(LogFault::Memory),
    };
    match read_pieces(flash, bank, BANK_HEAD as u32, &mut bytes) {
        Ok(()) => Ok(bytes),
        Err(_) => Err(LogFault::Flash),
    }
}

// So many zero bytes.
fn zeros(alloc: Global, len: usize) -> Result<Vec<u8>, NoMemory>
    ensures { IfOk result (λ v. length v.items ≡ len) }
{
    match vec![in alloc; 0; len] {
        Ok(bytes) => Ok(bytes),
        Err(_) => Err(NoMemory),
    }
}

// The bank of the log, as both headers tell.
fn read_heads<F: Flash>(flash: &mut F) -> Result<Option<Chosen>, Failed>
    requires banks { HasBanks (F.state flash.old) }
    ensures value { IfOk result (λ c. (F.state flash.old).contents.told ≡ true
        → IsChosen (F.state flash.old).contents.bytes c) }
    ensures low { IfOk result (λ c. IfSome c (λ d. d.bank < 2)) }
    ensures frame { ChangesCounts (F.state flash.old) (F.state flash.new) }
    ensures moves { (F.state flash.new).counts.moves ≡ (F.state flash.old).counts.moves }
    ensures looks { (F.state flash.new).counts.looks ≤ (F.state flash.old).counts.looks + 2 }
    ensures cause { FlashCause (F.state flash.old) (F.state flash.new) result }
{
    let first = read_head(flash, 0)?;
    let second = read_head(flash, 1)?;
    Ok(choose(&first, &second))
}

// The log in a bank, by its header and the bytes behind it.
fn find(alloc: Global, chosen: &Chosen, records: &[u8]) -> Result<Found, NoMemory>
    requires bank { chosen.now.bank < 2 }
    requires some { 0 < length records.now }
    requires small { 16 + length records.now ≤ MAX_BANK }
    ensures value { IfOk result (λ f. IsFoundIn chosen.now records.now f.log f.live.items) }
    ensures format { IfOk result (λ f. f.format ≡ chosen.now.format) }
{
    let scanned = scan(alloc, chosen.format, records)?;
    let live = settle(alloc, scanned.changes.as_slice())?;
    let at = BANK_HEAD + scanned.taken;
    let log = VarLog {
        bank: chosen.bank,
        at: at as u32,
        size: (BANK_HEAD + records.len()) as u32,
        seq: scanned.last.unwrap_or(0),
        generation: chosen.generation,
        closed: records[scanned.taken] != OPEN_GATE,
        other_gate: chosen.other_gate,
        pending: None,
        stale: false,
    };
    Ok(Found {
        format: chosen.format,
        log,
        live,
    })
}

// Reads the log of the banks and its variables.
fn read_log<F: Flash>(alloc: Global, flash: &mut F) -> Result<Found, LogFault>
    requires banks { HasBanks (F.state flash.old) }
    ensures found { (F.state flash.old).contents.told ≡ true
        → FoundOn (F.state flash.old).contents.bytes result }
    ensures limits { IfOk result (λ f. All (λ c. IsTrue (keeps_limits c)) f.live.items) }
    ensures size { IfOk result (λ f. length ((F.state flash.old).contents.bytes 0) ≡ f.log.size) }
    ensures fresh { IfOk result (λ f. IsFresh f.log) }
    ensures only { IsReadingFault result }
    ensures frame { ChangesCounts (F.state flash.old) (F.state flash.new) }
    ensures moves { (F.state flash.new).counts.moves ≡ (F.state flash.old).counts.moves }
    ensures looks { (F.state flash.new).counts.looks ≤ (F.state flash.old).counts.looks + 18 }
    ensures cause { HasCauseOf LogFault.Flash (F.state flash.old).counts.flash_faults
        (F.state flash.new).counts.flash_faults result }
{
    let chosen = match read_heads(flash) {
        Ok(Some(chosen)) => chosen,
        Ok(None) => return Err(LogFault::NoBank),
        Err(_) => return Err(LogFault::Flash),
    };
    let records = read_records(alloc, flash, chosen.bank)?;
    match find(alloc, &chosen, &records) {
        Ok(found) => Ok(found),
        Err(_) => Err(LogFault::Memory),
    }
}

impl VarLog {
    /// Opens the log of a flash: syncs both banks, reads the log, and writes one of format 1 anew
    /// into the other bank. The batch sets exactly the variables of the log, in the order of the
    /// bytes of their GUID and then of their name. `NoBank` where neither bank has an open header;
    /// `Full` where a log of format 1 cannot be written anew.
    pub fn open<F: Flash>(alloc: Global, flash: &mut F) -> Result<(VarLog, Batch), LogFault>
        requires banks { HasBanks (F.state flash.old) }
        ensures value { (F.state flash.old).contents.told ≡ true
            → OpenAnswers (F.state flash.old).contents.bytes result }
        ensures images { KeepsStores (F.state flash.old) (F.state flash.new) }
        ensures stands { IfOk result (λ r. StandsOn r.0 (F.state flash.new)) }
        ensures live { IfOk result (λ r. IsLive r.1.items (F.state flash.new)) }
        ensures limits { IfOk result (λ r. All (λ c. IsTrue (keeps_limits c)) r.1.items) }
        ensures fresh { IfOk result (λ r. IsFresh r.0) }
        ensures only { is_stale result ≡ false }
        ensures frame { ChangesBanks (F.state flash.old) (F.state flash.new) }
        ensures moves { (F.state flash.old).contents.told ≡ true
            → OnOk result ((F.state flash.new).counts.moves
            ≡ raised (F.state flash.old).counts.moves
            (opening_moves (F.state flash.old).contents.bytes)) }
        ensures bound { (F.state flash.new).counts.moves ≤ (F.state flash.old).counts.moves + 8 }
        ensures looks { (F.state flash.new).counts.looks ≤ (F.state flash.old).counts.looks + 18 }
        ensures cause { HasCauseOf LogFault.Flash (F.state flash.old).counts.flash_faults
            (F.state flash.new).counts.flash_faults result }
    {
        if sync_banks(flash).is_err() {
            return Err(LogFault::Flash);
        }
        let Found {
            format,
            mut log,
            live,
        } = read_log(alloc, flash)?;
        if format != OLD_FORMAT {
            return Ok((log, live));
        }
        match log.reclaim_live(alloc, flash, live.as_slice(), 0) {
            Ok(()) => Ok((log, live)),
            Err(fault) => Err(fault),
        }
    }
}
