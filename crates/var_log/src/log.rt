ghost use Rattle.std.specs.Prelude.{◌≡◌, ◌+◌, ◌-◌, ◌^◌, ◌≤◌, ◌<◌, true, false, OnOk, Some};
ghost use Rattle.bench_model.specs.Bench.{ChangesRegion};
ghost use Rattle.cu_base.specs.Causes.{HasCauseOf};
ghost use Rattle.var_log.specs.Counts.{raised};
ghost use Rattle.var_log.specs.Logs.{ChangesBanks, free_of, HasBanks, StandsOn, HasBatchOrNot};
ghost use Rattle.var_log.specs.Logs.{is_stale, AppendLeaves, HasBatch};

use crate::moving::open_behind;
use crate::{LogFault, Record};
use bench_model::Flash;
use std::marker::Model;

/// A log that was opened. Contracts see where it is and where its records end.
#[derive(Drop)]
pub struct VarLog {
    pub(crate) bank: u32,
    pub(crate) at: u32,
    pub(crate) size: u32,
    pub(crate) seq: u64,
    pub(crate) generation: u64,
    pub(crate) closed: bool,
    pub(crate) other_gate: bool,
    pub(crate) pending: Option<u64>,
    pub(crate) stale: bool,
}

impl Model for VarLog {
    ghost use Rattle.var_log.specs.Logs.{LogValue, IsLog, log_of};

    ghost Value = { LogValue };

    ghost view = { λ l. log_of l.bank l.at l.size l.seq l.generation l.closed l.other_gate l.pending
        l.stale };

    ghost invariant = { λ l. IsLog (log_of l.bank l.at l.size l.seq l.generation l.closed
        l.other_gate l.pending l.stale) };
}

impl VarLog {
    /// The number of the last batch, or 0.
    pub fn seq(&self) -> u64
        ensures value { result ≡ self.now.seq }
    {
        self.seq
    }

    /// The generation of the bank.
    pub fn generation(&self) -> u64
        ensures value { result ≡ self.now.generation }
    {
        self.generation
    }

    /// The bytes of records that can still be appended.
    pub fn free(&self) -> u32
        ensures value { result ≡ free_of self.now }
    {
        if self.closed {
            self.size - self.at - 1
        } else {
            0
        }
    }

    /// The number of the batch whose append the flash failed, and None exactly where it failed
    /// none.
    pub fn pending(&self) -> Option<u64>
        ensures value { result ≡ self.now.pending }
    {
        self.pending
    }

    /// Appends a record with the next number. After Flash it stands or not in each later image,
    /// and every later call answers Stale.
    pub fn append<F: Flash>(&mut self, flash: &mut F, entry: &mut Record) -> Result<(), LogFault>
        requires banks { HasBanks (F.state flash.old) }
        requires stands { self.old.stale ≡ false → StandsOn self.old (F.state flash.old) }
        requires fits { self.old.stale ≡ false → entry.old.size ≤ free_of self.old }
        requires next { self.old.seq < 2 ^ 64 - 1 }
        ensures value { AppendLeaves entry.old.size self.old self.new result }
        ensures images { self.old.stale ≡ false
            → HasBatchOrNot entry.old.changes (F.state flash.old) (F.state flash.new) }
        ensures durable { OnOk result
            (HasBatch entry.old.changes (F.state flash.old) (F.state flash.new)) }
        ensures stands { OnOk result (StandsOn self.new (F.state flash.new)) }
        ensures refused { is_stale result ≡ self.old.stale }
        ensures err { self.old.stale ≡ true → F.state flash.new ≡ F.state flash.old }
        ensures changes { entry.new.changes ≡ entry.old.changes }
        ensures size { entry.new.size ≡ entry.old.size }
        ensures frame { ChangesBanks (F.state flash.old) (F.state flash.new) }
        ensures bank { ChangesRegion self.old.bank (F.state flash.old) (F.state flash.new) }
        ensures moves { OnOk result ((F.state flash.new).counts.moves
            ≡ raised (F.state flash.old).counts.moves 4) }
        ensures bound { (F.state flash.new).counts.moves ≤ (F.state flash.old).counts.moves + 4 }
        ensures looks { (F.state flash.new).counts.looks ≡ (F.state flash.old).counts.looks }
        ensures cause { HasCauseOf LogFault.Flash (F.state flash.old).counts.flash_faults
            (F.state flash.new).counts.flash_faults result }
    {
        if self.stale {
            return Err(LogFault::Stale);
        }
        let number = self.seq + 1;
        entry.set_number(number);
        match open_behind(flash, self.bank, self.at, entry.behind()) {
            Ok(()) => {
                self.at += entry.size();
                self.seq = number;
                self.closed = true;
                Ok(())
            }
            Err(_) => {
                self.pending = Some(number);
                self.stale = true;
                Err(LogFault::Flash)
            }
        }
    }
}
