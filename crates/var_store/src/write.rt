//! A batch that is prepared and committed at once.

ghost use Rattle.std.specs.Prelude.{◌≡◌, ◌≤◌, ◌+◌, false, None, OnOk, OnErr, length};
ghost use Rattle.cu_base.specs.Causes.{HasCauseOf};
ghost use Rattle.var_log.specs.Counts.{raised, with_room};
ghost use Rattle.var_log.specs.Logs.{ChangesBanks, HasBanks, free_of};
ghost use Rattle.var_log.specs.Records.{body_of, record_size};
ghost use Rattle.var_store.specs.Answers.{StaysUnlessFlash};
ghost use Rattle.var_store.specs.Stores.{Stands, prepared_of};
ghost use Rattle.var_store.specs.Places.{HavePlaces};
ghost use Rattle.var_store.specs.Writes.{AnswersPrepared, AnswersWrite, HasWritten, MayHaveWritten};
ghost use Rattle.var_store.specs.Writes.{PreparedLeaves, WriteLeaves};

use crate::{Prepared, StoreFault, VarStore};
use bench_model::Flash;
use std::alloc::Global;
use var_log::{Batch, LogFault, MAX_CHANGES, MAX_RECORD};

impl VarStore {
    /// Prepares a batch, makes room for it where there is too little, and commits it. BadName and
    /// TooBig come for the first change outside the limits, Full where no room can be made, and
    /// after these, want of memory and Stale nothing has moved. After Flash the batch stands or not
    /// in each later image, and not where `pending` tells no number.
    pub fn write<F: Flash>(
        &mut self,
        alloc: Global,
        flash: &mut F,
        batch: &Batch,
    ) -> Result<(), StoreFault>
        requires banks { HasBanks (F.state flash.old) }
        requires stands { self.old.log.stale ≡ false → Stands self.old (F.state flash.old) }
        requires count { length batch.now.items ≤ MAX_CHANGES }
        requires size { record_size 2 (length (body_of batch.now.items)) ≤ MAX_RECORD }
        ensures value { WriteLeaves batch.now.items self.old self.new result }
        ensures durable { OnOk result (HasWritten batch.now.items (F.state flash.old)
            (F.state flash.new)) }
        ensures images { self.old.log.stale ≡ false → self.old.log.pending ≡ None
            → OnErr result (MayHaveWritten batch.now.items self.new.log.pending
            (F.state flash.old) (F.state flash.new)) }
        ensures stands { OnOk result (Stands self.new (F.state flash.new)) }
        ensures refused { AnswersWrite batch.now.items self.old result }
        ensures err { StaysUnlessFlash (F.state flash.old) (F.state flash.new) result }
        ensures frame { ChangesBanks (F.state flash.old) (F.state flash.new) }
        ensures moves { OnOk result ((F.state flash.new).counts.moves
            ≡ raised (with_room (F.state flash.old).counts.moves (prepared_of batch.now.items).size
            (free_of self.old.log)) 4) }
        ensures bound { (F.state flash.new).counts.moves ≤ (F.state flash.old).counts.moves + 10 }
        ensures looks { (F.state flash.new).counts.looks ≡ (F.state flash.old).counts.looks }
        ensures cause { HasCauseOf (StoreFault.Log LogFault.Flash)
            (F.state flash.old).counts.flash_faults (F.state flash.new).counts.flash_faults result }
    {
        let prepared = self.prepare_set(alloc, batch)?;
        self.write_prepared(alloc, flash, prepared)?;
        Ok(())
    }

    // The same of a batch that is prepared.
    fn write_prepared<F: Flash>(
        &mut self,
        alloc: Global,
        flash: &mut F,
        prepared: Prepared,
    ) -> Result<(), StoreFault>
        requires banks { HasBanks (F.state flash.old) }
        requires stands { self.old.log.stale ≡ false → Stands self.old (F.state flash.old) }
        requires places { HavePlaces prepared.changes self.old.places }
        ensures value { PreparedLeaves prepared.changes self.old self.new result }
        ensures durable { OnOk result (HasWritten prepared.changes (F.state flash.old)
            (F.state flash.new)) }
        ensures images { self.old.log.stale ≡ false → self.old.log.pending ≡ None
            → OnErr result (MayHaveWritten prepared.changes self.new.log.pending
            (F.state flash.old) (F.state flash.new)) }
        ensures stands { OnOk result (Stands self.new (F.state flash.new)) }
        ensures refused { AnswersPrepared prepared.size self.old result }
        ensures err { StaysUnlessFlash (F.state flash.old) (F.state flash.new) result }
        ensures frame { ChangesBanks (F.state flash.old) (F.state flash.new) }
        ensures moves { OnOk result ((F.state flash.new).counts.moves
            ≡ raised (with_room (F.state flash.old).counts.moves prepared.size
            (free_of self.old.log)) 4) }
        ensures bound { (F.state flash.new).counts.moves ≤ (F.state flash.old).counts.moves + 10 }
        ensures looks { (F.state flash.new).counts.looks ≡ (F.state flash.old).counts.looks }
        ensures cause { HasCauseOf (StoreFault.Log LogFault.Flash)
            (F.state flash.old).counts.flash_faults (F.state flash.new).counts.flash_faults result }
    {
        self.room_for(alloc, flash, prepared.bytes())?;
        self.commit(flash, prepared)?;
        Ok(())
    }
}
