//! The store as a call opens it.

ghost use Rattle.std.specs.Prelude.{◌≡◌, ◌+◌, ◌≤◌, IfOk, OnOk, OnErr, true};
ghost use Rattle.cu_base.specs.Causes.{HasCauseOf};
ghost use Rattle.update_inbox.specs.Answers.{IsOpening, NotesOpening, OpeningAnswers};
ghost use Rattle.update_inbox.specs.Answers.{nothing_noted, opened_at};
ghost use Rattle.var_log.specs.Logs.{ChangesBanks, HasBanks, IsFresh};
ghost use Rattle.var_log.specs.Counts.{raised};
ghost use Rattle.var_log.specs.Opens.{KeepsStores, opening_moves};
ghost use Rattle.var_store.specs.Stores.{Stands};

use crate::InboxFault;
use crate::fault::inbox_fault_of;
use bench_model::Flash;
use std::alloc::Global;
use var_store::{Note, VarStore};

/// Opens the store and notes its number.
pub fn open_store<F: Flash>(
    alloc: Global,
    flash: &mut F,
    note: &mut Note,
) -> Result<VarStore, InboxFault>
    requires banks { HasBanks (F.state flash.old) }
    ensures stands { IfOk result (λ s. Stands s (F.state flash.new)) }
    ensures fresh { IfOk result (λ s. IsFresh s.log) }
    ensures note { IfOk result (λ s. note.new ≡ opened_at s.log.seq) }
    ensures opening { NotesOpening (F.state flash.old) note.new.opened }
    ensures unopened { OnErr result (note.new ≡ nothing_noted) }
    ensures value { IfOk result (λ s. IsOpening (F.state flash.old) s) }
    ensures refused { OpeningAnswers (F.state flash.old) result }
    ensures moves { (F.state flash.old).contents.told ≡ true
        → OnOk result ((F.state flash.new).counts.moves
        ≡ raised (F.state flash.old).counts.moves
        (opening_moves (F.state flash.old).contents.bytes)) }
    ensures images { KeepsStores (F.state flash.old) (F.state flash.new) }
    ensures frame { ChangesBanks (F.state flash.old) (F.state flash.new) }
    ensures bound { (F.state flash.new).counts.moves ≤ (F.state flash.old).counts.moves + 8 }
    ensures looks { (F.state flash.new).counts.looks ≤ (F.state flash.old).counts.looks + 18 }
    ensures cause { HasCauseOf InboxFault.Flash
        (F.state flash.old).counts.flash_faults (F.state flash.new).counts.flash_faults result }
{
    *note = Note {
        opened: None,
        pending: None,
    };
    match VarStore::open(alloc, flash) {
        Ok(store) => {
            note.opened = Some(store.seq());
            Ok(store)
        }
        Err(fault) => Err(inbox_fault_of(fault)),
    }
}
