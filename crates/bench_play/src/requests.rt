//! The events that are requests of the operating system.

ghost use Rattle.std.specs.Prelude.{◌≡◌};
ghost use Rattle.bench_model.specs.Boards.{IsBoard};
ghost use Rattle.bench_play.specs.Counted.{Tells};
ghost use Rattle.bench_play.specs.Happens.{Does, KeepsLengths};
ghost use Rattle.cap_boot.specs.Stands.{Setting};
ghost use Rattle.delivery_formats.specs.TrueFormats.{true_formats};
ghost use Rattle.reference_machine.specs.Events.{InputBytes};
ghost use Rattle.reference_machine.specs.TraceValues.{answer_value, entry_value};
ghost use Rattle.update_inbox.specs.Answers.{nothing_noted};
ghost use Rattle.var_log.specs.Logs.{HasBanks};

use crate::known::Known;
use crate::{Answer, Entry, Event};
use bench_model::Bench;
use cu_base::NoMemory;
use std::alloc::Global;
use update_inbox::{InboxFault, signal, update_capsule};
use var_store::Note;

/// The note of a store that was not opened.
fn no_note() -> Note
    ensures { result ≡ nothing_noted }
{
    Note {
        opened: None,
        pending: None,
    }
}

/// The entry of a request, with what is noted of the store.
fn noted(opened: Option<u64>, pending: Option<u64>, answer: Answer) -> Entry
    ensures { entry_value result ≡ record {
      opened = opened;
      pending = pending;
      answer = answer_value answer;
    } }
{
    Entry {
        opened,
        pending,
        answer,
    }
}

/// Asks for the capsule files. Where there is no store, or it takes no further batch, the play ends
/// as for want of memory.
pub(crate) fn ask<W: Bench>(
    alloc: Global,
    bench: &mut W,
    known: &mut Known,
) -> Result<Entry, NoMemory>
    requires banks { HasBanks (W.state bench.old) }
    ensures does { (x : Setting) (bytes_of : InputBytes) → IsBoard x.board → Does x bytes_of
        Event.Signal known.old (W.state bench.old) result known.new (W.state bench.new) }
    ensures tells { Tells Event.Signal (W.state bench.old) result (W.state bench.new) }
    ensures frame { KeepsLengths (W.state bench.old) (W.state bench.new) }
{
    let mut note = no_note();
    match signal(alloc, bench, &mut note) {
        Ok(()) => Ok(noted(note.opened, None, Answer::Done)),
        Err(InboxFault::Flash) => {
            known.failed = true;
            Ok(noted(note.opened, note.pending, Answer::FlashFault))
        }
        Err(_) => Err(NoMemory),
    }
}

/// Stages the capsule behind the scatter list at an address. Where there is no store, or it takes
/// no further batch, the play ends as for want of memory.
pub(crate) fn stage<W: Bench>(
    alloc: Global,
    bench: &mut W,
    known: &mut Known,
    at: u64,
) -> Result<Entry, NoMemory>
    requires banks { HasBanks (W.state bench.old) }
    ensures does { (x : Setting) (bytes_of : InputBytes) → IsBoard x.board →
        x.formats ≡ true_formats → Does x bytes_of (Event.Stage at) known.old
        (W.state bench.old) result known.new (W.state bench.new) }
    ensures tells { Tells (Event.Stage at) (W.state bench.old) result (W.state bench.new) }
    ensures frame { KeepsLengths (W.state bench.old) (W.state bench.new) }
{
    let mut note = no_note();
    match update_capsule(alloc, bench, at, &mut note) {
        Ok(serial) => Ok(noted(note.opened, None, Answer::Serial(serial))),
        Err(InboxFault::Invalid) => Ok(noted(note.opened, None, Answer::Invalid)),
        Err(InboxFault::Unsupported) => Ok(noted(note.opened, None, Answer::Unsupported)),
        Err(InboxFault::Resources) => Ok(noted(note.opened, None, Answer::Resources)),
        Err(InboxFault::Flash) => {
            known.failed = true;
            Ok(noted(note.opened, note.pending, Answer::FlashFault))
        }
        Err(_) => Err(NoMemory),
    }
}
