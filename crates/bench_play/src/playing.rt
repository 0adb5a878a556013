//! The events of a play, one after the other.

ghost use Rattle.std.specs.Prelude.{◌≡◌, ◌≤◌, [], length, map, take, OnOk};
ghost use Rattle.bench_model.specs.Bench.{HasOrderRoom};
ghost use Rattle.bench_model.specs.Boards.{IsBoard};
ghost use Rattle.bench_play.specs.Counted.{IsOrdered, Tells};
ghost use Rattle.bench_play.specs.Happens.{Does, KeepsLengths};
ghost use Rattle.bench_play.specs.Inputs.{ArePlayable, IsPlayable, input_bytes};
ghost use Rattle.bench_play.specs.Played.{Plays, PlaysInImages};
ghost use Rattle.cap_boot.specs.Given.{setting};
ghost use Rattle.cap_boot.specs.Stands.{HasRegions};
ghost use Rattle.reference_machine.specs.Machine.{first_moment};
ghost use Rattle.reference_machine.specs.TraceValues.{entry_value};

use crate::booting::boot_once;
use crate::deliveries::{drop_input, lay_input};
use crate::known::{Known, first_moment, plain};
use crate::outside::{arm, fail, lay_bytes, reset};
use crate::requests::{ask, stage};
use crate::to_be_built::to_be_built;
use crate::{Answer, Entry, Event, Trace};
use bench_model::{Bench, Board};
use cu_base::NoMemory;
use cu_io::Loaded;
use fmp_slot::SlotForm;
use std::alloc::Global;

/// Plays events on a bench: one entry is appended for each event, in order. The moment is
/// 2000-01-01T00:00:00 at first.
///
/// It answers NoMemory where memory ran out, and where there is no store of variables or it takes
/// no further batch; then the entries are those of a front of the events.
pub fn play<W: Bench, S: SlotForm>(
    alloc: Global,
    board: &Board,
    events: &[Event],
    loaded: &Loaded,
    form: &S,
    bench: &mut W,
    trace: &mut Trace,
) -> Result<(), NoMemory>
    requires empty { trace.old.items ≡ [] }
    requires regions { HasRegions S.size_of board.now (W.state bench.old) }
    requires room { length events.now ≤ (W.state bench.old).orders.room }
    requires events { ArePlayable loaded.now.items events.now }
    ensures plays { Plays (setting board.now first_moment S.slot_of)
        (input_bytes loaded.now.items) events.now (W.state bench.old).contents result
        (map entry_value trace.new.items) (W.state bench.new).contents }
    ensures images { PlaysInImages (setting board.now first_moment S.slot_of)
        (input_bytes loaded.now.items) events.now (W.state bench.old).contents result
        (map entry_value trace.new.items) (W.state bench.new).contents }
    ensures length { OnOk result (length trace.new.items ≡ length events.now) }
    ensures orders { IsOrdered (take (length trace.new.items) events.now)
        (map entry_value trace.new.items) (W.state bench.old) (W.state bench.new) }
{
    let mut known = Known {
        moment: first_moment(),
        failed: false,
    };
    for event in events {
        trace.reserve(1)?;
        let entry = happen(alloc, board, event, loaded, form, bench, &mut known)?;
        trace.push(entry)?;
    }
    Ok(())
}

/// Makes an event happen.
fn happen<W: Bench, S: SlotForm>(
    alloc: Global,
    board: &Board,
    event: &Event,
    loaded: &Loaded,
    form: &S,
    bench: &mut W,
    known: &mut Known,
) -> Result<Entry, NoMemory>
    requires regions { HasRegions S.size_of board.now (W.state bench.old) }
    requires room { HasOrderRoom (W.state bench.old) }
    requires playable { IsPlayable loaded.now.items event.now }
    ensures does { IsBoard board.now → Does (setting board.now first_moment S.slot_of)
        (input_bytes loaded.now.items) event.now known.old (W.state bench.old) result known.new
        (W.state bench.new) }
    ensures tells { Tells event.now (W.state bench.old) result (W.state bench.new) }
    ensures frame { KeepsLengths (W.state bench.old) (W.state bench.new) }
{
    match event {
        Event::Time(moment) => {
            known.moment = *moment;
            Ok(plain(Answer::Done))
        }
        Event::Drop { file, input } => drop_input(alloc, bench, known, file, input, loaded),
        Event::Signal => ask(alloc, bench, known),
        Event::Lay { at, input } => lay_input(bench, known, *at, input, loaded),
        Event::Poke { at, bytes } => lay_bytes(bench, known, *at, bytes.as_slice()),
        Event::Stage { at } => stage(alloc, bench, known, *at),
        Event::Boot => boot_once(alloc, board, form, bench, known),
        Event::Arm { after, choice } => arm(bench, known, *after, *choice),
        Event::Fail { nth } => fail(bench, known, *nth),
        Event::Reset { cold } => reset(bench, known, *cold),
        Event::Show => to_be_built(),
    }
}
