//! The events of a script, one after the other.

ghost use Rattle.std.specs.Prelude.{◌≡◌, ◌≤◌, ◌+◌, ◌^◌, ℕ, ◌++◌, IsTrue, length, take, map, OnOk};
ghost use Rattle.std.specs.Prelude.{OnErr, IfOk};
ghost use Rattle.std.specs.List.{list_all};
ghost use Rattle.reference_machine.specs.Boots.{boot_of};
ghost use Rattle.reference_machine.specs.Events.{boot_done, dropped, outcome, trace_of};
ghost use Rattle.reference_machine.specs.Events.{machine_after};
ghost use Rattle.reset_play.specs.Plays.{has_one_device, can_play, is_thin_on, thin_trace};
ghost use Rattle.reset_play.specs.Plays.{loaded_bytes};
ghost use Rattle.delivery_formats.specs.TrueFormats.{true_formats};
ghost use Rattle.reference_machine.specs.TraceValues.{entry_value};
ghost use Rattle.reference_machine.specs.declared.unit.End.TheVariants.{Sealed};

use super::platform::ListPlatform;
use crate::{Answer, BootEnd, Entry, Event, MAX_EVENTS, Script, Trace};
use bench_model::Board;
use cu_base::{NoMemory, Text};
use cu_io::Loaded;
use std::alloc::Global;

/// Plays a script on a board of one device: one entry is appended for each event, in order. After
/// want of memory the entries of a front of the script were appended.
pub fn play(
    alloc: Global,
    board: &Board,
    script: &Script,
    loaded: &Loaded,
    trace: &mut Trace,
) -> Result<(), NoMemory>
    requires one { IsTrue (has_one_device board.now) }
    requires short { length script.now.items ≤ MAX_EVENTS }
    requires events { IsTrue (list_all (can_play board.now loaded.now.items) script.now.items) }
    ensures ok { OnOk result
        (map entry_value trace.new.items
        ≡ map entry_value trace.old.items
        ++ thin_trace board.now loaded.now.items script.now.items) }
    ensures err { OnErr result
        ((n : ℕ) × (map entry_value trace.new.items
        ≡ map entry_value trace.old.items
        ++ take n (thin_trace board.now loaded.now.items script.now.items))) }
    ensures size { length trace.new.items ≤ length trace.old.items + length script.now.items }
{
    let mut platform = ListPlatform::new(alloc, board);
    run_events(&mut platform, alloc, script.as_slice(), loaded, trace)?;
    Ok(())
}

/// Plays events on a platform that other events may have led to.
pub fn run_events<'a>(
    platform: &mut ListPlatform<'a>,
    alloc: Global,
    events: &[Event],
    loaded: &'a Loaded,
    trace: &mut Trace,
) -> Result<(), NoMemory>
    requires short { length events.now ≤ MAX_EVENTS }
    requires batches { platform.old.batches ≤ 2 ^ 58 }
    requires events { IsTrue (list_all (can_play platform.old.board loaded.now.items) events.now) }
    ensures ok { OnOk result
        (map entry_value trace.new.items
        ≡ map entry_value trace.old.items
        ++ trace_of true_formats (loaded_bytes loaded.now.items) platform.old events.now) }
    ensures value { OnOk result
        (platform.new
        ≡ machine_after true_formats (loaded_bytes loaded.now.items) platform.old events.now) }
    ensures err { OnErr result
        ((n : ℕ) × (map entry_value trace.new.items
        ≡ map entry_value trace.old.items
        ++ take n (trace_of true_formats
        (loaded_bytes loaded.now.items) platform.old events.now))) }
    ensures size { length trace.new.items ≤ length trace.old.items + length events.now }
{
    for event in events {
        let entry = answer_of(platform, alloc, event, loaded)?;
        trace.push(entry)?;
    }
    Ok(())
}

// What an event of files tells.
fn answer_of<'a>(
    platform: &mut ListPlatform<'a>,
    alloc: Global,
    event: &Event,
    loaded: &'a Loaded,
) -> Result<Entry, NoMemory>
    requires batches { platform.old.batches ≤ 2 ^ 59 }
    requires played { IsTrue (can_play platform.old.board loaded.now.items event.now) }
    ensures ok { IfOk result
        (λ entry. (entry_value entry, platform.new)
        ≡ outcome true_formats (loaded_bytes loaded.now.items) platform.old event.now) }
    ensures frame { platform.new.board ≡ platform.old.board }
    ensures counts { OnOk result (platform.new.batches ≤ platform.old.batches + 200) }
{
    match event {
        Event::Drop { file, input } => drop_input(platform, alloc, file, input, loaded),
        Event::Signal => Ok(platform.signal()),
        Event::Boot => boot_answer(platform, alloc),
        _ => unreachable!(),
    }
}

// Puts a named input into the folder.
fn drop_input<'a>(
    platform: &mut ListPlatform<'a>,
    alloc: Global,
    file: &Text,
    input: &Text,
    loaded: &'a Loaded,
) -> Result<Entry, NoMemory>
    requires { IsTrue (is_thin_on platform.old.board (loaded_bytes loaded.now.items input.now)) }
    ensures ok { IfOk result
        (λ entry. (entry_value entry, platform.new)
        ≡ dropped platform.old file.now (loaded_bytes loaded.now.items input.now)) }
    ensures frame { platform.new.board ≡ platform.old.board }
    ensures counts { platform.new.batches ≡ platform.old.batches }
{
    match loaded.get(input.as_str()) {
        Some(bytes) => platform.drop_file(alloc, file, bytes),
        None => unreachable!(),
    }
}

// What a boot tells.
fn boot_answer(platform: &mut ListPlatform<'_>, alloc: Global) -> Result<Entry, NoMemory>
    requires { platform.old.batches ≤ 2 ^ 59 }
    ensures ok { IfOk result
        (λ entry. (entry_value entry, platform.new)
        ≡ boot_done (boot_of true_formats platform.old Sealed)) }
    ensures frame { platform.new.board ≡ platform.old.board }
    ensures counts { OnOk result (platform.new.batches ≤ platform.old.batches + 200) }
{
    let report = platform.boot(alloc)?;
    Ok(Entry {
        opened: report.opened,
        pending: report.pending,
        answer: Answer::Booted(report, BootEnd::Ok),
    })
}
