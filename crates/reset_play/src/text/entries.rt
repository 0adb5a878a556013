//! The lines of the events.

ghost use Rattle.std.specs.Prelude.{◌≡◌, ◌++◌, map, IfOk, OnOk};
ghost use Rattle.reset_play.specs.Texts.{answer_words, end_word, entries_text, event_line};
ghost use Rattle.reset_play.specs.Texts.{event_word, lines_before, parts, trace_text};
ghost use Rattle.reference_machine.specs.TraceValues.{answer_value};

use super::parts::{push_number, push_number_part, push_word_part};
use super::picture::push_picture;
use super::units::push_units;
use crate::{Answer, BootEnd, Entry, Event, Script, Trace};
use bench_model::Board;
use cu_base::{NoMemory, Text};
use std::alloc::Global;

/// The text of a trace: for each event `N EVENT ANSWER`, with the lines of a boot and of what is
/// shown before it, and at the end `done N` with the number of events.
pub fn trace_text(
    alloc: Global,
    board: &Board,
    script: &Script,
    trace: &Trace,
) -> Result<Text, NoMemory>
    ensures value { IfOk result
        (λ text. text
        ≡ trace_text board.now script.now.items
        (map (λ e. answer_value e.answer) trace.now.items)) }
{
    let mut out = Text::from_str(alloc, "")?;
    push_entries(&mut out, alloc, board, script.as_slice(), trace.as_slice())?;
    out.push_str("done")?;
    push_number_part(&mut out, script.len() as u64)?;
    out.push_str("\n")?;
    Ok(out)
}

fn push_entries(
    out: &mut Text,
    alloc: Global,
    board: &Board,
    script: &[Event],
    trace: &[Entry],
) -> Result<(), NoMemory>
    ensures { OnOk result
        (out.new ≡ out.old
        ++ entries_text board.now 1 script.now (map (λ e. answer_value e.answer) trace.now)) }
{
    let count = script.len().min(trace.len());
    for i in 0..count {
        push_lines_before(out, alloc, board, &trace[i].answer)?;
        push_event_line(out, i as u64 + 1, &script[i], &trace[i].answer)?;
    }
    Ok(())
}

fn push_lines_before(
    out: &mut Text,
    alloc: Global,
    board: &Board,
    answer: &Answer,
) -> Result<(), NoMemory>
    ensures { OnOk result (out.new ≡ out.old ++ lines_before board.now (answer_value answer.now)) }
{
    match answer {
        Answer::Booted(report, _) => push_units(out, board, report.lines.as_slice())?,
        Answer::Shown(snapshot) => push_picture(out, alloc, snapshot)?,
        Answer::Done
        | Answer::Serial(_)
        | Answer::FlashFault
        | Answer::VolumeFault
        | Answer::NoBank
        | Answer::Full
        | Answer::Wraps
        | Answer::Invalid
        | Answer::Unsupported
        | Answer::Resources => {}
    }
    Ok(())
}

fn push_event_line(
    out: &mut Text,
    number: u64,
    event: &Event,
    answer: &Answer,
) -> Result<(), NoMemory>
    ensures { OnOk result
        (out.new ≡ out.old ++ event_line number event.now (answer_value answer.now)) }
{
    push_number(out, number)?;
    push_word_part(out, event_word(event))?;
    push_answer_parts(out, answer)?;
    out.push_str("\n")?;
    Ok(())
}

fn event_word(event: &Event) -> &'static str
    ensures { result.now ≡ event_word event.now }
{
    match event {
        Event::Time(_) => "time",
        Event::Drop { .. } => "drop",
        Event::Signal => "signal",
        Event::Lay { .. } => "lay",
        Event::Poke { .. } => "poke",
        Event::Stage { .. } => "stage",
        Event::Boot => "boot",
        Event::Arm { .. } => "arm",
        Event::Fail { .. } => "fail",
        Event::Reset { .. } => "reset",
        Event::Show => "show",
    }
}

fn push_answer_parts(out: &mut Text, answer: &Answer) -> Result<(), NoMemory>
    ensures { OnOk result (out.new ≡ out.old ++ parts (answer_words (answer_value answer.now))) }
{
    match answer {
        Answer::Done | Answer::Shown(_) => push_word_part(out, "ok")?,
        Answer::Serial(serial) => {
            push_word_part(out, "ok")?;
            push_number_part(out, *serial)?;
        }
        Answer::FlashFault => push_word_part(out, "flash")?,
        Answer::VolumeFault => push_word_part(out, "volume")?,
        Answer::NoBank => push_word_part(out, "nobank")?,
        Answer::Full => push_word_part(out, "full")?,
        Answer::Wraps => push_word_part(out, "wraps")?,
        Answer::Invalid => push_word_part(out, "invalid")?,
        Answer::Unsupported => push_word_part(out, "unsupported")?,
        Answer::Resources => push_word_part(out, "resources")?,
        Answer::Booted(_, end) => push_word_part(out, end_word(*end))?,
    }
    Ok(())
}

fn end_word(end: BootEnd) -> &'static str
    ensures { result.now ≡ end_word end }
{
    match end {
        BootEnd::Ok => "ok",
        BootEnd::Flash => "flash",
        BootEnd::Volume => "volume",
        BootEnd::NoBank => "nobank",
    }
}
