//! The script is read and parsed.
ghost use Rattle.std.specs.Prelude.{◌≡◌, ◌≤◌, ◌<◌, ◌^◌, IsTrue, length, IfOk};
ghost use Rattle.std.specs.List.{list_all};
ghost use Rattle.cu_io.specs.Seen.{Follows};
ghost use Rattle.bench_model.specs.Boards.{BoardValue};
ghost use Rattle.reset_play.specs.Plays.{is_of_files};
ghost use Rattle.reset_play.specs.ScriptText.{script_said};
ghost use Rattle.capsule_tool.specs.Plays.{script_next, script_work, events_work};
ghost use Rattle.capsule_tool.specs.Steps.{StepsTo, IsStep};

use crate::answer::Answer;
use crate::input::read_input;
use crate::limits::MAX_TEXT_BYTES;
use crate::names::script_kind;
use crate::stop::Stop;
use cu_base::{Blob, Text};
use cu_io::Inputs;
use reset_play::{Event, MAX_EVENTS, Script, ScriptFault, read_script};
use std::alloc::Global;

/// Reads the script of this name. With a script of files alone a play goes on.
pub fn take_script<I: Inputs>(alloc: Global, name: &Text, inputs: &mut I) -> Result<Script, Stop>
    ensures steps { (board : BoardValue)
        → StepsTo (script_work board name.now) (λ script. events_work board script.items)
        (I.seen inputs.old) (I.seen inputs.new) result }
    ensures bound { IfOk result (λ script. length script.items ≤ MAX_EVENTS) }
    ensures rule { IfOk result (λ script. IsTrue (list_all is_of_files script.items)) }
    ensures frame { Follows (I.seen inputs.old) (I.seen inputs.new) }
{
    let bytes = read_input(alloc, name, MAX_TEXT_BYTES, inputs)?;
    script_of(alloc, name, &bytes)
}

/// The script of files alone that the bytes say.
fn script_of(alloc: Global, name: &Text, bytes: &Blob) -> Result<Script, Stop>
    requires { length bytes.now < 2 ^ 32 }
    ensures steps { (board : BoardValue)
        → IsStep (script_next board name.now (script_said bytes.now))
        (λ script. events_work board script.items) result }
    ensures bound { IfOk result (λ script. length script.items ≤ MAX_EVENTS) }
    ensures rule { IfOk result (λ script. IsTrue (list_all is_of_files script.items)) }
{
    match read_script(alloc, bytes.as_slice()) {
        Ok(script) => {
            if are_of_files(script.as_slice()) {
                Ok(script)
            } else {
                Err(Stop::Answered(Answer::later(alloc, name.as_str())?))
            }
        }
        Err(ScriptFault::Bad { line, kind }) => {
            let kind = script_kind(kind);
            Err(Stop::Answered(Answer::faulty_script(alloc, line, kind)?))
        }
        Err(ScriptFault::Memory) => Err(Stop::Memory),
    }
}

/// Whether all of the events are of files alone.
fn are_of_files(events: &[Event]) -> bool
    ensures { result ≡ list_all is_of_files events.now }
{
    events.iter().all(is_of_files)
}

/// Whether an event is one of files alone: drop, signal or boot.
fn is_of_files(event: &Event) -> bool
    ensures { result ≡ is_of_files event.now }
{
    match event {
        Event::Drop { .. } | Event::Signal | Event::Boot => true,
        Event::Time(_)
        | Event::Lay { .. }
        | Event::Poke { .. }
        | Event::Stage { .. }
        | Event::Arm { .. }
        | Event::Fail { .. }
        | Event::Reset { .. }
        | Event::Show => false,
    }
}
