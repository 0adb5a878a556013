//! The command `play`: a platform of a board, through the events of a script.
ghost use Rattle.std.specs.Prelude.{◌≡◌, ◌≤◌, IsTrue, length, IfOk};
ghost use Rattle.std.specs.List.{list_all};
ghost use Rattle.bench_model.specs.declared.counts.Counts.{Counts};
ghost use Rattle.cu_io.specs.Seen.{Follows};
ghost use Rattle.reset_play.specs.Plays.{has_one_device, can_play};
ghost use Rattle.capsule_tool.specs.Played.{played};
ghost use Rattle.capsule_tool.specs.Plays.{play_work};
ghost use Rattle.capsule_tool.specs.Steps.{EndsAs};

mod board;
mod inputs;
mod script;

use crate::answer::Answer;
use crate::found::Found;
use crate::output::Output;
use crate::status::Status;
use crate::stop::Stop;
use bench_model::Board;
use board::take_board;
use cu_base::{Blob, NoMemory, Text};
use cu_io::{Inputs, Loaded};
use inputs::take_inputs;
use reset_play::{MAX_EVENTS, Script, Trace, script_inputs, trace_text};
use script::take_script;
use std::alloc::Global;

/// Reads the board and the script of these names and the inputs that the script names, and plays.
pub fn play<I: Inputs>(
    alloc: Global,
    board: &Text,
    script: &Text,
    inputs: &mut I,
) -> Result<Found, Stop>
    ensures ends { (counts counts' : Counts) → EndsAs (play_work board.now script.now)
        (I.seen inputs.old) (I.seen inputs.new) counts counts' result }
    ensures frame { Follows (I.seen inputs.old) (I.seen inputs.new) }
{
    let board = take_board(alloc, board, inputs)?;
    let script = take_script(alloc, script, inputs)?;
    let names = script_inputs(alloc, &script)?;
    let loaded = take_inputs(alloc, &board, names.as_slice(), inputs)?;
    Ok(played(alloc, &board, &script, &loaded)?)
}

/// Plays over the inputs that were read.
fn played(alloc: Global, board: &Board, script: &Script, loaded: &Loaded) -> Result<Found, NoMemory>
    requires one { IsTrue (has_one_device board.now) }
    requires short { length script.now.items ≤ MAX_EVENTS }
    requires events { IsTrue (list_all (can_play board.now loaded.now.items) script.now.items) }
    ensures { IfOk result (λ found. found ≡ played board.now script.now.items loaded.now.items) }
{
    let mut trace = Trace::new(alloc);
    reset_play::play(alloc, board, script, loaded, &mut trace)?;
    let text = trace_text(alloc, board, script, &trace)?;
    let answer = Answer {
        status: Status::Done,
        text: Output::bytes(Blob::from_slice(alloc, text.as_str().as_bytes())?),
    };
    Ok(Found { answer, trace })
}
