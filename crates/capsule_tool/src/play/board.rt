//! The board is read and parsed.
ghost use Rattle.std.specs.Prelude.{ℕ, List, IsTrue, IfOk};
ghost use Rattle.cu_io.specs.Seen.{Follows};
ghost use Rattle.recipe_files.specs.Boards.{board_text};
ghost use Rattle.reset_play.specs.Plays.{has_one_device};
ghost use Rattle.capsule_tool.specs.Plays.{board_next, play_work, script_work};
ghost use Rattle.capsule_tool.specs.Steps.{StepsTo, IsStep};

use crate::answer::Answer;
use crate::input::read_input;
use crate::limits::MAX_TEXT_BYTES;
use crate::names::file_kind;
use crate::stop::Stop;
use bench_model::Board;
use cu_base::{Blob, Text};
use cu_io::Inputs;
use recipe_files::{FileFault, read_board};
use std::alloc::Global;

/// Reads the board of this name. With a board of one device, which has one
/// bank, a play goes on.
pub fn take_board<I: Inputs>(alloc: Global, name: &Text, inputs: &mut I) -> Result<Board, Stop>
    ensures steps { (script : List ℕ)
        → StepsTo (play_work name.now script) (λ board. script_work board script)
        (I.seen inputs.old) (I.seen inputs.new) result }
    ensures rule { IfOk result (λ board. IsTrue (has_one_device board)) }
    ensures frame { Follows (I.seen inputs.old) (I.seen inputs.new) }
{
    let bytes = read_input(alloc, name, MAX_TEXT_BYTES, inputs)?;
    board_of(alloc, name, &bytes)
}

/// The board of one device with one bank that the bytes say.
fn board_of(alloc: Global, name: &Text, bytes: &Blob) -> Result<Board, Stop>
    ensures steps { (script : List ℕ) → IsStep (board_next name.now script (board_text bytes.now))
        (λ board. script_work board script) result }
    ensures rule { IfOk result (λ board. IsTrue (has_one_device board)) }
{
    match read_board(alloc, bytes.as_slice()) {
        Ok(board) => {
            if board.devices().len() == 1 && !board.two_banks() {
                Ok(board)
            } else {
                Err(Stop::Answered(Answer::later(alloc, name.as_str())?))
            }
        }
        Err(FileFault::Bad { kind, key }) => {
            let kind = file_kind(kind);
            Err(Stop::Answered(Answer::faulty_board(alloc, kind, key.as_str())?))
        }
        Err(FileFault::Memory) => Err(Stop::Memory),
    }
}
