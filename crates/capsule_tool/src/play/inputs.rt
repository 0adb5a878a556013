//! The inputs that the script names are read, one after the other.
ghost use Rattle.std.specs.Prelude.{◌≡◌, ◌≤◌, ℕ, List, [], bytes_eq, IfOk};
ghost use Rattle.cu_io.specs.Named.{Named, LacksName};
ghost use Rattle.cu_io.specs.Seen.{Follows};
ghost use Rattle.reference_machine.specs.declared.event.Event.{Event};
ghost use Rattle.reference_machine.specs.Laws.{Distinct};
ghost use Rattle.capsule_tool.specs.Plays.{input_next, input_work, inputs_work};
ghost use Rattle.capsule_tool.specs.Plays.{AreNamed, AreThinOn, IsOneMore};
ghost use Rattle.capsule_tool.specs.Steps.{StepsTo, IsStep};
ghost use Rattle.capsule_tool.specs.Works.{Work};
ghost use Rattle.capsule_tool.specs.Works.Work.{Plays};

use crate::answer::Answer;
use crate::input::read_input;
use crate::limits::MAX_NAMED_BYTES;
use crate::stop::Stop;
use bench_model::Board;
use cu_base::{Blob, MAX_CAPSULE_BYTES, Text};
use cu_io::{Inputs, Loaded};
use reset_play::is_thin_on;
use std::alloc::Global;

/// Reads the inputs of these names. With all of them thin for the board a play goes on.
pub fn take_inputs<I: Inputs>(
    alloc: Global,
    board: &Board,
    names: &[Text],
    inputs: &mut I,
) -> Result<Loaded, Stop>
    requires { Distinct bytes_eq names.now }
    ensures steps { (events : List Event)
        → StepsTo (inputs_work board.now events [] 0 names.now)
        (λ loaded. Plays board.now events loaded.items)
        (I.seen inputs.old) (I.seen inputs.new) result }
    ensures ok { IfOk result (λ loaded. AreNamed names.now loaded.items) }
    ensures rule { IfOk result (λ loaded. AreThinOn board.now loaded.items) }
    ensures frame { Follows (I.seen inputs.old) (I.seen inputs.new) }
{
    let mut loaded = Loaded::new(alloc);
    let mut sum = 0;
    for name in names {
        take_input(alloc, board, name, inputs, &mut loaded, &mut sum)?;
    }
    Ok(loaded)
}

/// Reads the input of this name, where those before it are loaded and have `sum` bytes.
fn take_input<I: Inputs>(
    alloc: Global,
    board: &Board,
    name: &Text,
    inputs: &mut I,
    loaded: &mut Loaded,
    sum: &mut usize,
) -> Result<(), Stop>
    requires new { LacksName loaded.old.items name.now }
    requires small { sum.old ≤ MAX_NAMED_BYTES }
    ensures steps { (rest : Named → ℕ → Work)
        → StepsTo (input_work board.now loaded.old.items sum.old name.now rest)
        (λ _. rest loaded.new.items sum.new) (I.seen inputs.old) (I.seen inputs.new) result }
    ensures ok { IfOk result (λ _. IsOneMore name.now loaded.old.items loaded.new.items) }
    ensures rule { AreThinOn board.now loaded.old.items → AreThinOn board.now loaded.new.items }
    ensures bound { sum.new ≤ MAX_NAMED_BYTES }
    ensures frame { Follows (I.seen inputs.old) (I.seen inputs.new) }
{
    let bytes = read_input(alloc, name, MAX_CAPSULE_BYTES, inputs)?;
    keep_input(alloc, board, name, bytes, loaded, sum)
}

/// Loads an input that was read, where it is thin for the board and the sum stays within its limit.
fn keep_input(
    alloc: Global,
    board: &Board,
    name: &Text,
    bytes: Blob,
    loaded: &mut Loaded,
    sum: &mut usize,
) -> Result<(), Stop>
    requires new { LacksName loaded.old.items name.now }
    requires small { sum.old ≤ MAX_NAMED_BYTES }
    ensures steps { (rest : Named → ℕ → Work)
        → IsStep (input_next board.now loaded.old.items sum.old name.now rest bytes)
        (λ _. rest loaded.new.items sum.new) result }
    ensures ok { IfOk result (λ _. IsOneMore name.now loaded.old.items loaded.new.items) }
    ensures rule { AreThinOn board.now loaded.old.items → AreThinOn board.now loaded.new.items }
    ensures bound { sum.new ≤ MAX_NAMED_BYTES }
{
    let total = *sum + bytes.len();
    if total > MAX_NAMED_BYTES as usize {
        return Err(Stop::Answered(Answer::long(alloc, name.as_str())?));
    }
    if !is_thin_on(board, bytes.as_slice()) {
        return Err(Stop::Answered(Answer::later(alloc, name.as_str())?));
    }
    let name = Text::from_str(alloc, name.as_str())?;
    loaded.push((name, bytes))?;
    *sum = total;
    Ok(())
}
