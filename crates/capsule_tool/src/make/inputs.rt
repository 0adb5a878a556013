//! The inputs that the recipe names are read, one after the other.
ghost use Rattle.std.specs.Prelude.{◌≡◌, ◌≤◌, ℕ, [], bytes_eq, IfOk};
ghost use Rattle.std.specs.List.{IsDistinct};
ghost use Rattle.cu_io.specs.Named.{Named, LacksName};
ghost use Rattle.cu_io.specs.Seen.{Follows};
ghost use Rattle.capsule_tool.specs.Loads.{load_next, load_work, loads_work};
ghost use Rattle.capsule_tool.specs.Plays.{IsOneMore};
ghost use Rattle.capsule_tool.specs.Steps.{StepsTo, IsStep};
ghost use Rattle.capsule_tool.specs.Works.{Work};

use crate::answer::Answer;
use crate::input::read_input;
use crate::limits::MAX_NAMED_BYTES;
use crate::stop::Stop;
use cu_base::{Blob, MAX_CAPSULE_BYTES, Text};
use cu_io::{Inputs, Loaded};
use std::alloc::Global;

/// Reads the inputs of these names.
pub fn load_inputs<I: Inputs>(alloc: Global, names: &[Text], inputs: &mut I) -> Result<Loaded, Stop>
    requires { IsDistinct bytes_eq names.now }
    ensures steps { (next : Named → Work)
        → StepsTo (loads_work load_work next [] 0 names.now) (λ loaded. next loaded.items)
        (I.seen inputs.old) (I.seen inputs.new) result }
    ensures frame { Follows (I.seen inputs.old) (I.seen inputs.new) }
{
    let mut loaded = Loaded::new(alloc);
    let mut sum = 0;
    for name in names {
        load_input(alloc, name, inputs, &mut loaded, &mut sum)?;
    }
    Ok(loaded)
}

/// Reads the input of this name, where those before it are loaded and have `sum` bytes.
fn load_input<I: Inputs>(
    alloc: Global,
    name: &Text,
    inputs: &mut I,
    loaded: &mut Loaded,
    sum: &mut usize,
) -> Result<(), Stop>
    requires new { LacksName loaded.old.items name.now }
    requires small { sum.old ≤ MAX_NAMED_BYTES }
    ensures steps { (rest : Named → ℕ → Work)
        → StepsTo (load_work loaded.old.items sum.old name.now rest)
        (λ _. rest loaded.new.items sum.new) (I.seen inputs.old) (I.seen inputs.new) result }
    ensures ok { IfOk result (λ _. IsOneMore name.now loaded.old.items loaded.new.items) }
    ensures bound { sum.new ≤ MAX_NAMED_BYTES }
    ensures frame { Follows (I.seen inputs.old) (I.seen inputs.new) }
{
    let bytes = read_input(alloc, name, MAX_CAPSULE_BYTES, inputs)?;
    keep_input(alloc, name, bytes, loaded, sum)
}

/// Loads an input that was read, where the sum stays within its limit.
fn keep_input(
    alloc: Global,
    name: &Text,
    bytes: Blob,
    loaded: &mut Loaded,
    sum: &mut usize,
) -> Result<(), Stop>
    requires new { LacksName loaded.old.items name.now }
    requires small { sum.old ≤ MAX_NAMED_BYTES }
    ensures steps { (rest : Named → ℕ → Work)
        → IsStep (load_next loaded.old.items sum.old name.now rest bytes)
        (λ _. rest loaded.new.items sum.new) result }
    ensures ok { IfOk result (λ _. IsOneMore name.now loaded.old.items loaded.new.items) }
    ensures bound { sum.new ≤ MAX_NAMED_BYTES }
{
    let total = *sum + bytes.len();
    if total > MAX_NAMED_BYTES as usize {
        return Err(Stop::Answered(Answer::long(alloc, name.as_str())?));
    }
    let name = Text::from_str(alloc, name.as_str())?;
    loaded.push((name, bytes))?;
    *sum = total;
    Ok(())
}
