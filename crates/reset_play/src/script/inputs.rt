//! The inputs that a script names.

ghost use Rattle.std.specs.Prelude.{◌≡◌, OnOk, OnErr, IfOk, bytes_eq, option_copied};
ghost use Rattle.reference_machine.specs.Laws.{Distinct};
ghost use Rattle.reset_play.specs.ScriptInputs.{mention, inputs_of, has_name, with_name};
ghost use Rattle.reset_play.specs.ScriptInputs.{with_mention};

use crate::{Event, Script};
use cu_base::{Names, NoMemory, Text};
use std::alloc::Global;

// The input that an event names.
fn mention(event: &Event) -> Option<&Text>
    ensures { option_copied result ≡ mention event.now }
{
    match event {
        Event::Drop { file: _, input } => Some(input),
        Event::Lay { at: _, input } => Some(input),
        Event::Time(_)
        | Event::Signal
        | Event::Poke { at: _, bytes: _ }
        | Event::Stage { at: _ }
        | Event::Boot
        | Event::Arm {
            after: _,
            choice: _,
        }
        | Event::Fail { nth: _ }
        | Event::Reset { cold: _ }
        | Event::Show => None,
    }
}

fn has_name(names: &[Text], name: &str) -> bool
    ensures { result ≡ has_name name.now names.now }
{
    names.iter().any(|other| other.as_str() == name)
}

// Adds a name where it is not there yet.
fn add_name(alloc: Global, names: &mut Names, name: &str) -> Result<(), NoMemory>
    ensures ok { OnOk result (names.new.items ≡ with_name names.old.items name.now) }
    ensures err { OnErr result (names.new.items ≡ names.old.items) }
{
    if has_name(names.as_slice(), name) {
        return Ok(());
    }
    let name = Text::from_str(alloc, name)?;
    names.push(name)?;
    Ok(())
}

// Adds the name that an event mentions.
fn take_event(alloc: Global, names: &mut Names, event: &Event) -> Result<(), NoMemory>
    ensures { OnOk result (names.new.items ≡ with_mention names.old.items (mention event.now)) }
{
    if let Some(name) = mention(event) {
        return add_name(alloc, names, name.as_str());
    }
    Ok(())
}

/// The inputs that a script names, each once, in order of first mention.
pub fn script_inputs(alloc: Global, script: &Script) -> Result<Names, NoMemory>
    ensures value { IfOk result (λ names. names.items ≡ inputs_of script.now.items) }
    ensures distinct { IfOk result (λ names. Distinct bytes_eq names.items) }
{
    let mut names = Names::new(alloc);
    for event in script.as_slice() {
        take_event(alloc, &mut names, event)?;
    }
    Ok(names)
}
