//! What holds of the texts of scripts, whatever the events.

ghost use Rattle.std.specs.Prelude.{◌≡◌, ◌≤◌, List, Ok, length};
ghost use Rattle.std.specs.List.{AllByRecursion};
ghost use Rattle.reference_machine.specs.declared.event.Event.{Event};
ghost use Rattle.reset_play.specs.ScriptSpelling.{Fits, script_text};
ghost use Rattle.reset_play.specs.ScriptText.{script_said};

use super::limits::{MAX_COUNT, MAX_EVENTS, MAX_INPUT_NAME, MAX_POKE_BYTES};
use bench_model::MAX_FILE_NAME;

/// The text of events says those events.
pub fn scripts_read_back()
    ensures { (events : List Event) → AllByRecursion Fits events → length events ≤ MAX_EVENTS →
        script_said (script_text events) ≡ Ok events }
{}

/// The limits of a script, in numbers.
pub fn the_limits_of_scripts_are_these()
    ensures events { MAX_EVENTS ≡ 4096 }
    ensures poke { MAX_POKE_BYTES ≡ 4096 }
    ensures count { MAX_COUNT ≡ 1000000 }
    ensures file { MAX_FILE_NAME ≡ 40 }
    ensures input { MAX_INPUT_NAME ≡ 64 }
{}
