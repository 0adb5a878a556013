//! The lines of a script, one after the other.

ghost use Rattle.std.specs.Prelude.{◌≡◌, ◌<◌, ◌≤◌, ◌+◌, ◌^◌, ℕ, List, ◌∷◌, Err, length, OnOk, IfOk};
ghost use Rattle.std.specs.Prelude.{IfErr};
ghost use Rattle.reset_play.specs.ScriptAnswers.{Gives, GivesScript, Refuses};
ghost use Rattle.reset_play.specs.ScriptText.{is_plain, line_said, lines_said, script_said, behind};

use super::events::read_event;
use super::faults::{LineFault, ScriptFault, ScriptKind};
use super::limits::MAX_EVENTS;
use super::parts::cut;
use crate::{Event, Script};
use std::alloc::Global;

fn is_plain(line: &[u8]) -> bool
    ensures { result ≡ is_plain line.now }
{
    line.iter().all(|b| matches!(*b, 0x20..=0x7E))
}

// What a line says.
fn read_line(alloc: Global, line: &[u8]) -> Result<Option<Event>, LineFault>
    ensures { Gives result (line_said line.now) }
{
    if !is_plain(line) {
        return Err(LineFault::Refused(ScriptKind::BadText));
    }
    if line.is_empty() || line[0] == b'#' {
        return Ok(None);
    }
    match read_event(alloc, line) {
        Ok(event) => Ok(Some(event)),
        Err(LineFault::Refused(kind)) => Err(LineFault::Refused(kind)),
        Err(LineFault::Memory) => Err(LineFault::Memory),
    }
}

// Takes the event of a line, if it has one.
fn take_line(
    alloc: Global,
    line: &[u8],
    number: u64,
    script: &mut Script,
) -> Result<(), ScriptFault>
    requires { number + length line.now ≤ 2 ^ 32 }
    ensures ok { OnOk result ((rest : List (List ℕ)) →
        behind script.old.items (lines_said number (length script.old.items) (line.now ∷ rest))
        ≡ behind script.new.items (lines_said (number + 1) (length script.new.items) rest)) }
    ensures err { IfErr result (λ fault. (rest : List (List ℕ)) →
        Refuses fault (lines_said number (length script.old.items) (line.now ∷ rest))) }
    ensures bound { length script.old.items ≤ MAX_EVENTS → length script.new.items ≤ MAX_EVENTS }
{
    if line.is_empty() {
        return Ok(());
    }
    let at = number as u32;
    match read_line(alloc, line) {
        Ok(None) => Ok(()),
        Ok(Some(event)) => {
            if script.len() >= MAX_EVENTS {
                return Err(ScriptFault::Bad {
                    line: at,
                    kind: ScriptKind::TooMany,
                });
            }
            script.push(event)?;
            Ok(())
        }
        Err(LineFault::Refused(kind)) => Err(ScriptFault::Bad { line: at, kind }),
        Err(LineFault::Memory) => Err(ScriptFault::Memory),
    }
}

/// The events of a script. Lines are separated by line feeds, empty lines and lines that begin with
/// `#` are skipped, and each other line is an event: words with one space between any two, of which
/// the first says which event it is.
///
/// The first line that is refused decides: as `BadText` where it has a byte outside 0x20 to 0x7E,
/// then as `BadEvent` where the first word is no event, then as `BadOperand` where the other words
/// are too many, too few or out of form, then as `TooMany` where 4,096 events stand before it.
pub fn read_script(alloc: Global, bytes: &[u8]) -> Result<Script, ScriptFault>
    requires { length bytes.now < 2 ^ 32 }
    ensures value { GivesScript result (script_said bytes.now) }
    ensures bound { IfOk result (λ script. length script.items ≤ MAX_EVENTS) }
{
    let mut script = Script::new(alloc);
    let mut text = bytes;
    let mut number = 1u64;
    'lines: loop {
        let (line, rest) = cut(text, b'\n');
        take_line(alloc, line, number, &mut script)?;
        let Some((_, next)) = rest.split_first() else {
            return Ok(script);
        };
        text = next;
        number += 1;
    }
}
