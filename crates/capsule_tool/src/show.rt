//! The command `show`: the text of the capsule of a file.
ghost use Rattle.std.specs.Prelude.{◌≡◌, None, IfOk};
ghost use Rattle.cu_io.specs.Seen.{Follows};
ghost use Rattle.capsule_grammar.specs.Refusals.{refusal};
ghost use Rattle.capsule_tool.specs.Files.{show_answer, show_work, written};
ghost use Rattle.capsule_tool.specs.Shown.{shown_text};
ghost use Rattle.capsule_tool.specs.Steps.{StepsTo};
ghost use Rattle.capsule_tool.specs.Works.Work.{Finds};

use crate::answer::Answer;
use crate::check::verdict_answer;
use crate::found::Found;
use crate::input::read_input;
use crate::output::Output;
use crate::status::Status;
use crate::stop::Stop;
use crate::verdict::{Verdict, judge};
use capsule_grammar::DecodeFault;
use capsule_show::show_text;
use cu_base::{MAX_CAPSULE_BYTES, NoMemory, Text};
use cu_io::Inputs;
use std::alloc::Global;

/// Reads the file of this name, and shows its capsule.
pub fn show<I: Inputs>(alloc: Global, name: &Text, inputs: &mut I) -> Result<Found, Stop>
    ensures steps { StepsTo (show_work name.now) (λ found. Finds found)
        (I.seen inputs.old) (I.seen inputs.new) result }
    ensures frame { Follows (I.seen inputs.old) (I.seen inputs.new) }
{
    let bytes = read_input(alloc, name, MAX_CAPSULE_BYTES, inputs)?;
    let answer = show_bytes(alloc, bytes.as_slice())?;
    Ok(Found::bare(alloc, answer))
}

/// The text of the capsule that is the whole file, or why there is none.
fn show_bytes(alloc: Global, bytes: &[u8]) -> Result<Answer, NoMemory>
    ensures { IfOk result (λ answer. answer ≡ show_answer bytes.now) }
{
    match judge(bytes) {
        Verdict::Whole(_) => shown(alloc, bytes),
        Verdict::Refused(refusal) => verdict_answer(alloc, Verdict::Refused(refusal)),
        Verdict::Trailing(at) => verdict_answer(alloc, Verdict::Trailing(at)),
    }
}

/// The text of the capsule at the front.
fn shown(alloc: Global, bytes: &[u8]) -> Result<Answer, NoMemory>
    requires { refusal bytes.now ≡ None }
    ensures { IfOk result (λ answer. answer ≡ written (shown_text bytes.now)) }
{
    match show_text(alloc, bytes) {
        Ok(text) => Ok(Answer {
            status: Status::Done,
            text: Output::bytes(text),
        }),
        Err(DecodeFault::Memory) => Err(NoMemory),
        Err(DecodeFault::Refused(_)) => unreachable!(),
    }
}
