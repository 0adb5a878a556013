//! The command `rebuild`: the capsule of a file without its lead and its pads.
ghost use Rattle.std.specs.Prelude.{◌≡◌, ◌≤◌, length, None, IfOk};
ghost use Rattle.cu_io.specs.Seen.{Follows};
ghost use Rattle.capsule_grammar.specs.Reading.{capsule_of};
ghost use Rattle.capsule_grammar.specs.Rebuilt.{emptied};
ghost use Rattle.capsule_grammar.specs.Refusals.{refusal};
ghost use Rattle.capsule_grammar.specs.Spelling.{spelling};
ghost use Rattle.fmp_headers.specs.CapsuleHeader.{image_size};
ghost use Rattle.capsule_tool.specs.Files.{rebuild_work, rebuild_answer};
ghost use Rattle.capsule_tool.specs.Steps.{StepsTo};
ghost use Rattle.capsule_tool.specs.Works.Work.{Finds};

use crate::answer::Answer;
use crate::check::verdict_answer;
use crate::found::Found;
use crate::input::read_input;
use crate::output::Output;
use crate::status::Status;
use crate::stop::Stop;
use crate::verdict::{Verdict, judge};
use capsule_grammar::is_rebuilt;
use cu_base::{Blob, MAX_CAPSULE_BYTES, NoMemory, Text};
use cu_io::Inputs;
use std::alloc::Global;

/// Reads the file of this name, and rebuilds it.
pub fn rebuild<I: Inputs>(alloc: Global, name: &Text, inputs: &mut I) -> Result<Found, Stop>
    ensures steps { StepsTo (rebuild_work name.now) (λ found. Finds found)
        (I.seen inputs.old) (I.seen inputs.new) result }
    ensures frame { Follows (I.seen inputs.old) (I.seen inputs.new) }
{
    let bytes = read_input(alloc, name, MAX_CAPSULE_BYTES, inputs)?;
    let answer = rebuild_bytes(alloc, bytes)?;
    Ok(Found::bare(alloc, answer))
}

/// The capsule that is the whole file without its lead and its pads, or why there is none.
fn rebuild_bytes(alloc: Global, bytes: Blob) -> Result<Answer, NoMemory>
    ensures { IfOk result (λ answer. answer ≡ rebuild_answer bytes) }
{
    match judge(bytes.as_slice()) {
        Verdict::Whole(_) => Ok(Answer {
            status: Status::Done,
            text: rebuilt(bytes),
        }),
        Verdict::Refused(refusal) => verdict_answer(alloc, Verdict::Refused(refusal)),
        Verdict::Trailing(at) => verdict_answer(alloc, Verdict::Trailing(at)),
    }
}

/// The capsule that is these bytes without its lead and its pads.
fn rebuilt(bytes: Blob) -> Output
    requires accepted { refusal bytes ≡ None }
    requires whole { length bytes ≤ image_size bytes }
    ensures { result ≡ spelling (emptied (capsule_of bytes)) }
{
    if is_rebuilt(bytes.as_slice()) {
        Output::bytes(bytes)
    } else {
        Output::rebuilt(bytes)
    }
}
