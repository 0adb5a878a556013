//! The command `check`: the verdict on a file.
ghost use Rattle.std.specs.Prelude.{◌≡◌, IfOk};
ghost use Rattle.cu_io.specs.Seen.{Follows};
ghost use Rattle.capsule_tool.specs.Files.{check_work, verdict_answer};
ghost use Rattle.capsule_tool.specs.Steps.{StepsTo};
ghost use Rattle.capsule_tool.specs.Works.Work.{Finds};

use crate::answer::Answer;
use crate::found::Found;
use crate::input::judge_input;
use crate::names::why_name;
use crate::stop::Stop;
use crate::verdict::Verdict;
use cu_base::{NoMemory, Text};
use cu_io::Inputs;
use std::alloc::Global;

/// Checks the file of this name as it is read; its bytes are not kept.
pub fn check<I: Inputs>(alloc: Global, name: &Text, inputs: &mut I) -> Result<Found, Stop>
    ensures steps { StepsTo (check_work name.now) (λ found. Finds found)
        (I.seen inputs.old) (I.seen inputs.new) result }
    ensures frame { Follows (I.seen inputs.old) (I.seen inputs.new) }
{
    let verdict = judge_input(alloc, name, inputs)?;
    let answer = verdict_answer(alloc, verdict)?;
    Ok(Found::bare(alloc, answer))
}

/// What is told of a file, by the verdict on it.
pub fn verdict_answer(alloc: Global, verdict: Verdict) -> Result<Answer, NoMemory>
    ensures { IfOk result (λ answer. answer ≡ verdict_answer verdict) }
{
    match verdict {
        Verdict::Whole(length) => Answer::done(alloc, length),
        Verdict::Refused(refusal) => {
            Answer::refused(alloc, refusal.at as usize, why_name(refusal.why))
        }
        Verdict::Trailing(at) => Answer::refused(alloc, at, "Trailing"),
    }
}
