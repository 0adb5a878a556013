ghost use Rattle.std.specs.Prelude.{◌≡◌, ◌≤◌, IfOk, OnErr};
ghost use Rattle.bench_model.specs.declared.counts.Counts.{Counts};
ghost use Rattle.cu_base.specs.Causes.{Rose};
ghost use Rattle.cu_io.specs.Seen.{Follows};
ghost use Rattle.capsule_tool.specs.Commands.{command_of};
ghost use Rattle.capsule_tool.specs.Runs.{IsCalm, AnswersAsTold, IsDone, Judges, IsUsage, IsUnread};
ghost use Rattle.capsule_tool.specs.Runs.{IsLong, Writes, EndsBy, IsTraced};
ghost use Rattle.capsule_tool.specs.Steps.{EndsAs};
ghost use Rattle.capsule_tool.specs.Told.{work_of};
ghost use Rattle.capsule_tool.specs.Works.{MayEnd, MayStop};

use crate::answer::Answer;
use crate::check::check;
use crate::command::{Command, command_of};
use crate::found::Found;
use crate::make::make;
use crate::play::play;
use crate::rebuild::rebuild;
use crate::show::show;
use crate::status::Status;
use crate::stop::Stop;
use bench_model::Bench;
use cu_base::{NoMemory, Text};
use cu_io::{Inputs, Sink, WriteFault};
use reset_play::Trace;
use std::alloc::Global;
use std::marker::Model;

/// How a run ended: the status, and what a play told of its events. With status 6 the trace is
/// that of a front of the script. Contracts see the trace as what it tells.
#[derive(Drop)]
pub struct Outcome {
    pub status: u8,
    pub trace: Trace,
}

impl Model for Outcome {
    ghost use Rattle.std.specs.Prelude.{map};
    ghost use Rattle.reference_machine.specs.TraceValues.{entry_value};
    ghost use Rattle.capsule_tool.specs.Findings.{Ending};

    ghost Value = { Ending };

    ghost view = { λ o. record { status = o.status; trace = map entry_value o.trace.items } };
}

/// The work of the words. Nothing is written by it.
fn work<I: Inputs>(alloc: Global, words: &[Text], inputs: &mut I) -> Result<Found, Stop>
    ensures ends { (counts counts' : Counts) → EndsAs (work_of words.now)
        (I.seen inputs.old) (I.seen inputs.new) counts counts' result }
    ensures frame { Follows (I.seen inputs.old) (I.seen inputs.new) }
{
    match command_of(words) {
        None => Err(Stop::Answered(Answer::usage(alloc)?)),
        Some(Command::Check) => check(alloc, &words[1], inputs),
        Some(Command::Show) => show(alloc, &words[1], inputs),
        Some(Command::Rebuild) => rebuild(alloc, &words[1], inputs),
        Some(Command::Play) => play(alloc, &words[1], &words[2], inputs),
        Some(Command::Make) => make(alloc, &words[1], inputs),
        Some(Command::Load) => Err(Stop::Answered(Answer::later(alloc, words[0].as_str())?)),
    }
}

/// What the work of the words finds, early or at its end.
fn find<I: Inputs>(alloc: Global, words: &[Text], inputs: &mut I) -> Result<Found, NoMemory>
    ensures ok { IfOk result (λ found. (counts counts' : Counts)
        → MayEnd (I.seen inputs.old).named (work_of words.now)
        (I.seen inputs.old) (I.seen inputs.new) counts counts' found) }
    ensures memory { OnErr result (MayStop (I.seen inputs.old).named (work_of words.now)
        (I.seen inputs.old) (I.seen inputs.new)) }
    ensures frame { Follows (I.seen inputs.old) (I.seen inputs.new) }
{
    match work(alloc, words, inputs) {
        Ok(found) => Ok(found),
        Err(Stop::Answered(answer)) => Ok(Found::bare(alloc, answer)),
        Err(Stop::Memory) => Err(NoMemory),
    }
}

/// Writes what was found, and ends the run.
fn say<O: Sink>(alloc: Global, out: &mut O, found: Found) -> Outcome
    ensures writes { Writes found.answer result.status (O.seen out.old) (O.seen out.new) }
    ensures value { result.trace ≡ found.trace }
    ensures counts { (O.seen out.old).faults ≤ (O.seen out.new).faults }
{
    let status = match found.answer.text.write(alloc, out) {
        Ok(()) => found.answer.status,
        Err(WriteFault::Write) => Status::Unwritten,
        Err(WriteFault::Memory) => Status::Memory,
    };
    Outcome {
        status: status.code(),
        trace: found.trace,
    }
}

/// The whole program: the words are done over the inputs, and what was found is written to the
/// sink. All reading comes before all writing. The bench is that of the platform that is played:
/// plays of one device go over lists and leave it as it is, and all others are to be built.
pub fn run<I: Inputs, O: Sink, W: Bench>(
    alloc: Global,
    words: &[Text],
    inputs: &mut I,
    bench: &mut W,
    out: &mut O,
) -> Outcome
    // Where nothing outside fails, status, trace and text are those told by the words and the
    // bytes.
    ensures told { IsCalm (I.seen inputs.old) (I.seen inputs.new)
        (W.state bench.old).counts (W.state bench.new).counts (O.seen out.old) (O.seen out.new)
        → AnswersAsTold (I.seen inputs.old).named words.now result.status result.trace
        (O.seen out.old) (O.seen out.new) }

    // When each status comes, whatever happens outside.
    ensures done { result.status ≡ 0
        → IsDone (work_of words.now) (I.seen inputs.old).named
        (W.state bench.old).counts (W.state bench.new).counts result.trace
        (O.seen out.old) (O.seen out.new) }
    ensures refused { result.status ≡ 1
        → Judges (work_of words.now) (I.seen inputs.old).named 1 result.trace
        (O.seen out.old) (O.seen out.new) }
    ensures usage { result.status ≡ 2
        → IsUsage (command_of words.now) (O.seen out.old) (O.seen out.new) }
    ensures faulty { result.status ≡ 3
        → Judges (work_of words.now) (I.seen inputs.old).named 3 result.trace
        (O.seen out.old) (O.seen out.new) }
    ensures unread { result.status ≡ 4
        → IsUnread (work_of words.now) (I.seen inputs.old).named
        (I.seen inputs.old) (I.seen inputs.new) (O.seen out.old) (O.seen out.new) }
    ensures unwritten { result.status ≡ 5 → Rose (O.seen out.old).faults (O.seen out.new).faults }
    ensures long { result.status ≡ 7
        → IsLong (work_of words.now) (I.seen inputs.old).named
        (I.seen inputs.old) (I.seen inputs.new) result.trace (O.seen out.old) (O.seen out.new) }
    ensures later { result.status ≡ 8
        → Judges (work_of words.now) (I.seen inputs.old).named 8 result.trace
        (O.seen out.old) (O.seen out.new) }
    ensures bound { result.status ≤ 8 }

    // One finding gave status, trace, text and the names asked for; or memory ran out first. Only
    // work that was done has a trace.
    ensures found { EndsBy (work_of words.now) (I.seen inputs.old).named
        (I.seen inputs.old) (I.seen inputs.new)
        (W.state bench.old).counts (W.state bench.new).counts result.status result.trace
        (O.seen out.old) (O.seen out.new) }
    ensures traced { IsTraced result.status result.trace }

    // The inputs stay, and counts never fall.
    ensures frame { Follows (I.seen inputs.old) (I.seen inputs.new) }
    ensures counts { (O.seen out.old).faults ≤ (O.seen out.new).faults }
    ensures bench { W.state bench.new ≡ W.state bench.old }
{
    match find(alloc, words, inputs) {
        Ok(found) => say(alloc, out, found),
        Err(NoMemory) => Outcome {
            status: Status::Memory.code(),
            trace: Trace::new(alloc),
        },
    }
}
