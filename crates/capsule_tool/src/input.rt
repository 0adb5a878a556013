//! The inputs that a command names are read whole, or judged as they are read.
ghost use Rattle.std.specs.Prelude.{◌≤◌, ℕ, List, length, IfOk};
ghost use Rattle.cu_io.specs.Seen.{Follows};
ghost use Rattle.capsule_tool.specs.Readings.{ReadsAs, JudgesAs};
ghost use Rattle.capsule_tool.specs.Steps.{StepsTo, judge_work};
ghost use Rattle.capsule_tool.specs.Works.{Work};
ghost use Rattle.capsule_tool.specs.Works.Work.{Reads};
ghost use Rattle.capsule_tool.specs.declared.verdict.Verdict.{Verdict};

use crate::answer::Answer;
use crate::scan::judge_stream;
use crate::stop::Stop;
use crate::verdict::Verdict;
use cu_base::{Blob, Text};
use cu_io::{Inputs, OpenFault, ReadFault, Room, Stream, read_whole};
use std::alloc::Global;

/// Reads the input of this name whole, up to a limit. Where that fails, the failure is answered.
pub fn read_input<I: Inputs>(
    alloc: Global,
    name: &Text,
    limit: u32,
    inputs: &mut I,
) -> Result<Blob, Stop>
    ensures steps { (next : List ℕ → Work)
        → StepsTo (Reads limit name.now next) next (I.seen inputs.old) (I.seen inputs.new) result }
    ensures bound { IfOk result (λ bytes. length bytes ≤ limit) }
    ensures frame { Follows (I.seen inputs.old) (I.seen inputs.new) }
{
    match read_named(alloc, name, limit, inputs) {
        Ok(bytes) => Ok(bytes),
        Err(fault) => Err(Stop::Answered(Answer::read_fault(alloc, name, fault)?)),
    }
}

/// Judges the input of this name as it is read, up to the limit of a capsule. Its bytes are not
/// kept. Where reading fails, the failure is answered.
pub fn judge_input<I: Inputs>(alloc: Global, name: &Text, inputs: &mut I) -> Result<Verdict, Stop>
    ensures steps { (next : Verdict → Work)
        → StepsTo (judge_work name.now next) next (I.seen inputs.old) (I.seen inputs.new) result }
    ensures frame { Follows (I.seen inputs.old) (I.seen inputs.new) }
{
    match judge_named(alloc, name, inputs) {
        Ok(verdict) => Ok(verdict),
        Err(fault) => Err(Stop::Answered(Answer::read_fault(alloc, name, fault)?)),
    }
}

/// The bytes of the input of this name.
fn read_named<I: Inputs>(
    alloc: Global,
    name: &Text,
    limit: u32,
    inputs: &mut I,
) -> Result<Blob, ReadFault>
    ensures reads { ReadsAs limit name.now (I.seen inputs.old) (I.seen inputs.new) result }
    ensures frame { Follows (I.seen inputs.old) (I.seen inputs.new) }
{
    let mut source = match inputs.open(alloc, name) {
        Ok(source) => source,
        Err(OpenFault::Missing) => return Err(ReadFault::Read),
        Err(OpenFault::Failed) => return Err(ReadFault::Read),
        Err(OpenFault::Memory) => return Err(ReadFault::Memory),
    };
    let read = read_whole(alloc, &mut source, limit);
    inputs.fold(source);
    match read {
        Ok(bytes) => Ok(bytes),
        Err(ReadFault::Read) => Err(ReadFault::Read),
        Err(ReadFault::TooLong) => Err(ReadFault::TooLong),
        Err(ReadFault::Memory) => Err(ReadFault::Memory),
    }
}

/// The verdict on the input of this name.
fn judge_named<I: Inputs>(alloc: Global, name: &Text, inputs: &mut I) -> Result<Verdict, ReadFault>
    ensures reads { JudgesAs name.now (I.seen inputs.old) (I.seen inputs.new) result }
    ensures frame { Follows (I.seen inputs.old) (I.seen inputs.new) }
{
    let Ok(room) = Room::new(alloc) else {
        return Err(ReadFault::Memory);
    };
    let source = match inputs.open(alloc, name) {
        Ok(source) => source,
        Err(OpenFault::Missing) => return Err(ReadFault::Read),
        Err(OpenFault::Failed) => return Err(ReadFault::Read),
        Err(OpenFault::Memory) => return Err(ReadFault::Memory),
    };
    let mut stream = Stream::new(source, room);
    let judged = judge_stream(alloc, &mut stream);
    inputs.fold(stream.into_source());
    match judged {
        Ok(verdict) => Ok(verdict),
        Err(ReadFault::Read) => Err(ReadFault::Read),
        Err(ReadFault::TooLong) => Err(ReadFault::TooLong),
        Err(ReadFault::Memory) => Err(ReadFault::Memory),
    }
}
