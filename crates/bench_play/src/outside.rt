//! The events that are one call of the bench.

ghost use Rattle.std.specs.Prelude.{◌≡◌, ◌≤◌, ℕ, List, length, IsTrue};
ghost use Rattle.bench_model.specs.Bench.{HasOrderRoom};
ghost use Rattle.bench_model.specs.Files.{is_file_name};
ghost use Rattle.bench_play.specs.Counted.{Tells};
ghost use Rattle.bench_play.specs.Happens.{Does, KeepsLengths};
ghost use Rattle.cap_boot.specs.Stands.{Setting};
ghost use Rattle.reference_machine.specs.Events.{InputBytes};

use crate::known::{Known, plain};
use crate::to_be_built::to_be_built;
use crate::{Answer, Entry, Event};
use bench_model::{Bench, Choice, LayFault, MAX_FILE_BYTES, VolumeFault};
use cu_base::{NoMemory, Text};
use std::alloc::Global;

/// Puts a file into the folder.
pub(crate) fn drop_file<W: Bench>(
    alloc: Global,
    bench: &mut W,
    known: &mut Known,
    file: &Text,
    bytes: &[u8],
) -> Result<Entry, NoMemory>
    requires name { IsTrue (is_file_name file.now) }
    requires size { length bytes.now ≤ MAX_FILE_BYTES }
    ensures does { (x : Setting) (bytes_of : InputBytes) (input : List ℕ) →
        bytes_of input ≡ bytes.now → Does x bytes_of (Event.Drop file.now input) known.old
        (W.state bench.old) result known.new (W.state bench.new) }
    ensures tells { (input : List ℕ) →
        Tells (Event.Drop file.now input) (W.state bench.old) result (W.state bench.new) }
    ensures frame { KeepsLengths (W.state bench.old) (W.state bench.new) }
{
    match bench.put(alloc, file, bytes) {
        Ok(serial) => Ok(plain(Answer::Serial(serial))),
        Err(VolumeFault::Full) => Ok(plain(Answer::Full)),
        Err(VolumeFault::Failed) => {
            known.failed = true;
            Ok(plain(Answer::VolumeFault))
        }
        Err(VolumeFault::Memory) => Err(NoMemory),
    }
}

/// Lays bytes into memory.
pub(crate) fn lay_bytes<W: Bench>(
    bench: &mut W,
    known: &Known,
    at: u64,
    bytes: &[u8],
) -> Result<Entry, NoMemory>
    ensures does { (x : Setting) (bytes_of : InputBytes) → Does x bytes_of
        (Event.Poke at bytes.now) known.now (W.state bench.old) result known.now
        (W.state bench.new) }
    ensures tells { Tells (Event.Poke at bytes.now) (W.state bench.old) result
        (W.state bench.new) }
    ensures frame { KeepsLengths (W.state bench.old) (W.state bench.new) }
{
    match bench.lay(at, bytes) {
        Ok(()) => Ok(plain(Answer::Done)),
        Err(LayFault::Wraps) => Ok(plain(Answer::Wraps)),
        Err(LayFault::Full) => Ok(plain(Answer::Full)),
        Err(LayFault::Memory) => Err(NoMemory),
    }
}

/// Orders a power cut.
pub(crate) fn arm<W: Bench>(
    bench: &mut W,
    known: &Known,
    after: u32,
    choice: Choice,
) -> Result<Entry, NoMemory>
    requires room { HasOrderRoom (W.state bench.old) }
    ensures does { (x : Setting) (bytes_of : InputBytes) → Does x bytes_of
        (Event.Arm after choice) known.now (W.state bench.old) result known.now
        (W.state bench.new) }
    ensures tells { Tells (Event.Arm after choice) (W.state bench.old) result
        (W.state bench.new) }
    ensures frame { KeepsLengths (W.state bench.old) (W.state bench.new) }
{
    bench.arm(after, choice);
    Ok(plain(Answer::Done))
}

/// Orders a fault.
pub(crate) fn fail<W: Bench>(bench: &mut W, known: &Known, nth: u32) -> Result<Entry, NoMemory>
    requires room { HasOrderRoom (W.state bench.old) }
    requires some { 1 ≤ nth }
    ensures does { (x : Setting) (bytes_of : InputBytes) → Does x bytes_of (Event.Fail nth)
        known.now (W.state bench.old) result known.now (W.state bench.new) }
    ensures tells { Tells (Event.Fail nth) (W.state bench.old) result (W.state bench.new) }
    ensures frame { KeepsLengths (W.state bench.old) (W.state bench.new) }
{
    bench.fail(nth);
    Ok(plain(Answer::Done))
}

/// Resets the platform. A warm reset before which no event failed is not built yet: that power is
/// on then follows from no contract of a boot and of the requests.
pub(crate) fn reset<W: Bench>(
    bench: &mut W,
    known: &mut Known,
    cold: bool,
) -> Result<Entry, NoMemory>
    requires room { HasOrderRoom (W.state bench.old) }
    ensures does { (x : Setting) (bytes_of : InputBytes) → Does x bytes_of (Event.Reset cold)
        known.old (W.state bench.old) result known.new (W.state bench.new) }
    ensures tells { Tells (Event.Reset cold) (W.state bench.old) result (W.state bench.new) }
    ensures frame { KeepsLengths (W.state bench.old) (W.state bench.new) }
{
    if !cold && !known.failed {
        return to_be_built();
    }
    bench.cycle(cold);
    known.failed = false;
    Ok(plain(Answer::Done))
}
