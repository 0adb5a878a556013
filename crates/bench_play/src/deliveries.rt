//! The events that take the bytes of an input.

ghost use Rattle.std.specs.Prelude.{◌≡◌};
ghost use Rattle.bench_play.specs.Counted.{Tells};
ghost use Rattle.bench_play.specs.Happens.{Does, KeepsLengths};
ghost use Rattle.bench_play.specs.Inputs.{CanDrop, IsLoaded, input_bytes};
ghost use Rattle.cap_boot.specs.Stands.{Setting};

use crate::known::Known;
use crate::outside::{drop_file, lay_bytes};
use crate::{Entry, Event};
use bench_model::Bench;
use cu_base::{NoMemory, Text};
use cu_io::Loaded;
use std::alloc::Global;

/// Puts an input into the folder.
pub(crate) fn drop_input<W: Bench>(
    alloc: Global,
    bench: &mut W,
    known: &mut Known,
    file: &Text,
    input: &Text,
    loaded: &Loaded,
) -> Result<Entry, NoMemory>
    requires can { CanDrop loaded.now.items file.now input.now }
    ensures does { (x : Setting) → Does x (input_bytes loaded.now.items)
        (Event.Drop file.now input.now) known.old (W.state bench.old) result known.new
        (W.state bench.new) }
    ensures tells { Tells (Event.Drop file.now input.now) (W.state bench.old) result
        (W.state bench.new) }
    ensures frame { KeepsLengths (W.state bench.old) (W.state bench.new) }
{
    match loaded.get(input.as_str()) {
        Some(bytes) => drop_file(alloc, bench, known, file, bytes),
        None => unreachable!(),
    }
}

/// Lays an input into memory.
pub(crate) fn lay_input<W: Bench>(
    bench: &mut W,
    known: &Known,
    at: u64,
    input: &Text,
    loaded: &Loaded,
) -> Result<Entry, NoMemory>
    requires there { IsLoaded loaded.now.items input.now }
    ensures does { (x : Setting) → Does x (input_bytes loaded.now.items)
        (Event.Lay at input.now) known.now (W.state bench.old) result known.now
        (W.state bench.new) }
    ensures tells { Tells (Event.Lay at input.now) (W.state bench.old) result
        (W.state bench.new) }
    ensures frame { KeepsLengths (W.state bench.old) (W.state bench.new) }
{
    match loaded.get(input.as_str()) {
        Some(bytes) => lay_bytes(bench, known, at, bytes),
        None => unreachable!(),
    }
}
