//! What a run writes, and how.
ghost use Rattle.std.specs.Prelude.{◌≡◌, ◌≤◌, true, None, OnOk};
ghost use Rattle.cu_io.specs.Streams.{AppendsAll, AppendsFront, WriteFails};
ghost use Rattle.capsule_grammar.specs.Fits.{is_sized};
ghost use Rattle.capsule_grammar.specs.Pieces.{joined};
ghost use Rattle.capsule_grammar.specs.Reading.{capsule_of as capsule_read};
ghost use Rattle.capsule_grammar.specs.Rebuilt.{emptied};
ghost use Rattle.capsule_grammar.specs.Refusals.{refusal};
ghost use Rattle.capsule_grammar.specs.Spelling.{spelling};
ghost use Rattle.recipe_files.specs.Builds.{capsule_of, contents_of};

use capsule_grammar::{DecodeFault, Piece, rebuild_pieces};
use cu_base::Blob;
use cu_io::{Loaded, Sink, WriteFault, write_whole};
use recipe_files::{BuildFault, Recipe, build_pieces};
use std::alloc::Global;
use std::marker::Model;

/// What a run writes. A capsule that is made or rebuilt is kept as what it is made of, so that no
/// input is held twice. Contracts see the bytes.
#[derive(Drop)]
pub struct Output {
    source: Source,
}

/// What the bytes are made of.
#[derive(Drop)]
enum Source {
    /// They are these.
    Bytes(Blob),
    /// The capsule of a recipe over inputs that were read.
    Made { recipe: Recipe, loaded: Loaded },
    /// The capsule of a file without its lead and its pads.
    Rebuilt(Blob),
}

impl Model for Output {
    ghost use Rattle.std.specs.Prelude.{ℕ, List};
    ghost use Rattle.capsule_tool.specs.Outputs.{output_bytes, IsWritable};

    ghost Value = { List ℕ };

    ghost view = { λ o. output_bytes o.source };

    ghost invariant = { λ o. IsWritable o.source };
}

impl Output {
    /// These bytes.
    pub fn bytes(bytes: Blob) -> Output
        ensures { result ≡ bytes }
    {
        Output {
            source: Source::Bytes(bytes),
        }
    }

    /// The capsule of a recipe over these inputs, which is within its limit.
    pub fn made(recipe: Recipe, loaded: Loaded) -> Output
        requires { is_sized (capsule_of (contents_of loaded.items) recipe) ≡ true }
        ensures { result ≡ spelling (capsule_of (contents_of loaded.items) recipe) }
    {
        Output {
            source: Source::Made { recipe, loaded },
        }
    }

    /// The capsule at the front of a file, without its lead and its pads.
    pub fn rebuilt(file: Blob) -> Output
        requires { refusal file ≡ None }
        ensures { result ≡ spelling (emptied (capsule_read file)) }
    {
        Output {
            source: Source::Rebuilt(file),
        }
    }

    /// Writes the bytes. Memory is taken before the first of them.
    pub fn write<O: Sink>(&self, alloc: Global, out: &mut O) -> Result<(), WriteFault>
        ensures ok { OnOk result (AppendsAll (O.seen out.old) (O.seen out.new) self.now) }
        ensures err { AppendsFront (O.seen out.old) (O.seen out.new) self.now }
        ensures cause { WriteFails WriteFault.Write (O.seen out.old) (O.seen out.new) result }
    {
        match &self.source {
            Source::Bytes(bytes) => write_whole(out, bytes.as_slice()),
            Source::Made { recipe, loaded } => write_made(alloc, recipe, loaded, out),
            Source::Rebuilt(file) => write_rebuilt(alloc, file.as_slice(), out),
        }
    }
}

/// Writes the capsule of a recipe over these inputs.
fn write_made<O: Sink>(
    alloc: Global,
    recipe: &Recipe,
    loaded: &Loaded,
    out: &mut O,
) -> Result<(), WriteFault>
    requires { is_sized (capsule_of (contents_of loaded.now.items) recipe.now) ≡ true }
    ensures ok { OnOk result (AppendsAll (O.seen out.old) (O.seen out.new)
        (spelling (capsule_of (contents_of loaded.now.items) recipe.now))) }
    ensures err { AppendsFront (O.seen out.old) (O.seen out.new)
        (spelling (capsule_of (contents_of loaded.now.items) recipe.now)) }
    ensures cause { WriteFails WriteFault.Write (O.seen out.old) (O.seen out.new) result }
{
    match build_pieces(alloc, recipe, loaded) {
        Ok(pieces) => write_pieces(pieces.as_slice(), out),
        Err(BuildFault::Memory) => Err(WriteFault::Memory),
        Err(BuildFault::TooLarge) => unreachable!(),
    }
}

/// Writes the capsule at the front of a file, without its lead and its pads.
fn write_rebuilt<O: Sink>(alloc: Global, file: &[u8], out: &mut O) -> Result<(), WriteFault>
    requires { refusal file.now ≡ None }
    ensures ok { OnOk result (AppendsAll (O.seen out.old) (O.seen out.new)
        (spelling (emptied (capsule_read file.now)))) }
    ensures err { AppendsFront (O.seen out.old) (O.seen out.new)
        (spelling (emptied (capsule_read file.now))) }
    ensures cause { WriteFails WriteFault.Write (O.seen out.old) (O.seen out.new) result }
{
    match rebuild_pieces(alloc, file) {
        Ok(pieces) => write_pieces(pieces.as_slice(), out),
        Err(DecodeFault::Memory) => Err(WriteFault::Memory),
        Err(DecodeFault::Refused(_)) => unreachable!(),
    }
}

/// Writes pieces, one after the other.
fn write_pieces<O: Sink>(pieces: &[Piece<'_>], out: &mut O) -> Result<(), WriteFault>
    ensures ok { OnOk result (AppendsAll (O.seen out.old) (O.seen out.new) (joined pieces.now)) }
    ensures err { AppendsFront (O.seen out.old) (O.seen out.new) (joined pieces.now) }
    ensures cause { WriteFails WriteFault.Write (O.seen out.old) (O.seen out.new) result }
{
    for piece in pieces {
        write_whole(out, piece.as_slice())?;
    }
    Ok(())
}
