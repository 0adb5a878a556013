ghost use Rattle.std.specs.Prelude.{◌≡◌, ◌+◌, ◌^◌, ◌<◌, ◌≤◌, [], length, take, IfOk, OnOk, OnErr};
ghost use Rattle.std.specs.Prelude.{IsErrOf};
ghost use Rattle.std.specs.Io.{ReadsAtMost};
ghost use Rattle.std.specs.Io.KnownBytes.{IsAtEnd};
ghost use Rattle.cu_base.specs.Causes.{HasCauseOf};
ghost use Rattle.cu_io.specs.Streams.{Takes, TakesFront, TakesMany, ReadFails};
ghost use Rattle.cu_io.specs.Streams.{come_to, source_of, Goes, Passes, GoesOn, Ends, EndsIn};

use crate::Source;
use crate::read::{PIECE_BYTES, piece};
use cu_base::{Failed, NoMemory};
use std::alloc::Global;
use std::marker::Model;
use thiserror::Error;

/// Why the next bytes of a stream did not come.
#[derive(Clone, Copy, Debug, PartialEq, Eq, Error)]
pub enum StreamFault {
    #[error("the input ends here")]
    Ended,
    #[error("a read failed")]
    Failed,
}

/// Room for the bytes that a stream passes by.
#[derive(Drop)]
pub struct Room {
    piece: Vec<u8>,
}

impl Model for Room {
    ghost use Rattle.std.specs.Prelude.{◌≡◌, ⊤, vec_len};
    ghost use Rattle.cu_io.specs.declared.read.TheConstants.{PIECE_BYTES};

    ghost Value = { ⊤ };

    ghost view = { λ _. tt };

    ghost invariant = { λ room. vec_len room.piece ≡ PIECE_BYTES };
}

impl Room {
    /// Room for one read.
    pub fn new(alloc: Global) -> Result<Room, NoMemory> {
        Ok(Room {
            piece: piece(alloc)?,
        })
    }

    /// Takes the next bytes of a source, at least one and at most `most`, and tells how many came.
    fn take<S: Source>(&mut self, source: &mut S, most: usize) -> Result<usize, StreamFault>
        requires some { 0 < most }
        requires room { most ≤ PIECE_BYTES }
        ensures bound { IfOk result (λ n. (0 < n) × (n ≤ most)) }
        ensures ok { IfOk result (λ n. TakesMany n (S.seen source.old) (S.seen source.new)) }
        ensures err { OnErr result (Takes [] (S.seen source.old) (S.seen source.new)) }
        ensures refused { IsErrOf result StreamFault.Ended → IsAtEnd (S.seen source.new).left }
        ensures cause { ReadFails StreamFault.Failed (S.seen source.old) (S.seen source.new) result }
    {
        take_once(source, &mut self.piece[..most])
    }
}

/// A source that is read in order, of which only what is asked for is kept. Contracts see what is
/// told of the source, and the place that it has come to: how many bytes came since the stream was
/// made.
pub struct Stream<S: Source> {
    source: S,
    room: Room,
    place: u64,
}

impl<S: Source> Model for Stream<S> {
    ghost use Rattle.cu_io.specs.Streams.{Progress, come_to};

    ghost Value = { Progress };

    ghost view = { λ s. come_to (S.seen s.source) s.place };
}

impl<S: Source> Stream<S> {
    /// The stream of a source.
    pub fn new(source: S, room: Room) -> Stream<S>
        ensures { result ≡ come_to (S.seen source) 0 }
    {
        Stream {
            source,
            room,
            place: 0,
        }
    }

    /// The source, as far as it was read.
    pub fn into_source(self) -> S
        ensures { S.seen result ≡ source_of self }
    {
        let Stream {
            source,
            room: _room,
            place: _place,
        } = self;
        source
    }

    /// How many bytes came so far.
    pub fn place(&self) -> u64
        ensures { result ≡ self.now.place }
    {
        self.place
    }

    /// Fills `out` with the next bytes. Ended comes where the source ends before; then what came
    /// stands at the front of `out`. Failed comes only where the source's count rose; then some of
    /// the bytes were taken.
    pub fn fill(&mut self, out: &mut [u8]) -> Result<(), StreamFault>
        requires place { self.old.place + length out.old < 2 ^ 64 }
        ensures ok { OnOk result (Goes out.new self.old self.new) }
        ensures size { length out.new ≡ length out.old }
        ensures refused { IsErrOf result StreamFault.Ended → EndsIn out.new self.old self.new }
        ensures err { OnErr result (GoesOn (length out.old) self.old self.new) }
        ensures cause { HasCauseOf StreamFault.Failed self.old.faults self.new.faults result }
    {
        let mut filled = 0;
        while filled < out.len() {
            filled += self.take(&mut out[filled..])?;
        }
        Ok(())
    }

    /// Passes by the next `n` bytes. Ended comes where the source ends before, Failed only where
    /// its count rose; then some of the bytes were taken.
    pub fn pass(&mut self, n: u64) -> Result<(), StreamFault>
        requires place { self.old.place + n < 2 ^ 64 }
        ensures ok { OnOk result (Passes n self.old self.new) }
        ensures refused { IsErrOf result StreamFault.Ended → Ends n self.old self.new }
        ensures err { OnErr result (GoesOn n self.old self.new) }
        ensures cause { HasCauseOf StreamFault.Failed self.old.faults self.new.faults result }
    {
        let mut passed = 0;
        while passed < n {
            let room = (n - passed).min(PIECE_BYTES as u64) as usize;
            passed += self.take_piece(room)? as u64;
        }
        Ok(())
    }

    /// The next bytes, at least one, at the front of `out`. It tells how many came.
    fn take(&mut self, out: &mut [u8]) -> Result<usize, StreamFault>
        requires room { 0 < length out.old }
        requires place { self.old.place + length out.old < 2 ^ 64 }
        ensures size { length out.new ≡ length out.old }
        ensures bound { IfOk result (λ n. (0 < n) × (n ≤ length out.new)) }
        ensures ok { IfOk result (λ n. Goes (take n out.new) self.old self.new) }
        ensures err { OnErr result (Goes [] self.old self.new) }
        ensures refused { IsErrOf result StreamFault.Ended → IsAtEnd self.new.left }
        ensures cause { HasCauseOf StreamFault.Failed self.old.faults self.new.faults result }
    {
        let n = take_once(&mut self.source, out)?;
        self.place += n as u64;
        Ok(n)
    }

    /// Passes by the next bytes, at least one. It tells how many came.
    fn take_piece(&mut self, most: usize) -> Result<usize, StreamFault>
        requires some { 0 < most }
        requires room { most ≤ PIECE_BYTES }
        requires place { self.old.place + most < 2 ^ 64 }
        ensures bound { IfOk result (λ n. (0 < n) × (n ≤ most)) }
        ensures ok { IfOk result (λ n. Passes n self.old self.new) }
        ensures err { OnErr result (Goes [] self.old self.new) }
        ensures refused { IsErrOf result StreamFault.Ended → IsAtEnd self.new.left }
        ensures cause { HasCauseOf StreamFault.Failed self.old.faults self.new.faults result }
    {
        let n = self.room.take(&mut self.source, most)?;
        self.place += n as u64;
        Ok(n)
    }
}

/// Reads once, and takes at least one byte. It tells how many came, which stand at the front of
/// `out`.
fn take_once<S: Source>(source: &mut S, out: &mut [u8]) -> Result<usize, StreamFault>
    requires room { 0 < length out.old }
    ensures bound { ReadsAtMost result out.new }
    ensures size { length out.new ≡ length out.old }
    ensures ok { IfOk result (λ n. TakesFront n out.new (S.seen source.old) (S.seen source.new)) }
    ensures err { OnErr result (Takes [] (S.seen source.old) (S.seen source.new)) }
    ensures refused { IsErrOf result StreamFault.Ended → IsAtEnd (S.seen source.new).left }
    ensures cause { ReadFails StreamFault.Failed (S.seen source.old) (S.seen source.new) result }
{
    match source.read(out) {
        Ok(0) => Err(StreamFault::Ended),
        Ok(n) => Ok(n),
        Err(Failed) => Err(StreamFault::Failed),
    }
}
