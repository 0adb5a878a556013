//! A file is judged as it is read: its headers and its offset list are looked at, and all else is
//! passed by.

ghost use Rattle.std.specs.Prelude.{◌≡◌, ℕ, ◌+◌, ◌-◌, ◌^◌, ◌≤◌, ◌<◌, List, [], drop, length, IfOk};
ghost use Rattle.std.specs.Prelude.{Err, IsErrOf};
ghost use Rattle.std.specs.Io.KnownBytes.{IsAtEnd};
ghost use Rattle.cu_base.specs.Causes.{HasCauseOf};
ghost use Rattle.cu_io.specs.Streams.{Goes, Passes};
ghost use Rattle.capsule_grammar.specs.Refusals.{fmp_rows};
ghost use Rattle.capsule_tool.specs.Verdicts.{verdict_of};
ghost use Rattle.capsule_tool.specs.Scans.{Scans, ScansFile, IsFound};

mod body;
mod stop;

use crate::verdict::Verdict;
use body::scan_body;
use capsule_grammar::{Refusal, check_capsule_header, is_fmp_guid};
use cu_base::MAX_CAPSULE_BYTES;
use cu_io::{ReadFault, Source, Stream, StreamFault};
use fmp_headers::{CAPSULE_HEADER_BYTES, CapsuleHeader, HeaderFault};
use std::alloc::Global;
use stop::ScanStop;

/// Judges the file that a stream begins, which is read to its end. TooLong comes exactly where it
/// has more than 67,108,864 bytes, after one more was taken, and Read only where the source's count
/// rose.
pub fn judge_stream<S: Source>(alloc: Global, stream: &mut Stream<S>) -> Result<Verdict, ReadFault>
    requires begun { stream.old.place ≡ 0 }
    ensures judged { IfOk result (λ verdict. (bytes : List ℕ) × Goes bytes stream.old stream.new
        × IsAtEnd stream.new.left × (length bytes ≤ MAX_CAPSULE_BYTES)
        × (verdict ≡ verdict_of bytes)) }
    ensures too_long { IsErrOf result ReadFault.TooLong
        → Passes (MAX_CAPSULE_BYTES + 1) stream.old stream.new }
    ensures cause { HasCauseOf ReadFault.Read stream.old.faults stream.new.faults result }
{
    let mut read = Err(HeaderFault::Short);
    match scan(alloc, stream, &mut read) {
        Ok(()) => judge_rest(stream, read, Ok(())),
        Err(ScanStop::Refused(refusal)) => judge_rest(stream, read, Err(refusal)),
        Err(ScanStop::Ended) => Ok(verdict(read, stream.place(), Ok(()))),
        Err(ScanStop::Failed) => Err(ReadFault::Read),
        Err(ScanStop::Memory) => Err(ReadFault::Memory),
    }
}

/// Passes by the rest of a file, whose header was read, and judges it by what was found of its
/// body.
fn judge_rest<S: Source>(
    stream: &mut Stream<S>,
    read: Result<CapsuleHeader, HeaderFault>,
    found: Result<(), Refusal>,
) -> Result<Verdict, ReadFault>
    requires place { stream.old.place ≤ MAX_CAPSULE_BYTES }
    ensures judged { IfOk result (λ verdict. (rest : List ℕ) × Goes rest stream.old stream.new
        × IsAtEnd stream.new.left × (stream.new.place ≤ MAX_CAPSULE_BYTES)
        × ((file : List ℕ) → IsFound read stream.new.place found file
        → verdict ≡ verdict_of file)) }
    ensures too_long { IsErrOf result ReadFault.TooLong
        → Passes (MAX_CAPSULE_BYTES + 1 - stream.old.place) stream.old stream.new }
    ensures cause { HasCauseOf ReadFault.Read stream.old.faults stream.new.faults result }
{
    match stream.pass(MAX_CAPSULE_BYTES as u64 + 1 - stream.place()) {
        Ok(()) => Err(ReadFault::TooLong),
        Err(StreamFault::Ended) => Ok(verdict(read, stream.place(), found)),
        Err(StreamFault::Failed) => Err(ReadFault::Read),
    }
}

/// The verdict on a file of `size` bytes, by the header that was read at its front and by what was
/// found of its body.
fn verdict(
    read: Result<CapsuleHeader, HeaderFault>,
    size: u64,
    found: Result<(), Refusal>,
) -> Verdict
    requires small { size < 2 ^ 32 }
    ensures { (file : List ℕ) → IsFound read size found file → result ≡ verdict_of file }
{
    match check_capsule_header(read, size) {
        Err(refusal) => Verdict::Refused(refusal),
        Ok(header) => match found {
            Err(refusal) => Verdict::Refused(refusal),
            Ok(()) if (header.image_size as u64) < size => {
                Verdict::Trailing(header.image_size as usize)
            }
            Ok(()) => Verdict::Whole(header.image_size as usize),
        },
    }
}

/// Scans a file as far as its headers say, and keeps the header that was read.
fn scan<S: Source>(
    alloc: Global,
    stream: &mut Stream<S>,
    read: &mut Result<CapsuleHeader, HeaderFault>,
) -> Result<(), ScanStop>
    requires begun { stream.old.place ≡ 0 }
    requires short { read.old ≡ Err HeaderFault.Short }
    ensures scan { ScansFile read.new stream.old stream.new result }
    ensures counts { stream.old.faults ≤ stream.new.faults }
{
    let mut head = [0u8; CAPSULE_HEADER_BYTES as usize];
    stream.fill(&mut head)?;
    let found = CapsuleHeader::read(&head);
    *read = found;
    match found {
        Ok(header) if is_fmp_guid(&header.guid) => scan_rest(alloc, stream, &header),
        _ => Ok(()),
    }
}

/// Scans an FMP capsule behind its header, which was read.
fn scan_rest<S: Source>(
    alloc: Global,
    stream: &mut Stream<S>,
    header: &CapsuleHeader,
) -> Result<(), ScanStop>
    requires low { 28 ≤ header.now.header_size }
    requires within { header.now.header_size ≤ header.now.image_size }
    requires limit { header.now.image_size ≤ MAX_CAPSULE_BYTES }
    requires begun { stream.old.place ≡ 28 }
    ensures scan { Scans (header.now.image_size - 28)
        (λ rest. fmp_rows (drop (header.now.header_size - 28) rest) header.now.header_size) []
        stream.old stream.new result }
    ensures counts { stream.old.faults ≤ stream.new.faults }
{
    stream.pass((header.header_size - CAPSULE_HEADER_BYTES) as u64)?;
    scan_body(
        alloc,
        stream,
        header.image_size - header.header_size,
        header.header_size,
    )
}
