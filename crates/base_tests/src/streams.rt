ghost use Rattle.std.specs.Prelude.{◌≡◌, IfOk};

mod short;

use cu_base::{Blob, NoMemory, Numbers, Text};
use cu_io::{
    FileInputs, Inputs, Loaded, MemInputs, MemSink, MemSource, NoFaultInputs, NoFaultSink,
    OpenFault, ReadFault, Room, SinkFault, Source, Stream, StreamFault, WriteFault, read_whole,
    write_whole,
};
use std::alloc::Global;
use std::fmt::Display;
use std::process::Abort;
use std::test::Fail;

/// A source in memory of these bytes.
fn source(rt: &impl AllocGlobal, bytes: &[u8], fails: &[u64]) -> Result<MemSource, NoMemory> {
    let bytes = Blob::from_slice(rt.alloc(), bytes)?;
    Ok(MemSource::new(bytes, Numbers::from_slice(rt.alloc(), fails)?))
}

/// What reading the bytes whole answers: the bytes, or the fault.
fn expect_read(
    rt: &(impl Abort + AllocGlobal),
    bytes: &[u8],
    fails: &[u64],
    limit: u32,
    expected: Result<&[u8], ReadFault>,
) -> Result<(), NoMemory> {
    let mut source = source(rt, bytes, fails)?;
    match read_whole(rt.alloc(), &mut source, limit) {
        Ok(all) => assert!(rt; expected == Ok(all.as_slice())),
        Err(fault) => assert!(rt; expected == Err(fault)),
    }
    Ok(())
}

#[test]
fn a_source_is_read_whole_up_to_its_limit(rt: HostRuntime) -> Result<(), Fail> {
    expect_read(&rt, b"abc", &[], 3, Ok(b"abc".as_slice()))?;
    expect_read(&rt, b"abc", &[], 2, Err(ReadFault::TooLong))?;
    expect_read(&rt, b"", &[], 0, Ok(b"".as_slice()))?;
    Ok(())
}

#[test]
fn a_source_fails_at_the_numbered_reads(rt: HostRuntime) -> Result<(), Fail> {
    expect_read(&rt, b"abc", &[1], 3, Err(ReadFault::Read))?;
    expect_read(&rt, b"abc", &[2], 3, Err(ReadFault::Read))?;
    expect_read(&rt, b"abc", &[3], 3, Ok(b"abc".as_slice()))?;
    Ok(())
}

/// The stream of a source in memory of these bytes.
fn stream(rt: &impl AllocGlobal, bytes: &[u8], fails: &[u64]) -> Result<Stream<MemSource>, NoMemory>
    ensures { IfOk result (λ stream. stream.place ≡ 0) }
{
    let source = source(rt, bytes, fails)?;
    let room = Room::new(rt.alloc())?;
    Ok(Stream::new(source, room))
}

/// Ends a stream, and compares how many bytes its source gave and how often it failed.
fn expect_counts(rt: &impl Abort, stream: Stream<MemSource>, taken: u64, faults: u64) {
    let source = stream.into_source();
    assert_eq!(rt; source.taken(), taken);
    assert_eq!(rt; source.faults(), faults);
}

#[test]
fn a_stream_fills_and_passes_in_order(rt: HostRuntime) -> Result<(), Fail> {
    let mut stream = stream(&rt, b"abcdef", &[])?;
    let mut out = [b'.'; 2];
    assert!(rt; stream.fill(&mut out).is_ok());
    assert!(rt; out == *b"ab");
    assert!(rt; stream.pass(2).is_ok());
    assert_eq!(rt; stream.place(), 4);
    assert!(rt; stream.fill(&mut out).is_ok());
    assert!(rt; out == *b"ef");
    expect_counts(&rt, stream, 6, 0);
    Ok(())
}

#[test]
fn a_stream_ends_within_a_fill(rt: HostRuntime) -> Result<(), Fail> {
    let mut stream = stream(&rt, b"abc", &[])?;
    let mut out = [b'.'; 5];
    assert!(rt; stream.fill(&mut out) == Err(StreamFault::Ended));
    assert!(rt; &out[..3] == b"abc".as_slice());
    assert_eq!(rt; stream.place(), 3);
    assert!(rt; stream.fill(&mut []).is_ok());
    assert!(rt; stream.fill(&mut out) == Err(StreamFault::Ended));
    expect_counts(&rt, stream, 3, 0);
    Ok(())
}

#[test]
fn a_stream_ends_within_a_pass(rt: HostRuntime) -> Result<(), Fail> {
    let mut stream = stream(&rt, b"abc", &[])?;
    assert!(rt; stream.pass(4) == Err(StreamFault::Ended));
    assert_eq!(rt; stream.place(), 3);
    assert!(rt; stream.pass(0).is_ok());
    assert!(rt; stream.pass(1) == Err(StreamFault::Ended));
    expect_counts(&rt, stream, 3, 0);
    Ok(())
}

/// The first read fills, the second fails and takes nothing, and the third goes on.
#[test]
fn a_stream_goes_on_behind_a_failed_read(rt: HostRuntime) -> Result<(), Fail> {
    let mut stream = stream(&rt, b"abcdef", &[2])?;
    let mut out = [b'.'; 2];
    assert!(rt; stream.fill(&mut out).is_ok());
    assert!(rt; stream.pass(2) == Err(StreamFault::Failed));
    assert_eq!(rt; stream.place(), 2);
    assert!(rt; stream.fill(&mut out).is_ok());
    assert!(rt; out == *b"cd");
    expect_counts(&rt, stream, 4, 1);
    Ok(())
}

/// A pass of one byte more than one read takes, and a fill of more than is left: the second read
/// fails.
#[test]
fn a_stream_fails_within_a_call(rt: HostRuntime) -> Result<(), Fail> {
    let mut passing = stream(&rt, &[0; 65_537], &[2])?;
    assert!(rt; passing.pass(65_537) == Err(StreamFault::Failed));
    assert_eq!(rt; passing.place(), 65_536);
    assert!(rt; passing.pass(1).is_ok());
    expect_counts(&rt, passing, 65_537, 1);
    let mut filling = stream(&rt, b"abc", &[2])?;
    assert!(rt; filling.fill(&mut [0; 5]) == Err(StreamFault::Failed));
    assert_eq!(rt; filling.place(), 3);
    expect_counts(&rt, filling, 3, 1);
    Ok(())
}

#[test]
fn a_sink_fails_at_the_numbered_writes(rt: HostRuntime) -> Result<(), Fail> {
    let mut sink = MemSink::new(rt.alloc(), Numbers::from_slice(rt.alloc(), &[2])?);
    assert!(rt; write_whole(&mut sink, b"abc").is_ok());
    assert!(rt; write_whole(&mut sink, b"d") == Err(WriteFault::Write));
    assert!(rt; write_whole(&mut sink, b"ef").is_ok());
    assert!(rt; sink.as_slice() == b"abcef".as_slice());
    Ok(())
}

#[test]
fn an_input_is_opened_by_its_name(rt: HostRuntime) -> Result<(), Fail> {
    let alloc = rt.alloc();
    let mut inputs = MemInputs::new(
        alloc,
        Numbers::from_slice(alloc, &[3])?,
        Numbers::new(alloc),
    );
    let name = Text::from_str(alloc, "a")?;
    inputs.add(
        Text::from_str(alloc, "a")?,
        Blob::from_slice(alloc, b"xyz")?,
    )?;
    let mut opened = inputs.open(alloc, &name)?;
    let all = read_whole(alloc, &mut opened, 9)?;
    assert!(rt; all.as_slice() == b"xyz".as_slice());
    inputs.fold(opened);
    let missing = inputs.open(alloc, &Text::from_str(alloc, "b")?);
    assert!(rt; matches!(&missing, Err(OpenFault::Missing)));
    let struck = inputs.open(alloc, &name);
    assert!(rt; matches!(&struck, Err(OpenFault::Failed)));
    Ok(())
}

#[test]
fn inputs_without_faults_give_their_bytes(rt: HostRuntime) -> Result<(), Fail> {
    let alloc = rt.alloc();
    let mut inputs = NoFaultInputs::new(alloc);
    inputs.add(
        Text::from_str(alloc, "a")?,
        Blob::from_slice(alloc, b"xyz")?,
    )?;
    let mut opened = inputs.open(alloc, &Text::from_str(alloc, "a")?)?;
    let all = read_whole(alloc, &mut opened, 3)?;
    let mut sink = NoFaultSink::new(alloc);
    write_whole(&mut sink, all.as_slice())?;
    assert!(rt; sink.as_slice() == b"xyz".as_slice());
    inputs.fold(opened);
    Ok(())
}

#[test]
fn loaded_inputs_are_found_by_name(rt: HostRuntime) -> Result<(), Fail> {
    let alloc = rt.alloc();
    let mut loaded = Loaded::new(alloc);
    loaded.reserve(1)?;
    loaded.push((
        Text::from_str(alloc, "a")?,
        Blob::from_slice(alloc, b"xyz")?,
    ))?;
    assert_eq!(rt; loaded.len(), 1);
    assert!(rt; loaded.get("a") == Some(b"xyz".as_slice()));
    assert!(rt; loaded.get("b").is_none());
    Ok(())
}

#[test]
fn files_are_read_and_missing_ones_counted(rt: HostRuntime) -> Result<(), Fail> {
    let alloc = rt.alloc();
    let mut inputs = FileInputs::new(alloc, &rt);
    let mut opened = inputs.open(alloc, &Text::from_str(alloc, "/dev/null")?)?;
    let all = read_whole(alloc, &mut opened, 9)?;
    assert_eq!(rt; all.len(), 0);
    inputs.fold(opened);
    let missing = inputs.open(alloc, &Text::from_str(alloc, "/no/such/file")?);
    assert!(rt; matches!(&missing, Err(OpenFault::Failed)));
    Ok(())
}

/// Compares what a fault is told as.
fn expect_text(
    rt: &(impl Abort + AllocGlobal),
    fault: &impl Display,
    text: &str,
) -> Result<(), Fail> {
    let told = format!(in rt.alloc(); "{fault}")?;
    assert!(rt; told.as_str() == text);
    Ok(())
}

#[test]
fn faults_are_told_in_words(rt: HostRuntime) -> Result<(), Fail> {
    expect_text(&rt, &OpenFault::Missing, "there is no input of this name")?;
    expect_text(&rt, &OpenFault::Failed, "the input could not be opened")?;
    expect_text(&rt, &OpenFault::Memory, "out of memory")?;
    expect_text(&rt, &ReadFault::Read, "a read failed")?;
    expect_text(
        &rt,
        &ReadFault::TooLong,
        "the input is longer than its limit",
    )?;
    expect_text(&rt, &ReadFault::Memory, "out of memory")?;
    expect_text(&rt, &StreamFault::Ended, "the input ends here")?;
    expect_text(&rt, &StreamFault::Failed, "a read failed")?;
    expect_text(&rt, &SinkFault::Failed, "the sink failed")?;
    expect_text(&rt, &SinkFault::Memory, "out of memory")?;
    expect_text(&rt, &WriteFault::Write, "a write failed")?;
    expect_text(&rt, &WriteFault::Memory, "out of memory")?;
    Ok(())
}
