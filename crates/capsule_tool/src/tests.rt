//! Runs over inputs and sinks in memory: calls that fail, and the trace of a play. What the program
//! answers where no call fails is shown by runs of the built one, in the repository's tables of
//! runs.

use super::*;
use cu_base::{Blob, Numbers};
use cu_io::{Inputs, MemInputs, MemSink, NoFaultInputs, NoFaultSink, Sink};
use reset_play::{Answer, BootEnd};
use std::process::Abort;
use std::test::Fail;

/// A capsule of 32 bytes with a GUID that is not FMP's.
const SMALLEST: &[u8] = b"\x11\x11\x11\x11\x22\x22\x33\x33\x44\x44\x55\x55\x55\x55\x55\x55\
    \x1c\0\0\0\0\0\x01\0\x20\0\0\0\xde\xad\xbe\xef";

/// A capsule of 76 bytes with one item, an image header of version 1 without an image.
const ONE_ITEM: &[u8] = b"\xed\xd5\xcb\x6d\x2d\xe8\x44\x4c\xbd\xa1\x71\x94\x19\x9a\xd9\x2a\
    \x1c\0\0\0\0\0\x05\0\x4c\0\0\0\
    \x01\0\0\0\0\0\x01\0\x10\0\0\0\0\0\0\0\
    \x01\0\0\0\0\0\0\0\0\0\0\0\0\0\0\0\0\0\0\0\0\0\0\0\0\0\0\0\0\0\0\0";

/// An FMP header of version 2 and 48 bytes behind it.
const VERSION_2: &[u8] = b"\xed\xd5\xcb\x6d\x2d\xe8\x44\x4c\xbd\xa1\x71\x94\x19\x9a\xd9\x2a\
    \x1c\0\0\0\0\0\x05\0\x54\0\0\0\x02\0\0\0\0\0\x02\0\
    \0\0\0\0\0\0\0\0\0\0\0\0\0\0\0\0\0\0\0\0\0\0\0\0\0\0\0\0\0\0\0\0\0\0\0\0\0\0\0\0\0\0\0\0\0\0\0\0";

/// Runs the words, with no contract, so that no test carries that of `run` into its goals.
fn run_words<I: Inputs, O: Sink>(
    alloc: Global,
    words: &[&str],
    inputs: &mut I,
    out: &mut O,
) -> Result<Outcome, NoMemory> {
    let mut list = Names::new(alloc);
    for word in words {
        list.push(Text::from_str(alloc, *word)?)?;
    }
    let mut bench = MemBench::new(alloc);
    Ok(run(alloc, list.as_slice(), inputs, &mut bench, out))
}

/// A run over the input `a.cap`, the numbers of the calls that fail (of opening, of reading, of
/// writing), and the status and text that it ends with.
#[derive(Clone, Copy)]
struct Case<'a> {
    words: &'a [&'a str],
    bytes: &'a [u8],
    open: &'a [u64],
    read: &'a [u64],
    write: &'a [u64],
    status: u8,
    text: &'a str,
}

/// A check of a capsule where no call fails.
const CHECK: Case<'static> = Case {
    words: &["check", "a.cap"],
    bytes: SMALLEST,
    open: &[],
    read: &[],
    write: &[],
    status: 0,
    text: "ok 32\n",
};

/// A check that ends since `a.cap` is not read.
const UNREAD: Case<'static> = Case {
    status: 4,
    text: "unread a.cap\n",
    ..CHECK
};

/// A run that ends since nothing can be written.
const UNWRITTEN: Case<'static> = Case {
    write: &[1],
    status: 5,
    text: "",
    ..CHECK
};

/// Runs a case, and compares status and what was written.
fn expect(rt: &(impl Abort + AllocGlobal), name: &str, case: &Case<'_>) -> Result<(), NoMemory> {
    let alloc = rt.alloc();
    let open_fails = Numbers::from_slice(alloc, case.open)?;
    let read_fails = Numbers::from_slice(alloc, case.read)?;
    let mut inputs = MemInputs::new(alloc, open_fails, read_fails);
    inputs.add(
        Text::from_str(alloc, "a.cap")?,
        Blob::from_slice(alloc, case.bytes)?,
    )?;
    let mut out = MemSink::new(alloc, Numbers::from_slice(alloc, case.write)?);
    let outcome = run_words(alloc, case.words, &mut inputs, &mut out)?;
    let same = outcome.status == case.status && out.as_slice() == case.text.as_bytes();
    assert!(rt; same, "{}", name);
    Ok(())
}

/// The reads of a capsule of 32 bytes are its header, the rest, and the end.
#[test]
fn answers_failing_calls(rt: HostRuntime) -> Result<(), Fail> {
    let cases = [
        ("no call", CHECK),
        (
            "open",
            Case {
                open: &[1],
                ..UNREAD
            },
        ),
        (
            "first read",
            Case {
                read: &[1],
                ..UNREAD
            },
        ),
        (
            "second read",
            Case {
                read: &[2],
                ..UNREAD
            },
        ),
        (
            "third read",
            Case {
                read: &[3],
                ..UNREAD
            },
        ),
        (
            "fourth read",
            Case {
                read: &[4],
                ..CHECK
            },
        ),
        ("write", UNWRITTEN),
        (
            "write of unread",
            Case {
                words: &["check", "none"],
                ..UNWRITTEN
            },
        ),
        (
            "write of usage",
            Case {
                words: &["chek", "x"],
                ..UNWRITTEN
            },
        ),
        (
            "write of a text",
            Case {
                words: &["show", "a.cap"],
                ..UNWRITTEN
            },
        ),
        (
            "write of a capsule",
            Case {
                words: &["rebuild", "a.cap"],
                ..UNWRITTEN
            },
        ),
    ];
    for (name, case) in &cases {
        expect(&rt, *name, case)?;
    }
    Ok(())
}

/// The reads of a capsule with one item: its header, the FMP header, the offset list, the image
/// header, the end. Behind an FMP header of version 2 the third is that of the rest.
#[test]
fn each_read_of_a_capsule_may_fail(rt: HostRuntime) -> Result<(), Fail> {
    for read in 1..6u64 {
        expect(
            &rt,
            "a read",
            &Case {
                bytes: ONE_ITEM,
                read: &[read],
                ..UNREAD
            },
        )?;
    }
    let whole = Case {
        bytes: ONE_ITEM,
        read: &[6],
        text: "ok 76\n",
        ..CHECK
    };
    expect(&rt, "behind the last", &whole)?;
    expect(
        &rt,
        "version 2",
        &Case {
            bytes: VERSION_2,
            read: &[3],
            ..UNREAD
        },
    )?;
    Ok(())
}

/// A board of one device, which admits no image.
const BOARD: &[u8] = b"bank = 65536\nresult_max = 15\ndigests = []\n[[device]]\nname = \"sys\"\n\
    type = \"aaaaaaaa-0000-0000-0000-000000000001\"\nindex = 1\ninstance = 0\nfw_type = 1\n\
    capacity = 33554432\nversion = 3\nfloor = 2\nflags = 0\n";

/// A thin delivery of version 4.
const DELIVERY: &[u8] = b"\xed\xd5\xcb\x6d\x2d\xe8\x44\x4c\xbd\xa1\x71\x94\x19\x9a\xd9\x2a\
    \x1c\0\0\0\0\0\x05\0\x6e\0\0\0\x01\0\0\0\0\0\x01\0\x10\0\0\0\0\0\0\0\
    \x03\0\0\0\xaa\xaa\xaa\xaa\0\0\0\0\0\0\0\0\0\0\0\x01\x01\0\0\0\x12\0\0\0\
    \0\0\0\0\0\0\0\0\0\0\0\0\0\0\0\0\0\0\0\0MSS1\x10\0\0\0\x04\0\0\0\x03\0\0\0PQ";

/// What a play of two drops, a signal and a boot tells of each event.
#[test]
fn a_trace_tells_each_event(rt: HostRuntime) -> Result<(), Fail> {
    let alloc = rt.alloc();
    let mut inputs = NoFaultInputs::new(alloc);
    let script = b"drop a.cap c4\ndrop b.cap c4\nsignal\nboot\n";
    inputs.add(
        Text::from_str(alloc, "k.toml")?,
        Blob::from_slice(alloc, BOARD)?,
    )?;
    inputs.add(
        Text::from_str(alloc, "script")?,
        Blob::from_slice(alloc, script)?,
    )?;
    inputs.add(
        Text::from_str(alloc, "c4")?,
        Blob::from_slice(alloc, DELIVERY)?,
    )?;
    let mut out = NoFaultSink::new(alloc);
    let outcome = run_words(alloc, &["play", "k.toml", "script"], &mut inputs, &mut out)?;
    match outcome.trace.as_slice() {
        [first, second, signal, boot] => {
            assert!(rt; matches!(&first.answer, Answer::Serial(1)));
            assert!(rt; matches!(&second.answer, Answer::Serial(2)));
            assert!(rt; matches!(&signal.answer, Answer::Done));
            assert!(rt; matches!(&boot.answer, Answer::Booted(_, BootEnd::Ok)));
        }
        trace => assert!(rt; false, "a trace of {} entries", trace.len()),
    }
    Ok(())
}
