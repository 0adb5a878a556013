//! Scripts that are played on a bench in memory.

use crate::bench::{bench, board, check_regions};
use bench_model::{Choice, is_file_name};
use bench_play::{Answer, BootEnd, Event, Trace, play};
use cu_base::{Blob, Text};
use cu_io::Loaded;
use fmp_slot::OneBank;
use std::process::Abort;
use std::test::Fail;

/// What an answer tells, of a boot its steps, its lines and its end.
#[derive(Clone, Copy, Debug, PartialEq, Eq)]
enum Outcome {
    Done,
    Serial(u64),
    Booted(u32, usize, BootEnd),
    Other,
}

/// What an answer tells.
fn told(answer: &Answer) -> Outcome {
    match answer {
        Answer::Done => Outcome::Done,
        Answer::Serial(serial) => Outcome::Serial(*serial),
        Answer::Booted(report, end) => Outcome::Booted(report.steps, report.lines.len(), *end),
        _ => Outcome::Other,
    }
}

/// A file that is no capsule is dropped, the capsule files are asked for, and the power is cut where
/// the gate of the batch opens that closes the unit. The next boot finds the result stored.
#[test]
fn a_cut_boot_is_finished_by_the_next(rt: HostRuntime) -> Result<(), Fail> {
    let alloc = rt.alloc();
    let board = board(&rt)?;
    let mut bench = bench(&rt, &board)?;
    let mut loaded = Loaded::new(alloc);
    loaded.push((Text::from_str(alloc, "x")?, Blob::from_slice(alloc, b"x")?))?;
    let file = Text::from_str(alloc, "bad.cap")?;
    let input = Text::from_str(alloc, "x")?;
    assert!(rt; is_file_name(file.as_str()));
    match loaded.get(input.as_str()) {
        Some(bytes) => assert!(rt; bytes.len() <= 1000),
        None => panic!(rt; "it is not loaded"),
    }
    let events = [
        Event::Drop { file, input },
        Event::Signal,
        Event::Arm {
            after: 5,
            choice: Choice::New,
        },
        Event::Boot,
        Event::Reset { cold: true },
        Event::Boot,
        Event::Boot,
    ];
    check_regions(&rt, &board, &bench);
    assert!(rt; bench.order_room() >= events.len());
    let mut trace = Trace::new(alloc);
    play(
        alloc, &board, &events, &loaded, &OneBank, &mut bench, &mut trace,
    )?;
    let wanted = [
        (None, None, Outcome::Serial(1)),
        (Some(0), None, Outcome::Done),
        (None, None, Outcome::Done),
        (Some(1), Some(2), Outcome::Booted(0, 0, BootEnd::Flash)),
        (None, None, Outcome::Done),
        (Some(2), None, Outcome::Booted(2, 0, BootEnd::Ok)),
        (Some(3), None, Outcome::Booted(0, 0, BootEnd::Ok)),
    ];
    assert_eq!(rt; trace.len(), wanted.len());
    for (entry, wanted) in trace.as_slice().iter().zip(wanted) {
        assert_eq!(rt; (entry.opened, entry.pending, told(&entry.answer)), wanted);
    }
    Ok(())
}
