//! The text of a trace with a line of each kind.

use crate::platform::{SYS, board, text};
use cu_base::{EfiStatus, EfiTime, Guid, Items, Ticket};
use reset_play::{
    Answer, BootEnd, CapsuleResult, End, Entry, EsrtEntry, Event, FmpResult, FolderFile, Kind,
    Report, ResultVar, Script, Snapshot, StagedPair, Trace, UnitKey, UnitLine, trace_text,
};
use std::alloc::Global;
use std::process::Abort;

const FMP: [u8; 16] = [
    0xED, 0xD5, 0xCB, 0x6D, 0x2D, 0xE8, 0x44, 0x4C, 0xBD, 0xA1, 0x71, 0x94, 0x19, 0x9A, 0xD9, 0x2A,
];

fn line(
    alloc: Global,
    rt: &impl Abort,
    kind: Kind,
    route: u8,
    device: u8,
    code: u64,
    number: u16,
) -> UnitLine {
    UnitLine {
        kind,
        key: UnitKey {
            ticket: Ticket {
                route,
                capsule: 1,
                item: 2,
                serial: 7,
            },
            unit: 0,
            device,
            name: text(alloc, rt, "a.cap"),
        },
        version: 4,
        end: Some(End::Sealed),
        status: EfiStatus { code },
        result: number,
    }
}

fn entry(answer: Answer) -> Entry {
    Entry {
        opened: None,
        pending: None,
        answer,
    }
}

fn booted(alloc: Global, rt: &impl Abort) -> Answer {
    let mut report = Report::new(alloc);
    for (kind, route, device, code, number) in [
        (Kind::Try, 1, 0, 0, 0),
        (Kind::Heal, 1, 0, 0x8000_0000_0000_0015, 0x1A2B),
        (Kind::Skip, 0, 255, 0x8000_0000_0000_0003, 9),
        (Kind::NoTarget, 0, 255, 0x8000_0000_0000_0003, 0xF),
        (Kind::Bad, 0, 255, 0x8000_0000_0000_0001, 0xFFFF),
    ] {
        let line = line(alloc, rt, kind, route, device, code, number);
        assert!(rt; report.lines.push(line).is_ok());
    }
    Answer::Booted(report, BootEnd::Volume)
}

fn shown(alloc: Global, rt: &impl Abort) -> Answer {
    let mut esrt = Items::new(alloc);
    let entry = EsrtEntry {
        class: Guid { bytes: SYS },
        fw_type: 1,
        version: 4,
        lowest: 3,
        flags: 0,
        last_version: 4,
        last_status: 0,
    };
    assert!(rt; esrt.push(entry).is_ok());
    let time = EfiTime {
        year: 2024,
        month: 5,
        day: 6,
        hour: 7,
        minute: 8,
        second: 9,
        nanosecond: 0,
        zone: 0x07FF,
        daylight: 0,
        pad1: 0,
        pad2: 0,
    };
    let mut results = Items::new(alloc);
    for (number, target) in [(0, "sys"), (1, "")] {
        let fmp = FmpResult {
            payload: 0,
            index: 1,
            type_id: Guid { bytes: SYS },
            file: text(alloc, rt, "sys.cap"),
            target: text(alloc, rt, target),
        };
        let variable = ResultVar {
            guid: Guid { bytes: FMP },
            time,
            status: EfiStatus { code: 0 },
            fmp: Some(fmp),
        };
        assert!(rt; results.push(CapsuleResult { number, variable }).is_ok());
    }
    let mut files = Items::new(alloc);
    let file = FolderFile {
        name: text(alloc, rt, "b.cap"),
        serial: 12,
        size: 110,
    };
    assert!(rt; files.push(file).is_ok());
    let mut staged = Items::new(alloc);
    let pair = StagedPair {
        serial: 3,
        address: 0xF00D,
    };
    assert!(rt; staged.push(pair).is_ok());
    Answer::Shown(Snapshot {
        esrt,
        results,
        last: Some(1),
        files,
        staged,
    })
}

#[test]
fn lines_of_a_trace(rt: HostRuntime) {
    let alloc = rt.alloc();
    let mut script: Script = Items::new(alloc);
    let mut trace: Trace = Items::new(alloc);
    let delivery = Event::Drop {
        file: text(alloc, &rt, "a.cap"),
        input: text(alloc, &rt, "c4"),
    };
    for (event, answer) in [
        (delivery, Answer::Serial(18_446_744_073_709_551_615)),
        (Event::Signal, Answer::NoBank),
        (Event::Stage { at: 4096 }, Answer::Unsupported),
        (Event::Boot, booted(alloc, &rt)),
        (Event::Show, shown(alloc, &rt)),
    ] {
        assert!(rt; script.push(event).is_ok());
        assert!(rt; trace.push(entry(answer)).is_ok());
    }
    let text = trace_text(alloc, &board(alloc, &rt, 0), &script, &trace).expect(&rt, "memory");
    let want = "1 drop ok 18446744073709551615
2 signal nobank
3 stage unsupported
  try file:a.cap 1 2 sys 0 4 Capsule0000
  heal file:a.cap 1 2 sys 21 4 Capsule1A2B
  skip mem:7 1 - - 3 - Capsule0009
  none mem:7 1 2 - 3 - Capsule000F
  bad mem:7 - - - 1 - CapsuleFFFF
4 boot volume
  esrt aaaaaaaa-0000-0000-0000-000000000001 1 4 3 0 4 0
  result Capsule0000 0 6dcbd5ed-e82d-4c44-bda1-7194199ad92a 0 1 sys.cap sys
  result Capsule0001 0 6dcbd5ed-e82d-4c44-bda1-7194199ad92a 0 1 sys.cap -
  last Capsule0001
  file b.cap 12 110
  staged 3 f00d
5 show ok
done 5
";
    assert_eq!(rt; text.as_str(), want);
}
