//! A table and a result by hand from the UEFI specification, each refusal of both readers, and each
//! call with ample memory.

use bench_model::{Board, Device, Devices, Digests, is_device_name};
use cu_base::{DevState, EfiStatus, EfiTime, Guid, Items, NoMemory, Text};
use report_tables::{
    Esrt, EsrtEntry, FmpResult, ReportFault, ResultVar, esrt_of, next_number, result_name,
};
use std::process::Abort;
use std::test::Fail;

/// aaaaaaaa-0000-0000-0000-000000000001 and bbbbbbbb-0000-0000-0000-000000000002 as they stand in
/// a table.
const SYSTEM: Guid = Guid {
    bytes: [0xaa, 0xaa, 0xaa, 0xaa, 0, 0, 0, 0, 0, 0, 0, 0, 0, 0, 0, 1],
};

const CONTROLLER: Guid = Guid {
    bytes: [0xbb, 0xbb, 0xbb, 0xbb, 0, 0, 0, 0, 0, 0, 0, 0, 0, 0, 0, 2],
};

const FMP_CAPSULE: Guid = Guid {
    bytes: [
        0xed, 0xd5, 0xcb, 0x6d, 0x2d, 0xe8, 0x44, 0x4c, 0xbd, 0xa1, 0x71, 0x94, 0x19, 0x9a, 0xd9,
        0x2a,
    ],
};

/// A table of the system's firmware at version 4, which was updated, and of a controller at 7.
const TABLE: [u8; 96] = [
    2, 0, 0, 0, 2, 0, 0, 0, 1, 0, 0, 0, 0, 0, 0, 0, //
    0xaa, 0xaa, 0xaa, 0xaa, 0, 0, 0, 0, 0, 0, 0, 0, 0, 0, 0, 1, //
    1, 0, 0, 0, 4, 0, 0, 0, 3, 0, 0, 0, 0, 0, 0, 0, 4, 0, 0, 0, 0, 0, 0, 0, //
    0xbb, 0xbb, 0xbb, 0xbb, 0, 0, 0, 0, 0, 0, 0, 0, 0, 0, 0, 2, //
    2, 0, 0, 0, 7, 0, 0, 0, 7, 0, 0, 0, 0, 0, 0, 0, 0, 0, 0, 0, 0, 0, 0, 0,
];

/// The result of the file `sys.cap` on the device `sys`, a success.
const RESULT: [u8; 92] = [
    0x5c, 0, 0, 0, 0, 0, 0, 0, //
    0xed, 0xd5, 0xcb, 0x6d, 0x2d, 0xe8, 0x44, 0x4c, 0xbd, 0xa1, 0x71, 0x94, 0x19, 0x9a, 0xd9, 0x2a,
    0xe8, 0x07, 5, 6, 7, 8, 9, 0, 0, 0, 0, 0, 0xff, 0x07, 0, 0, //
    0, 0, 0, 0, 0, 0, 0, 0, //
    1, 0, 0, 1, //
    0xaa, 0xaa, 0xaa, 0xaa, 0, 0, 0, 0, 0, 0, 0, 0, 0, 0, 0, 1, //
    b's', 0, b'y', 0, b's', 0, b'.', 0, b'c', 0, b'a', 0, b'p', 0, 0, 0, //
    b's', 0, b'y', 0, b's', 0, 0, 0,
];

fn table_entries() -> [EsrtEntry; 2] {
    [
        EsrtEntry {
            class: SYSTEM,
            fw_type: 1,
            version: 4,
            lowest: 3,
            flags: 0,
            last_version: 4,
            last_status: 0,
        },
        EsrtEntry {
            class: CONTROLLER,
            fw_type: 2,
            version: 7,
            lowest: 7,
            flags: 0,
            last_version: 0,
            last_status: 0,
        },
    ]
}

#[test]
fn a_table_is_written_and_read(rt: HostRuntime) -> Result<(), Fail> {
    let esrt = Esrt {
        entries: Items::from_slice(rt.alloc(), &table_entries())?,
    };
    assert_eq!(rt; esrt.write(rt.alloc())?.as_slice(), &TABLE[..]);
    let read = Esrt::read(rt.alloc(), &TABLE)?;
    assert_eq!(rt; read.entries.as_slice(), &table_entries()[..]);
    Ok(())
}

/// The refusal of a table.
fn table_refusal(rt: &HostRuntime, bytes: &[u8]) -> Option<ReportFault> {
    Esrt::read(rt.alloc(), bytes).err()
}

#[test]
fn the_first_wrong_field_of_a_table_is_told(rt: HostRuntime) {
    for n in 0..TABLE.len() {
        let why = if n < 16 {
            ReportFault::Short
        } else {
            ReportFault::BadSize
        };
        assert_eq!(rt; table_refusal(&rt, &TABLE[..n]), Some(why), "{n}");
    }
    let rows = [
        (4, 3, ReportFault::BadCount),
        (8, 2, ReportFault::BadVersion),
        (15, 1, ReportFault::BadVersion),
    ];
    for (at, byte, why) in rows {
        let mut bytes = TABLE;
        bytes[at] = byte;
        assert_eq!(rt; table_refusal(&rt, &bytes), Some(why), "{at}");
    }
    let mut more = TABLE;
    more[0] = 3;
    more[4] = 3;
    assert_eq!(rt; table_refusal(&rt, &more), Some(ReportFault::BadSize));
    let none = [0, 0, 0, 0, 0, 0, 0, 0, 1, 0, 0, 0, 0, 0, 0, 0];
    assert_eq!(rt; table_refusal(&rt, &none), None);
}

#[test]
fn a_result_is_written_and_read(rt: HostRuntime) -> Result<(), Fail> {
    let result = ResultVar {
        guid: FMP_CAPSULE,
        time: EfiTime::from_text("2024-05-06T07:08:09")?,
        status: EfiStatus::SUCCESS,
        fmp: Some(FmpResult {
            payload: 0,
            index: 1,
            type_id: SYSTEM,
            file: Text::from_str(rt.alloc(), "sys.cap")?,
            target: Text::from_str(rt.alloc(), "sys")?,
        }),
    };
    assert!(rt; result.is_writable());
    assert_eq!(rt; result.write(rt.alloc())?.as_slice(), &RESULT[..]);
    let mut reserved = RESULT;
    reserved[4] = 7;
    let read = ResultVar::read(rt.alloc(), &reserved)?;
    assert_eq!(rt; read.guid, FMP_CAPSULE);
    assert_eq!(rt; read.time, result.time);
    assert_eq!(rt; read.status, EfiStatus::SUCCESS);
    match read.fmp {
        None => assert!(rt; false, "the part on the payload is there"),
        Some(fmp) => {
            assert_eq!(rt; (fmp.payload, fmp.index, fmp.type_id), (0, 1, SYSTEM));
            assert_eq!(rt; fmp.file.as_str(), "sys.cap");
            assert_eq!(rt; fmp.target.as_str(), "sys");
        }
    }
    Ok(())
}

/// The refusal of a result.
fn result_refusal(rt: &HostRuntime, bytes: &[u8]) -> Option<ReportFault> {
    ResultVar::read(rt.alloc(), bytes).err()
}

#[test]
fn the_first_wrong_field_of_a_result_is_told(rt: HostRuntime) {
    for n in 0..RESULT.len() {
        let why = if n < 48 {
            ReportFault::Short
        } else {
            ReportFault::BadSize
        };
        assert_eq!(rt; result_refusal(&rt, &RESULT[..n]), Some(why), "{n}");
    }
    // each front with its own length as VariableTotalSize
    for n in 48..RESULT.len() {
        let mut bytes = RESULT;
        bytes[0] = n as u8;
        let why = if n == 48 {
            None
        } else if n < 68 {
            Some(ReportFault::Short)
        } else {
            Some(ReportFault::NoTerminator)
        };
        assert_eq!(rt; result_refusal(&rt, &bytes[..n]), why, "{n}");
    }
    let rows = [
        (48, 2, ReportFault::BadVersion),
        (68, 0x80, ReportFault::NotAscii),
        (69, 1, ReportFault::NotAscii),
        (83, 1, ReportFault::NotAscii),
        (86, 0x80, ReportFault::NotAscii),
        (91, 1, ReportFault::NoTerminator),
        (86, 0, ReportFault::BadSize),
    ];
    for (at, byte, why) in rows {
        let mut bytes = RESULT;
        bytes[at] = byte;
        assert_eq!(rt; result_refusal(&rt, &bytes), Some(why), "{at}");
    }
}

/// A board of a device for each of these types, in order, with instances from 0.
fn board(rt: &(impl Abort + AllocGlobal), types: &[Guid]) -> Result<Board, NoMemory> {
    let alloc = rt.alloc();
    let names = [
        "d0", "d1", "d2", "d3", "d4", "d5", "d6", "d7", "d8", "d9", "da", "db", "dc", "dd", "de",
        "df",
    ];
    let mut devices = Devices::new(alloc);
    for (name, type_id) in names.iter().zip(types) {
        let instance = devices.len() as u64;
        assert!(rt; is_device_name(name) && instance < 16);
        assert!(rt; !devices.has_name(name) && !devices.has_triple(type_id, 1, instance));
        devices.push(Device {
            name: Text::from_str(alloc, name)?,
            type_id: *type_id,
            index: 1,
            instance,
            fw_type: if instance == 0 { 1 } else { 2 },
            capacity: 64,
            version: 9,
            floor: 9,
            flags: instance as u32,
        })?;
    }
    let mut capacities = 0u64;
    let list = devices.as_slice();
    for device in list {
        assert!(rt; capacities <= 1024);
        capacities += u64::from(device.capacity);
    }
    assert!(rt; capacities <= 1024);
    assert!(rt; !devices.is_empty() && devices.len() <= 16);
    Ok(Board::new(65_536, 2, false, 15, Digests::new(alloc), devices))
}

/// A state of a device.
fn state(version: u32, floor: u32, last_version: u32, last_status: u32) -> DevState {
    DevState {
        version,
        floor,
        last_version,
        last_status,
    }
}

/// The table of devices of these types in these states.
fn table(
    rt: &(impl Abort + AllocGlobal),
    types: &[Guid],
    states: &[DevState],
) -> Result<Esrt, NoMemory> {
    let board = board(rt, types)?;
    assert!(rt; board.devices().len() == states.len());
    esrt_of(rt.alloc(), &board, states)
}

#[test]
fn one_type_has_one_entry(rt: HostRuntime) -> Result<(), Fail> {
    let types = [CONTROLLER, SYSTEM, CONTROLLER];
    let states = [state(8, 5, 8, 0), state(4, 3, 4, 0), state(7, 6, 2, 3)];
    let esrt = table(&rt, &types, &states)?;
    let entries = [
        EsrtEntry {
            class: CONTROLLER,
            fw_type: 1,
            version: 7,
            lowest: 6,
            flags: 0,
            last_version: 2,
            last_status: 3,
        },
        EsrtEntry {
            class: SYSTEM,
            fw_type: 2,
            version: 4,
            lowest: 3,
            flags: 1,
            last_version: 4,
            last_status: 0,
        },
    ];
    assert_eq!(rt; esrt.entries.as_slice(), &entries[..]);
    Ok(())
}

#[test]
fn sixteen_devices_of_one_type_have_one_entry(rt: HostRuntime) -> Result<(), Fail> {
    let mut states = [state(9, 1, 5, 0); 16];
    states[7] = state(3, 1, 6, 4);
    states[12] = state(9, 8, 7, 5);
    let esrt = table(&rt, &[SYSTEM; 16], &states)?;
    let entry = EsrtEntry {
        class: SYSTEM,
        fw_type: 1,
        version: 3,
        lowest: 8,
        flags: 0,
        last_version: 6,
        last_status: 4,
    };
    assert_eq!(rt; esrt.entries.as_slice(), &[entry][..]);
    Ok(())
}

#[test]
fn results_are_numbered_round_and_named(rt: HostRuntime) -> Result<(), Fail> {
    let rows = [
        (None, 3, 0),
        (Some(0), 3, 1),
        (Some(2), 3, 3),
        (Some(3), 3, 0),
        (Some(4), 3, 0),
        (Some(0), 0, 0),
        (Some(0xFFFE), 0xFFFF, 0xFFFF),
        (Some(0xFFFF), 0xFFFF, 0),
    ];
    for (last, most, next) in rows {
        assert_eq!(rt; next_number(last, most), next);
    }
    let names = [
        (0, "Capsule0000"),
        (0x1A2F, "Capsule1A2F"),
        (0xFFFF, "CapsuleFFFF"),
    ];
    for (number, name) in names {
        assert_eq!(rt; result_name(rt.alloc(), number)?.as_str(), name);
    }
    Ok(())
}

#[test]
fn texts_of_a_result_may_be_empty_or_long(rt: HostRuntime) -> Result<(), Fail> {
    let long = "0123456789012345678901234567890123456789";
    for (file, target, size) in [("", "", 72), (long, "sys", 158), ("", long, 152)] {
        let result = ResultVar {
            guid: FMP_CAPSULE,
            time: EfiTime::from_text("2000-01-01T00:00:00")?,
            status: EfiStatus::ABORTED,
            fmp: Some(FmpResult {
                payload: 9,
                index: 8,
                type_id: CONTROLLER,
                file: Text::from_str(rt.alloc(), file)?,
                target: Text::from_str(rt.alloc(), target)?,
            }),
        };
        assert!(rt; result.is_writable());
        let written = result.write(rt.alloc())?;
        assert_eq!(rt; written.as_slice().len(), size);
        let read = ResultVar::read(rt.alloc(), written.as_slice())?;
        match read.fmp {
            None => assert!(rt; false, "the part on the payload is there"),
            Some(fmp) => {
                assert_eq!(rt; fmp.file.as_str(), file);
                assert_eq!(rt; fmp.target.as_str(), target);
            }
        }
    }
    Ok(())
}

#[test]
fn refusals_say_what_is_wrong(rt: HostRuntime) -> Result<(), Fail> {
    let rows = [
        (ReportFault::Short, "the bytes end before the fields do"),
        (
            ReportFault::BadCount,
            "FwResourceCount is not FwResourceCountMax",
        ),
        (ReportFault::BadVersion, "the version is not 1"),
        (
            ReportFault::BadSize,
            "the length is not the one that the fields tell",
        ),
        (ReportFault::NoTerminator, "a text has no zero at its end"),
        (ReportFault::NotAscii, "a text has a character above 0x7F"),
        (ReportFault::Memory, "out of memory"),
    ];
    for (fault, text) in rows {
        assert_eq!(rt; format!(in rt.alloc(); "{fault}")?.as_str(), text);
    }
    Ok(())
}
