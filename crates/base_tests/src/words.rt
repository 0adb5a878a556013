//! Examples from the UEFI specification, worked by hand, and one call with ample memory of each
//! function that may want memory. Which texts are GUIDs or moments is shown by runs of the built
//! program.

use cu_base::{
    BaseFault, Blob, CountLedger, EfiStatus, EfiTime, Failed, Guid, Ledger, NoMemory, Numbers,
    Steps, Text, UNSPECIFIED_ZONE, put_u16, put_u32, put_u64, read_u16, read_u32, read_u64,
};
use std::test::Fail;

const FMP_CAPSULE: [u8; 16] = [
    0xed, 0xd5, 0xcb, 0x6d, 0x2d, 0xe8, 0x44, 0x4c, 0xbd, 0xa1, 0x71, 0x94, 0x19, 0x9a, 0xd9, 0x2a,
];

#[test]
fn a_guid_has_a_text(rt: HostRuntime) -> Result<(), Fail> {
    let text = "6dcbd5ed-e82d-4c44-bda1-7194199ad92a";
    let guid = Guid { bytes: FMP_CAPSULE };
    assert_eq!(rt; Guid::from_text(text), Ok(guid));
    assert_eq!(rt; guid.to_text(rt.alloc())?.as_str(), text);
    assert_eq!(rt; Guid::from_text(""), Err(BaseFault::BadGuidText));
    Ok(())
}

fn day_of(year: u16, month: u8, day: u8) -> EfiTime {
    EfiTime {
        year,
        month,
        day,
        hour: 7,
        minute: 8,
        second: 9,
        nanosecond: 0,
        zone: UNSPECIFIED_ZONE,
        daylight: 0,
        pad1: 0,
        pad2: 0,
    }
}

#[test]
fn moments_are_read_from_their_text(rt: HostRuntime) {
    let days = [
        ("1900-01-01T07:08:09", day_of(1900, 1, 1)),
        ("1900-02-28T07:08:09", day_of(1900, 2, 28)),
        ("2000-02-29T07:08:09", day_of(2000, 2, 29)),
        ("2023-02-28T07:08:09", day_of(2023, 2, 28)),
        ("2024-02-29T07:08:09", day_of(2024, 2, 29)),
        ("2024-04-30T07:08:09", day_of(2024, 4, 30)),
        ("9999-12-31T07:08:09", day_of(9999, 12, 31)),
    ];
    for (text, day) in days {
        assert_eq!(rt; EfiTime::from_text(text), Ok(day), "{text}");
    }
    let last_second = EfiTime {
        hour: 23,
        minute: 59,
        second: 59,
        ..day_of(2024, 5, 6)
    };
    assert_eq!(rt; EfiTime::from_text("2024-05-06T23:59:59"), Ok(last_second));
    assert_eq!(rt; EfiTime::from_text(""), Err(BaseFault::BadTime));
    let spaced = EfiTime::from_text("2024-05-06 07:08:09");
    assert_eq!(rt; spaced, Err(BaseFault::BadTime));
}

#[test]
fn moments_have_sixteen_bytes(rt: HostRuntime) {
    let bytes = [
        0xe8, 0x07, 0x05, 0x06, 0x07, 0x08, 0x09, 0x00, 0x00, 0x00, 0x00, 0x00, 0xff, 0x07, 0x00,
        0x00,
    ];
    assert_eq!(rt; day_of(2024, 5, 6).write(), bytes);
    assert_eq!(rt; EfiTime::read(&bytes), Some(day_of(2024, 5, 6)));
    assert_eq!(rt; EfiTime::read(&bytes[1..]), None);

    let west = EfiTime {
        nanosecond: 0x0403_0201,
        zone: -90,
        daylight: 3,
        pad1: 0x11,
        pad2: 0x22,
        ..day_of(2024, 5, 6)
    };
    let west_bytes = [
        0xe8, 0x07, 0x05, 0x06, 0x07, 0x08, 0x09, 0x11, 0x01, 0x02, 0x03, 0x04, 0xa6, 0xff, 0x03,
        0x22,
    ];
    assert_eq!(rt; west.write(), west_bytes);
    assert_eq!(rt; EfiTime::read(&west_bytes), Some(west));
}

#[test]
fn statuses_have_their_codes(rt: HostRuntime) {
    let cases = [
        ("success", EfiStatus::SUCCESS, 0, 0),
        (
            "load error",
            EfiStatus::LOAD_ERROR,
            0x8000_0000_0000_0001,
            1,
        ),
        (
            "invalid parameter",
            EfiStatus::INVALID_PARAMETER,
            0x8000_0000_0000_0002,
            2,
        ),
        (
            "unsupported",
            EfiStatus::UNSUPPORTED,
            0x8000_0000_0000_0003,
            3,
        ),
        (
            "device error",
            EfiStatus::DEVICE_ERROR,
            0x8000_0000_0000_0007,
            7,
        ),
        (
            "out of resources",
            EfiStatus::OUT_OF_RESOURCES,
            0x8000_0000_0000_0009,
            9,
        ),
        ("not found", EfiStatus::NOT_FOUND, 0x8000_0000_0000_000e, 14),
        ("aborted", EfiStatus::ABORTED, 0x8000_0000_0000_0015, 21),
        (
            "incompatible version",
            EfiStatus::INCOMPATIBLE_VERSION,
            0x8000_0000_0000_0019,
            25,
        ),
        (
            "security violation",
            EfiStatus::SECURITY_VIOLATION,
            0x8000_0000_0000_001a,
            26,
        ),
    ];
    for (name, status, code, number) in cases {
        assert_eq!(rt; status.code, code, "{name}");
        assert_eq!(rt; status.number(), number, "{name}");
    }
}

#[test]
fn numbers_are_little_endian(rt: HostRuntime) -> Result<(), Fail> {
    let mut out = Blob::new(rt.alloc());
    put_u16(&mut out, 0x0201)?;
    put_u32(&mut out, 0x0605_0403)?;
    put_u64(&mut out, 0x0e0d_0c0b_0a09_0807)?;
    let bytes = [1, 2, 3, 4, 5, 6, 7, 8, 9, 10, 11, 12, 13, 14];
    assert_eq!(rt; out.as_slice(), bytes.as_slice());
    assert_eq!(rt; read_u16(&bytes), Some(0x0201));
    assert_eq!(rt; read_u32(&bytes[2..]), Some(0x0605_0403));
    assert_eq!(rt; read_u64(&bytes[6..]), Some(0x0e0d_0c0b_0a09_0807));
    assert_eq!(rt; read_u16(&bytes[13..]), None);
    assert_eq!(rt; read_u32(&bytes[11..]), None);
    assert_eq!(rt; read_u64(&bytes[7..]), None);
    Ok(())
}

#[test]
fn lists_hold_what_was_pushed(rt: HostRuntime) -> Result<(), Fail> {
    let mut numbers = Numbers::new(rt.alloc());
    assert!(rt; numbers.is_empty());
    numbers.reserve(2)?;
    numbers.push(5)?;
    numbers.push(6)?;
    assert_eq!(rt; numbers.as_slice(), [5, 6].as_slice());
    assert_eq!(rt; numbers.len(), 2);
    assert_eq!(rt; numbers.at(1).copied(), Some(6));
    assert_eq!(rt; numbers.at(2).copied(), None);
    let copy = Numbers::from_slice(rt.alloc(), numbers.as_slice())?;
    assert_eq!(rt; copy.as_slice(), [5, 6].as_slice());
    Ok(())
}

#[test]
fn bytes_and_texts_are_appended(rt: HostRuntime) -> Result<(), Fail> {
    let mut blob = Blob::from_slice(rt.alloc(), b"ca")?;
    blob.reserve(2)?;
    blob.push_slice(b"ps")?;
    assert_eq!(rt; blob.as_slice(), b"caps".as_slice());
    assert_eq!(rt; blob.len(), 4);
    let mut text = Text::from_str(rt.alloc(), "caps")?;
    text.push_str("ule")?;
    assert_eq!(rt; text.as_str(), "capsule");
    Ok(())
}

#[test]
fn faults_of_texts_have_a_text(rt: HostRuntime) -> Result<(), Fail> {
    let cases = [
        (BaseFault::BadGuidText, "the text is no GUID"),
        (
            BaseFault::BadTime,
            "the text is no moment of the form YYYY-MM-DDThh:mm:ss",
        ),
    ];
    for (fault, text) in cases {
        let printed = format!(in rt.alloc(); "{fault}")?;
        assert_eq!(rt; printed.as_str(), text);
    }
    Ok(())
}

#[test]
fn want_of_memory_and_a_failed_call_have_a_text(rt: HostRuntime) -> Result<(), Fail> {
    let memory = format!(in rt.alloc(); "{NoMemory}")?;
    assert_eq!(rt; memory.as_str(), "out of memory");
    let failed = format!(in rt.alloc(); "{Failed}")?;
    assert_eq!(rt; failed.as_str(), "a call of the outside failed");
    Ok(())
}

#[test]
fn steps_are_counted_one_by_one(rt: HostRuntime) {
    let mut steps = Steps::new(CountLedger { count: 7 });
    steps.tick();
    steps.tick();
    let mut ledger = CountLedger { count: 0 };
    ledger.tick();
    assert_eq!(rt; ledger, CountLedger { count: 1 });
}
