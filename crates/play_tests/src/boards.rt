//! What is read of a board's text, and the messages of its faults. Which texts are refused is shown
//! by runs of the built program.

use bench_model::{Board, Device};
use cu_base::Guid;
use recipe_files::{BadKind, FileFault, read_board};
use std::alloc::Global;
use std::process::Abort;

/// A board of two devices.
const BOARD: &str = "bank = 65536
result_max = 15
unknown = 1
digests = [\"000102030405060708090a0b0c0d0e0f101112131415161718191a1b1c1d1eff\"]
[[device]]
name = \"sys\"
type = \"aaaaaaaa-0000-0000-0000-000000000001\"
index = 1
instance = 0
fw_type = 1
capacity = 33554432
version = 3
floor = 2
flags = 0
[[device]]
name = \"ec\"
type = \"bbbbbbbb-0000-0000-0000-000000000002\"
index = 2
instance = 4
fw_type = 2
capacity = 65536
version = 7
floor = 6
flags = 5
";

fn board(alloc: Global, rt: &impl Abort, text: &str) -> Board {
    read_board(alloc, text.as_bytes())
        .ok()
        .expect(rt, "a board")
}

fn numbers(device: &Device) -> [u64; 7] {
    [
        u64::from(device.index),
        device.instance,
        u64::from(device.fw_type),
        u64::from(device.capacity),
        u64::from(device.version),
        u64::from(device.floor),
        u64::from(device.flags),
    ]
}

#[test]
fn the_board_of_a_text(rt: HostRuntime) {
    let board = board(rt.alloc(), &rt, BOARD);
    assert_eq!(rt; board.bank(), 65_536);
    assert_eq!(rt; board.result_max(), 15);
    let digests = board.digests();
    assert_eq!(rt; digests.len(), 1);
    let bytes = [
        0, 1, 2, 3, 4, 5, 6, 7, 8, 9, 10, 11, 12, 13, 14, 15, 16, 17, 18, 19, 20, 21, 22, 23, 24,
        25, 26, 27, 28, 29, 30, 255,
    ];
    assert_eq!(rt; digests[0].bytes, bytes);
    let devices = board.devices();
    assert_eq!(rt; devices.len(), 2);
    let (sys, ec) = (&devices[0], &devices[1]);
    assert_eq!(rt; sys.name.as_str(), "sys");
    assert_eq!(rt; ec.name.as_str(), "ec");
    let type_id = Guid {
        bytes: [0xaa, 0xaa, 0xaa, 0xaa, 0, 0, 0, 0, 0, 0, 0, 0, 0, 0, 0, 1],
    };
    assert_eq!(rt; sys.type_id, type_id);
    assert_eq!(rt; numbers(sys), [1, 0, 1, 33_554_432, 3, 2, 0]);
    assert_eq!(rt; numbers(ec), [2, 4, 2, 65_536, 7, 6, 5]);
}

#[test]
fn forms_of_the_store_and_of_slots(rt: HostRuntime) {
    let alloc = rt.alloc();
    for (lines, store, two_banks) in [
        ("", 2, false),
        ("store = 1\n", 1, false),
        ("store = 2\n", 2, false),
        ("layout = \"one\"\n", 2, false),
        ("layout = \"two\"\n", 2, true),
        ("layout = \"two\"\nstore = 1\n", 1, true),
    ] {
        let text = format!(in alloc; "{lines}{BOARD}").expect(&rt, "memory");
        let found = board(alloc, &rt, text.as_str());
        assert_eq!(rt;
            (found.store(), found.two_banks()),
            (store, two_banks),
            "at {lines}"
        );
    }
}

#[test]
fn the_texts_of_faults(rt: HostRuntime) {
    let alloc = rt.alloc();
    for (kind, want) in [
        (BadKind::BadToml, "the text is no TOML document"),
        (BadKind::MissingKey, "a required key is absent"),
        (BadKind::WrongKind, "the value is of another TOML kind"),
        (BadKind::OutOfRange, "the value is outside its limits"),
        (BadKind::BadGuid, "the text is no GUID"),
        (
            BadKind::Repeated,
            "an earlier table has the same name, or the same type, index and instance",
        ),
        (
            BadKind::BankTooSmall,
            "the bank is too small for the results up to result_max",
        ),
    ] {
        let shown = format!(in alloc; "{kind}").expect(&rt, "memory");
        assert_eq!(rt; shown.as_str(), want);
    }
    let fault = read_board(alloc, b"bank = 1").err().expect(&rt, "a fault");
    let shown = format!(in alloc; "{fault}").expect(&rt, "memory");
    assert_eq!(rt; shown.as_str(), "the value is outside its limits, at bank");
    let shown = format!(in alloc; "{}", FileFault::Memory).expect(&rt, "memory");
    assert_eq!(rt; shown.as_str(), "out of memory");
}
