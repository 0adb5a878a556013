//! Cases worked by hand, over a bench in memory.

mod lying;

ghost use Rattle.std.specs.Prelude.{◌≡◌, IfOk};
ghost use Rattle.bench_model.specs.Bench.{HasOrderRoom};
ghost use Rattle.mem_bench.specs.State.{state_of};
ghost use Rattle.fmp_slot.specs.Held.{IsBegun, IsToldStable};

use bench_model::{
    Bench, Board, Choice, Device, Devices, Digests, Flash, SLOT_LEAD, is_device_name,
};
use cu_base::{Guid, NoMemory, Text, Ticket};
use fmp_slot::{MAX_KEPT_SECTION, Slot, SlotFault, SlotHead, look, set_image};
use mem_bench::MemBench;
use std::process::Abort;
use std::test::Fail;

/// The ticket of the images that are set.
const TICKET: Ticket = Ticket {
    route: 1,
    capsule: 2,
    item: 3,
    serial: 0x0807_0605_0403_0201,
};

/// The ticket of the factory.
const FACTORY: Ticket = Ticket {
    route: 255,
    capsule: 0,
    item: 0,
    serial: 0,
};

/// The region of the device.
const REGION: u32 = 2;

/// The bytes of the longest payload of a case.
const LONGEST: usize = 65_601;

/// More steps than a case takes.
const NEVER: u32 = 1_000;

/// A board with one device of this capacity.
fn board(rt: &(impl Abort + AllocGlobal), capacity: u32) -> Result<Board, NoMemory> {
    let alloc = rt.alloc();
    let mut devices = Devices::new(alloc);
    assert!(rt; is_device_name("sys"));
    assert!(rt; 1 <= capacity && capacity <= 67_108_864);
    let device = Device {
        name: Text::from_str(alloc, "sys")?,
        type_id: Guid { bytes: [7; 16] },
        index: 1,
        instance: 0,
        fw_type: 1,
        capacity,
        version: 2,
        floor: 1,
        flags: 0,
    };
    devices.push(device)?;
    Ok(Board::new(65_536, 2, false, 15, Digests::new(alloc), devices))
}

/// The head of the image that is set.
fn head(length: u32, dep_length: u32) -> SlotHead
    ensures { result ≡ record {
      ticket = TICKET;
      version = 4;
      floor = 3;
      length = length;
      dep_length = dep_length;
    } }
{
    SlotHead {
        ticket: TICKET,
        version: 4,
        floor: 3,
        length,
        dep_length,
    }
}

/// A bench of that board whose device is begun, and whose power is cut at a step from now on.
fn begun(
    rt: &(impl Abort + AllocGlobal),
    capacity: u32,
    after: u32,
    choice: Choice,
) -> Result<MemBench, Fail>
    ensures begun { IfOk result (λ b. IsBegun 0 (state_of b)) }
    ensures stable { IfOk result (λ b. IsToldStable 0 (state_of b)) }
    ensures room { IfOk result (λ b. HasOrderRoom (state_of b)) }
{
    let alloc = rt.alloc();
    let board = board(rt, capacity)?;
    let mut bench = MemBench::new(alloc);
    bench.lay_out(alloc, &board)?;
    assert!(rt; bench.regions() > REGION);
    bench.ready(0)?;
    bench.begin(0, TICKET)?;
    bench.arm(after, choice);
    Ok(bench)
}

/// A bench of that board whose image is set while power is cut at a step and then given back, and
/// what that answered.
fn set(
    rt: &(impl Abort + AllocGlobal),
    capacity: u32,
    after: u32,
    choice: Choice,
    dep: &[u8],
    payload: &[u8],
) -> Result<(MemBench, Result<(), SlotFault>), Fail> {
    let mut bench = begun(rt, capacity, after, choice)?;
    assert!(rt; dep.len() <= MAX_KEPT_SECTION as usize);
    assert!(rt; payload.len() <= u32::MAX as usize);
    assert!(rt; bench.regions() > REGION);
    assert!(rt; bench.size(REGION) > SLOT_LEAD);
    let head = head(payload.len() as u32, dep.len() as u32);
    let told = set_image(&mut bench, 0, &head, dep, payload);
    bench.cycle(true);
    Ok((bench, told))
}

/// What the slot of the device is.
fn slot(rt: &impl Abort, bench: &mut MemBench) -> Result<Slot, SlotFault> {
    assert!(rt; bench.regions() > REGION);
    assert!(rt; bench.size(REGION) > SLOT_LEAD);
    look(bench, 0)
}

/// Whether the region reads as these bytes from a place on.
fn reads(rt: &impl Abort, bench: &mut MemBench, at: u32, bytes: &[u8]) -> bool {
    let mut room = [0; LONGEST];
    assert!(rt; bytes.len() <= LONGEST);
    assert!(rt; bench.regions() > REGION);
    assert!(rt; at as usize + bytes.len() <= bench.size(REGION) as usize);
    let out = &mut room[..bytes.len()];
    Flash::read(bench, REGION, at, out).is_ok() && &*out == bytes
}

/// What a slot is whose region begins with these bytes.
fn slot_of(rt: &(impl Abort + AllocGlobal), bytes: &[u8]) -> Result<Slot, Fail> {
    let mut bench = begun(rt, 16, NEVER, Choice::Old)?;
    assert!(rt; bench.regions() > REGION);
    assert!(rt; bytes.len() <= bench.size(REGION) as usize);
    bench.write(REGION, 0, bytes)?;
    assert!(rt; bench.regions() > REGION);
    assert!(rt; bench.size(REGION) > SLOT_LEAD);
    Ok(look(&mut bench, 0)?)
}

#[test]
fn payloads_and_sections_of_each_length(rt: HostRuntime) -> Result<(), Fail> {
    let payload = [0xA5; LONGEST];
    let dep = [0x5C; 4_096];
    for (name, payload, dep) in [
        ("none", &payload[..0], &dep[..0]),
        ("one byte", &payload[..1], &dep[..1]),
        ("a whole piece", &payload[..65_536], &dep[..4_096]),
        ("a byte more than a piece", &payload[..65_537], &dep[..0]),
        (
            "all that there is room for",
            &payload[..65_600],
            &dep[..4_095],
        ),
    ] {
        let (mut bench, told) = set(&rt, 65_600, NEVER, Choice::Old, dep, payload)?;
        assert_eq!(rt; told, Ok(()), "{name}");
        let want = head(payload.len() as u32, dep.len() as u32);
        assert_eq!(rt; slot(&rt, &mut bench), Ok(Slot::Sealed(want)), "{name}");
        assert!(rt; reads(&rt, &mut bench, 64, dep), "{name}, section");
        assert!(rt;
            reads(&rt, &mut bench, SLOT_LEAD, payload),
            "{name}, payload"
        );
    }
    let (mut bench, told) = set(&rt, 65_600, NEVER, Choice::Old, &[], &payload)?;
    assert_eq!(rt; told, Err(SlotFault::TooLarge));
    assert!(rt; matches!(slot(&rt, &mut bench), Ok(Slot::Sealed(h)) if h.ticket == FACTORY));
    Ok(())
}

#[test]
fn heads_by_hand(rt: HostRuntime) -> Result<(), Fail> {
    // Seal, name, format 2, route, capsule, item, zeros, serial, version, floor, length 16, section 2.
    let whole = *b"\x5ACUS\x02\0\0\0\x01\x02\x03\0\0\0\0\0\x01\x02\x03\x04\x05\x06\x07\x08\
        \x04\0\0\0\x03\0\0\0\x10\0\0\0\x02\0\0\0\0\0\0\0\0\0\0\0\0\0\0\0\0\0\0\0\0\0\0\0\0\0\0\0";
    assert_eq!(rt; slot_of(&rt, &whole)?, Slot::Sealed(head(16, 2)));
    for (name, at, byte, want) in [
        ("format 1 has no section", 4, 1, Slot::Sealed(head(16, 0))),
        ("no seal", 0, 0xFF, Slot::Unsealed),
        ("another name", 3, b'V', Slot::Unsealed),
        ("format 3", 4, 3, Slot::Unsealed),
        ("format 0x102", 5, 1, Slot::Unsealed),
        ("a byte more than the capacity", 32, 17, Slot::Unsealed),
        ("a section of 4,098 bytes", 37, 0x10, Slot::Unsealed),
    ] {
        let mut bytes = whole;
        assert!(rt; at < bytes.len());
        bytes[at] = byte;
        assert_eq!(rt; slot_of(&rt, &bytes)?, want, "{name}");
    }
    Ok(())
}

#[test]
fn a_section_above_the_limit(rt: HostRuntime) -> Result<(), Fail> {
    let mut bytes = *b"\x5ACUS\x02\0\0\0\x01\x02\x03\0\0\0\0\0\x01\x02\x03\x04\x05\x06\x07\x08\
        \x04\0\0\0\x03\0\0\0\x10\0\0\0\x01\x10\0\0\0\0\0\0\0\0\0\0\0\0\0\0\0\0\0\0\0\0\0\0\0\0\0\0";
    assert_eq!(rt; slot_of(&rt, &bytes)?, Slot::Unsealed, "4,097 bytes");
    bytes[36] = 0;
    assert_eq!(rt;
        slot_of(&rt, &bytes)?,
        Slot::Sealed(head(16, 4_096)),
        "4,096 bytes"
    );
    bytes[36] = 1;
    bytes[4] = 1;
    assert_eq!(rt;
        slot_of(&rt, &bytes)?,
        Slot::Sealed(head(16, 0)),
        "format 1 has no section"
    );
    Ok(())
}

/// A slot after a power cut.
#[derive(Clone, Copy, Debug, PartialEq, Eq)]
enum After {
    Before,
    Open,
    New,
}

/// Which of the three the slot is.
fn kind_of(slot: Result<Slot, SlotFault>) -> Option<After> {
    match slot {
        Ok(Slot::Unsealed) => Some(After::Open),
        Ok(Slot::Sealed(h)) if h == head(2, 1) => Some(After::New),
        Ok(Slot::Sealed(h)) if h.ticket == FACTORY => Some(After::Before),
        _ => None,
    }
}

#[test]
fn a_cut_at_each_move(rt: HostRuntime) -> Result<(), Fail> {
    use After::{Before, New, Open};
    let cuts = [
        Choice::New,
        Choice::Old,
        Choice::Mix,
        Choice::Fill(0x5A),
        Choice::Fill(0),
    ];
    // The byte at 0 is at an even place, so `Mix` keeps what was synced.
    for (move_, name, wants) in [
        (
            0,
            "the seal is written over",
            [Open, Before, Before, Before, Open],
        ),
        (1, "and synced", [Open, Before, Before, Before, Open]),
        (2, "the payload is written", [Open; 5]),
        (3, "the front is written", [Open; 5]),
        (4, "and synced", [Open; 5]),
        (5, "the seal is written", [New, Open, Open, New, Open]),
        (6, "and synced", [New, Open, Open, New, Open]),
        (7, "no move is cut", [New; 5]),
    ] {
        for (choice, want) in cuts.iter().zip(wants.iter()) {
            let (mut bench, told) = set(&rt, 16, move_, *choice, b"D", b"PQ")?;
            assert_eq!(rt; told.is_ok(), move_ == 7, "{name}");
            assert_eq!(rt; kind_of(slot(&rt, &mut bench)), Some(*want), "{name}");
        }
    }
    Ok(())
}
