//! A bench in memory of a board of one device, its boots, and the lines that are wanted of them.

ghost use Rattle.cap_boot.specs.Stands.{HasRegions};
ghost use Rattle.fmp_slot.specs.Layout.{region_bytes};
ghost use Rattle.mem_bench.specs.State.{state_of};
ghost use Rattle.var_log.specs.Logs.{HasBanks};

use bench_model::{
    Bench, Board, Device, Devices, Digests, Flash, Volume, is_device_name, is_file_name,
};
use cap_boot::{BootFault, Report, boot};
use cu_base::{EfiStatus, EfiTime, Guid, NoMemory, Text, Ticket};
use fmp_slot::{OneBank, SlotForm};
use mem_bench::MemBench;
use reference_machine::{Kind, UnitLine};
use std::process::Abort;
use std::test::Fail;
use update_inbox::signal;
use var_store::Note;

/// How many bytes the device of the board takes.
const CAPACITY: u32 = 64;

/// The moment of the boots, 2000-01-01T00:00:00.
const NOW: EfiTime = EfiTime {
    year: 2000,
    month: 1,
    day: 1,
    hour: 0,
    minute: 0,
    second: 0,
    nanosecond: 0,
    zone: 2047,
    daylight: 0,
    pad1: 0,
    pad2: 0,
};

/// A board with banks of 65,536 bytes and one device.
pub(crate) fn board(rt: &(impl Abort + AllocGlobal)) -> Result<Board, NoMemory> {
    let alloc = rt.alloc();
    let mut devices = Devices::new(alloc);
    assert!(rt; is_device_name("sys"));
    let device = Device {
        name: Text::from_str(alloc, "sys")?,
        type_id: Guid { bytes: [7; 16] },
        index: 1,
        instance: 0,
        fw_type: 1,
        capacity: CAPACITY,
        version: 2,
        floor: 1,
        flags: 0,
    };
    devices.push(device)?;
    Ok(Board::new(65_536, 2, false, 15, Digests::new(alloc), devices))
}

/// A bench of a board: bank 0 is the empty log.
pub(crate) fn bench(rt: &(impl Abort + AllocGlobal), board: &Board) -> Result<MemBench, NoMemory> {
    let mut bench = MemBench::new(rt.alloc());
    bench.lay_out(rt.alloc(), board)?;
    Ok(bench)
}

/// The bench has the regions of the board.
pub(crate) fn check_regions(rt: &impl Abort, board: &Board, bench: &MemBench)
    ensures { HasRegions region_bytes board.now (state_of bench.now) }
{
    let devices = board.devices();
    assert!(rt; devices.len() == 1);
    let device = &devices[0];
    assert!(rt; device.capacity == CAPACITY);
    assert!(rt; bench.regions() == 3);
    let size = bench.size(0);
    assert!(rt; bench.size(1) == size && 65_536 <= size && size <= 1_048_576);
    assert!(rt; bench.size(2) == OneBank.region(CAPACITY));
}

/// The bench has two banks.
pub(crate) fn check_banks(rt: &impl Abort, bench: &MemBench)
    ensures { HasBanks (state_of bench.now) }
{
    assert!(rt; bench.regions() >= 2);
    let size = bench.size(0);
    assert!(rt; bench.size(1) == size && 65_536 <= size && size <= 1_048_576);
}

/// Boots, and tells the answer and the report.
pub(crate) fn booted(
    rt: &(impl Abort + AllocGlobal),
    board: &Board,
    bench: &mut MemBench,
) -> (Result<(), BootFault>, Report) {
    check_regions(rt, board, bench);
    let mut report = Report::new(rt.alloc());
    let answer = boot(rt.alloc(), board, &NOW, &OneBank, bench, &mut report);
    (answer, report)
}

/// Puts a file.
pub(crate) fn put(
    rt: &(impl Abort + AllocGlobal),
    bench: &mut MemBench,
    name: &str,
    bytes: &[u8],
) -> Result<(), Fail> {
    assert!(rt; is_file_name(name));
    assert!(rt; bytes.len() <= 1000);
    let name = Text::from_str(rt.alloc(), name)?;
    assert!(rt; bench.put(rt.alloc(), &name, bytes).is_ok());
    Ok(())
}

/// Asks for the capsule files.
pub(crate) fn ask(rt: &(impl Abort + AllocGlobal), bench: &mut MemBench) {
    check_banks(rt, bench);
    let mut note = Note {
        opened: None,
        pending: None,
    };
    assert!(rt; signal(rt.alloc(), bench, &mut note).is_ok());
}

/// The numbers of a report: of the batches at opening, of steps, and of the batch in doubt.
pub(crate) fn numbers(report: &Report) -> (Option<u64>, u32, Option<u64>) {
    (report.opened, report.steps, report.pending)
}

/// A line is that of a unit without a device, the first of its delivery, of this route, serial and
/// name.
pub(crate) fn check_line(
    rt: &impl Abort,
    line: &UnitLine,
    kind: Kind,
    source: (u8, u64, &str),
    status: u64,
    number: u16,
) {
    let (route, serial, name) = source;
    let ticket = Ticket {
        route,
        capsule: 0,
        item: 0,
        serial,
    };
    assert_eq!(rt; line.kind, kind);
    assert_eq!(rt; line.key.ticket, ticket);
    assert_eq!(rt; line.key.unit, 0);
    assert_eq!(rt; line.key.device, 255);
    assert!(rt; line.key.name.as_str() == name);
    assert_eq!(rt; line.version, 0);
    assert!(rt; line.end.is_none());
    assert_eq!(rt; line.status, EfiStatus { code: status });
    assert_eq!(rt; line.result, number);
}
