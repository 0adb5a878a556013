//! A bench in memory with a log of variables, and the calls of the log on it.

ghost use Rattle.std.specs.Prelude.{◌≡◌, ◌≤◌, All, IsTrue, IfOk, OnOk, false};
ghost use Rattle.mem_bench.specs.State.{state_of};
ghost use Rattle.var_log.specs.Changes.{keeps_limits};
ghost use Rattle.var_log.specs.Logs.{HasBanks, IsLive, StandsOn};

use bench_model::{Bench, Board, Choice, Device, Devices, Digests, Flash, is_device_name};
use cu_base::{Blob, Failed, Guid, NoMemory, Text};
use mem_bench::MemBench;
use std::process::Abort;
use std::test::Fail;
use var_log::{Batch, Change, LogFault, MAX_DATA, Record, VarLog, is_name};

/// The bytes of a bank.
pub(crate) const BANK: u32 = 65_536;

/// What a cut leaves of dirty bytes.
pub(crate) const CHOICES: [Choice; 5] = [
    Choice::New,
    Choice::Old,
    Choice::Mix,
    Choice::Fill(0x5A),
    Choice::Fill(0),
];

/// A board with one device, whose log has this format.
fn board(rt: &(impl Abort + AllocGlobal), store: u32) -> Result<Board, NoMemory> {
    let alloc = rt.alloc();
    let mut devices = Devices::new(alloc);
    assert!(rt; is_device_name("sys"));
    assert!(rt; 1 <= store && store <= 2);
    let device = Device {
        name: Text::from_str(alloc, "sys")?,
        type_id: Guid { bytes: [7; 16] },
        index: 1,
        instance: 0,
        fw_type: 1,
        capacity: 64,
        version: 2,
        floor: 1,
        flags: 0,
    };
    devices.push(device)?;
    Ok(Board::new(BANK, store, false, 15, Digests::new(alloc), devices))
}

/// A bench of that board: bank 0 is the empty log, and bank 1 reads 0xFF.
pub(crate) fn bench(rt: &(impl Abort + AllocGlobal), store: u32) -> Result<MemBench, NoMemory> {
    let board = board(rt, store)?;
    let mut bench = MemBench::new(rt.alloc());
    bench.lay_out(rt.alloc(), &board)?;
    Ok(bench)
}

/// Writes bytes that last into a bank.
pub(crate) fn write(
    rt: &impl Abort,
    bench: &mut MemBench,
    bank: u32,
    at: u32,
    bytes: &[u8],
) -> Result<(), Failed> {
    assert!(rt; bank < 2 && bank < bench.regions());
    assert!(rt; at as usize + bytes.len() <= bench.size(bank) as usize);
    bench.write(bank, at, bytes)?;
    bench.sync(bank)
}

/// Reads bytes of a bank.
pub(crate) fn read(
    rt: &impl Abort,
    bench: &mut MemBench,
    bank: u32,
    at: u32,
    out: &mut [u8],
) -> Result<(), Failed> {
    assert!(rt; bank < bench.regions());
    assert!(rt; at as usize + out.len() <= bench.size(bank) as usize);
    Flash::read(bench, bank, at, out)
}

/// Orders a power cut.
pub(crate) fn arm(rt: &impl Abort, bench: &mut MemBench, after: u32, choice: Choice) {
    assert!(rt; bench.order_room() > 0);
    bench.arm(after, choice);
}

/// Resets the platform, and dirty bytes are lost.
pub(crate) fn cycle(rt: &impl Abort, bench: &mut MemBench) {
    assert!(rt; bench.order_room() > 0);
    bench.cycle(true);
}

/// The banks are there.
fn check_banks(rt: &impl Abort, bench: &MemBench)
    ensures { HasBanks (state_of bench.now) }
{
    assert!(rt; bench.regions() >= 2);
    let size = bench.size(0);
    assert!(rt; bench.size(1) == size && 65_536 <= size && size <= 1_048_576);
}

/// Makes both banks an empty log.
pub(crate) fn format(rt: &impl Abort, bench: &mut MemBench) -> Result<(), LogFault> {
    check_banks(rt, bench);
    VarLog::format(bench)
}

/// Opens the log.
pub(crate) fn open(
    rt: &(impl Abort + AllocGlobal),
    bench: &mut MemBench,
) -> Result<(VarLog, Batch), LogFault>
    ensures stands { IfOk result (λ r. StandsOn r.0 (state_of bench.new)) }
    ensures live { IfOk result (λ r. IsLive r.1.items (state_of bench.new)) }
    ensures limits { IfOk result (λ r. All (λ c. IsTrue (keeps_limits c)) r.1.items) }
{
    check_banks(rt, bench);
    VarLog::open(rt.alloc(), bench)
}

/// Appends a record that fits.
pub(crate) fn append(
    rt: &impl Abort,
    log: &mut VarLog,
    bench: &mut MemBench,
    entry: &mut Record,
) -> Result<(), LogFault>
    requires stands { StandsOn log.old (state_of bench.old) }
    ensures stands { OnOk result (StandsOn log.new (state_of bench.new)) }
{
    check_banks(rt, bench);
    assert!(rt; entry.size() <= log.free());
    assert!(rt; log.seq() < u64::MAX);
    log.append(bench, entry)
}

/// Makes room for so many bytes.
pub(crate) fn room(
    rt: &(impl Abort + AllocGlobal),
    log: &mut VarLog,
    bench: &mut MemBench,
    live: &Batch,
    bytes: u32,
) -> Result<(), LogFault>
    requires stands { StandsOn log.old (state_of bench.old) }
    requires live { IsLive live.now.items (state_of bench.old) }
    requires limits { All (λ c. IsTrue (keeps_limits c)) live.now.items }
{
    check_banks(rt, bench);
    log.room(rt.alloc(), bench, live, bytes)
}

/// The record of one set.
pub(crate) fn record(
    rt: &(impl Abort + AllocGlobal),
    guid: [u8; 16],
    name: &str,
    attributes: u32,
    data: &[u8],
) -> Result<Record, NoMemory> {
    let alloc = rt.alloc();
    assert!(rt; is_name(name.as_bytes()) && data.len() <= MAX_DATA);
    let change = Change::Set {
        name: Text::from_str(alloc, name)?,
        guid: Guid { bytes: guid },
        attributes,
        value: Blob::from_slice(alloc, data)?,
    };
    let mut batch = Batch::new(alloc);
    batch.push(change)?;
    Record::of(alloc, &batch)
}

/// The record of a set of a variable of the GUID of bytes 7.
pub(crate) fn set(
    rt: &(impl Abort + AllocGlobal),
    name: &str,
    data: &[u8],
) -> Result<Record, NoMemory> {
    record(rt, [7; 16], name, 3, data)
}

/// Whether the batch is one set of this name and data.
pub(crate) fn is_one(live: &Batch, name: &str, data: &[u8]) -> bool {
    match live.as_slice() {
        [
            Change::Set {
                name: has,
                value,
                ..
            },
        ] => has.as_str() == name && value.as_slice() == data,
        _ => false,
    }
}

/// Opens the log and appends a record. It answers the bytes that are free then.
pub(crate) fn add(
    rt: &(impl Abort + AllocGlobal),
    bench: &mut MemBench,
    mut entry: Record,
) -> Result<u32, Fail> {
    let (mut log, _) = open(rt, bench)?;
    append(rt, &mut log, bench, &mut entry)?;
    Ok(log.free())
}

/// The data of the longest variable.
pub(crate) fn long() -> [u8; 16_384] {
    [0x11; 16_384]
}

/// A bench with three records of the longest variable.
pub(crate) fn filled(rt: &(impl Abort + AllocGlobal)) -> Result<MemBench, Fail> {
    let mut bench = bench(rt, 2)?;
    add(rt, &mut bench, set(rt, "A", &long())?)?;
    add(rt, &mut bench, set(rt, "A", &long())?)?;
    add(rt, &mut bench, set(rt, "A", &long())?)?;
    Ok(bench)
}
