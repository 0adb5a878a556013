//! A flash that tells nothing and reads another byte than was written.

use super::{NEVER, REGION, begun, head};
use bench_model::{BenchState, Choice, Flash, SLOT_LEAD};
use cu_base::{Failed, NoMemory, Ticket};
use fmp_slot::{SlotFault, set_image};
use mem_bench::MemBench;
use std::test::Fail;

/// What is read at a place of a region in place of what stands there.
const LIE: u8 = 0xEE;

/// A bench that reads `LIE` at one place.
#[derive(Drop)]
struct Lying {
    bench: MemBench,
    at: u32,
}

impl BenchState for Lying {
    ghost use Rattle.std.specs.Prelude.{false, None};
    ghost use Rattle.mem_bench.specs.State.{state_of};

    ghost state = { λ l. record (state_of l.bench) {
      contents = record (state_of l.bench).contents { told = false };
      plan = None;
    } };
}

impl Flash for Lying {
    fn regions(&self) -> u32 {
        self.bench.regions()
    }

    fn size(&self, region: u32) -> u32 {
        self.bench.size(region)
    }

    fn read(&mut self, region: u32, at: u32, out: &mut [u8]) -> Result<(), Failed> {
        Flash::read(&mut self.bench, region, at, out)?;
        lie(self.at, at, out);
        Ok(())
    }

    fn write(&mut self, region: u32, at: u32, bytes: &[u8]) -> Result<(), Failed> {
        self.bench.write(region, at, bytes)
    }

    fn sync(&mut self, region: u32) -> Result<(), Failed> {
        self.bench.sync(region)
    }

    fn ready(&mut self, device: u8) -> Result<(), NoMemory> {
        self.bench.ready(device)
    }

    fn begin(&mut self, device: u8, ticket: Ticket) -> Result<(), Failed> {
        self.bench.begin(device, ticket)
    }

    fn end(&mut self, device: u8) -> Result<(), Failed> {
        self.bench.end(device)
    }
}

/// Puts the lie into what was read from a place on.
fn lie(place: u32, at: u32, out: &mut [u8]) {
    if at <= place && ((place - at) as usize) < out.len() {
        out[(place - at) as usize] = LIE;
    }
}

#[test]
fn a_byte_that_is_read_as_another(rt: HostRuntime) -> Result<(), Fail> {
    let payload = [0xA5; 65_537];
    for (name, at, wrote) in [
        ("the name", 1, b'C'),
        ("the format", 4, 2),
        ("the item", 10, 3),
        ("the last zero", 63, 0),
        ("the section", 64, b'D'),
        ("the first piece", SLOT_LEAD, 0xA5),
        ("its last byte", SLOT_LEAD + 65_535, 0xA5),
        ("the second piece", SLOT_LEAD + 65_536, 0xA5),
    ] {
        let bench = begun(&rt, 65_537, NEVER, Choice::Old)?;
        assert!(rt; bench.regions() > REGION);
        assert!(rt; bench.size(REGION) > SLOT_LEAD);
        let mut lying = Lying { bench, at };
        let head = head(65_537, 1);
        let told = set_image(&mut lying, 0, &head, b"D", &payload);
        let want = SlotFault::Apart {
            at,
            wrote,
            read: LIE,
        };
        assert_eq!(rt; told, Err(want), "{name}");
    }
    Ok(())
}
