//! The record of a device in 96 bytes. Reading takes the fields by their places, and accepts them
//! only where the bytes are the spelling of what was taken.

ghost use Rattle.std.specs.Prelude.{◌≡◌, ◌+◌, ◌≤◌, ◌++◌, IfOk, IsTrue, true, length, take};
ghost use Rattle.std.specs.Prelude.{None, option_map};
ghost use Rattle.std.specs.Option.{SomeIff};
ghost use Rattle.stored_vars.specs.Records.{claim_at, claim_bytes, claim_spelled, has_claim};
ghost use Rattle.stored_vars.specs.Records.{is_claim_named, is_key_name, is_record, name_at};
ghost use Rattle.stored_vars.specs.Records.{numbers_at, record_bytes, record_in, state_at_front};
ghost use Rattle.stored_vars.specs.Records.{claim_front, name_bytes, state_bytes, state_in};

use crate::put::put;
use crate::{Claim, DevRec, is_key_name};
use cu_base::{DevState, NoMemory, Text, Ticket, bytes_of_u32, bytes_of_u64, u32_at, u64_at};
use reference_machine::UnitKey;
use std::alloc::Global;

/// The bytes of the record of a device.
pub const DEVICE_RECORD_BYTES: usize = 96;

/// The byte that tells an open claim.
const OPEN: u8 = 1;

/// The place of the claim.
const CLAIM_AT: usize = 16;

/// The place of the length of the claim's name.
const NAME_LENGTH_AT: usize = 44;

/// The place of the claim's name.
const NAME_AT: usize = 48;

/// The bytes from the claim's name on.
const NAME_ROOM: usize = 48;

/// The numbers of a claim.
#[derive(Clone, Copy)]
pub(crate) struct ClaimNumbers {
    ticket: Ticket,
    unit: u32,
    version: u32,
    floor: u32,
    size: u32,
}

impl DevRec {
    /// The spelling of the record.
    pub fn write(&self) -> [u8; DEVICE_RECORD_BYTES]
        requires name { IsTrue (is_claim_named self.now.claim) }
        ensures value { result ≡ record_bytes self.now }
    {
        match &self.claim {
            None => spell(&self.state),
            Some(claim) => {
                let numbers = ClaimNumbers {
                    ticket: claim.key.ticket,
                    unit: claim.key.unit,
                    version: claim.version,
                    floor: claim.floor,
                    size: claim.length,
                };
                spell_claimed(&self.state, &numbers, claim.key.name.as_str())
            }
        }
    }

    /// The record of a device that these bytes spell, and None exactly where they spell none.
    pub fn read(alloc: Global, device: u8, bytes: &[u8]) -> Result<Option<DevRec>, NoMemory>
        ensures value { IfOk result (λ r. r ≡ record_in device bytes.now) }
    {
        if !is_record(bytes) {
            return Ok(None);
        }
        let state = state_at_front(bytes);
        if bytes[CLAIM_AT] != OPEN {
            return Ok(Some(DevRec { state, claim: None }));
        }
        let claim = Some(claim_at(alloc, device, bytes)?);
        Ok(Some(DevRec { state, claim }))
    }
}

/// The state in the record that these bytes spell, and None exactly where they spell none.
pub fn stored_state(bytes: &[u8]) -> Option<DevState>
    ensures value { result ≡ state_in bytes.now }
{
    if !is_record(bytes) {
        return None;
    }
    Some(state_at_front(bytes))
}

/// Whether these bytes spell a record with an open claim.
pub fn has_stored_claim(bytes: &[u8]) -> bool
    ensures value { result ≡ has_claim bytes.now }
{
    is_record(bytes) && bytes[CLAIM_AT] == OPEN
}

/// Whether these bytes spell a record.
fn is_record(bytes: &[u8]) -> bool
    ensures value { result ≡ is_record bytes.now }
    ensures size { IsTrue result → length bytes.now ≡ DEVICE_RECORD_BYTES }
{
    if bytes.len() != DEVICE_RECORD_BYTES {
        return false;
    }
    let state = state_at_front(bytes);
    if bytes[CLAIM_AT] != OPEN {
        return &spell(&state)[..] == bytes;
    }
    match name_in(bytes) {
        Some(name) => &spell_claimed(&state, &numbers_at(bytes), name)[..] == bytes,
        None => false,
    }
}

/// The spelling of a record without a claim.
fn spell(state: &DevState) -> [u8; DEVICE_RECORD_BYTES]
    ensures { result ≡ state_bytes state.now ++ claim_bytes None }
{
    let mut bytes = [0; DEVICE_RECORD_BYTES];
    put_state(&mut bytes, state);
    put(&mut bytes, CLAIM_AT, &[0; 80]);
    bytes
}

/// The spelling of a record with a claim of these numbers and this name.
fn spell_claimed(state: &DevState, numbers: &ClaimNumbers, name: &str) -> [u8; DEVICE_RECORD_BYTES]
    requires { length name.now ≤ NAME_ROOM }
    ensures { result ≡ state_bytes state.now ++ claim_spelled numbers.now name.now }
{
    let mut bytes = [0; DEVICE_RECORD_BYTES];
    put_state(&mut bytes, state);
    put_numbers(&mut bytes, numbers);
    put_name(&mut bytes, name.as_bytes());
    bytes
}

/// Writes a state at the front.
fn put_state(bytes: &mut [u8], state: &DevState)
    requires { length bytes.old ≡ DEVICE_RECORD_BYTES }
    ensures { take 16 bytes.new ≡ state_bytes state.now }
{
    put(bytes, 0, &bytes_of_u32(state.version));
    put(bytes, 4, &bytes_of_u32(state.floor));
    put(bytes, 8, &bytes_of_u32(state.last_version));
    put(bytes, 12, &bytes_of_u32(state.last_status));
}

/// Writes the flag and the numbers of a claim behind the state.
fn put_numbers(bytes: &mut [u8], numbers: &ClaimNumbers)
    requires { length bytes.old ≡ DEVICE_RECORD_BYTES }
    ensures { take 44 bytes.new ≡ take 16 bytes.old ++ claim_front numbers.now }
{
    let ticket = numbers.ticket;
    put(
        bytes,
        CLAIM_AT,
        &[OPEN, ticket.route, ticket.capsule, ticket.item],
    );
    put(bytes, 20, &bytes_of_u32(numbers.unit));
    put(bytes, 24, &bytes_of_u64(ticket.serial));
    put(bytes, 32, &bytes_of_u32(numbers.version));
    put(bytes, 36, &bytes_of_u32(numbers.floor));
    put(bytes, 40, &bytes_of_u32(numbers.size));
}

/// Writes the name of a claim with its length and the zeros around it.
fn put_name(bytes: &mut [u8], name: &[u8])
    requires size { length bytes.old ≡ DEVICE_RECORD_BYTES }
    requires room { length name.now ≤ NAME_ROOM }
    ensures { bytes.new ≡ take 44 bytes.old ++ name_bytes name.now }
{
    put(bytes, NAME_LENGTH_AT, &[name.len() as u8, 0, 0, 0]);
    put(bytes, NAME_AT, name);
    let zeros = [0; NAME_ROOM];
    put(bytes, NAME_AT + name.len(), &zeros[name.len()..]);
}

/// The state by its places.
fn state_at_front(bytes: &[u8]) -> DevState
    requires { length bytes.now ≡ DEVICE_RECORD_BYTES }
    ensures { result ≡ state_at_front bytes.now }
{
    DevState {
        version: u32_at(bytes, 0),
        floor: u32_at(bytes, 4),
        last_version: u32_at(bytes, 8),
        last_status: u32_at(bytes, 12),
    }
}

/// The numbers of a claim by their places.
fn numbers_at(bytes: &[u8]) -> ClaimNumbers
    requires { length bytes.now ≡ DEVICE_RECORD_BYTES }
    ensures { result ≡ numbers_at bytes.now }
{
    ClaimNumbers {
        ticket: Ticket {
            route: bytes[17],
            capsule: bytes[18],
            item: bytes[19],
            serial: u64_at(bytes, 24),
        },
        unit: u32_at(bytes, 20),
        version: u32_at(bytes, 32),
        floor: u32_at(bytes, 36),
        size: u32_at(bytes, 40),
    }
}

/// The name of a claim by its places, None exactly where it may not stand in a claim.
fn name_in(bytes: &[u8]) -> Option<&str>
    requires { length bytes.now ≡ DEVICE_RECORD_BYTES }
    ensures { SomeIff (option_map (λ name. name.now) result) (is_key_name (name_at bytes.now) ≡ true)
        (name_at bytes.now) }
{
    let size = (bytes[NAME_LENGTH_AT] as usize).min(NAME_ROOM);
    match str::from_utf8(&bytes[NAME_AT..NAME_AT + size]) {
        Ok(name) if is_key_name(name) => Some(name),
        _ => None,
    }
}

/// The claim on a device by its places.
fn claim_at(alloc: Global, device: u8, bytes: &[u8]) -> Result<Claim, NoMemory>
    requires size { length bytes.now ≡ DEVICE_RECORD_BYTES }
    requires name { is_key_name (name_at bytes.now) ≡ true }
    ensures { IfOk result (λ claim. claim ≡ claim_at device bytes.now) }
{
    let numbers = numbers_at(bytes);
    let name = match name_in(bytes) {
        Some(name) => Text::from_str(alloc, name)?,
        None => unreachable!(),
    };
    Ok(Claim {
        key: UnitKey {
            ticket: numbers.ticket,
            unit: numbers.unit,
            device,
            name,
        },
        version: numbers.version,
        floor: numbers.floor,
        length: numbers.size,
    })
}
