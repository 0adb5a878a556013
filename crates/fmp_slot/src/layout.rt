//! The bytes of a slot with one bank.

ghost use Rattle.std.specs.Prelude.{◌≡◌, ◌+◌, ◌≤◌, ◌∷◌, ◌++◌, ◌==◌, length, take, get_or, IsTrue};
ghost use Rattle.std.specs.Prelude.{if◌then◌else◌};
ghost use Rattle.cu_base.specs.Fields.{field};
ghost use Rattle.fmp_slot.specs.Layout.{is_sealed, head_of, dep_length_of, slot_shown};
ghost use Rattle.fmp_slot.specs.Layout.{front_bytes};

use crate::{MAX_KEPT_SECTION, Slot, SlotHead};
use cu_base::{Ticket, bytes_of_u32, bytes_of_u64, u32_at, u64_at};

/// The byte at 0 of a sealed slot.
pub const SEAL: u8 = 0x5A;

/// What is written over a seal, and beside one that is not there.
pub const BLANK: u8 = 0xFF;

/// The bytes of a head.
pub const HEAD_BYTES: usize = 64;

/// The place of a seal.
pub const SEAL_AT: u32 = 0;

/// Where the head begins behind its seal.
pub const FRONT_AT: u32 = 1;

/// The bytes of the head behind its seal and of the longest section, with the place of the seal.
const FRONT_ROOM: usize = 4_160;

/// The name of the format.
const NAME: [u8; 3] = *b"CUS";

/// The format without a dependency section.
const FIRST_FORMAT: u32 = 1;

/// The format that is written.
const FORMAT: u32 = 2;

/// The place of the name.
const NAME_AT: usize = 1;

/// The place of the format.
const FORMAT_AT: usize = 4;

/// The place of the ticket's route, capsule and item.
const TICKET_AT: usize = 8;

/// The place of the 5 zeros behind them.
const ZEROS_AT: usize = 11;

/// The place of the ticket's serial.
const SERIAL_AT: usize = 16;

/// The place of the version.
const VERSION_AT: usize = 24;

/// The place of the lowest version that is supported.
const FLOOR_AT: usize = 28;

/// The place of the payload's length.
const LENGTH_AT: usize = 32;

/// The place of the section's length, from format 2 on.
const DEP_LENGTH_AT: usize = 36;

/// The place of the 24 zeros at the end of the head.
const LAST_ZEROS_AT: usize = 40;

/// The place of the section.
pub const DEP_AT: u32 = 64;

/// What the first bytes of a region with so much room for a payload tell.
pub fn shown(room: u32, bytes: &[u8]) -> Slot
    requires { HEAD_BYTES ≤ length bytes.now }
    ensures { result ≡ slot_shown room bytes.now }
{
    if is_sealed(room, bytes) {
        Slot::Sealed(head_of(bytes))
    } else {
        Slot::Unsealed
    }
}

/// Whether these bytes are those of a sealed slot.
fn is_sealed(room: u32, bytes: &[u8]) -> bool
    requires { HEAD_BYTES ≤ length bytes.now }
    ensures { result ≡ is_sealed room bytes.now }
{
    let format = u32_at(bytes, FORMAT_AT);
    bytes[0] == SEAL
        && &bytes[NAME_AT..FORMAT_AT] == NAME.as_slice()
        && (format == FIRST_FORMAT || format == FORMAT)
        && u32_at(bytes, LENGTH_AT) <= room
        && dep_length(bytes) <= MAX_KEPT_SECTION
}

/// The length of the section, which format 1 has not.
fn dep_length(bytes: &[u8]) -> u32
    requires { HEAD_BYTES ≤ length bytes.now }
    ensures { result ≡ dep_length_of bytes.now }
{
    if u32_at(bytes, FORMAT_AT) == FIRST_FORMAT {
        0
    } else {
        u32_at(bytes, DEP_LENGTH_AT)
    }
}

/// The head.
fn head_of(bytes: &[u8]) -> SlotHead
    requires { HEAD_BYTES ≤ length bytes.now }
    ensures { result ≡ head_of bytes.now }
{
    SlotHead {
        ticket: Ticket {
            route: bytes[TICKET_AT],
            capsule: bytes[TICKET_AT + 1],
            item: bytes[TICKET_AT + 2],
            serial: u64_at(bytes, SERIAL_AT),
        },
        version: u32_at(bytes, VERSION_AT),
        floor: u32_at(bytes, FLOOR_AT),
        length: u32_at(bytes, LENGTH_AT),
        dep_length: dep_length(bytes),
    }
}

/// The head in format 2 and the section, behind a byte in place of the seal.
pub fn front(head: &SlotHead, dep: &[u8]) -> [u8; FRONT_ROOM]
    requires { length dep.now ≤ MAX_KEPT_SECTION }
    ensures { take (DEP_AT + length dep.now) result ≡ 0 ∷ front_bytes head.now dep.now }
{
    let ticket = [head.ticket.route, head.ticket.capsule, head.ticket.item];
    let mut bytes = [0; FRONT_ROOM];
    put(&mut bytes, NAME_AT, &NAME);
    put(&mut bytes, FORMAT_AT, &bytes_of_u32(FORMAT));
    put(&mut bytes, TICKET_AT, &ticket);
    put(&mut bytes, ZEROS_AT, &[0; 5]);
    put(&mut bytes, SERIAL_AT, &bytes_of_u64(head.ticket.serial));
    put(&mut bytes, VERSION_AT, &bytes_of_u32(head.version));
    put(&mut bytes, FLOOR_AT, &bytes_of_u32(head.floor));
    put(&mut bytes, LENGTH_AT, &bytes_of_u32(head.length));
    put(&mut bytes, DEP_LENGTH_AT, &bytes_of_u32(head.dep_length));
    put(&mut bytes, LAST_ZEROS_AT, &[0; 24]);
    put(&mut bytes, DEP_AT as usize, dep);
    bytes
}

/// Writes the bytes at a place.
pub fn put(buffer: &mut [u8], at: usize, bytes: &[u8])
    requires room { at + length bytes.now ≤ length buffer.old }
    ensures { take (at + length bytes.now) buffer.new ≡ take at buffer.old ++ bytes.now }
{
    let end = at + bytes.len();
    buffer[at..end].copy_from_slice(bytes);
}
