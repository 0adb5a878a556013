//! The attempts of a play on lists, in order, and what is read off them.

ghost use Rattle.std.specs.Prelude.{◌≡◌, ◌==◌, ◌&&◌, not, max, if◌then◌else◌, slice_get, Some};
ghost use Rattle.std.specs.List.{list_any};
ghost use Rattle.reference_machine.specs.Spent.{is_of, is_on, is_open, is_closed, is_sealed};
ghost use Rattle.reference_machine.specs.Spent.{floor_of, spent};

use crate::{End, UnitKey};
use bench_model::{Board, Device};
use cu_base::{Guid, Items};
use std::marker::Model;

/// Whether an attempt is open, or how it ended.
#[derive(Clone, Copy, Debug, PartialEq, Eq)]
pub enum Standing {
    /// It was claimed and is not settled.
    Open,
    /// It was settled.
    Closed(End),
}

/// An attempt of a play on lists. Contracts see the element of the list of spent units.
#[derive(Drop)]
pub struct SpentTry<'a> {
    pub key: UnitKey,
    /// UpdateImageTypeId of the item.
    pub type_id: Guid,
    /// UpdateImageIndex of the item.
    pub index: u8,
    /// UpdateHardwareInstance of the item.
    pub instance: u64,
    /// The version of its image, 0 where the image is refused.
    pub version: u32,
    /// The lowest supported version of its image, 0 where the image is refused.
    pub floor: u32,
    /// The payload of its image, empty where the image is refused.
    pub payload: &'a [u8],
    pub standing: Standing,
}

impl<'a> Model for SpentTry<'a> {
    ghost use Rattle.reference_machine.specs.Spent.{Element};
    ghost use Rattle.reset_play.specs.ThinValues.{attempt_of, thin_head};

    ghost Value = { Element };

    ghost view = { λ s. attempt_of s.key
        (thin_head s.type_id s.index s.instance) s.version s.floor s.payload.now s.standing };
}

/// Attempts in order.
pub type SpentTries<'a> = Items<SpentTry<'a>>;

fn is_open(attempt: &SpentTry<'_>) -> bool
    ensures { result ≡ is_open attempt.now }
{
    match attempt.standing {
        Standing::Open => true,
        Standing::Closed(_) => false,
    }
}

fn is_closed(attempt: &SpentTry<'_>) -> bool
    ensures { result ≡ is_closed attempt.now }
{
    !is_open(attempt)
}

// Whether it left an image on the first device.
fn is_sealed_on_first(attempt: &SpentTry<'_>) -> bool
    ensures { result ≡ (is_on 0 attempt.now && is_sealed attempt.now) }
{
    attempt.key.device == 0
        && match attempt.standing {
            Standing::Closed(End::Sealed) => true,
            Standing::Closed(End::Refused(_)) => false,
            Standing::Closed(End::Kept) => false,
            Standing::Closed(End::Lost) => false,
            Standing::Open => false,
        }
}

/// The first device of the board.
pub fn first_device(board: &Board) -> &Device
    ensures { Some result.now ≡ slice_get board.now.devices 0 }
{
    match board.devices().first() {
        Some(device) => device,
        None => unreachable!(),
    }
}

// The floor in force behind one more attempt.
fn floor_behind(floor: u32, attempt: &SpentTry<'_>) -> u32
    ensures { result
        ≡ (if is_on 0 attempt.now && is_sealed attempt.now then max floor (attempt.now).floor
        else floor) }
{
    if is_sealed_on_first(attempt) {
        floor.max(attempt.floor)
    } else {
        floor
    }
}

/// The floor in force of the first device.
#[tactic(auto, using(crate::proofs::SpentLemmas::floors_from))]
pub fn floor_in_force(board: &Board, list: &[SpentTry<'_>]) -> u32
    ensures { result ≡ floor_of board.now list.now 0 }
{
    let mut floor = first_device(board).floor;
    for attempt in list {
        floor = floor_behind(floor, attempt);
    }
    floor
}

// Whether it is a closed attempt of the file of a serial.
fn is_spent_of(attempt: &SpentTry<'_>, serial: u64) -> bool
    ensures { result ≡ (is_of 1 serial (attempt.now).key && is_closed attempt.now) }
{
    attempt.key.ticket.route == 1 && attempt.key.ticket.serial == serial && is_closed(attempt)
}

// Whether some attempt is a closed one of the file of a serial.
fn has_spent_of(list: &[SpentTry<'_>], serial: u64) -> bool
    ensures { result ≡ list_any (λ e. is_of 1 serial e.key && is_closed e) list.now }
{
    list.iter().any(|attempt| is_spent_of(attempt, serial))
}

/// Whether a unit of the file of a serial is spent.
pub fn is_file_spent(list: &[SpentTry<'_>], serial: u64) -> bool
    ensures { result ≡ not (spent list.now serial == 0) }
{
    has_spent_of(list, serial)
}
