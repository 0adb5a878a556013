//! Whether an image may be tried on the first device of a board.

ghost use Rattle.std.specs.Prelude.{◌≡◌, [], IsTrue, nat_le, option_map, Some};
ghost use Rattle.reference_machine.specs.Deliveries.{BootUnit};
ghost use Rattle.reference_machine.specs.Machine.{Machine};
ghost use Rattle.reset_play.specs.Plays.{has_one_device};
ghost use Rattle.delivery_formats.specs.TrueFormats.{true_formats};
ghost use Rattle.reset_play.specs.ThinValues.{parts_of};
ghost use Rattle.reference_machine.specs.Verdicts.{capacity_of, refusal, refusal_with};

use super::spent::{SpentTry, first_device, floor_in_force};
use bench_model::Board;
use image_parts::{Parts, is_admitted};
use reference_machine::{
    LAST_ATTEMPT_STATUS_ERROR_AUTH_ERROR, LAST_ATTEMPT_STATUS_ERROR_INCORRECT_VERSION,
    LAST_ATTEMPT_STATUS_ERROR_INSUFFICIENT_RESOURCES, LAST_ATTEMPT_STATUS_ERROR_INVALID_FORMAT,
};

// Whether a payload of so many bytes has room on the first device.
fn has_room(board: &Board, size: usize) -> bool
    ensures { result ≡ nat_le size (capacity_of board.now 0) }
{
    size <= first_device(board).capacity as usize
}

// The status of the first check that the parts of an image fail, in order. On a board of one
// device there is no other image whose section an image without one could break.
#[tactic(auto, using(crate::proofs::VerdictLemmas::dependencies_hold))]
fn refusal_of_parts(
    board: &Board,
    list: &[SpentTry<'_>],
    image: &[u8],
    parts: &Parts<'_>,
) -> Option<u32>
    requires one { IsTrue (has_one_device board.now) }
    requires dependency { (parts_of parts.now).dependency ≡ [] }
    ensures { (m : Machine) (u : BootUnit) → m.board ≡ board.now → m.list ≡ list.now →
        u.image ≡ image.now → u.key.device ≡ 0
        → result ≡ refusal_with true_formats m u (Some (parts_of parts.now)) }
{
    if !is_admitted(board.digests(), image) {
        return Some(LAST_ATTEMPT_STATUS_ERROR_AUTH_ERROR);
    }
    if !has_room(board, parts.payload.len()) {
        return Some(LAST_ATTEMPT_STATUS_ERROR_INSUFFICIENT_RESOURCES);
    }
    if parts.head.version < floor_in_force(board, list) {
        return Some(LAST_ATTEMPT_STATUS_ERROR_INCORRECT_VERSION);
    }
    None
}

/// The status of the first check that an image of these parts fails on the first device, in the
/// order of the checks of an attempt. None where it passes all.
pub fn refusal(
    board: &Board,
    list: &[SpentTry<'_>],
    image: &[u8],
    parts: &Option<Parts<'_>>,
) -> Option<u32>
    requires one { IsTrue (has_one_device board.now) }
    requires parts { option_map parts_of parts.now ≡ true_formats.parts image.now 0 }
    ensures { (m : Machine) (u : BootUnit) → m.board ≡ board.now → m.list ≡ list.now →
        u.image ≡ image.now → u.key.device ≡ 0 → u.head.support ≡ 0 → result
        ≡ refusal true_formats m u }
{
    match parts {
        Some(parts) => refusal_of_parts(board, list, image, parts),
        None => Some(LAST_ATTEMPT_STATUS_ERROR_INVALID_FORMAT),
    }
}
