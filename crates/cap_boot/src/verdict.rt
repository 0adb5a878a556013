//! Whether an item may be tried on a device: the checks before a SetImage in their order (UEFI
//! 2.10, 23.4, as in EDK II's FmpDevicePkg), up to that of the dependencies.

ghost use Rattle.std.specs.Prelude.{◌≡◌, ◌<◌, ◌^◌, IfOk, IfSome, Some, length, nat_le, option_map};
ghost use Rattle.cap_boot.specs.Checks.{IsRefused, IsStatus, parts_of};
ghost use Rattle.delivery_formats.specs.TrueFormats.{true_formats};
ghost use Rattle.reference_machine.specs.Results.{efi_number_of, efi_status};
ghost use Rattle.reference_machine.specs.Verdicts.{capacity_of};

use bench_model::Board;
use cu_base::{EfiStatus, NoMemory};
use image_parts::{PartRefusal, Parts, is_admitted, split};
use reference_machine::{
    LAST_ATTEMPT_STATUS_ERROR_AUTH_ERROR, LAST_ATTEMPT_STATUS_ERROR_INCORRECT_VERSION,
    LAST_ATTEMPT_STATUS_ERROR_INSUFFICIENT_RESOURCES, LAST_ATTEMPT_STATUS_ERROR_INVALID_FORMAT,
    LAST_ATTEMPT_STATUS_ERROR_UNSATISFIED_DEPENDENCIES, LAST_ATTEMPT_STATUS_SUCCESS,
};
use std::alloc::Global;

/// A refusal of a try.
#[derive(Clone, Copy)]
pub(crate) struct Refusal {
    /// The version of the image, 0 where it has no parts.
    pub(crate) version: u32,
    /// Its LastAttemptStatus.
    pub(crate) status: u32,
}

/// The CapsuleStatus that tells the LastAttemptStatus of a refusal: ABORTED for those that no check
/// gives.
pub(crate) fn capsule_status(status: u32) -> EfiStatus
    ensures { result ≡ efi_status (efi_number_of status) }
{
    match status {
        LAST_ATTEMPT_STATUS_SUCCESS => EfiStatus::SUCCESS,
        LAST_ATTEMPT_STATUS_ERROR_INSUFFICIENT_RESOURCES => EfiStatus::OUT_OF_RESOURCES,
        LAST_ATTEMPT_STATUS_ERROR_INCORRECT_VERSION => EfiStatus::INCOMPATIBLE_VERSION,
        LAST_ATTEMPT_STATUS_ERROR_INVALID_FORMAT => EfiStatus::LOAD_ERROR,
        LAST_ATTEMPT_STATUS_ERROR_AUTH_ERROR => EfiStatus::SECURITY_VIOLATION,
        LAST_ATTEMPT_STATUS_ERROR_UNSATISFIED_DEPENDENCIES => EfiStatus::NOT_FOUND,
        _ => EfiStatus::ABORTED,
    }
}

/// The parts of an image of this support, None exactly where it is refused. Memory is wanted only
/// where a section is due.
fn parts_in(alloc: Global, image: &[u8], support: u64) -> Result<Option<Parts<'_>>, NoMemory>
    requires { length image.now < 2 ^ 32 }
    ensures { IfOk result (λ parts. option_map parts_of parts
        ≡ true_formats.parts image.now support) }
{
    match split(alloc, image, support) {
        Ok(parts) => Ok(Some(parts)),
        Err(PartRefusal::Part(_)) => Ok(None),
        Err(PartRefusal::Memory) => Err(NoMemory),
    }
}

/// Whether a payload of so many bytes has room on a device.
fn has_room(board: &Board, device: u8, size: usize) -> bool
    ensures { result ≡ nat_le size (capacity_of board.now device) }
{
    match board.devices().get(device as usize) {
        Some(device) => size <= device.capacity as usize,
        None => size == 0,
    }
}

/// The status of the first check that an image of these parts does not pass on a device with this
/// floor in force, before that of the dependencies. None where it passes them.
fn status_of_parts(
    board: &Board,
    device: u8,
    floor: u32,
    image: &[u8],
    parts: &Parts<'_>,
) -> Option<u32>
    ensures { IfSome result
        (IsStatus board.now device floor image.now (Some (parts_of parts.now))) }
{
    if !is_admitted(board.digests(), image) {
        return Some(LAST_ATTEMPT_STATUS_ERROR_AUTH_ERROR);
    }
    if !has_room(board, device, parts.payload.len()) {
        return Some(LAST_ATTEMPT_STATUS_ERROR_INSUFFICIENT_RESOURCES);
    }
    if parts.head.version < floor {
        return Some(LAST_ATTEMPT_STATUS_ERROR_INCORRECT_VERSION);
    }
    None
}

/// The refusal of an image of this support by the first check that it does not pass on a device
/// with this floor in force, before that of the dependencies. None where it passes them.
pub(crate) fn refusal_of(
    alloc: Global,
    board: &Board,
    device: u8,
    floor: u32,
    image: &[u8],
    support: u64,
) -> Result<Option<Refusal>, NoMemory>
    ensures { IfOk result
        (λ found. IfSome found (IsRefused board.now device floor image.now support)) }
{
    // No capsule has room for such an image.
    if image.len() > u32::MAX as usize {
        return Err(NoMemory);
    }
    match parts_in(alloc, image, support)? {
        Some(parts) => match status_of_parts(board, device, floor, image, &parts) {
            Some(status) => Ok(Some(Refusal {
                version: parts.head.version,
                status,
            })),
            None => Ok(None),
        },
        None => Ok(Some(Refusal {
            version: 0,
            status: LAST_ATTEMPT_STATUS_ERROR_INVALID_FORMAT,
        })),
    }
}
