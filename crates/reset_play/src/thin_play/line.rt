//! The lines of a boot.

ghost use Rattle.std.specs.Prelude.{◌≡◌, IfOk, Some};
ghost use Rattle.reference_machine.specs.Results.{status_with, efi_status, efi_number_of, line_of};
ghost use Rattle.reference_machine.specs.Results.{result_number};
ghost use Rattle.reference_machine.specs.declared.unit.Kind.TheVariants.{Try};

use super::spent::{SpentTry, Standing};
use crate::{End, Kind, UnitKey, UnitLine};
use bench_model::Board;
use cu_base::{EfiStatus, NoMemory, Text};
use reference_machine::{
    LAST_ATTEMPT_STATUS_ERROR_AUTH_ERROR, LAST_ATTEMPT_STATUS_ERROR_INCORRECT_VERSION,
    LAST_ATTEMPT_STATUS_ERROR_INSUFFICIENT_RESOURCES, LAST_ATTEMPT_STATUS_ERROR_INVALID_FORMAT,
    LAST_ATTEMPT_STATUS_ERROR_UNSATISFIED_DEPENDENCIES, LAST_ATTEMPT_STATUS_SUCCESS,
};
use std::alloc::Global;

// The CapsuleStatus that tells a LastAttemptStatus.
fn status_of_attempt(status: u32) -> EfiStatus
    ensures { result ≡ efi_status (efi_number_of status) }
{
    match status {
        LAST_ATTEMPT_STATUS_SUCCESS => EfiStatus::SUCCESS,
        LAST_ATTEMPT_STATUS_ERROR_INSUFFICIENT_RESOURCES => EfiStatus::OUT_OF_RESOURCES,
        LAST_ATTEMPT_STATUS_ERROR_INCORRECT_VERSION => EfiStatus::INCOMPATIBLE_VERSION,
        LAST_ATTEMPT_STATUS_ERROR_INVALID_FORMAT => EfiStatus::LOAD_ERROR,
        LAST_ATTEMPT_STATUS_ERROR_AUTH_ERROR => EfiStatus::SECURITY_VIOLATION,
        LAST_ATTEMPT_STATUS_ERROR_UNSATISFIED_DEPENDENCIES => EfiStatus::NOT_FOUND,
        _ => EfiStatus::ABORTED,
    }
}

// The CapsuleStatus of an attempt that ended so.
fn status_of(end: End) -> EfiStatus
    ensures { result ≡ status_with Try (Some end) }
{
    match end {
        End::Refused(status) => status_of_attempt(status),
        End::Sealed => EfiStatus::SUCCESS,
        End::Kept => EfiStatus::ABORTED,
        End::Lost => EfiStatus::ABORTED,
    }
}

/// The same key, with a name of its own.
pub fn copy_of_key(alloc: Global, key: &UnitKey) -> Result<UnitKey, NoMemory>
    ensures { IfOk result (λ copy. copy ≡ key.now) }
{
    let name = Text::from_str(alloc, key.name.as_str())?;
    Ok(UnitKey {
        ticket: key.ticket,
        unit: key.unit,
        device: key.device,
        name,
    })
}

// The number of the result variable of the k-th closed attempt.
fn result_of(board: &Board, k: usize) -> u16
    ensures { result ≡ result_number board.now k }
{
    (k % (usize::from(board.result_max()) + 1)) as u16
}

/// The line of an attempt that is the `k`-th to be closed, counted from 0.
pub fn line_of(
    alloc: Global,
    board: &Board,
    kind: Kind,
    k: usize,
    attempt: &SpentTry<'_>,
) -> Result<UnitLine, NoMemory>
    ensures { IfOk result (λ line. line ≡ line_of board.now kind k attempt.now) }
{
    let key = copy_of_key(alloc, &attempt.key)?;
    let (end, status) = match attempt.standing {
        Standing::Open => (None, EfiStatus::UNSUPPORTED),
        Standing::Closed(end) => (Some(end), status_of(end)),
    };
    Ok(UnitLine {
        kind,
        key,
        version: attempt.version,
        end,
        status,
        result: result_of(board, k),
    })
}
