//! What the end of a claim makes of its device.

ghost use Rattle.std.specs.Prelude.{◌≡◌, Some};
ghost use Rattle.dev_claims.specs.Ended.{IsAttemptEnd, end_shown, is_same_ticket};
ghost use Rattle.dev_claims.specs.Units.{floor_after, state_with, version_after};
ghost use Rattle.reference_machine.specs.Results.{attempt_status, status_with};
ghost use Rattle.reference_machine.specs.declared.unit.Kind.TheVariants.{Try};

use cu_base::{DevState, EfiStatus, Ticket};
use fmp_slot::Slot;
use reference_machine::{End, LAST_ATTEMPT_STATUS_ERROR_UNSUCCESSFUL, LAST_ATTEMPT_STATUS_SUCCESS};

/// How an attempt of a ticket ended, by what its device is.
pub(crate) fn end_shown(ticket: &Ticket, slot: &Slot) -> End
    ensures { result ≡ end_shown ticket.now slot.now }
{
    match slot {
        Slot::Unsealed => End::Lost,
        Slot::Sealed(head) if is_same_ticket(&head.ticket, ticket) => End::Sealed,
        Slot::Sealed(_) => End::Kept,
    }
}

/// Whether two tickets are equal.
fn is_same_ticket(a: &Ticket, b: &Ticket) -> bool
    ensures { result ≡ is_same_ticket a.now b.now }
{
    a.route == b.route && a.capsule == b.capsule && a.item == b.item && a.serial == b.serial
}

/// The state of a device once an image of this version and floor ended on it.
pub(crate) fn state_with(version: u32, floor: u32, end: End, old: &DevState) -> DevState
    ensures { result ≡ state_with version floor end old.now }
{
    DevState {
        version: version_after(end, old.version, version),
        floor: floor_after(end, old.floor, floor),
        last_version: version,
        last_status: attempt_status(end),
    }
}

/// The version of a device once an image of a version ended on it.
fn version_after(end: End, old: u32, version: u32) -> u32
    ensures { result ≡ version_after end old version }
{
    match end {
        End::Refused(_) | End::Kept => old,
        End::Sealed => version,
        End::Lost => 0,
    }
}

/// The floor in force of a device once an image of a floor ended on it.
fn floor_after(end: End, old: u32, floor: u32) -> u32
    ensures { result ≡ floor_after end old floor }
{
    match end {
        End::Sealed => old.max(floor),
        End::Refused(_) | End::Kept | End::Lost => old,
    }
}

/// The LastAttemptStatus of an end (UEFI 2.10, 23.4).
fn attempt_status(end: End) -> u32
    ensures { result ≡ attempt_status end }
{
    match end {
        End::Refused(status) => status,
        End::Sealed => LAST_ATTEMPT_STATUS_SUCCESS,
        End::Kept | End::Lost => LAST_ATTEMPT_STATUS_ERROR_UNSUCCESSFUL,
    }
}

/// The CapsuleStatus of an attempt that ended.
pub(crate) fn status_of(end: End) -> EfiStatus
    requires { IsAttemptEnd end }
    ensures { result ≡ status_with Try (Some end) }
{
    match end {
        End::Sealed => EfiStatus::SUCCESS,
        End::Kept | End::Lost => EfiStatus::ABORTED,
        End::Refused(_) => unreachable!(),
    }
}
