//! What holds of the bytes and texts that this crate reads and writes, whatever the values.

ghost use Rattle.std.specs.Prelude.{◌≡◌, ◌+◌, ◌<◌, ◌^◌, ℕ, List, IsTrue, length, pos, Ok};
ghost use Rattle.cu_base.specs.Bytes.{IsBytes};
ghost use Rattle.cu_base.specs.Fields.{number, bytes_of};
ghost use Rattle.cu_base.specs.Guids.{fields_reversed, guid_of_text, guid_text};
ghost use Rattle.cu_base.specs.declared.guid.Guid.{Guid};
ghost use Rattle.cu_base.specs.declared.limits.TheConstants.{MAX_CAPSULE_BYTES};
ghost use Rattle.cu_base.specs.declared.time.TheConstants.{UNSPECIFIED_ZONE};
ghost use Rattle.cu_base.specs.declared.status.TheConstants.EfiStatus as status;
ghost use Rattle.cu_base.specs.Times.{is_in_calendar, moment, time_at_front, time_bytes};
ghost use Rattle.cu_base.specs.Times.{time_of_text, time_text};

use crate::EfiTime;

/// The limit of a capsule is 64 MiB, and no stated time zone is 0x07FF (UEFI 2.10, 8.3).
pub fn limits_are()
    ensures { (MAX_CAPSULE_BYTES ≡ 67108864) × (UNSPECIFIED_ZONE ≡ pos 2047) }
{}

/// The codes of the statuses (UEFI 2.10, appendix D).
pub fn statuses_are()
    ensures success { status.SUCCESS.code ≡ 0 }
    ensures load_error { status.LOAD_ERROR.code ≡ 2 ^ 63 + 1 }
    ensures invalid_parameter { status.INVALID_PARAMETER.code ≡ 2 ^ 63 + 2 }
    ensures unsupported { status.UNSUPPORTED.code ≡ 2 ^ 63 + 3 }
    ensures device_error { status.DEVICE_ERROR.code ≡ 2 ^ 63 + 7 }
    ensures out_of_resources { status.OUT_OF_RESOURCES.code ≡ 2 ^ 63 + 9 }
    ensures not_found { status.NOT_FOUND.code ≡ 2 ^ 63 + 14 }
    ensures aborted { status.ABORTED.code ≡ 2 ^ 63 + 21 }
    ensures incompatible_version { status.INCOMPATIBLE_VERSION.code ≡ 2 ^ 63 + 25 }
    ensures security_violation { status.SECURITY_VIOLATION.code ≡ 2 ^ 63 + 26 }
{}

/// A number that is written in enough bytes is read back.
pub fn numbers_read_back()
    ensures { (size n : ℕ) → n < 256 ^ size → number (bytes_of size n) ≡ n }
{}

/// Bytes whose number is read are written again.
pub fn numbers_write_back()
    ensures { (bytes : List ℕ) → IsBytes bytes →
        bytes_of (length bytes) (number bytes) ≡ bytes }
{}

/// To reverse the fields of a GUID twice changes nothing.
pub fn fields_reverse_back()
    ensures { (bytes : List ℕ) → length bytes ≡ 16 →
        fields_reversed (fields_reversed bytes) ≡ bytes }
{}

/// The text of a GUID shows that GUID.
pub fn guids_read_back()
    ensures { (bytes : List ℕ) → length bytes ≡ 16 → IsBytes bytes →
        let guid : Guid = record { bytes = bytes } in guid_of_text (guid_text guid) ≡ Ok guid }
{}

/// The bytes of a moment, whatever its fields hold, hold that moment.
pub fn times_read_back(time: EfiTime)
    ensures { time_at_front (time_bytes time) ≡ time }
{}

/// The moment of any 16 bytes has those bytes.
pub fn times_write_back()
    ensures { (bytes : List ℕ) → length bytes ≡ 16 → IsBytes bytes →
        time_bytes (time_at_front bytes) ≡ bytes }
{}

/// The text of a moment of the calendar, of whole seconds in no stated time zone, shows that
/// moment.
pub fn texts_read_back()
    ensures { (year month day hour minute second : ℕ) →
        let time = moment year month day hour minute second in
        IsTrue (is_in_calendar time) → time_of_text (time_text time) ≡ Ok time }
{}
