use cu_base::{EfiStatus, EfiTime, Guid, Text};

/// The bytes of the header of a result, EFI_CAPSULE_RESULT_VARIABLE_HEADER.
pub const RESULT_HEADER_BYTES: usize = 48;

/// The bytes of a result up to the texts of its part on a payload.
pub const FMP_RESULT_BYTES: usize = 68;

/// Version of the part on a payload.
pub const FMP_RESULT_VERSION: u16 = 1;

/// The result of a capsule as it stands in a variable, EFI_CAPSULE_RESULT_VARIABLE_HEADER
/// (UEFI 2.10, 8.5.6).
#[derive(Drop)]
pub struct ResultVar {
    /// CapsuleGuid.
    pub guid: Guid,
    /// CapsuleProcessed.
    pub time: EfiTime,
    /// CapsuleStatus.
    pub status: EfiStatus,
    /// What follows where a payload was looked at.
    pub fmp: Option<FmpResult>,
}

/// The part on a payload of a result, EFI_CAPSULE_RESULT_VARIABLE_FMP (UEFI 2.10, 8.5.6). Its texts
/// are ASCII without zero.
#[derive(Drop)]
pub struct FmpResult {
    /// PayloadIndex, counted from 0.
    pub payload: u8,
    /// UpdateImageIndex.
    pub index: u8,
    /// UpdateImageTypeId.
    pub type_id: Guid,
    /// CapsuleFileName, empty for a delivery by memory.
    pub file: Text,
    /// CapsuleTarget: the name of the device, empty where there was no target.
    pub target: Text,
}
