use cu_base::Guid;

/// The CapsuleGuid of an FMP capsule, EFI_FIRMWARE_MANAGEMENT_CAPSULE_ID_GUID (UEFI 2.10, 23.3.1):
/// 6dcbd5ed-e82d-4c44-bda1-7194199ad92a.
pub const FMP_CAPSULE_GUID: Guid = Guid {
    bytes: [
        0xed, 0xd5, 0xcb, 0x6d, 0x2d, 0xe8, 0x44, 0x4c, 0xbd, 0xa1, 0x71, 0x94, 0x19, 0x9a, 0xd9,
        0x2a,
    ],
};
