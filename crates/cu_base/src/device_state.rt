/// What a platform keeps of a device: the version of its image, the lowest supported version in
/// force, and version and status of the last attempt (UEFI 2.10, 23.4).
#[derive(Clone, Copy, Debug, PartialEq, Eq)]
pub struct DevState {
    pub version: u32,
    pub floor: u32,
    pub last_version: u32,
    pub last_status: u32,
}
