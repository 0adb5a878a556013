//! The values of LastAttemptStatus of an ESRT entry (UEFI 2.10, 23.4).

/// The attempt succeeded.
pub const LAST_ATTEMPT_STATUS_SUCCESS: u32 = 0;

/// The attempt failed, for no other cause of these.
pub const LAST_ATTEMPT_STATUS_ERROR_UNSUCCESSFUL: u32 = 1;

/// The device has no room for the payload.
pub const LAST_ATTEMPT_STATUS_ERROR_INSUFFICIENT_RESOURCES: u32 = 2;

/// The version is below the lowest supported one.
pub const LAST_ATTEMPT_STATUS_ERROR_INCORRECT_VERSION: u32 = 3;

/// The update image has no such parts.
pub const LAST_ATTEMPT_STATUS_ERROR_INVALID_FORMAT: u32 = 4;

/// The update image is not admitted.
pub const LAST_ATTEMPT_STATUS_ERROR_AUTH_ERROR: u32 = 5;

/// A dependency does not hold.
pub const LAST_ATTEMPT_STATUS_ERROR_UNSATISFIED_DEPENDENCIES: u32 = 8;
