ghost use Rattle.std.specs.Prelude.{◌≡◌, ◌%◌, ◌^◌};

/// An EFI_STATUS (UEFI 2.10, appendix D). An error has the top bit set.
#[derive(Clone, Copy, Debug, PartialEq, Eq)]
pub struct EfiStatus {
    pub code: u64,
}

// What the code of an error has beside its number.
const ERROR: u64 = 0x8000_0000_0000_0000;

impl EfiStatus {
    pub const SUCCESS: EfiStatus = EfiStatus { code: 0 };

    pub const LOAD_ERROR: EfiStatus = EfiStatus { code: ERROR + 1 };

    pub const INVALID_PARAMETER: EfiStatus = EfiStatus { code: ERROR + 2 };

    pub const UNSUPPORTED: EfiStatus = EfiStatus { code: ERROR + 3 };

    pub const DEVICE_ERROR: EfiStatus = EfiStatus { code: ERROR + 7 };

    pub const OUT_OF_RESOURCES: EfiStatus = EfiStatus { code: ERROR + 9 };

    pub const NOT_FOUND: EfiStatus = EfiStatus { code: ERROR + 14 };

    pub const ABORTED: EfiStatus = EfiStatus { code: ERROR + 21 };

    pub const INCOMPATIBLE_VERSION: EfiStatus = EfiStatus { code: ERROR + 25 };

    pub const SECURITY_VIOLATION: EfiStatus = EfiStatus { code: ERROR + 26 };

    /// The code without its top bit.
    pub fn number(&self) -> u64
        ensures { result ≡ self.now.code % 2 ^ 63 }
    {
        self.code % ERROR
    }
}
