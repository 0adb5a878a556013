//! The limits of a variable, of a batch and of a record, and where things stand in a bank.

/// The most bytes of a variable's name. It has at least one.
pub const MAX_NAME: usize = 64;

/// The most bytes of a variable's data.
pub const MAX_DATA: usize = 16_384;

/// The most changes of a batch that is written as one record.
pub const MAX_CHANGES: usize = 65_535;

/// The most bytes of a record.
pub const MAX_RECORD: usize = 1_048_576;

/// The bytes of a bank's header, behind which the records follow.
pub const BANK_HEAD: usize = 16;

/// The bytes of a record in front of its body.
pub const RECORD_HEAD: usize = 16;

/// The first byte of a header or of a record that counts.
pub const OPEN_GATE: u8 = 0x5A;

/// What a closed gate is written as.
pub const CLOSED_GATE: u8 = 0xFF;
