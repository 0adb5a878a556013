//! The limits as numbers: definitions cite the constants, and these laws say what they are.

ghost use Rattle.std.specs.Prelude.{◌≡◌, ◌-◌, ◌^◌};

use crate::limits::{
    BANK_BASE, MAX_BANK, MAX_CAPACITIES, MAX_CAPACITY, MAX_DEVICE_NAME, MAX_DEVICES, MAX_DIGESTS,
    MAX_FW_TYPE, MAX_INSTANCE, MAX_STORE, MAX_TWO_BANK_CAPACITIES, MIN_BANK, MIN_CAPACITY,
    MIN_STORE, RESULT_ROOM,
};
use crate::outside_limits::{
    MAX_FILE_BYTES, MAX_FILE_NAME, MAX_FILES, MAX_FOLDER_BYTES, MAX_MEMORY_BYTES, MAX_SEGMENTS,
    ORDER_ROOM, SLOT_LEAD,
};

/// The limits of a board.
pub fn limits_of_a_board()
    ensures devices { MAX_DEVICES ≡ 16 }
    ensures digests { MAX_DIGESTS ≡ 1024 }
    ensures bank_low { MIN_BANK ≡ 65536 }
    ensures bank_high { MAX_BANK ≡ 1048576 }
    ensures base { BANK_BASE ≡ 4096 }
    ensures result { RESULT_ROOM ≡ 256 }
    ensures store_low { MIN_STORE ≡ 1 }
    ensures store_high { MAX_STORE ≡ 2 }
    ensures one_bank { MAX_CAPACITIES ≡ 536870912 }
    ensures two_banks { MAX_TWO_BANK_CAPACITIES ≡ 268435456 }
{}

/// The limits of a device.
pub fn limits_of_a_device()
    ensures name { MAX_DEVICE_NAME ≡ 16 }
    ensures capacity_low { MIN_CAPACITY ≡ 1 }
    ensures capacity_high { MAX_CAPACITY ≡ 67108864 }
    ensures instance { MAX_INSTANCE ≡ 2 ^ 63 - 1 }
    ensures fw_type { MAX_FW_TYPE ≡ 3 }
{}

/// The limits of what stands beside the board: the folder, the memory, the orders, and where a
/// payload begins in its slot.
pub fn limits_of_the_outside()
    ensures files { MAX_FILES ≡ 64 }
    ensures file { MAX_FILE_BYTES ≡ 67108864 }
    ensures folder { MAX_FOLDER_BYTES ≡ 2147483648 }
    ensures name { MAX_FILE_NAME ≡ 40 }
    ensures segments { MAX_SEGMENTS ≡ 256 }
    ensures memory { MAX_MEMORY_BYTES ≡ 134217728 }
    ensures orders { ORDER_ROOM ≡ 4096 }
    ensures lead { SLOT_LEAD ≡ 8192 }
{}
