ghost use Rattle.std.specs.Prelude.{◌≤◌};

use crate::{first_apart, first_unlike};
use std::process::Abort;

/// The bytes before the place are alike, the one there is not, and what stands behind does not
/// count.
fn finds(rt: &impl Abort, length: usize, place: usize)
    requires { length ≤ 130 }
{
    let mut bytes = [0x5A; 130];
    let alike = [0x5A; 130];
    if place < length {
        bytes[place] = 0;
        if place + 7 < length {
            bytes[place + 7] = 1;
        }
    }
    assert_eq!(rt;
        first_unlike(&bytes[..length], 0x5A),
        place,
        "length {length}"
    );
    assert_eq!(rt;
        first_apart(&bytes[..length], &alike[..length]),
        place,
        "length {length}"
    );
    assert_eq!(rt;
        first_apart(&alike[..length], &bytes),
        place.min(length),
        "length {length}"
    );
}

// Lengths 0 to 130 with the differing byte at each place, and with none.
#[test]
fn the_first_place_at_each_length(rt: HostRuntime) {
    for length in 0..=130 {
        for place in 0..=length {
            finds(&rt, length, place);
        }
    }
}

#[test]
fn the_shorter_of_two_ends_the_comparison(rt: HostRuntime) {
    let bytes = [7; 100];
    for (a, b) in [
        (0, 100),
        (1, 100),
        (31, 33),
        (32, 64),
        (33, 32),
        (100, 65),
        (100, 0),
    ] {
        assert_eq!(rt;
            first_apart(&bytes[..a], &bytes[..b]),
            a.min(b),
            "{a} and {b}"
        );
    }
}

#[test]
fn a_byte_of_each_value_is_told_from_another(rt: HostRuntime) {
    for like in 0..=255 {
        let mut bytes = [like; 40];
        assert_eq!(rt; first_unlike(&bytes, like), 40);
        bytes[39] = like ^ 0x80;
        bytes[33] = like ^ 1;
        assert_eq!(rt; first_unlike(&bytes, like), 33);
    }
}
