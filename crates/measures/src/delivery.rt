//! A delivery of 64 MiB with one item, fed in pieces.

use crate::stop::Stop;
use capsule_feed::{Events, Feed};
use std::alloc::Global;

/// The bytes of a piece.
const PIECE: usize = 65_536;

/// How many pieces the delivery has.
const PIECES: u32 = 1_024;

/// The bytes of the delivery.
const SIZE: u32 = 67_108_864;

/// An FMP capsule of that size with one image of header version 3, up to its image of 67,108,772
/// bytes.
const FRONT: &[u8; 92] = b"\xed\xd5\xcb\x6d\x2d\xe8\x44\x4c\xbd\xa1\x71\x94\x19\x9a\xd9\x2a\
    \x1c\0\0\0\0\0\x05\0\0\0\0\x04\x01\0\0\0\0\0\x01\0\x10\0\0\0\0\0\0\0\
    \x03\0\0\0\xaa\xaa\xaa\xaa\0\0\0\0\0\0\0\0\0\0\0\x01\x01\0\0\0\xa4\xff\xff\x03\
    \0\0\0\0\0\0\0\0\0\0\0\0\0\0\0\0\0\0\0\0";

/// Feeds the delivery.
pub fn measure(alloc: Global) -> Result<(), Stop> {
    let mut first = [0; PIECE];
    first[..92].copy_from_slice(FRONT);
    let other = [0; PIECE];
    let mut feed = Feed::new(alloc, SIZE);
    let mut events = Events::new(alloc);
    for number in 0..PIECES {
        let piece = if number == 0 { &first } else { &other };
        if feed.feed(piece, &mut events).is_err() {
            return Err(Stop::Failed);
        }
    }
    match feed.end() {
        Ok(()) => Ok(()),
        Err(_) => Err(Stop::Failed),
    }
}
