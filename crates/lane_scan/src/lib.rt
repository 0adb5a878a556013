//! First places in bytes, looked for thirty-two bytes at a time. Contracts see the plain first
//! place.
#![tactic(auto)]

ghost use Rattle.std.specs.Prelude.{◌≡◌, ◌+◌, ◌≤◌, ◌==◌, not, map, length, take, drop};
ghost use Rattle.std.specs.List.{common_prefix_len, prefix_len};
ghost use Rattle.std.specs.Simd.Lanes.{mask_l, zip2};

#[cfg(test)]
mod tests;

use std::simd::u8x32;

/// The bytes that are compared at once.
const LANES: usize = 32;

/// The first place whose byte is not `like`, and the length where there is none.
pub fn first_unlike(bytes: &[u8], like: u8) -> usize
    ensures { result ≡ prefix_len (λ b. b == like) bytes.now }
{
    let mut at = 0;
    while bytes.len() - at >= LANES {
        let found = unlike_from(bytes, at, like);
        if found != 0 {
            return at + found.trailing_zeros() as usize;
        }
        at += LANES;
    }
    at + plain_unlike(&bytes[at..], like)
}

/// The first place below both lengths at which the bytes differ, and the smaller length where there
/// is none.
pub fn first_apart(a: &[u8], b: &[u8]) -> usize
    ensures { result ≡ common_prefix_len (λ x y. x == y) a.now b.now }
{
    let end = a.len().min(b.len());
    let mut at = 0;
    while end - at >= LANES {
        let found = apart_from(a, b, at);
        if found != 0 {
            return at + found.trailing_zeros() as usize;
        }
        at += LANES;
    }
    at + plain_apart(&a[at..], &b[at..])
}

/// A bit for each of the next bytes that is not `like`, the lowest for the first.
#[inline(always)]
fn unlike_from(bytes: &[u8], at: usize, like: u8) -> u64
    requires { at + LANES ≤ length bytes.now }
    ensures { result ≡ mask_l (map (λ b. not (b == like)) (take LANES (drop at bytes.now))) }
{
    let lanes = u8x32::from_slice(&bytes[at..]);
    lanes.simd_ne(u8x32::splat(like)).to_bitmask()
}

/// A bit for each of the next bytes that differ, the lowest for the first.
#[inline(always)]
fn apart_from(a: &[u8], b: &[u8], at: usize) -> u64
    requires a { at + LANES ≤ length a.now }
    requires b { at + LANES ≤ length b.now }
    ensures { result ≡ mask_l (zip2 (λ x y. not (x == y))
        (take LANES (drop at a.now)) (take LANES (drop at b.now))) }
{
    let lanes = u8x32::from_slice(&a[at..]);
    lanes.simd_ne(u8x32::from_slice(&b[at..])).to_bitmask()
}

/// The same as `first_unlike`, byte by byte.
fn plain_unlike(bytes: &[u8], like: u8) -> usize
    ensures value { result ≡ prefix_len (λ b. b == like) bytes.now }
    ensures bound { result ≤ length bytes.now }
{
    let mut at = 0;
    while at < bytes.len() && bytes[at] == like {
        at += 1;
    }
    at
}

/// The same as `first_apart`, byte by byte.
fn plain_apart(a: &[u8], b: &[u8]) -> usize
    ensures value { result ≡ common_prefix_len (λ x y. x == y) a.now b.now }
    ensures bound { result ≤ length a.now }
{
    let mut at = 0;
    while at < a.len() && at < b.len() && a[at] == b[at] {
        at += 1;
    }
    at
}
