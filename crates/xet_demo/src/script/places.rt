//! Places of bytes in a text.
ghost use Rattle.std.specs.Prelude.{◌+◌, ◌≤◌, length};
ghost use Rattle.memchr.specs.Find.{IsFirst, IsFirstByte, Passes, is_byte};

use memchr::memchr;
use std::simd::prelude::*;

/// How far a byte is looked for sixteen bytes at a time, which is faster while it is near.
const NEAR: usize = 128;

/// The first place of a byte among the sixteen bytes from a place on.
#[inline(always)]
fn place_in_sixteen(byte: u8, text: &[u8], at: usize) -> Option<usize>
    requires { at + 16 ≤ length text.now }
    ensures { IsFirst (Passes (is_byte byte) text.now) at (at + 16) result }
{
    let lanes = u8x16::from_slice(&text[at..]);
    let found = lanes.simd_eq(u8x16::splat(byte)).to_bitmask();
    if found == 0 {
        None
    } else {
        Some(at + found.trailing_zeros() as usize)
    }
}

/// The first place of a byte from a place on, by one byte after the other.
#[inline(always)]
fn place_in_few(byte: u8, text: &[u8], from: usize) -> Option<usize>
    ensures { IsFirst (Passes (is_byte byte) text.now) from (length text.now) result }
{
    'bytes: for place in from..text.len() {
        if text[place] == byte {
            return Some(place);
        }
    }
    None
}

/// The first place of a byte from a place on, where many bytes are left.
#[inline(never)]
fn place_in_many(byte: u8, text: &[u8], from: usize) -> Option<usize>
    requires { from ≤ length text.now }
    ensures { IsFirst (Passes (is_byte byte) text.now) from (length text.now) result }
{
    match memchr(byte, &text[from..]) {
        Some(place) => Some(from + place),
        None => None,
    }
}

/// The first place of a byte.
pub fn place_of(byte: u8, text: &[u8]) -> Option<usize>
    ensures { IsFirstByte (is_byte byte) text.now result }
{
    let mut at = 0;
    'parts: while at + 16 <= text.len() {
        if let Some(place) = place_in_sixteen(byte, text, at) {
            return Some(place);
        }
        at += 16;
        if at >= NEAR {
            return place_in_many(byte, text, at);
        }
    }
    place_in_few(byte, text, at)
}
