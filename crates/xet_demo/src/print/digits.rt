//! Hexadecimal digits of bytes.
ghost use Rattle.std.specs.Prelude.{◌≡◌, ◌+◌, ◌*◌, ◌<◌, ◌≤◌, ◌++◌, length, map, take, slice_index};
ghost use Rattle.hex.specs.Hex.{encode_lower, lower_digits};
ghost use lib.Lanes.{Each1, chunk};

use std::simd::prelude::*;

/// The digit of each value below 16, letters in lower case.
const DIGITS: [u8; 16] = *b"0123456789abcdef";

/// The digits of sixteen values.
#[inline(always)]
fn looked_up(values: u8x16) -> u8x16
    requires { Each1 (λ v. v < 16) values }
    ensures { result ≡ map (λ v. slice_index lower_digits v) values }
{
    u8x16::from_array(DIGITS).swizzle_dyn(values)
}

/// The digits of sixteen bytes: those of the first eight, and those of the others.
#[inline(always)]
pub fn digits(bytes: u8x16) -> (u8x16, u8x16)
    ensures digits { result.0 ++ result.1 ≡ encode_lower bytes }
    ensures front { length result.0 ≡ 16 }
    ensures back { length result.1 ≡ 16 }
{
    let high = looked_up(bytes >> 4);
    let low = looked_up(bytes & u8x16::splat(15));
    high.interleave(low)
}

/// Puts the digits of sixteen bytes to their place.
#[inline(always)]
fn put_digits(bytes: &[u8], at: usize, out: &mut [u8])
    requires inside { at + 16 ≤ length bytes.now }
    requires twice { length out.old ≡ 2 * length bytes.now }
    ensures digits { take (2 * (at + 16)) out.new ≡ take (2 * at) out.old ++ encode_lower (chunk at 16 bytes.now) }
    ensures room { length out.new ≡ length out.old }
{
    let (front, back) = digits(u8x16::from_slice(&bytes[at..]));
    front.copy_to_slice(&mut out[2 * at..]);
    back.copy_to_slice(&mut out[2 * at + 16..]);
}

/// The digit of a value, letters in lower case.
fn digit(value: u8) -> u8
    requires { value < 16 }
    ensures { result ≡ slice_index lower_digits value }
{
    DIGITS[usize::from(value)]
}

/// Puts two digits for each of few bytes.
fn spell_few(bytes: &[u8], out: &mut [u8])
    requires { length out.old ≡ 2 * length bytes.now }
    ensures { out.new ≡ encode_lower bytes.now }
{
    'bytes: for i in 0..bytes.len() {
        let high = digit(bytes[i] / 16);
        let low = digit(bytes[i] % 16);
        out[2 * i] = high;
        out[2 * i + 1] = low;
    }
}

/// Puts two digits for each byte, for sixteen bytes at a time. The last sixteen are put whole, over digits of some of them that are there
/// already, so that no bytes are left to be put one by one.
pub fn spell(bytes: &[u8], out: &mut [u8])
    requires { length out.old ≡ 2 * length bytes.now }
    ensures { out.new ≡ encode_lower bytes.now }
{
    if bytes.len() < 16 {
        return spell_few(bytes, out);
    }
    let last = bytes.len() - 16;
    let mut at = 0;
    'blocks: while at < last {
        put_digits(bytes, at, out);
        at += 16;
    }
    put_digits(bytes, last, out);
}
