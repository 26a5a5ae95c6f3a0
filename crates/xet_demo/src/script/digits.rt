//! Hexadecimal digits.
ghost use Rattle.std.specs.Prelude.{◌≡◌, ◌*◌, ◌+◌, ◌<◌, ◌≤◌, ◌++◌, Some, Ok, IfOk, IsTrue, length, take, option_map};
ghost use Rattle.hex.specs.Hex.{decode_of, decode_pairs, encode_lower, hex_digit_value};
ghost use Rattle.xet_demo.specs.Words.{hash_of, ok_of};
ghost use lib.Lanes.{chunk};
ghost use Rattle.xet_types.specs.declared.hash.MerkleHash.{MerkleHash};

use crate::print::digits::digits;
use std::alloc::Global;
use std::simd::prelude::*;
use xet_types::{MerkleHash, OutOfMemory};

/// The value of a digit of either case, or 255 where the byte is none.
fn value(digit: u8) -> u8
    ensures { result < 16 → hex_digit_value digit ≡ Some result }
{
    let number = digit.wrapping_sub(b'0');
    let lower = digit.wrapping_sub(b'a');
    let upper = digit.wrapping_sub(b'A');
    if number < 10 {
        number
    } else if lower < 6 {
        lower + 10
    } else if upper < 6 {
        upper + 10
    } else {
        255
    }
}

/// Puts the bytes that pairs of digits spell one by one, and answers whether they are all digits. It has no branch on the digits,
/// so that it is fast on many.
fn spell_each(text: &[u8], out: &mut [u8]) -> bool
    requires { length text.now ≡ 2 * length out.old }
    ensures { IsTrue result → decode_pairs 0 text.now ≡ Ok out.new }
{
    let mut greatest = 0u8;
    'bytes: for i in 0..out.len() {
        let high = value(text[2 * i]);
        let low = value(text[2 * i + 1]);
        greatest = greatest.max(high).max(low);
        out[i] = high.wrapping_mul(16).wrapping_add(low);
    }
    greatest < 16
}

/// The values of sixteen digits in lower case. Those of other bytes mean nothing.
#[inline(always)]
fn values(digits: u8x16) -> u8x16 {
    let letters = digits.simd_gt(u8x16::splat(b'9'));
    (digits & u8x16::splat(15)) + letters.select(u8x16::splat(9), u8x16::splat(0))
}

/// Whether each lane is the same.
#[inline(always)]
fn are_same(a: u8x16, b: u8x16) -> bool
    requires one { length a ≡ 16 }
    requires other { length b ≡ 16 }
    ensures { IsTrue result → a ≡ b }
{
    a.simd_ne(b).to_bitmask() == 0
}

/// The sixteen bytes that 32 digits in lower case spell. Those of other bytes mean nothing.
#[inline(always)]
fn guess(front: u8x16, back: u8x16) -> u8x16
    requires one { length front ≡ 16 }
    requires other { length back ≡ 16 }
    ensures { length result ≡ 16 }
{
    let (high, low) = values(front).deinterleave(values(back));
    high << 4 | low
}

/// Puts sixteen bytes to their place, and answers whether the digits there are theirs in lower case.
#[inline(always)]
fn put_bytes(text: &[u8], at: usize, out: &mut [u8]) -> bool
    requires inside { at + 16 ≤ length out.old }
    requires twice { length text.now ≡ 2 * length out.old }
    ensures spelled { IsTrue result → encode_lower (take (at + 16) out.new) ≡ encode_lower (take at out.old) ++ chunk (2 * at) 32 text.now }
    ensures room { length out.new ≡ length out.old }
{
    let front = u8x16::from_slice(&text[2 * at..]);
    let back = u8x16::from_slice(&text[2 * at + 16..]);
    let bytes = guess(front, back);
    bytes.copy_to_slice(&mut out[at..]);
    let (first, second) = digits(bytes);
    are_same(first, front) && are_same(second, back)
}

/// Puts the bytes that pairs of digits spell, sixteen bytes at a time, and answers whether these are all digits in lower case. The last
/// sixteen are put whole, over some of them that are there already. Fewer than sixteen bytes aren't spelled so.
fn spell_lower(text: &[u8], out: &mut [u8]) -> bool
    requires { length text.now ≡ 2 * length out.old }
    ensures { IsTrue result → decode_pairs 0 text.now ≡ Ok out.new }
{
    if out.len() < 16 {
        return false;
    }
    let last = out.len() - 16;
    let mut at = 0;
    'parts: while at < last {
        if !put_bytes(text, at, out) {
            return false;
        }
        at += 16;
    }
    put_bytes(text, last, out)
}

/// Puts the bytes that pairs of digits spell. Where it answers that it did, they are all digits.
fn spell(text: &[u8], out: &mut [u8]) -> bool
    requires { length text.now ≡ 2 * length out.old }
    ensures { IsTrue result → decode_pairs 0 text.now ≡ Ok out.new }
{
    spell_lower(text, out) || spell_each(text, out)
}

/// The bytes that hexadecimal digits of either case spell, if they do.
pub fn decode(alloc: Global, text: &[u8]) -> Result<Option<Vec<u8>>, OutOfMemory>
    ensures { IfOk result (λ bytes. option_map (λ v. v.items) bytes ≡ ok_of (decode_of text.now)) }
{
    if text.len() % 2 == 1 {
        return Ok(None);
    }
    let mut bytes = vec![in alloc; 0u8; text.len() / 2]?;
    if spell(text, bytes.as_mut_slice()) {
        return Ok(Some(bytes));
    }
    match hex::decode(alloc, text) {
        Ok(bytes) => Ok(Some(bytes)),
        Err(hex::FromHexError::OutOfMemory) => Err(OutOfMemory),
        Err(_) => Ok(None),
    }
}

/// The hash that 64 hexadecimal digits of either case spell, if they do.
pub fn hash(text: &[u8]) -> Option<MerkleHash>
    ensures { result ≡ hash_of text.now }
{
    let mut bytes = [0u8; 32];
    if text.len() == 64 {
        if spell_lower(text, &mut bytes) {
            return Some(MerkleHash::from_bytes(bytes));
        }
    }
    match MerkleHash::from_hex_bytes(text) {
        Ok(hash) => Some(hash),
        Err(_) => None,
    }
}
