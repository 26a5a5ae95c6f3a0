//! Base64 of bytes that come one piece after another, with the URL-safe alphabet and no padding (RFC 4648 section 5).
ghost use Rattle.std.specs.Prelude.{◌≡◌, ◌+◌, ◌<◌, ◌≤◌, ◌++◌, [], length};
ghost use Rattle.std.specs.Fmt.{decimal};
ghost use Rattle.base64.specs.Engines.{url_safe_no_pad};
ghost use Rattle.base64.specs.GeneralPurpose.{encode_of};
ghost use Rattle.hex.specs.Hex.{encode_lower};
ghost use Rattle.xet_demo.specs.Pages.{Prints, output};
ghost use Rattle.xet_demo.specs.Blocks.{PrintsBlocks};

use super::digits::spell;
use super::page::Page;
use base64::engine::general_purpose::URL_SAFE_NO_PAD;
use itoa::Buffer;
use std::marker::Model;
use xet_types::{MerkleHash, Sink};

/// How many bytes are encoded at a time: a multiple of three, so that the symbols of a block don't depend on what comes behind it.
const BLOCK: usize = 48;

/// How many symbols a block takes.
const SYMBOLS: usize = 64;

/// Prints the base64 of few bytes.
fn print_encoded<K: Sink>(page: &mut Page, sink: &mut K, bytes: &[u8])
    requires { length bytes.now ≤ BLOCK }
    ensures { Prints (output (K.taken sink.old) (K.faults sink.old) page.old) (output (K.taken sink.new) (K.faults sink.new) page.new) (encode_of url_safe_no_pad bytes.now) }
{
    let mut symbols = [0u8; SYMBOLS];
    match URL_SAFE_NO_PAD.encode_slice(bytes, &mut symbols) {
        Ok(count) => page.put(sink, &symbols[..count]),
        Err(_) => unreachable!(),
    }
}

/// Bytes that wait for their block to be full. Then its base64 is printed. No memory is taken.
#[derive(Drop)]
pub struct Encoder {
    block: [u8; BLOCK],
    used: usize,
}

impl Model for Encoder {
    ghost use Rattle.std.specs.Prelude.{ℕ, List, ◌≤◌, take};

    ghost Value = { List ℕ };

    ghost view = { λ e. take e.used e.block };

    ghost invariant = { λ e. e.used ≤ 48 };
}

impl Encoder {
    /// No bytes.
    pub fn new() -> Encoder
        ensures { result ≡ [] }
    {
        Encoder {
            block: [0; BLOCK],
            used: 0,
        }
    }

    /// Adds bytes for which the block has room.
    #[inline(always)]
    fn add(&mut self, bytes: &[u8])
        requires { length self.old + length bytes.now ≤ BLOCK }
        ensures { self.new ≡ self.old ++ bytes.now }
    {
        let end = self.used + bytes.len();
        self.block[self.used..end].copy_from_slice(bytes);
        self.used = end;
    }

    /// Encodes bytes.
    #[inline(always)]
    pub fn put<K: Sink>(&mut self, page: &mut Page, sink: &mut K, bytes: &[u8])
        ensures { PrintsBlocks (output (K.taken sink.old) (K.faults sink.old) page.old) (output (K.taken sink.new) (K.faults sink.new) page.new) self.old self.new bytes.now }
    {
        if bytes.len() <= BLOCK - self.used {
            self.add(bytes);
        } else {
            self.put_long(page, sink, bytes);
        }
    }

    /// Encodes bytes that are more than the block has room for.
    #[inline(never)]
    fn put_long<K: Sink>(&mut self, page: &mut Page, sink: &mut K, bytes: &[u8])
        requires { BLOCK < length self.old + length bytes.now }
        ensures { PrintsBlocks (output (K.taken sink.old) (K.faults sink.old) page.old) (output (K.taken sink.new) (K.faults sink.new) page.new) self.old self.new bytes.now }
    {
        let (first, rest) = bytes.split_at(BLOCK - self.used);
        self.add(first);
        self.empty(page, sink);
        self.put_blocks(page, sink, rest);
    }

    /// Prints the block, which is full, and empties it.
    fn empty<K: Sink>(&mut self, page: &mut Page, sink: &mut K)
        requires { length self.old ≡ BLOCK }
        ensures prints { PrintsBlocks (output (K.taken sink.old) (K.faults sink.old) page.old) (output (K.taken sink.new) (K.faults sink.new) page.new) self.old self.new [] }
        ensures empty { self.new ≡ [] }
    {
        print_encoded(page, sink, &self.block[..self.used]);
        self.used = 0;
    }

    /// Prints the whole blocks of bytes, where no bytes wait, and keeps the rest.
    fn put_blocks<K: Sink>(&mut self, page: &mut Page, sink: &mut K, bytes: &[u8])
        requires { self.old ≡ [] }
        ensures { PrintsBlocks (output (K.taken sink.old) (K.faults sink.old) page.old) (output (K.taken sink.new) (K.faults sink.new) page.new) self.old self.new bytes.now }
    {
        let mut rest = bytes;
        'pieces: while rest.len() >= BLOCK {
            let (block, back) = rest.split_at(BLOCK);
            print_encoded(page, sink, block);
            rest = back;
        }
        self.add(rest);
    }

    /// Encodes the 64 hexadecimal digits of a hash.
    pub fn put_hash<K: Sink>(&mut self, page: &mut Page, sink: &mut K, hash: &MerkleHash)
        ensures { PrintsBlocks (output (K.taken sink.old) (K.faults sink.old) page.old) (output (K.taken sink.new) (K.faults sink.new) page.new) self.old self.new (encode_lower hash.now) }
    {
        let mut digits = [0u8; 64];
        spell(hash.as_slice(), &mut digits);
        self.put(page, sink, &digits);
    }

    /// Encodes the decimal digits of a number.
    pub fn put_number<K: Sink>(&mut self, page: &mut Page, sink: &mut K, number: u64)
        ensures { PrintsBlocks (output (K.taken sink.old) (K.faults sink.old) page.old) (output (K.taken sink.new) (K.faults sink.new) page.new) self.old self.new (decimal number) }
    {
        let mut digits = Buffer::new();
        self.put(page, sink, digits.format(number).as_bytes());
    }

    /// Prints the bytes that still wait.
    pub fn finish<K: Sink>(self, page: &mut Page, sink: &mut K)
        ensures { Prints (output (K.taken sink.old) (K.faults sink.old) page.old) (output (K.taken sink.new) (K.faults sink.new) page.new) (encode_of url_safe_no_pad self) }
    {
        print_encoded(page, sink, &self.block[..self.used]);
    }
}
