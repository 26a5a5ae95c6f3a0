//! Text on its way to a sink.
ghost use Rattle.std.specs.Prelude.{◌≡◌, ◌+◌, ◌*◌, ◌≤◌, ◌++◌, [], length, IfOk};
ghost use Rattle.std.specs.Fmt.{decimal};
ghost use Rattle.hex.specs.Hex.{encode_lower};
ghost use Rattle.xet_demo.specs.Pages.{Prints, Writes, output, blank, with_text};

use super::digits::spell;
use itoa::Buffer;
use std::alloc::Global;
use std::marker::Model;
use xet_types::{Failed, MerkleHash, OutOfMemory, Sink};

/// How many bytes a page holds.
pub const ROOM: usize = 65_536;

/// How many bytes are written as digits at a time; their digits fit a page.
const PIECE: usize = 16_384;

/// Text on its way to a sink, which gets it whenever the page is full.
///
/// Once the sink has failed nothing more is written. After [`Page::new`] no memory is taken.
#[derive(Drop)]
pub struct Page {
    /// `ROOM` bytes, of which those in use come first.
    bytes: Vec<u8>,
    used: usize,
    failed: bool,
}

impl Model for Page {
    ghost use Rattle.std.specs.Prelude.{◌≡◌, ◌≤◌, length, take};
    ghost use Rattle.xet_demo.specs.Pages.{PageText};

    ghost Value = { PageText };

    ghost view = { λ p. record { text = take p.used p.bytes.items; failed = p.failed } };

    ghost invariant = { λ p. (length p.bytes.items ≡ 65536) × (p.used ≤ 65536) };
}

/// Writes all bytes, in as many calls as the sink needs.
fn write_all<K: Sink>(sink: &mut K, bytes: &[u8]) -> Result<(), Failed>
    ensures { Writes (K.taken sink.old) (K.taken sink.new) (K.faults sink.old) (K.faults sink.new) bytes.now result }
{
    let mut done = 0;
    'pieces: while done < bytes.len() {
        let count = sink.write(&bytes[done..])?;
        done += count;
    }
    Ok(())
}

impl Page {
    /// An empty page.
    pub fn new(alloc: Global) -> Result<Page, OutOfMemory>
        ensures { IfOk result (λ page. page ≡ blank) }
    {
        Ok(Page {
            bytes: vec![in alloc; 0u8; ROOM]?,
            used: 0,
            failed: false,
        })
    }

    /// Whether the sink has failed.
    pub fn has_failed(&self) -> bool
        ensures { result ≡ self.now.failed }
    {
        self.failed
    }

    /// Hands the page to the sink, and empties it.
    pub fn flush<K: Sink>(&mut self, sink: &mut K)
        ensures prints { Prints (output (K.taken sink.old) (K.faults sink.old) self.old) (output (K.taken sink.new) (K.faults sink.new) self.new) [] }
        ensures empty { self.new.text ≡ [] }
    {
        if self.failed {
            self.used = 0;
            return;
        }
        match write_all(sink, &self.bytes.as_slice()[..self.used]) {
            Ok(()) => self.used = 0,
            Err(Failed) => {
                self.used = 0;
                self.failed = true;
            }
        }
    }

    /// Adds bytes that fit.
    #[inline(always)]
    fn add(&mut self, bytes: &[u8])
        requires { length self.old.text + length bytes.now ≤ ROOM }
        ensures { self.new ≡ with_text self.old (self.old.text ++ bytes.now) }
    {
        let end = self.used + bytes.len();
        self.bytes.as_mut_slice()[self.used..end].copy_from_slice(bytes);
        self.used = end;
    }

    /// Prints bytes.
    #[inline(always)]
    pub fn put<K: Sink>(&mut self, sink: &mut K, bytes: &[u8])
        ensures { Prints (output (K.taken sink.old) (K.faults sink.old) self.old) (output (K.taken sink.new) (K.faults sink.new) self.new) bytes.now }
    {
        if self.used + bytes.len() <= ROOM {
            self.add(bytes);
        } else {
            self.put_long(sink, bytes);
        }
    }

    /// Prints bytes that may be more than a page.
    #[inline(never)]
    fn put_long<K: Sink>(&mut self, sink: &mut K, bytes: &[u8])
        ensures { Prints (output (K.taken sink.old) (K.faults sink.old) self.old) (output (K.taken sink.new) (K.faults sink.new) self.new) bytes.now }
    {
        self.flush(sink);
        let mut rest = bytes;
        'pieces: while rest.len() > ROOM {
            let (piece, back) = rest.split_at(ROOM);
            self.add(piece);
            self.flush(sink);
            rest = back;
        }
        self.add(rest);
    }

    /// Prints a number in decimal digits. Most have one, which needs no buffer.
    #[inline(always)]
    pub fn put_number<K: Sink>(&mut self, sink: &mut K, number: u64)
        ensures { Prints (output (K.taken sink.old) (K.faults sink.old) self.old) (output (K.taken sink.new) (K.faults sink.new) self.new) (decimal number) }
    {
        if number < 10 {
            self.put(sink, &[b'0' + number as u8]);
        } else {
            self.put_digits(sink, number);
        }
    }

    /// Prints the decimal digits of a number, however many they are.
    #[inline(never)]
    fn put_digits<K: Sink>(&mut self, sink: &mut K, number: u64)
        ensures { Prints (output (K.taken sink.old) (K.faults sink.old) self.old) (output (K.taken sink.new) (K.faults sink.new) self.new) (decimal number) }
    {
        let mut buffer = Buffer::new();
        self.put(sink, buffer.format(number).as_bytes());
    }

    /// Adds the digits of bytes for which there is room.
    fn add_hex(&mut self, bytes: &[u8])
        requires { length self.old.text + 2 * length bytes.now ≤ ROOM }
        ensures { self.new ≡ with_text self.old (self.old.text ++ encode_lower bytes.now) }
    {
        let end = self.used + 2 * bytes.len();
        spell(bytes, &mut self.bytes.as_mut_slice()[self.used..end]);
        self.used = end;
    }

    /// Prints few bytes as hexadecimal digits.
    fn put_hex_piece<K: Sink>(&mut self, sink: &mut K, bytes: &[u8])
        requires { length bytes.now ≤ PIECE }
        ensures { Prints (output (K.taken sink.old) (K.faults sink.old) self.old) (output (K.taken sink.new) (K.faults sink.new) self.new) (encode_lower bytes.now) }
    {
        if self.used + 2 * bytes.len() > ROOM {
            self.flush(sink);
        }
        self.add_hex(bytes);
    }

    /// Prints a hash as 64 hexadecimal digits.
    pub fn put_hash<K: Sink>(&mut self, sink: &mut K, hash: &MerkleHash)
        ensures { Prints (output (K.taken sink.old) (K.faults sink.old) self.old) (output (K.taken sink.new) (K.faults sink.new) self.new) (encode_lower hash.now) }
    {
        self.put_hex_piece(sink, hash.as_slice());
    }

    /// Prints bytes as hexadecimal digits.
    pub fn put_hex<K: Sink>(&mut self, sink: &mut K, bytes: &[u8])
        ensures { Prints (output (K.taken sink.old) (K.faults sink.old) self.old) (output (K.taken sink.new) (K.faults sink.new) self.new) (encode_lower bytes.now) }
    {
        let mut rest = bytes;
        'pieces: while rest.len() > PIECE {
            let (piece, back) = rest.split_at(PIECE);
            self.put_hex_piece(sink, piece);
            rest = back;
        }
        self.put_hex_piece(sink, rest);
    }
}

#[cfg(test)]
mod tests;
