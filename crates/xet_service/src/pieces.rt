//! Bytes in pieces.
ghost use Rattle.std.specs.Prelude.{◌≡◌, ◌==◌, [], length, take, drop, MatchOption};
ghost use Rattle.std.specs.List.{concat};
ghost use Rattle.xet_service.specs.PieceWalks.{IsNext};

use bytes::Bytes;
use std::alloc::Global;
use std::marker::Model;
use xet_xorb::{ChunkWalk, WholeChunks};

/// How bytes in pieces are kept.
#[derive(Debug, Drop)]
pub enum Form {
    /// The pieces.
    Listed(Vec<Bytes>),
    /// What whole chunks hold, as they lie in a xorb: less the first bytes, and up to so many.
    Chunks {
        chunks: WholeChunks,
        skip: u32,
        left: u32,
    },
}

/// Bytes in pieces, one behind the other, which are shared by all that hold them. Contracts see them joined.
#[derive(Debug, Drop)]
pub struct Pieces {
    form: Form,
}

impl Model for Pieces {
    ghost use Rattle.std.specs.Prelude.{List, ℕ};
    ghost use Rattle.xet_service.specs.PieceForms.{joined};

    ghost Value = { List ℕ };

    ghost view = { λ p. joined p.form };
}

impl Pieces {
    /// No bytes. Takes no memory.
    pub fn new(alloc: Global) -> Pieces
        ensures { result ≡ [] }
    {
        Pieces::from_vec(Vec::new(alloc))
    }

    /// These pieces, which aren't copied. Takes no memory.
    pub fn from_vec(pieces: Vec<Bytes>) -> Pieces
        ensures { result ≡ concat pieces.items }
    {
        Pieces {
            form: Form::Listed(pieces),
        }
    }

    /// What whole chunks hold, less the first `skip` bytes, and up to `left` bytes. They aren't copied. Takes no memory.
    pub fn from_chunks(chunks: WholeChunks, skip: u32, left: u32) -> Pieces
        ensures { result ≡ take left (drop skip (concat chunks)) }
    {
        Pieces {
            form: Form::Chunks { chunks, skip, left },
        }
    }

    /// A walk through the pieces, from the first one.
    pub fn walk(&self) -> Walk<'_>
        ensures { result.bytes ≡ self.now }
    {
        match &self.form {
            Form::Listed(pieces) => Walk {
                pieces: pieces.as_slice(),
                chunks: ChunkWalk::empty(),
                skip: 0,
                left: 0,
            },
            Form::Chunks { chunks, skip, left } => Walk {
                pieces: &[],
                chunks: chunks.walk(),
                skip: *skip as usize,
                left: *left as usize,
            },
        }
    }

    /// Whether there are no bytes.
    pub fn is_empty(&self) -> bool
        ensures { result ≡ (length self.now == 0) }
    {
        let mut walk = self.walk();
        while let Some(piece) = walk.next() {
            if !piece.is_empty() {
                return false;
            }
        }
        true
    }
}

/// A walk through bytes in pieces. Contracts see how many pieces are left, and their bytes joined.
#[derive(Drop)]
pub struct Walk<'a> {
    pieces: &'a [Bytes],
    /// Chunks behind these pieces, less the first bytes, and up to so many.
    chunks: ChunkWalk<'a>,
    skip: usize,
    left: usize,
}

impl<'a> Model for Walk<'a> {
    ghost use Rattle.xet_service.specs.PieceWalks.{Walking, walking};

    ghost Value = { Walking };

    ghost view = { λ w. walking w.pieces.now w.chunks w.skip w.left };
}

/// The bytes of a chunk less the first ones, and up to so many.
fn window_of(chunk: &[u8], skip: usize, left: usize) -> &[u8]
    ensures { result.now ≡ take left (drop skip chunk.now) }
{
    let behind = &chunk[skip.min(chunk.len())..];
    &behind[..left.min(behind.len())]
}

impl<'a> Walk<'a> {
    /// The next piece, which may have no bytes; none at the end.
    pub fn next(&mut self) -> Option<&'a [u8]>
        ensures { MatchOption result (self.old.bytes ≡ []) (λ piece. IsNext self.old piece.now self.new) }
    {
        match self.pieces.split_first() {
            Some((piece, others)) => {
                self.pieces = others;
                Some(piece.as_slice())
            }
            None => {
                let chunk = self.chunks.next()?;
                let part = window_of(chunk, self.skip, self.left);
                self.skip = self.skip.saturating_sub(chunk.len());
                self.left = self.left.saturating_sub(part.len());
                Some(part)
            }
        }
    }
}
