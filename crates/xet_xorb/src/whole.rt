//! Whole chunks as they lie in a xorb.
ghost use Rattle.std.specs.Prelude.{◌≡◌, [], ◌∷◌, MatchOption};
ghost use Rattle.xet_xorb.specs.Walks.{IsTextOfChunks, FindsChunks};

use crate::deserialize::split_chunk;
use bytes::Bytes;
use std::marker::Model;

/// Whether the bytes are one whole chunk or more, and nothing else.
fn are_whole(content: &[u8]) -> bool
    ensures { IsTextOfChunks content.now result }
{
    let mut rest = content;
    while !rest.is_empty() {
        let Ok((_, behind)) = split_chunk(rest) else {
            return false;
        };
        rest = behind;
    }
    !content.is_empty()
}

/// Whole chunks, each behind its header, one after another as they lie in a xorb. Contracts see the chunks.
#[derive(Debug, Drop)]
pub struct WholeChunks {
    text: Bytes,
}

impl Model for WholeChunks {
    ghost use Rattle.std.specs.Prelude.{List, ℕ};
    ghost use Rattle.xet_xorb.specs.Walks.{chunks_in, AreChunksIn};

    ghost Value = { List (List ℕ) };

    ghost view = { λ w. chunks_in w.text };

    ghost invariant = { λ w. AreChunksIn w.text };
}

impl WholeChunks {
    /// The chunks that the bytes are, which aren't copied. None exactly where the bytes aren't one whole chunk or more and nothing
    /// else. Takes no memory.
    pub fn from_text(text: Bytes) -> Option<WholeChunks>
        ensures { FindsChunks text result }
    {
        if are_whole(text.as_slice()) {
            Some(WholeChunks { text })
        } else {
            None
        }
    }

    /// A walk through the chunks, from the first one.
    pub fn walk(&self) -> ChunkWalk<'_>
        ensures { result ≡ self.now }
    {
        ChunkWalk {
            rest: self.text.as_slice(),
        }
    }
}

/// A walk through whole chunks. Contracts see the chunks that are left.
#[derive(Drop)]
pub struct ChunkWalk<'a> {
    rest: &'a [u8],
}

impl<'a> Model for ChunkWalk<'a> {
    ghost use Rattle.std.specs.Prelude.{List, ℕ};
    ghost use Rattle.xet_xorb.specs.Walks.{chunks_in, AreChunksIn};

    ghost Value = { List (List ℕ) };

    ghost view = { λ w. chunks_in w.rest.now };

    ghost invariant = { λ w. AreChunksIn w.rest.now };
}

impl<'a> ChunkWalk<'a> {
    /// A walk through no chunks.
    pub fn empty() -> ChunkWalk<'a>
        ensures { result ≡ [] }
    {
        ChunkWalk { rest: &[] }
    }

    /// The next chunk; none at the end.
    pub fn next(&mut self) -> Option<&'a [u8]>
        ensures { MatchOption result (self.old ≡ []) (λ chunk. self.old ≡ chunk.now ∷ self.new) }
    {
        let Ok((chunk, rest)) = split_chunk(self.rest) else {
            return None;
        };
        self.rest = rest;
        Some(chunk)
    }
}
