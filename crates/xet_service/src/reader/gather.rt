//! The asked bytes, gathered of chunks that come one behind the other.
ghost use Rattle.std.specs.Prelude.{◌≡◌, ◌++◌, IfOk, OnOk};
ghost use Rattle.std.specs.List.{concat};
ghost use Rattle.xet_service.specs.Gathering.{after_text, less, nothing};

use super::join::cut;
use crate::pieces::Pieces;
use bytes::Bytes;
use std::alloc::Global;
use std::marker::Model;
use xet_types::OutOfMemory;

/// What was gathered so far, as further holders of the chunks.
#[derive(Drop)]
pub struct Gathering {
    pieces: Vec<Bytes>,
    /// How many of the bytes that come aren't asked.
    skip: u64,
    /// How many of those behind them are asked; all where there is none.
    left: Option<u64>,
}

impl Model for Gathering {
    ghost use Rattle.std.specs.List.{concat};
    ghost use Rattle.xet_service.specs.Gathering.{Gathered};

    ghost Value = { Gathered };

    ghost view = { λ g. record { bytes = concat g.pieces.items; skip = g.skip; left = g.left } };
}

/// So many less, where a number is given.
fn less(left: Option<u64>, count: u64) -> Option<u64>
    ensures { result ≡ less left count }
{
    match left {
        None => None,
        Some(left) => Some(left.saturating_sub(count)),
    }
}

impl Gathering {
    /// Nothing yet, with room for so many pieces.
    pub fn new(
        alloc: Global,
        room: usize,
        skip: u64,
        left: Option<u64>,
    ) -> Result<Gathering, OutOfMemory>
        ensures { IfOk result (λ g. g ≡ nothing skip left) }
    {
        Ok(Gathering {
            pieces: Vec::with_capacity(alloc, room)?,
            skip,
            left,
        })
    }

    /// Adds a piece; one without bytes takes no place.
    #[tactic(auto, using(bytes::proofs::Chunks::concat_push))]
    fn push_part(&mut self, part: Bytes) -> Result<(), OutOfMemory>
        ensures { OnOk result (self.new ≡ record self.old { bytes = self.old.bytes ++ part }) }
    {
        if !part.is_empty() {
            self.pieces.push(part)?;
        }
        Ok(())
    }

    /// Takes what is asked of a chunk, which isn't copied.
    fn push(&mut self, chunk: &Bytes) -> Result<(), OutOfMemory>
        ensures { OnOk result (self.new ≡ after_text self.old chunk.now) }
    {
        self.push_part(cut(chunk, self.skip, self.left)?)?;
        let length = chunk.len() as u64;
        self.left = less(self.left, length.saturating_sub(self.skip));
        self.skip = self.skip.saturating_sub(length);
        Ok(())
    }

    /// Takes what is asked of chunks, one after another.
    pub fn push_all(&mut self, chunks: &[Bytes]) -> Result<(), OutOfMemory>
        ensures { OnOk result (self.new ≡ after_text self.old (concat chunks.now)) }
    {
        for chunk in chunks {
            self.push(chunk)?;
        }
        Ok(())
    }

    /// What was gathered.
    pub fn into_pieces(self) -> Pieces
        ensures { result ≡ self.bytes }
    {
        Pieces::from_vec(self.pieces)
    }
}
