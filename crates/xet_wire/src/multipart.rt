//! Bodies of several parts (RFC 7233 section 4.1).
ghost use Rattle.xet_wire.specs.Multipart.{Part};

pub mod boundary;
pub mod read;
pub mod write;

use bytes::Bytes;
use std::marker::Model;
use xet_types::HttpRange;

/// A part of a body.
#[derive(Debug, Drop)]
pub struct MultipartPart {
    /// The bytes that its headers name; the end is included.
    pub range: HttpRange,
    /// What it holds of them: as many bytes as there are, whatever the range says.
    pub content: Bytes,
}

impl Model for MultipartPart {
    ghost use Rattle.xet_wire.specs.Multipart.{Part};

    ghost Value = { Part };

    ghost view = { λ p. record { range = p.range; content = p.content } };
}
