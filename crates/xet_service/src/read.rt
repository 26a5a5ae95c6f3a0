//! Open reads.
use crate::reader::Reader;

/// A read whose plan was made and which isn't finished.
#[derive(Debug, Drop)]
pub struct OpenRead {
    /// What was taken so far.
    pub reader: Reader,
    /// The moment of the plan, in milliseconds.
    pub stamp: u64,
}
