//! Generated files: terms name seeds, each seed gives a xorb, and the file is the terms' chunks.
#![tactic(auto)]

pub mod contents;
mod cut;
pub mod file;
mod terms;
pub mod xorb;

pub use contents::{FileTermReference, RandomFileContents};
pub use file::GeneratedFile;
pub use xorb::GeneratedXorb;

#[cfg(test)]
mod tests;
