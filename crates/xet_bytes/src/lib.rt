//! The format toolkit: reading and writing fields of bytes, and maps by hash and by number.
#![tactic(auto)]

pub mod cursor;
pub mod pair;
pub mod put;
pub mod table;

pub use cursor::{Cursor, ReadError};
pub use pair::{ByHashAndNumber, HashPairs};
pub use put::{put_hash, put_u24, put_u32, put_u64};
pub use table::{ByHash, ByNumber};
