//! Lists and bytes in records, which contracts see as lists.
ghost use Rattle.std.specs.Prelude.{◌≡◌, ◌==◌, [], ◌∷◌, ◌++◌, ◌<◌, length, slice_set, OnOk, OnErr, IfOk};

use crate::error::OutOfMemory;
use bytes::Bytes;
use std::marker::Model;

/// A list in a record: a `Vec` that contracts see as the list of its elements.
#[derive(Debug, Drop)]
pub struct Items<T> {
    items: Vec<T>,
}

impl<T> Model for Items<T> {
    ghost use Rattle.std.specs.Prelude.{List};
    ghost use Rattle.std.specs.Coded.{coded_list};

    ghost Value = { List T };

    ghost coded = { coded_list T.code };

    ghost view = { λ it. it.items.items };
}

impl<T> Items<T> {
    /// The list of the elements. Takes no memory.
    pub fn from_vec(items: Vec<T>) -> Items<T>
        ensures { result ≡ items.items }
    {
        Items { items }
    }

    /// The elements again. Takes no memory.
    pub fn into_vec(self) -> Vec<T>
        ensures { result.items ≡ self }
    {
        self.items
    }

    /// The elements.
    pub fn as_slice(&self) -> &[T]
        ensures { result.now ≡ self.now }
    {
        self.items.as_slice()
    }

    /// How many there are.
    pub fn len(&self) -> usize
        ensures { result ≡ length self.now }
    {
        self.items.len()
    }

    /// Whether there are none.
    pub fn is_empty(&self) -> bool
        ensures { result ≡ (length self.now == 0) }
    {
        self.items.is_empty()
    }
}

impl<T: Drop> Items<T> {
    /// Puts a value in the place of one.
    pub fn set(&mut self, at: usize, value: T)
        requires { at < length self.now }
        ensures { self.new ≡ slice_set self.old at value }
    {
        self.items[at] = value;
    }

    /// Puts a value at the end. Where there is no memory, the list stays as it was.
    pub fn push(&mut self, value: T) -> Result<(), OutOfMemory>
        ensures ok { OnOk result (self.new ≡ self.old ++ value ∷ []) }
        ensures err { OnErr result (self.new ≡ self.old) }
    {
        self.items.push(value)?;
        Ok(())
    }
}

/// Bytes in a record, which are shared by all that hold them.
#[derive(Debug, Drop)]
pub struct Octets {
    bytes: Bytes,
}

impl Model for Octets {
    ghost use Rattle.std.specs.Prelude.{List, ℕ};

    ghost Value = { List ℕ };

    ghost view = { λ o. o.bytes };
}

impl Octets {
    /// No bytes. Takes no memory.
    pub fn new() -> Octets
        ensures { result ≡ [] }
    {
        Octets {
            bytes: Bytes::new(),
        }
    }

    /// These bytes, without copying them; the count of their holders takes memory.
    pub fn from_vec(bytes: Vec<u8>) -> Result<Octets, OutOfMemory>
        ensures { IfOk result (λ o. o ≡ bytes.items) }
    {
        Ok(Octets {
            bytes: Bytes::from_vec(bytes)?,
        })
    }

    /// These shared bytes. Takes no memory.
    pub fn from_bytes(bytes: Bytes) -> Octets
        ensures { result ≡ bytes }
    {
        Octets { bytes }
    }

    /// The bytes.
    pub fn as_slice(&self) -> &[u8]
        ensures { result.now ≡ self.now }
    {
        self.bytes.as_slice()
    }

    /// The shared bytes.
    pub fn as_bytes(&self) -> &Bytes
        ensures { result.now ≡ self.now }
    {
        &self.bytes
    }

    /// How many there are.
    pub fn len(&self) -> usize
        ensures { result ≡ length self.now }
    {
        self.bytes.len()
    }

    /// Whether there are none.
    pub fn is_empty(&self) -> bool
        ensures { result ≡ (length self.now == 0) }
    {
        self.bytes.is_empty()
    }

    /// Another holder of the same bytes, which aren't copied.
    pub fn clone(&self) -> Result<Octets, OutOfMemory>
        ensures { IfOk result (λ o. o ≡ self.now) }
    {
        Ok(Octets {
            bytes: self.bytes.clone()?,
        })
    }
}
