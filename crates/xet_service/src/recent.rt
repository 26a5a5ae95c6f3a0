//! Values by number, one of which is at hand.
ghost use Rattle.std.specs.Prelude.{◌≡◌, Some, None};
ghost use Rattle.std.specs.Option.{option_copied};
ghost use Rattle.xet_service.specs.Recents.{is_at, value_of};

use std::alloc::Global;
use std::marker::Model;
use xet_bytes::ByNumber;
use xet_types::OutOfMemory;

/// Values by number, of which one is at hand without a search: the last that came while none was at hand.
#[derive(Drop)]
pub struct Recent<V> {
    at_hand: Option<(u64, V)>,
    others: ByNumber<V>,
}

impl<V> Model for Recent<V> {
    ghost use Rattle.std.specs.FinMap as finmap;
    ghost use Rattle.std.specs.Ordering.{nat_cmp};
    ghost use Rattle.std.specs.Coded.{coded_ℕ};
    ghost use Rattle.xet_service.specs.Recents.{with_one, IsApart};

    ghost Value = { finmap.FinMap nat_cmp V };

    ghost coded = { finmap.code coded_ℕ V.code };

    ghost view = { λ r. with_one r.at_hand r.others };

    ghost invariant = { λ r. IsApart r.at_hand r.others };
}

/// Whether one is at hand, and its number is this one.
fn is_at<V>(at_hand: &Option<(u64, V)>, number: u64) -> bool
    ensures { result ≡ is_at at_hand.now number }
{
    match at_hand {
        Some((at, _)) => *at == number,
        None => false,
    }
}

/// The value at hand.
fn value_of<V>(at_hand: &Option<(u64, V)>) -> Option<&V>
    ensures { option_copied result ≡ value_of at_hand.now }
{
    match at_hand {
        Some((_, value)) => Some(value),
        None => None,
    }
}

/// Puts a value at hand, and answers the one that was there.
fn put<V>(at_hand: &mut Option<(u64, V)>, number: u64, value: V) -> Option<V>
    ensures value { result ≡ value_of at_hand.old }
    ensures put { at_hand.new ≡ Some (number, value) }
{
    let (_, old) = at_hand.replace((number, value))?;
    Some(old)
}

/// Takes the value at hand away.
fn take<V>(at_hand: &mut Option<(u64, V)>) -> Option<V>
    ensures value { result ≡ value_of at_hand.old }
    ensures taken { at_hand.new ≡ None }
{
    let (_, value) = at_hand.take()?;
    Some(value)
}

impl<V: Drop> Recent<V> {
    ghost use Rattle.std.specs.Prelude.{◌≡◌, None, IfOk, OnOk, OnErr};
    ghost use Rattle.std.specs.Option.{option_copied};
    ghost use Rattle.std.specs.FinMap as finmap;

    /// No values. Takes no memory.
    pub fn new(alloc: Global) -> Recent<V>
        ensures { result ≡ finmap.empty }
    {
        Recent {
            at_hand: None,
            others: ByNumber::new(alloc),
        }
    }

    /// The value at the number.
    pub fn get(&self, key: u64) -> Option<&V>
        ensures { option_copied result ≡ finmap.get self.now key }
    {
        if is_at(&self.at_hand, key) {
            value_of(&self.at_hand)
        } else {
            self.others.get(key)
        }
    }

    /// Puts a value at the number, and answers the one that was there. Only a new number takes memory; where there is
    /// none, the values stay as they were.
    pub fn insert(&mut self, key: u64, value: V) -> Result<Option<V>, OutOfMemory>
        ensures old { IfOk result (λ old. old ≡ finmap.get self.old key) }
        ensures ok { OnOk result (self.new ≡ finmap.insert self.old key value) }
        ensures err { OnErr result (self.new ≡ self.old) }
        ensures absent { OnErr result (finmap.get self.old key ≡ None) }
    {
        if is_at(&self.at_hand, key) {
            return Ok(put(&mut self.at_hand, key, value));
        }
        if self.at_hand.is_some() || self.others.get(key).is_some() {
            return self.others.insert(key, value);
        }
        self.at_hand = Some((key, value));
        Ok(None)
    }

    /// Takes the value at the number out, where there is one.
    pub fn remove(&mut self, key: u64) -> Option<V>
        ensures value { result ≡ finmap.get self.old key }
        ensures removed { self.new ≡ finmap.remove self.old key }
    {
        if is_at(&self.at_hand, key) {
            take(&mut self.at_hand)
        } else {
            self.others.remove(key)
        }
    }
}
