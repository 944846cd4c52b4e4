//! Numbers of keys.
ghost use Rattle.std.specs.Prelude.{◌≡◌, ◌≤◌, ◌∷◌, ◌++◌, [], None, Some, IfOk, MatchOption, OnErr, OnOk, length, nat_lt, slice_get, if◌then◌else◌};
ghost use Rattle.std.specs.BTreeMap.Range.{IsLeBy, IsLtBy};
ghost use Rattle.std.specs.Map.{keys_of};
ghost use Rattle.std.specs.Range.Bound.{IsForward};
ghost use Rattle.record_rows.specs.Numbers.{AreDistinct, HasBetween, IsAbsent, IsExact};

use fw_types::OutOfMemory;
use std::alloc::Global;
use std::collections::BTreeMap;
use std::collections::btree_map::Range;
use std::marker::Model;
use std::ops::Bound;

/// Keys, each with a number: the place at which it was entered. A contract sees the keys in this order.
#[derive(Drop)]
pub struct Numbers<K: Ord + Copy> {
    numbers: BTreeMap<K, u32>,
    owners: Vec<K>,
}

impl<K: Ord + Copy> Model for Numbers<K> {
    ghost use Rattle.std.specs.Prelude.{List};
    ghost use Rattle.record_rows.specs.Numbers.{IsNumbered};

    ghost Value = { List K };

    ghost view = { λ inside. inside.owners.items };

    ghost invariant = { λ inside. IsNumbered K.cmp inside.numbers inside.owners.items };
}

/// The keys of a part of the numbers.
fn keys_in<K: Ord + Copy>(alloc: Global, range: Range<'_, K, u32>) -> Result<Vec<K>, OutOfMemory>
    ensures { IfOk result (λ keys. keys.items ≡ keys_of range.entry) }
{
    let mut keys = Vec::new(alloc);
    for (key, _) in range {
        keys.push(*key)?;
    }
    Ok(keys)
}

impl<K: Ord + Copy> Numbers<K> {
    /// No keys. `alloc` gives the memory of the later calls.
    pub fn new(alloc: Global) -> Numbers<K>
        ensures { result ≡ [] }
    {
        Numbers {
            numbers: BTreeMap::new(alloc),
            owners: Vec::new(alloc),
        }
    }

    /// The number of a key, if it was entered.
    pub fn number_of(&self, key: K) -> Option<u32>
        ensures { MatchOption result (IsAbsent key self.now) (λ number. slice_get self.now number ≡ Some key) }
    {
        self.numbers.get(&key).copied()
    }

    /// Enters a key, if it was not, and answers its number. After an error the keys are as before.
    ///
    /// # Errors
    ///
    /// `OutOfMemory` if there is no memory, or if the number needs more than 32 bits.
    pub fn enter(&mut self, key: K) -> Result<u32, OutOfMemory>
        requires { IsExact K.cmp }
        ensures number { IfOk result (λ number. slice_get self.new number ≡ Some key) }
        ensures more { IfOk result (λ number.
            self.new ≡ (if nat_lt number (length self.old) then self.old else self.old ++ key ∷ [])) }
        ensures within { IfOk result (λ number. number ≤ length self.old) }
        ensures err { OnErr result (self.new ≡ self.old) }
    {
        if let Some(number) = self.number_of(key) {
            return Ok(number);
        }
        let number = in_32_bits(self.owners.len())?;
        self.owners.reserve(1)?;
        self.numbers.insert(key, number)?;
        self.owners.push_reserved(key);
        Ok(number)
    }

    /// The keys between two bounds, in their order. `alloc` gives the memory for them.
    pub fn between(
        &self,
        alloc: Global,
        low: Bound<K>,
        high: Bound<K>,
    ) -> Result<Vec<K>, OutOfMemory>
        requires exact { IsExact K.cmp }
        requires forward { IsForward (IsLeBy K.cmp) (IsLtBy K.cmp) low high }
        ensures { IfOk result (λ keys. HasBetween K.cmp low high self.now keys.items) }
    {
        keys_in(alloc, self.numbers.range((low, high)))
    }

    /// Says what holds of the keys and does nothing: each has one number.
    pub fn soundness(&self)
        ensures { AreDistinct self.now }
    {
        let _numbers = &self.numbers;
    }
}

/// A number in 32 bits.
///
/// # Errors
///
/// `OutOfMemory` if it needs more.
fn in_32_bits(number: usize) -> Result<u32, OutOfMemory>
    ensures { IfOk result (λ same. same ≡ number) }
{
    match u32::try_from(number) {
        Ok(same) => Ok(same),
        Err(_) => Err(OutOfMemory),
    }
}
