//! Keys with their cuts.
ghost use Rattle.std.specs.Prelude.{◌≡◌, ◌<◌, ◌++◌, ◌∷◌, [], Some, IfOk, MatchOption, OnErr, OnOk, length, map, nat_lt, option_map, slice_get, if◌then◌else◌};
ghost use Rattle.std.specs.BTreeMap.Range.{IsLeBy, IsLtBy};
ghost use Rattle.std.specs.Range.Bound.{IsForward};
ghost use Rattle.record_rows.specs.Numbers.{AreDistinct, HasBetween, IsAbsent, IsExact};
ghost use Rattle.record_rows.specs.Rows.{map_at};

use crate::numbers::Numbers;
use fw_types::OutOfMemory;
use std::alloc::Global;
use std::marker::Model;
use std::ops::Bound;

/// Keys in order of their entering, each with its cut.
#[derive(Drop)]
pub struct CutList<K: Ord + Copy, C: Copy> {
    owners: Numbers<K>,
    cuts: Vec<C>,
}

impl<K: Ord + Copy, C: Copy> Model for CutList<K, C> {
    ghost use Rattle.std.specs.Prelude.{◌≡◌, List, length};
    ghost use Rattle.record_rows.specs.Inside.{pairs};

    ghost Value = { List (K × C) };

    ghost view = { λ inside. pairs inside.owners inside.cuts.items };

    ghost invariant = { λ inside. length inside.owners ≡ length inside.cuts.items };
}

impl<K: Ord + Copy, C: Copy> CutList<K, C> {
    /// No keys. `alloc` gives the memory of the later calls.
    pub fn new(alloc: Global) -> CutList<K, C>
        ensures { result ≡ [] }
    {
        CutList {
            owners: Numbers::new(alloc),
            cuts: Vec::new(alloc),
        }
    }

    /// Enters a key with a cut, if it was not, and answers its number. After an error all is as before.
    pub fn enter(&mut self, key: K, first: C) -> Result<u32, OutOfMemory>
        requires { IsExact K.cmp }
        ensures number { IfOk result (λ number. option_map (λ entry. entry.0) (slice_get self.new number) ≡ Some key) }
        ensures more { IfOk result (λ number.
            self.new ≡ (if nat_lt number (length self.old) then self.old else self.old ++ (key, first) ∷ [])) }
        ensures err { OnErr result (self.new ≡ self.old) }
    {
        self.cuts.reserve(1)?;
        let number = self.owners.enter(key)?;
        if number as usize == self.cuts.len() {
            self.cuts.push_reserved(first);
        }
        Ok(number)
    }

    /// How many keys there are.
    pub fn len(&self) -> usize
        ensures { result ≡ length self.now }
    {
        self.cuts.len()
    }

    /// The number of a key, if it was entered.
    pub fn number_of(&self, key: K) -> Option<u32>
        ensures { MatchOption result (IsAbsent key (map (λ entry. entry.0) self.now))
            (λ number. option_map (λ entry. entry.0) (slice_get self.now number) ≡ Some key) }
    {
        self.owners.number_of(key)
    }

    /// The keys between two bounds, in their order. `alloc` gives the memory for them.
    pub fn between(
        &self,
        alloc: Global,
        low: Bound<K>,
        high: Bound<K>,
    ) -> Result<Vec<K>, OutOfMemory>
        requires exact { IsExact K.cmp }
        requires forward { IsForward (IsLeBy K.cmp) (IsLtBy K.cmp) low high }
        ensures { IfOk result (λ keys. HasBetween K.cmp low high (map (λ entry. entry.0) self.now) keys.items) }
    {
        self.owners.between(alloc, low, high)
    }

    /// The cut that belongs to a number.
    pub fn cut(&self, number: u32) -> C
        requires { number < length self.now }
        ensures { option_map (λ entry. entry.1) (slice_get self.now number) ≡ Some result }
    {
        self.cuts[number as usize]
    }

    /// Sets the cut that belongs to a number.
    pub fn set(&mut self, number: u32, cut: C)
        requires { number < length self.old }
        ensures { self.new ≡ map_at number (λ entry. (entry.0, cut)) self.old }
    {
        self.cuts[number as usize] = cut;
    }

    /// Says what holds of the keys and does nothing: each has one number.
    pub fn soundness(&self)
        ensures { AreDistinct (map (λ entry. entry.0) self.now) }
    {
        self.owners.soundness();
    }
}
