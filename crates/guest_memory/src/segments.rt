//! Segments under keys, and the map by which the keys are found.
ghost use Rattle.std.specs.Prelude.{◌≡◌, ◌<◌, ◌^◌, [], true, IfSome, IsTrue, MatchOption, OnErr, OnOk, is_ok, length, nat_lt, not, option_copied, replicate, if◌then◌else◌};
ghost use Rattle.std.specs.List.{list_any};
ghost use Rattle.std.specs.Result.{result_ok};
ghost use Rattle.byteorder.specs.Endian.{little_bytes};
ghost use Rattle.slab.specs.Slab.{SameValues, get};
ghost use Rattle.guest_memory.specs.Segment.{end_of, has_bytes, is_access, meets};
ghost use Rattle.guest_memory.specs.GuestMemory.{answer_in, beginning_at, holder, image_with, lie_from, mapped, put_bytes, unmapped, write_answer, written};
ghost use Rattle.guest_memory.specs.Segments.{IsFiled, IsHolderKey, IsLastKey, IsLastUpTo, NoKeyUpTo, NoneUpTo, PutsUnder, all_in, has_under};

use crate::guest::MemRefusal;
use crate::segment::Segment;
use fw_types::OutOfMemory;
use slab::Slab;
use std::alloc::Global;
use std::cell::Cell;
use std::collections::BTreeMap;
use std::marker::Model;

/// The keys of segments, by the addresses at which the segments begin.
type Bases = BTreeMap<u64, usize>;

/// Segments in order of address, no two of which meet. Each is under a key, so that none is moved when
/// another is added or removed.
#[derive(Drop)]
pub(crate) struct Segments {
    alloc: Global,
    slots: Slab<Segment>,
    bases: Bases,
}

impl Model for Segments {
    ghost use Rattle.std.specs.Prelude.{List};
    ghost use Rattle.guest_memory.specs.Segments.{IsFiled, all_in};
    ghost use Rattle.guest_memory.specs.declared.segment.Segment.{Segment as SegmentValue};

    ghost Value = { List SegmentValue };

    ghost view = { λ inside. all_in inside.slots inside.bases.entries };

    ghost invariant = { λ inside. IsFiled inside.slots inside.bases };
}

impl Segments {
    /// No segments. Takes no memory.
    pub(crate) fn new(alloc: Global) -> Segments
        ensures { result ≡ [] }
    {
        Segments {
            alloc,
            slots: Slab::new(alloc),
            bases: BTreeMap::new(alloc),
        }
    }

    /// Puts a segment in its place by address. After an error the segments are as before, and this one is
    /// gone.
    pub(crate) fn insert(&mut self, segment: Segment) -> Result<(), OutOfMemory>
        requires { lie_from 0 (mapped segment self.old) ≡ true }
        ensures ok { OnOk result (self.new ≡ mapped segment self.old) }
        ensures err { OnErr result (self.new ≡ self.old) }
    {
        self.slots.reserve(1)?;
        let key = self.slots.vacant_key();
        self.bases.insert(segment.base, key)?;
        self.slots.insert_reserved(segment);
        Ok(())
    }

    /// Takes out the segment that begins at an address.
    pub(crate) fn remove(&mut self, base: u64) -> Option<Segment>
        ensures value { result ≡ result_ok (beginning_at self.old base) }
        ensures rest { self.new ≡ unmapped self.old base }
    {
        match self.bases.remove(&base) {
            Some(key) => self.slots.try_remove(key),
            None => None,
        }
    }

    /// The segment that begins at an address.
    pub(crate) fn beginning(&self, base: u64) -> Option<&Segment>
        ensures { option_copied result ≡ result_ok (beginning_at self.now base) }
    {
        match self.bases.get(&base) {
            Some(key) => self.slots.get(*key),
            None => None,
        }
    }

    /// The last segment that begins at an address or below it.
    fn last_up_to(&self, at: u64) -> Option<&Segment>
        ensures last { MatchOption result (NoneUpTo at self.now) (λ last. IsLastUpTo at self.now last.now) }
        ensures apart { lie_from 0 self.now ≡ true }
    {
        match last_key(&self.bases, at) {
            Some(key) => self.slots.get(key),
            None => None,
        }
    }

    /// Whether a segment that ends by 2^63 would meet another. If it meets any it meets the last of those
    /// that begin before its end.
    pub(crate) fn meets_any(&self, segment: &Segment) -> bool
        requires { IsTrue (not (nat_lt (2 ^ 63) (end_of segment.now))) }
        ensures { result ≡ list_any (λ other. meets segment.now other) self.now }
    {
        match self.last_up_to(segment.base + (segment.extent() - 1)) {
            Some(last) => segment.meets(last),
            None => false,
        }
    }

    /// The segment that has all `n` bytes from an address on. The key in `last` is tried first, and the key
    /// that is found is kept there: most accesses are of the same segment as the one before.
    #[inline]
    pub(crate) fn holder(&self, last: &Cell<usize>, at: u64, n: u64) -> Option<&Segment>
        requires { 0 < n }
        ensures found { option_copied result ≡ holder self.now at n }
        ensures has { IfSome result (λ segment. IsTrue (has_bytes segment.now at n)) }
        ensures apart { lie_from 0 self.now ≡ true }
    {
        if let Some(segment) = self.slots.get(last.get()) {
            if segment.has(at, n) {
                return Some(segment);
            }
        }
        self.searched(last, at, n)
    }

    /// The segment that has all `n` bytes from an address on, found by the address.
    fn searched(&self, last: &Cell<usize>, at: u64, n: u64) -> Option<&Segment>
        requires { 0 < n }
        ensures found { option_copied result ≡ holder self.now at n }
        ensures has { IfSome result (λ segment. IsTrue (has_bytes segment.now at n)) }
    {
        match key_by_address(&self.slots, &self.bases, last, at, n) {
            Some(key) => self.slots.get(key),
            None => None,
        }
    }

    /// The image that has an address.
    #[inline]
    pub(crate) fn image(&self, last: &Cell<usize>, at: u64) -> Option<&Segment>
        ensures found { option_copied result ≡ image_with self.now at }
        ensures has { IfSome result (λ segment. IsTrue (has_bytes segment.now at 1)) }
    {
        let segment = self.holder(last, at, 1)?;
        if segment.kind.is_image() {
            return Some(segment);
        }
        None
    }

    /// Writes bytes from an address on in the segment that has them all, if there is one.
    pub(crate) fn put(&mut self, last: &Cell<usize>, at: u64, bytes: &[u8])
        requires { 0 < length bytes.now }
        ensures { self.new ≡ put_bytes self.old at bytes.now }
    {
        if let Some(key) = key_with(&self.slots, &self.bases, last, at, bytes.len() as u64) {
            put_under(&mut self.slots, key, at, bytes);
        }
    }

    /// Writes a byte `n` times from an address on in the segment that has them all, if there is one.
    pub(crate) fn fill(&mut self, last: &Cell<usize>, at: u64, n: u64, byte: u8)
        requires { 0 < n }
        ensures { self.new ≡ put_bytes self.old at (replicate n byte) }
    {
        if let Some(key) = key_with(&self.slots, &self.bases, last, at, n) {
            fill_under(self.alloc, &mut self.slots, key, at, n, byte);
        }
    }

    /// Writes the lowest `n` bytes of a number from an address on in the segment that has them all.
    ///
    /// # Errors
    ///
    /// `NoSegment` if there is none; otherwise `ReadOnly` if a driver may not write it. After an error the
    /// segments are as before.
    #[inline]
    pub(crate) fn write(
        &mut self,
        last: &Cell<usize>,
        at: u64,
        n: u8,
        value: u64,
    ) -> Result<(), MemRefusal>
        requires { IsTrue (is_access n) }
        ensures answer { result ≡ write_answer self.old at n }
        ensures bytes { self.new ≡ (if is_ok result then written self.old at n value else self.old) }
    {
        match key_with(&self.slots, &self.bases, last, at, u64::from(n)) {
            Some(key) => write_under(&mut self.slots, key, at, n, value),
            None => Err(MemRefusal::NoSegment),
        }
    }
}

/// The key of the last entry at an address or below it.
fn last_key(bases: &Bases, at: u64) -> Option<usize>
    ensures { MatchOption result (NoKeyUpTo at bases.now) (IsLastKey at bases.now) }
{
    match bases.range(..=at).next_back() {
        Some((_, key)) => Some(*key),
        None => None,
    }
}

/// The key of the segment that has all `n` bytes from an address on, found by the address: it can only be
/// the last one that begins there or below. The key that is found is kept in `last`.
fn key_by_address(
    slots: &Slab<Segment>,
    bases: &Bases,
    last: &Cell<usize>,
    at: u64,
    n: u64,
) -> Option<usize>
    requires filed { IsFiled slots.now bases.now }
    requires some { 0 < n }
    ensures { MatchOption result (holder (all_in slots.now bases.now.entries) at n ≡ None) (IsHolderKey slots.now bases.now.entries at n) }
{
    let key = last_key(bases, at)?;
    if slots.get(key)?.has(at, n) {
        last.set(key);
        return Some(key);
    }
    None
}

/// The key of the segment that has all `n` bytes from an address on. The key in `last` is tried first.
#[inline]
fn key_with(
    slots: &Slab<Segment>,
    bases: &Bases,
    last: &Cell<usize>,
    at: u64,
    n: u64,
) -> Option<usize>
    requires filed { IsFiled slots.now bases.now }
    requires some { 0 < n }
    ensures { MatchOption result (holder (all_in slots.now bases.now.entries) at n ≡ None) (IsHolderKey slots.now bases.now.entries at n) }
{
    let key = last.get();
    if let Some(segment) = slots.get(key) {
        if segment.has(at, n) {
            return Some(key);
        }
    }
    key_by_address(slots, bases, last, at, n)
}

/// Writes bytes from an address on in the segment under a key, which has them.
fn put_under(slots: &mut Slab<Segment>, key: usize, at: u64, bytes: &[u8])
    requires { has_under (get slots.old key) at (length bytes.now) ≡ true }
    ensures { PutsUnder key at bytes.now slots.old slots.new }
{
    if let Some(segment) = slots.get_mut(key) {
        segment.put_bytes(at, bytes);
    }
}

/// Writes a byte `n` times from an address on in the segment under a key, which has them.
fn fill_under(alloc: Global, slots: &mut Slab<Segment>, key: usize, at: u64, n: u64, byte: u8)
    requires { has_under (get slots.old key) at n ≡ true }
    ensures { PutsUnder key at (replicate n byte) slots.old slots.new }
{
    if let Some(segment) = slots.get_mut(key) {
        segment.fill(alloc, at, n, byte);
    }
}

/// Writes the lowest `n` bytes of a number from an address on in the segment under a key, which has them,
/// if a driver may write it.
#[inline]
fn write_under(
    slots: &mut Slab<Segment>,
    key: usize,
    at: u64,
    n: u8,
    value: u64,
) -> Result<(), MemRefusal>
    requires access { IsTrue (is_access n) }
    requires inside { has_under (get slots.old key) at n ≡ true }
    ensures answer { result ≡ answer_in (get slots.old key) }
    ensures ok { OnOk result (PutsUnder key at (little_bytes n value) slots.old slots.new) }
    ensures err { OnErr result (SameValues slots.old slots.new) }
{
    match slots.get_mut(key) {
        Some(segment) => {
            if !segment.kind.is_writable() {
                return Err(MemRefusal::ReadOnly);
            }
            segment.put(at, n, value);
            Ok(())
        }
        None => Err(MemRefusal::NoSegment),
    }
}
