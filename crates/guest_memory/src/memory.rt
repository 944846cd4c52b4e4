ghost use Rattle.std.specs.Prelude.{◌≡◌, refl, [], true, IsTrue, OnOk, OnErr, IfOk, is_ok, length, option_map, replicate, if◌then◌else◌};
ghost use Rattle.guest_memory.specs.GuestMemory.{write_answer, written, is_readable, is_writable_range, bytes_of, put_bytes, image_with, lie_from, total_of, block_count, is_full, map_answer, mapped, beginning_at, begins, unmapped, Gives};
ghost use Rattle.guest_memory.specs.Totals.{IsInOrder};
ghost use Rattle.guest_memory.specs.declared.segment.Segment.{Segment as SegmentValue};

use crate::guest::{GuestMem, MemRefusal};
use crate::segment::{SegKind, Segment};
use crate::segments::Segments;
use crate::totals::Totals;
use fw_types::{OutOfMemory, Rows};
use std::alloc::Global;
use std::cell::Cell;
use std::marker::Model;

/// Segments in order of address, no two of which meet.
#[derive(Drop)]
pub struct Memory {
    segments: Segments,
    totals: Totals,
    /// The key of the segment that was last read or written. It is no part of the value.
    last_data: Cell<usize>,
    /// The key of the segment from which code was last fetched. It is no part of the value.
    last_code: Cell<usize>,
}

impl Model for Memory {
    ghost use Rattle.std.specs.Prelude.{List};
    ghost use Rattle.guest_memory.specs.declared.segment.Segment.{Segment as SegmentValue};

    ghost Value = { List SegmentValue };

    ghost view = { λ memory. memory.segments };

    ghost use Rattle.guest_memory.specs.Totals.{IsInOrder};

    ghost invariant = { λ memory. IsInOrder memory.segments memory.totals };
}

impl Memory {
    /// Memory with no segments. Takes no memory.
    pub fn new(alloc: Global) -> Memory
        ensures { result ≡ [] }
    {
        Memory::of(Segments::new(alloc), Totals::NONE)
    }

    /// Puts a segment in its place by address.
    ///
    /// # Errors
    ///
    /// `Overlap` if the segment would meet another or pass 2^63; a segment of no bytes counts as one
    /// byte. Otherwise `Full` if it is an image and all images would have more than 67,108,864 bytes,
    /// or if it is a block of the pool or of the firmware and all blocks would have more than
    /// 67,108,864 bytes or be more than 65,536. Otherwise `OutOfMemory` if memory runs out. After an
    /// error the memory is as before.
    pub fn map(&mut self, base: u64, bytes: Vec<u8>, kind: SegKind) -> Result<(), MemRefusal>
        ensures answer { Gives result (map_answer self.old (record { base = base; bytes = bytes.items; kind = kind })) }
        ensures ok { OnOk result (self.new ≡ mapped (record { base = base; bytes = bytes.items; kind = kind }) self.old) }
        ensures err { OnErr result (self.new ≡ self.old) }
        // No two segments meet.
        ensures apart { IsTrue (lie_from 0 self.new) }
    {
        let segment = Segment {
            base,
            bytes: Rows::of(bytes),
            kind,
        };
        if !segment.is_in_range() || self.segments.meets_any(&segment) {
            return Err(MemRefusal::Overlap);
        }
        let size = segment.bytes.as_slice().len() as u64;
        if self.totals.is_full(kind, size) {
            return Err(MemRefusal::Full);
        }
        self.segments.insert(segment)?;
        self.totals.add(kind, size);
        Ok(())
    }

    /// Puts a segment in its place by address. No limit is checked: the segment was taken out by
    /// `unmap`, and was within the limits when it was mapped. With it, the segments lie in order and
    /// none meets another.
    ///
    /// # Errors
    ///
    /// `OutOfMemory` if memory runs out. The memory is then as before, and the segment is gone.
    pub fn put_back(&mut self, segment: Segment) -> Result<(), OutOfMemory>
        requires { lie_from 0 (mapped segment self.old) ≡ true }
        ensures ok { OnOk result (self.new ≡ mapped segment self.old) }
        ensures err { OnErr result (self.new ≡ self.old) }
    {
        let kind = segment.kind;
        let size = segment.bytes.as_slice().len() as u64;
        self.segments.insert(segment)?;
        self.totals.add(kind, size);
        Ok(())
    }

    /// Takes out the segment that begins at an address. Takes no memory.
    ///
    /// # Errors
    ///
    /// `NoSegment` if none begins there. The memory is then as before.
    pub fn unmap(&mut self, base: u64) -> Result<Segment, MemRefusal>
        ensures answer { result ≡ beginning_at self.old base }
        ensures rest { self.new ≡ unmapped self.old base }
    {
        match self.segments.remove(base) {
            Some(segment) => {
                self.totals
                    .subtract(segment.kind, segment.bytes.as_slice().len() as u64);
                Ok(segment)
            }
            None => Err(MemRefusal::NoSegment),
        }
    }

    /// How many bytes the segments of a kind have. Takes no memory.
    pub fn total(&self, kind: SegKind) -> u64
        ensures { result ≡ total_of self.now kind }
    {
        self.totals.of(kind)
    }

    /// How many blocks there are, of the pool and of the firmware. Takes no memory.
    pub fn block_count(&self) -> u64
        ensures { result ≡ block_count self.now }
    {
        self.totals.blocks()
    }

    /// Whether a segment of a kind begins at an address. Takes no memory.
    pub fn begins(&self, kind: SegKind, base: u64) -> bool
        ensures { result ≡ begins kind base self.now }
    {
        match self.segments.beginning(base) {
            Some(segment) => segment.is_of(kind),
            None => false,
        }
    }

    /// Whether one more segment of a kind, with so many bytes, would pass a limit: `map` then answers
    /// `Full`. Takes no memory.
    pub fn is_full(&self, kind: SegKind, size: u64) -> bool
        ensures { result ≡ is_full self.now kind size }
    {
        self.totals.is_full(kind, size)
    }

    /// The address at which the image begins that has an address; `None` exactly if no image has it.
    /// Takes no memory.
    pub fn image_base(&self, at: u64) -> Option<u64>
        ensures { result ≡ option_map (λ (segment : SegmentValue). segment.base) (image_with self.now at) }
    {
        self.segments
            .image(&self.last_code, at)
            .map(|segment| segment.base)
    }

    /// Whether `n` bytes from an address on can be read: one segment has them all, whatever its
    /// kind. No bytes always can. Takes no memory.
    pub fn can_read(&self, at: u64, n: u64) -> bool
        ensures { result ≡ is_readable self.now at n }
    {
        n == 0 || self.segments.holder(&self.last_data, at, n).is_some()
    }

    /// Whether `n` bytes from an address on can be written: one segment has them all, and a driver
    /// may write it. No bytes always can. Takes no memory.
    pub fn can_write(&self, at: u64, n: u64) -> bool
        ensures { result ≡ is_writable_range self.now at n }
    {
        if n == 0 {
            return true;
        }
        match self.segments.holder(&self.last_data, at, n) {
            Some(segment) => segment.kind.is_writable(),
            None => false,
        }
    }

    /// The `n` bytes from an address on, which can be read (`can_read`). Takes no memory.
    pub fn bytes(&self, at: u64, n: u64) -> &[u8]
        requires readable { IsTrue (is_readable self.now at n) }
        ensures bytes { result.now ≡ bytes_of self.now at n }
        ensures size { length result.now ≡ n }
    {
        if n == 0 {
            return &[];
        }
        match self.segments.holder(&self.last_data, at, n) {
            Some(segment) => segment.bytes(at, n),
            None => &[],
        }
    }

    /// Writes bytes from an address on, if they can be written (`can_write`). Nothing else
    /// changes. Takes no memory.
    pub fn put(&mut self, at: u64, bytes: &[u8])
        requires writable { IsTrue (is_writable_range self.old at (length bytes.now)) }
        ensures { self.new ≡ put_bytes self.old at bytes.now }
    {
        if bytes.is_empty() {
            return;
        }
        self.segments.put(&self.last_data, at, bytes);
    }

    /// Writes a byte `n` times from an address on, if that can be written (`can_write`). Nothing
    /// else changes. Takes no memory.
    pub fn fill(&mut self, at: u64, n: u64, byte: u8)
        requires writable { IsTrue (is_writable_range self.old at n) }
        ensures { self.new ≡ put_bytes self.old at (replicate n byte) }
    {
        if n == 0 {
            return;
        }
        self.segments.fill(&self.last_data, at, n, byte);
    }

    /// A memory of segments in order with their totals, of which none was used yet.
    fn of(segments: Segments, totals: Totals) -> Memory
        requires { IsInOrder segments totals }
        ensures { result ≡ segments }
    {
        Memory {
            segments,
            totals,
            last_data: Cell::new(0),
            last_code: Cell::new(0),
        }
    }
}

impl GuestMem for Memory {
    ghost segments = { λ memory. memory };

    ghost with_segments = { λ memory segments. segments };

    ghost may_run_out = { ⊥ };

    ghost same = { λ memory. refl };

    #[inline]
    fn read(&self, at: u64, n: u8) -> Option<u64> {
        match self.segments.holder(&self.last_data, at, u64::from(n)) {
            Some(segment) => Some(segment.number(at, n)),
            None => None,
        }
    }

    #[inline]
    fn write(&mut self, at: u64, n: u8, value: u64) -> Result<(), MemRefusal> {
        self.segments.write(&self.last_data, at, n, value)
    }

    #[inline]
    fn fetch(&self, at: u64, into: &mut [u8; 18]) -> u8 {
        match self.segments.image(&self.last_code, at) {
            Some(segment) => segment.code(at, into),
            None => 0,
        }
    }
}
