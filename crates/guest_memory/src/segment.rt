ghost use Rattle.std.specs.Prelude.{◌≡◌, ◌≤◌, ◌<◌, ◌+◌, ◌-◌, ◌^◌, ◌++◌, length, drop, replicate, IsTrue, not, nat_lt};
ghost use Rattle.guest_memory.specs.Segment.{is_access, is_writable, is_image, is_block, has_bytes, number_at, bytes_at, with_bytes, with_number, code_at, extent, end_of, meets};
ghost use Rattle.guest_memory.specs.GuestMemory.{is_of};

use byteorder::{ByteOrder, LittleEndian};
use fw_types::Rows;
use std::alloc::Global;
use std::mem;

/// What a segment is for.
#[derive(Clone, Copy, Debug, PartialEq, Eq)]
pub enum SegKind {
    /// A loaded image. A driver may write it, and its code lies there.
    Image,
    /// A block of the pool. A driver may write it.
    Pool,
    /// A block of the firmware. A driver may only read it.
    Firmware,
    /// The stack of a driver call. A driver may write it.
    Stack,
    /// A table or a list of the firmware. A driver may only read it.
    Table,
}

/// Bytes in a row at an address.
#[derive(Debug, Drop)]
pub struct Segment {
    /// The address of the first byte.
    pub base: u64,
    /// The bytes, in order of their addresses.
    pub bytes: Rows<u8>,
    /// What the segment is for.
    pub kind: SegKind,
}

impl SegKind {
    /// Whether a driver may write a segment of the kind.
    #[inline]
    pub(crate) fn is_writable(self) -> bool
        ensures { result ≡ is_writable self }
    {
        matches!(self, SegKind::Image | SegKind::Pool | SegKind::Stack)
    }

    /// Whether a driver's code may lie in a segment of the kind.
    #[inline]
    pub(crate) fn is_image(self) -> bool
        ensures { result ≡ is_image self }
    {
        matches!(self, SegKind::Image)
    }

    /// Whether a segment of the kind is a block, of the pool or of the firmware.
    pub(crate) fn is_block(self) -> bool
        ensures { result ≡ is_block self }
    {
        matches!(self, SegKind::Pool | SegKind::Firmware)
    }
}

impl Segment {
    /// Whether the segment is of a kind.
    pub(crate) fn is_of(&self, kind: SegKind) -> bool
        ensures { result ≡ is_of kind self.now }
    {
        self.kind == kind
    }

    /// Whether the segment has all `n` bytes from an address on.
    #[inline]
    pub(crate) fn has(&self, at: u64, n: u64) -> bool
        ensures { result ≡ has_bytes self.now at n }
    {
        let len = self.bytes.as_slice().len() as u64;
        self.base <= at && at - self.base <= len && n <= len - (at - self.base)
    }

    /// The number in `n` bytes from an address on.
    #[inline]
    pub(crate) fn number(&self, at: u64, n: u8) -> u64
        requires access { IsTrue (is_access n) }
        requires inside { IsTrue (has_bytes self.now at n) }
        ensures value { result ≡ number_at self.now at n }
        ensures fits { result < 256 ^ n }
    {
        let bytes = &self.bytes.as_slice()[(at - self.base) as usize..];
        match n {
            1 => u64::from(bytes[0]),
            2 => u64::from(LittleEndian::read_u16(bytes)),
            4 => u64::from(LittleEndian::read_u32(bytes)),
            _ => LittleEndian::read_u64(bytes),
        }
    }

    /// Writes the lowest `n` bytes of a number at an address.
    #[inline]
    pub(crate) fn put(&mut self, at: u64, n: u8, value: u64)
        requires access { IsTrue (is_access n) }
        requires inside { IsTrue (has_bytes self.old at n) }
        ensures { self.new ≡ with_number self.old at n value }
    {
        let start = (at - self.base) as usize;
        let low = value.to_le_bytes();
        match n {
            1 => self.bytes.replace(start, &low[..1]),
            2 => self.bytes.replace(start, &low[..2]),
            4 => self.bytes.replace(start, &low[..4]),
            _ => self.bytes.replace(start, &low),
        }
    }

    /// The segment's `n` bytes from an address on.
    pub(crate) fn bytes(&self, at: u64, n: u64) -> &[u8]
        requires inside { IsTrue (has_bytes self.now at n) }
        ensures bytes { result.now ≡ bytes_at self.now at n }
        ensures size { length result.now ≡ n }
    {
        let rest = &self.bytes.as_slice()[(at - self.base) as usize..];
        &rest[..n as usize]
    }

    /// Writes bytes from an address on.
    pub(crate) fn put_bytes(&mut self, at: u64, bytes: &[u8])
        requires inside { IsTrue (has_bytes self.old at (length bytes.now)) }
        ensures { self.new ≡ with_bytes self.old at bytes.now }
    {
        let start = (at - self.base) as usize;
        self.bytes.replace(start, bytes);
    }

    /// Writes a byte `n` times from an address on. Takes no memory.
    pub(crate) fn fill(&mut self, alloc: Global, at: u64, n: u64, byte: u8)
        requires inside { IsTrue (has_bytes self.old at n) }
        ensures { self.new ≡ with_bytes self.old at (replicate n byte) }
    {
        let start = (at - self.base) as usize;
        let mut bytes = mem::replace(&mut self.bytes, Rows::of(Vec::new(alloc))).into_vec();
        bytes.as_mut_slice()[start..start + n as usize].fill(byte);
        self.bytes = Rows::of(bytes);
    }

    /// Copies the segment's bytes from an address on, at most 18, and returns how many there are.
    #[inline]
    pub(crate) fn code(&self, at: u64, into: &mut [u8; 18]) -> u8
        requires { IsTrue (has_bytes self.now at 1) }
        ensures count { result ≡ length (code_at self.now at) }
        ensures bytes { into.new ≡ code_at self.now at ++ drop result into.old }
    {
        let rest = &self.bytes.as_slice()[(at - self.base) as usize..];
        if rest.len() >= 18 {
            into.copy_from_slice(&rest[..18]);
            return 18;
        }
        into[..rest.len()].copy_from_slice(rest);
        rest.len() as u8
    }

    /// How many addresses the segment takes: as many as it has bytes, and one if it has none.
    pub(crate) fn extent(&self) -> u64
        ensures { result ≡ extent self.now }
    {
        (self.bytes.as_slice().len() as u64).max(1)
    }

    /// Whether the segment ends by 2^63.
    pub(crate) fn is_in_range(&self) -> bool
        ensures { result ≡ not (nat_lt (2 ^ 63) (end_of self.now)) }
    {
        self.base <= 1 << 63 && self.extent() <= (1 << 63) - self.base
    }

    /// Whether two segments take an address in common.
    pub(crate) fn meets(&self, other: &Segment) -> bool
        ensures { result ≡ meets self.now other.now }
    {
        self.base.saturating_sub(other.base) < other.extent()
            && other.base.saturating_sub(self.base) < self.extent()
    }
}
