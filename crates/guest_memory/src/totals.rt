ghost use Rattle.std.specs.Prelude.{◌≡◌, ◌<◌, ◌≤◌, ◌+◌, ◌^◌, ◌||◌, nat_le, nat_lt, if◌then◌else◌, IsTrue};
ghost use Rattle.guest_memory.specs.Segment.{is_block};
ghost use Rattle.guest_memory.specs.Totals.{is_full_by, total_in, with_segment, without_segment};

use crate::segment::SegKind;
use fw_types::{MOST_BLOCKS, MOST_BYTES};

/// How many bytes the segments of each kind have, and how many blocks there are.
#[derive(Clone, Copy)]
pub(crate) struct Totals {
    image: u64,
    pool: u64,
    firmware: u64,
    stack: u64,
    table: u64,
    blocks: u64,
}

impl Totals {
    /// The totals of no segments.
    pub(crate) const NONE: Totals = Totals {
        image: 0,
        pool: 0,
        firmware: 0,
        stack: 0,
        table: 0,
        blocks: 0,
    };

    /// How many bytes the segments of a kind have.
    pub(crate) fn of(&self, kind: SegKind) -> u64
        ensures { result ≡ total_in self.now kind }
    {
        match kind {
            SegKind::Image => self.image,
            SegKind::Pool => self.pool,
            SegKind::Firmware => self.firmware,
            SegKind::Stack => self.stack,
            SegKind::Table => self.table,
        }
    }

    /// How many blocks there are.
    pub(crate) fn blocks(&self) -> u64
        ensures { result ≡ self.now.blocks }
    {
        self.blocks
    }

    /// Counts one more segment of a kind, with so many bytes.
    pub(crate) fn add(&mut self, kind: SegKind, size: u64)
        requires bytes { total_in self.old kind + size < 2 ^ 64 }
        requires blocks { self.old.blocks + 1 < 2 ^ 64 }
        ensures { self.new ≡ with_segment self.old kind size }
    {
        match kind {
            SegKind::Image => self.image += size,
            SegKind::Pool => self.pool += size,
            SegKind::Firmware => self.firmware += size,
            SegKind::Stack => self.stack += size,
            SegKind::Table => self.table += size,
        }
        if kind.is_block() {
            self.blocks += 1;
        }
    }

    /// Counts one segment of a kind fewer, with so many bytes.
    pub(crate) fn subtract(&mut self, kind: SegKind, size: u64)
        requires bytes { size ≤ total_in self.old kind }
        requires blocks { IsTrue (is_block kind) → 0 < self.old.blocks }
        ensures { self.new ≡ without_segment self.old kind size }
    {
        match kind {
            SegKind::Image => self.image -= size,
            SegKind::Pool => self.pool -= size,
            SegKind::Firmware => self.firmware -= size,
            SegKind::Stack => self.stack -= size,
            SegKind::Table => self.table -= size,
        }
        if kind.is_block() {
            self.blocks -= 1;
        }
    }

    /// Whether one more segment of a kind, with so many bytes, would pass a limit.
    pub(crate) fn is_full(&self, kind: SegKind, size: u64) -> bool
        ensures { result ≡ is_full_by self.now kind size }
    {
        match kind {
            SegKind::Image => is_over(self.image, size),
            SegKind::Pool | SegKind::Firmware => {
                is_over(self.pool.saturating_add(self.firmware), size) || self.blocks >= MOST_BLOCKS
            }
            SegKind::Stack | SegKind::Table => false,
        }
    }
}

/// Whether so many more bytes are too many.
fn is_over(total: u64, size: u64) -> bool
    ensures { result ≡ nat_lt MOST_BYTES (total + size) }
{
    total > MOST_BYTES || size > MOST_BYTES - total
}
