//! The soft part: the type, its blocks and its ranges of bytes. Its other calls are in the files of
//! this module, by subject.
ghost use Rattle.std.specs.Prelude.{◌≡◌, ◌≤◌, true, IfOk, OnErr, OnOk, length, replicate, take, Ok};
ghost use Rattle.guest_memory.specs.Segment.{is_access, is_block};
ghost use Rattle.guest_memory.specs.GuestMemory.{beginning_at, bytes_of, is_readable, is_writable_range, put_bytes};
ghost use Rattle.world_model.specs.World.{with_memory, with_tpl};
ghost use Rattle.world_model.specs.Faults.{Gives};
ghost use Rattle.world_model.specs.Blocks.{allot_answer, block_added, block_freed, free_answer, is_block_full, is_image_block};
ghost use Rattle.world_model.specs.Kept.{IsKept};
ghost use Rattle.world_model.specs.Opening.{firmware_soft, opening_soft};
ghost use Rattle.world_model.specs.Records.{no_records};
ghost use Rattle.pci_model.specs.declared.numbers.TheConstants.{MOST_ROOTS as most_roots};
ghost use Rattle.soft_part.specs.Answers.{done};

mod bus_children;
mod images;
mod interfaces;
mod stacks;
mod undoing;

use crate::plain_part::PlainPart;
use crate::roots::add_roots;
use fw_types::OutOfMemory;
use guest_memory::address_map::BLOCK_END;
use guest_memory::{GuestMem, MemRefusal, Memory, SegKind, Segment};
use handle_db::Db;
use soft_pieces::addresses::block_room;
use soft_pieces::database::opening;
use soft_pieces::mapping::map_free;
use soft_pieces::tables::tables;
use std::alloc::Global;
use std::marker::Model;
use world_model::WorldFault;

/// What an undo puts back besides the open records: the memory of drivers, the handle database and the
/// plain fields. A contract sees a soft part without records.
#[derive(Drop)]
pub struct SoftPart {
    alloc: Global,
    memory: Memory,
    database: Db,
    plain: PlainPart,
}

impl Model for SoftPart {
    ghost use Rattle.world_model.specs.World.{Soft};
    ghost use Rattle.world_model.specs.Kept.{IsKept};
    ghost use Rattle.soft_part.specs.Soft.{soft_of};

    ghost Value = { Soft };

    ghost view = { λ inside. soft_of inside.memory inside.database inside.plain };

    ghost invariant = { λ inside. IsKept (soft_of inside.memory inside.database inside.plain) };
}

impl SoftPart {
    /// The soft part of the opening state, for a board with so many functions, and with at most 16
    /// root bridges with their _UID and bus.
    ///
    /// # Errors
    ///
    /// `OutOfMemory` if there is no memory.
    pub fn new(
        alloc: Global,
        functions: usize,
        bridges: &[(u32, u8)],
    ) -> Result<SoftPart, OutOfMemory>
        requires { length bridges.now ≤ most_roots }
        ensures { IfOk result (λ soft. soft ≡ opening_soft functions bridges.now) }
    {
        let mut soft = SoftPart::without_roots(alloc, functions)?;
        add_roots(&mut soft, alloc, bridges)?;
        Ok(soft)
    }

    /// The soft part of the opening state, for a board with so many functions and no root bridge.
    ///
    /// # Errors
    ///
    /// `OutOfMemory` if there is no memory.
    fn without_roots(alloc: Global, functions: usize) -> Result<SoftPart, OutOfMemory>
        ensures { IfOk result (λ soft. soft ≡ firmware_soft functions) }
    {
        Ok(SoftPart {
            alloc,
            memory: tables(alloc)?,
            database: opening(alloc)?,
            plain: PlainPart::new(alloc, functions)?,
        })
    }

    /// What holds of every soft part.
    pub fn is_kept(&self)
        ensures { IsKept self.now }
    {
        let _memory = &self.memory;
    }

    /// It has no open records.
    pub fn has_no_records(&self)
        ensures { self.now.records ≡ no_records }
    {
        let _memory = &self.memory;
    }

    /// The handle database.
    pub fn db(&self) -> &Db
        ensures { result.now ≡ self.now.database }
    {
        &self.database
    }

    /// The task priority level.
    pub fn tpl(&self) -> u8
        ensures { result ≡ self.now.tpl }
    {
        self.plain.tpl
    }

    /// Sets the task priority level.
    pub fn set_tpl(&mut self, tpl: u8)
        ensures { self.new ≡ with_tpl tpl self.old }
    {
        self.plain.tpl = tpl;
    }

    // ---- blocks

    /// Whether one more block of so many bytes passes a limit.
    pub fn is_block_full(&self, size: u64) -> bool
        ensures { result ≡ is_block_full size self.now }
    {
        if self.memory.is_full(SegKind::Pool, size) {
            return true;
        }
        self.plain.next_block + block_room(size) > BLOCK_END
    }

    /// Makes a block at the next address.
    ///
    /// # Errors
    ///
    /// `Full` if a limit is met, `OutOfMemory` if there is no memory.
    pub fn allot(&mut self, bytes: Vec<u8>, kind: SegKind) -> Result<u64, WorldFault>
        requires { is_block kind ≡ true }
        ensures answer { Gives result (allot_answer (length bytes.items) self.old) }
        ensures ok { OnOk result (self.new ≡ block_added bytes.items kind self.old) }
        ensures err { OnErr result (self.new ≡ self.old) }
    {
        let size = bytes.len() as u64;
        if self.is_block_full(size) {
            return Err(WorldFault::Full);
        }
        let at = self.plain.next_block;
        map_free(&mut self.memory, at, bytes, kind)?;
        self.plain.next_block = at + block_room(size);
        Ok(at)
    }

    /// Whether an address is that of an image's loaded image block.
    fn is_image_block(&self, at: u64) -> bool
        ensures { result ≡ is_image_block at self.now.images }
    {
        self.plain.images.iter().any(|image| image.block == at)
    }

    /// Removes a block of the kind, but no loaded image block, and answers what was mapped there.
    ///
    /// # Errors
    ///
    /// `NotThere` if no such block begins at the address.
    pub fn free(&mut self, at: u64, kind: SegKind) -> Result<Segment, WorldFault>
        requires { is_block kind ≡ true }
        ensures answer { done result ≡ free_answer at kind self.old }
        ensures segment { IfOk result (λ segment. beginning_at self.old.memory at ≡ Ok segment) }
        ensures ok { OnOk result (self.new ≡ block_freed at self.old) }
        ensures err { OnErr result (self.new ≡ self.old) }
    {
        if !self.memory.begins(kind, at) || self.is_image_block(at) {
            return Err(WorldFault::NotThere);
        }
        match self.memory.unmap(at) {
            Ok(segment) => Ok(segment),
            Err(_) => unreachable!(),
        }
    }

    // ---- ranges of bytes

    /// Whether so many bytes from an address on can be read.
    pub fn can_read(&self, at: u64, n: u64) -> bool
        ensures { result ≡ is_readable self.now.memory at n }
    {
        self.memory.can_read(at, n)
    }

    /// Whether so many bytes from an address on can be written.
    pub fn can_write(&self, at: u64, n: u64) -> bool
        ensures { result ≡ is_writable_range self.now.memory at n }
    {
        self.memory.can_write(at, n)
    }

    /// So many bytes from an address on.
    pub fn bytes(&self, at: u64, n: u64) -> &[u8]
        requires { is_readable self.now.memory at n ≡ true }
        ensures bytes { result.now ≡ bytes_of self.now.memory at n }
        ensures size { length result.now ≡ n }
    {
        self.memory.bytes(at, n)
    }

    /// The `n` bytes from an address on, and zeros after them; only zeros if they can't be read.
    #[inline]
    pub fn word(&self, at: u64, n: u8) -> [u8; 8]
        requires { is_access n ≡ true }
        ensures { is_readable self.now.memory at n ≡ true → take n result ≡ bytes_of self.now.memory at n }
    {
        let mut word = [0; 8];
        if !self.memory.can_read(at, u64::from(n)) {
            return word;
        }
        let bytes = self.memory.bytes(at, u64::from(n));
        word[..usize::from(n)].copy_from_slice(bytes);
        word
    }

    /// Puts bytes in place of those from an address on.
    pub fn put(&mut self, at: u64, bytes: &[u8])
        requires { is_writable_range self.old.memory at (length bytes.now) ≡ true }
        ensures { self.new ≡ with_memory (put_bytes self.old.memory at bytes.now) self.old }
    {
        self.memory.put(at, bytes);
    }

    /// Puts a byte in place of each of so many from an address on.
    pub fn fill(&mut self, at: u64, n: u64, byte: u8)
        requires { is_writable_range self.old.memory at n ≡ true }
        ensures { self.new ≡
            with_memory (put_bytes self.old.memory at (replicate n byte)) self.old }
    {
        self.memory.fill(at, n, byte);
    }
}

impl GuestMem for SoftPart {
    ghost use Rattle.std.specs.Prelude.{refl};
    ghost use Rattle.world_model.specs.World.{with_memory};

    ghost segments = { λ soft. soft.memory };

    ghost with_segments = { λ soft segments. with_memory segments soft };

    ghost may_run_out = { ⊥ };

    ghost same = { λ soft. refl };

    #[inline]
    fn read(&self, at: u64, n: u8) -> Option<u64> {
        self.memory.read(at, n)
    }

    #[inline]
    fn write(&mut self, at: u64, n: u8, value: u64) -> Result<(), MemRefusal> {
        self.memory.write(at, n, value)
    }

    #[inline]
    fn fetch(&self, at: u64, into: &mut [u8; 18]) -> u8 {
        self.memory.fetch(at, into)
    }
}
