//! The plain fields of the soft part: all except the memory of drivers, the handle database and the
//! open records.
ghost use Rattle.std.specs.Prelude.{IfOk};
ghost use Rattle.soft_part.specs.Soft.{IsOpening};

use fw_types::OutOfMemory;
use guest_memory::address_map::{FIRST_BLOCK, FIRST_IMAGE};
use soft_pieces::bus_children::{BusList, first_lists};
use std::alloc::Global;
use world_model::{BusChild, LoadedImage, TPL_APPLICATION, Thunk};

/// The images that are loaded, the live thunks, the children of the bus, the bus lists, the task
/// priority level, the addresses of the next image and the next block, and the number of the next
/// thunk.
#[derive(Drop)]
pub struct PlainPart {
    /// The images that are loaded, in order of loading, except for the firmware's own.
    pub images: Vec<LoadedImage>,
    /// The live thunks, in order of making.
    pub thunks: Vec<Thunk>,
    /// The children of the bus, in order of making.
    pub bus_children: Vec<BusChild>,
    /// For each function of the board, by number, the images that its option ROM brought.
    pub bus_lists: Vec<BusList>,
    /// The task priority level.
    pub tpl: u8,
    /// The address of the next image.
    pub next_image: u64,
    /// The address of the next block.
    pub next_block: u64,
    /// The number of the next thunk.
    pub next_thunk: u32,
}

impl PlainPart {
    /// The plain fields of the opening state of a board with so many functions: no image, no thunk
    /// and no child.
    ///
    /// # Errors
    ///
    /// `OutOfMemory` if there is no memory.
    pub fn new(alloc: Global, functions: usize) -> Result<PlainPart, OutOfMemory>
        ensures { IfOk result (IsOpening functions) }
    {
        Ok(PlainPart {
            images: Vec::new(alloc),
            thunks: Vec::new(alloc),
            bus_children: Vec::new(alloc),
            bus_lists: first_lists(alloc, functions)?,
            tpl: TPL_APPLICATION,
            next_image: FIRST_IMAGE,
            next_block: FIRST_BLOCK,
            next_thunk: 0,
        })
    }
}
