//! Children of the bus, and the bus lists of functions.
ghost use Rattle.std.specs.Prelude.{◌≡◌, true, OnErr, OnOk, length, None};
ghost use Rattle.world_model.specs.BusChildren.{bus_list, child_function, child_noted, child_of, pci_at, rom_done, rom_images, with_bus_list};
ghost use Rattle.world_model.specs.NewChild.{is_child_full};
ghost use Rattle.world_model.specs.Kept.{has_pci_io};

use crate::soft_part::SoftPart;
use fw_types::{Handle, MOST_BLOCKS, MOST_BYTES, OutOfMemory, Rows};
use guest_memory::SegKind;
use guest_memory::address_map::BLOCK_END;
use soft_pieces::addresses::block_room;
use soft_pieces::bus_children::{
    BusList, first_child, function_at, function_of, pci_io_of, replace_list,
};
use world_model::BusChild;

impl SoftPart {
    /// Whether one more child of the bus, with a device path of so many bytes, passes a limit.
    pub fn is_child_full(&self, path_size: u64, has_rom: bool) -> bool
        ensures { result ≡ is_child_full path_size has_rom self.now }
    {
        if path_size > MOST_BYTES {
            return true;
        }
        let (count, bytes, addresses) = if has_rom {
            (3, 168, 176)
        } else {
            (2, 160, 160)
        };
        if self.database.is_full() || self.memory.is_full(SegKind::Pool, path_size + bytes) {
            return true;
        }
        if self.memory.block_count() + count > MOST_BLOCKS {
            return true;
        }
        self.plain.next_block + block_room(path_size) + addresses > BLOCK_END
    }

    /// The function of a handle, if it is a child of the bus.
    pub fn child_function(&self, handle: u64) -> Option<u32>
        ensures { result ≡ child_function handle self.now }
    {
        function_of(self.plain.bus_children.as_slice(), handle)
    }

    /// The child of a function with the least handle.
    pub fn child_of(&self, function: u32) -> Option<Handle>
        ensures { result ≡ child_of function self.now }
    {
        first_child(self.plain.bus_children.as_slice(), function)
    }

    /// The function of the child whose PCI I/O is at an address.
    pub fn pci_at(&self, this: u64) -> Option<u32>
        ensures { result ≡ pci_at this self.now }
    {
        function_at(self.plain.bus_children.as_slice(), this)
    }

    /// Makes a function that of a handle with PCI I/O of the firmware, which is no child yet. A
    /// number that is not that of a function of the board changes nothing.
    ///
    /// # Errors
    ///
    /// `OutOfMemory` if there is no memory; the soft part is then as before.
    pub fn note_child(&mut self, handle: Handle, function: u32) -> Result<(), OutOfMemory>
        requires there { has_pci_io handle self.old.database ≡ true }
        requires new { child_function handle self.old ≡ None }
        ensures ok { OnOk result (self.new ≡ child_noted handle function self.old) }
        ensures err { OnErr result (self.new ≡ self.old) }
    {
        if function as usize >= self.plain.bus_lists.len() {
            return Ok(());
        }
        let pci_io = pci_io_of(&self.database, handle);
        self.plain.bus_children.push(BusChild {
            handle,
            pci_io,
            function,
        })?;
        Ok(())
    }

    /// Whether the option ROM of a function was processed.
    pub fn rom_done(&self, function: u32) -> bool
        ensures { result ≡ rom_done function self.now }
    {
        matches!(self.plain.bus_lists.get(function as usize), Some(Some(_)))
    }

    /// The images that the option ROM of a function brought.
    pub fn bus_list(&self, function: u32) -> &[Handle]
        ensures { result.now ≡ bus_list function self.now }
    {
        match self.plain.bus_lists.get(function as usize) {
            Some(Some(images)) => images.as_slice(),
            _ => &[],
        }
    }

    /// The option ROM of a function was processed, and brought these images. Answers what its bus
    /// list was before, `None` if the ROM was not processed.
    pub fn set_bus_list(&mut self, function: u32, images: Vec<Handle>) -> BusList
        ensures before { result ≡ rom_images function self.old }
        ensures now { self.new ≡ with_bus_list function images.items self.old }
    {
        replace_list(&mut self.plain.bus_lists, function, Some(Rows::of(images)))
    }

    /// How many children of the bus there are.
    pub fn child_count(&self) -> usize
        ensures { result ≡ length self.now.bus_children }
    {
        self.plain.bus_children.len()
    }
}
