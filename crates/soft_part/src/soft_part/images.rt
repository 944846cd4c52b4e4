//! Images and thunks.
ghost use Rattle.std.specs.Prelude.{◌≡◌, ◌<◌, true, IfOk, IfSome, OnErr, OnOk, is_some, length};
ghost use Rattle.guest_memory.specs.GuestMemory.{is_readable};
ghost use Rattle.world_model.specs.Faults.{Gives};
ghost use Rattle.world_model.specs.Interfaces.{firmware};
ghost use Rattle.world_model.specs.Images.{add_answer, block_bytes as block_value, block_size, drop_answer, entry_of as entry_value, image_added, image_at as image_value, image_dropped, image_of as image_found, is_image_full};
ghost use Rattle.world_model.specs.ImageSweep.{image_swept};
ghost use Rattle.world_model.specs.Thunks.{thunk_answer, thunk_at as thunk_value, thunk_made};
ghost use Rattle.world_model.specs.UndoLaws.{IsNoted};
ghost use Rattle.soft_part.specs.Answers.{AsBefore, done};

use crate::soft_part::SoftPart;
use fw_types::{Guid, Handle, Known, MOST_THUNKS, OutOfMemory, Rows};
use guest_memory::SegKind;
use guest_memory::address_map::IMAGE_END;
use soft_pieces::addresses::{block_room, next_step};
use soft_pieces::image_block::{ImageInfo, block_bytes};
use soft_pieces::images::{
    drop_from, image_of, image_place, image_with_base, take_image, unmap_image,
};
use soft_pieces::mapping::add_loaded;
use soft_pieces::thunks::{thunk_address, thunk_with};
use world_model::{Boxed, Change, DroppedImage, LoadedImage, Thunk, WorldFault};

/// The size of a loaded image block.
const BLOCK_SIZE: u64 = 96;

impl SoftPart {
    /// Whether one more image of so many bytes passes a limit.
    pub fn is_image_full(&self, size: u64) -> bool
        ensures { result ≡ is_image_full size self.now }
    {
        if self.database.is_full() || self.memory.is_full(SegKind::Image, size) {
            return true;
        }
        self.plain.next_image + size > IMAGE_END || self.is_block_full(BLOCK_SIZE)
    }

    /// Maps an image and its loaded image block, which becomes the interface of a new handle.
    ///
    /// # Errors
    ///
    /// `Full` if a limit is met (`is_image_full`), `OutOfMemory` if there is no memory; the soft part
    /// is then as before.
    pub fn add_image(
        &mut self,
        bytes: Vec<u8>,
        entry: u32,
        subsystem: u16,
        device: u64,
    ) -> Result<Handle, WorldFault>
        requires { entry < length bytes.items }
        ensures answer { Gives result (add_answer (length bytes.items) self.old) }
        ensures ok { OnOk result (self.new ≡
            image_added bytes.items entry subsystem device self.old) }
        ensures err { OnErr result (self.new ≡ self.old) }
    {
        let size = bytes.len() as u64;
        if self.is_image_full(size) {
            return Err(WorldFault::Full);
        }
        let (base, block) = (self.plain.next_image, self.plain.next_block);
        let contents = self.block_contents(size, subsystem, device)?;
        self.plain.images.reserve(1)?;
        let handle = add_loaded(
            &mut self.memory,
            &mut self.database,
            (block, contents),
            (base, bytes),
        )?;
        self.plain.images.push_reserved(LoadedImage {
            handle,
            base,
            entry: base + u64::from(entry),
            block,
        });
        self.plain.next_image = next_step(base + size);
        self.plain.next_block = block + block_room(BLOCK_SIZE);
        Ok(handle)
    }

    /// The loaded image block of the next image.
    fn block_contents(&self, size: u64, subsystem: u16, device: u64) -> Result<Vec<u8>, OutOfMemory>
        ensures { IfOk result (λ bytes. bytes.items ≡ block_value (record {
          parent = firmware;
          device = device;
          base = self.now.next_image;
          size = size;
          subsystem = subsystem;
        })) }
    {
        let info = ImageInfo {
            parent: Handle::firmware().get(),
            device,
            base: self.plain.next_image,
            size,
            subsystem,
        };
        Ok(Vec::from_slice(self.alloc, &block_bytes(&info))?)
    }

    /// Removes an image with its loaded image block, its interface and its thunks, and answers the change.
    ///
    /// # Errors
    ///
    /// `NotThere` if the handle is not that of an image; the soft part is then as before. `OutOfMemory`
    /// if there is no memory.
    pub fn drop_image(&mut self, handle: Handle) -> Result<Change, WorldFault>
        ensures answer { Gives (done result) (drop_answer handle self.old) }
        ensures noted { IfOk result (λ change. IsNoted change self.old self.new) }
        ensures ok { OnOk result (self.new ≡ image_dropped handle self.old) }
        ensures refused { AsBefore result self.old self.new }
    {
        let image = match image_of(self.plain.images.as_slice(), handle.get()) {
            Some(image) => *image,
            None => return Err(WorldFault::NotThere),
        };
        let place = image_place(self.plain.images.as_slice(), image.handle.get());
        let parts = take_image(self.alloc, &mut self.memory, &mut self.plain.thunks, &image);
        let guid = Guid::known(Known::LoadedImage);
        let removed = self.database.remove(image.handle, guid);
        drop_from(&mut self.plain.images, image.handle);
        let (segment, block, thunks) = parts?;
        let Ok(removed) = removed else {
            return Err(WorldFault::OutOfMemory);
        };
        let dropped = DroppedImage {
            image,
            place,
            segment,
            block,
            removed,
            thunks: Rows::of(thunks),
        };
        Ok(Change::DropImage {
            dropped: Boxed::new(self.alloc, dropped)?,
        })
    }

    /// Removes an image with all that belongs to it, in one sweep. If the handle is not that of an
    /// image, nothing changes.
    ///
    /// # Errors
    ///
    /// `NotThere` if the handle is not that of an image.
    #[tactic(auto, unfolding(world_model::specs::ImageSweep::image_swept))]
    pub fn sweep_image(&mut self, handle: Handle) -> Result<(), WorldFault>
        ensures answer { result ≡ drop_answer handle self.old }
        ensures now { self.new ≡ image_swept handle self.old }
        ensures err { OnErr result (self.new ≡ self.old) }
    {
        let image = match image_of(self.plain.images.as_slice(), handle.get()) {
            Some(image) => *image,
            None => return Err(WorldFault::NotThere),
        };
        unmap_image(&mut self.memory, &mut self.plain.thunks, &image);
        self.database
            .remove_owned(image.handle, Guid::known(Known::LoadedImage));
        drop_from(&mut self.plain.images, image.handle);
        Ok(())
    }

    /// The image of a handle, whose loaded image block can be read.
    pub fn loaded_image(&self, handle: u64) -> Option<LoadedImage>
        ensures image { result ≡ image_found handle self.now.images }
        ensures block { IfSome result
            (λ image. is_readable self.now.memory image.block block_size ≡ true) }
    {
        image_of(self.plain.images.as_slice(), handle).copied()
    }

    /// The address of the next image.
    pub fn next_image(&self) -> u64
        ensures { result ≡ self.now.next_image }
    {
        self.plain.next_image
    }

    /// The address of the next block.
    pub fn next_block(&self) -> u64
        ensures { result ≡ self.now.next_block }
    {
        self.plain.next_block
    }

    /// The address of an image's entry point.
    pub fn entry_of(&self, handle: u64) -> Option<u64>
        ensures { result ≡ entry_value handle self.now }
    {
        match image_of(self.plain.images.as_slice(), handle) {
            Some(image) => Some(image.entry),
            None => None,
        }
    }

    /// The image whose bytes an address lies in.
    pub fn image_at(&self, at: u64) -> Option<Handle>
        ensures { result ≡ image_value at self.now }
    {
        match self.memory.image_base(at) {
            Some(base) => image_with_base(self.plain.images.as_slice(), base),
            None => None,
        }
    }

    // ---- thunks

    /// Makes a thunk of the next number.
    ///
    /// # Errors
    ///
    /// `Full` if all numbers are handed out, `OutOfMemory` if there is no memory.
    pub fn make_thunk(&mut self, entry: u64) -> Result<u64, WorldFault>
        requires { is_some (image_value entry self.old) ≡ true }
        ensures answer { Gives result (thunk_answer self.old) }
        ensures ok { OnOk result (self.new ≡ thunk_made entry self.old) }
        ensures err { OnErr result (self.new ≡ self.old) }
    {
        let number = self.plain.next_thunk;
        if number >= MOST_THUNKS {
            return Err(WorldFault::Full);
        }
        self.plain.thunks.push(Thunk { number, entry })?;
        self.plain.next_thunk = number + 1;
        Ok(thunk_address(number))
    }

    /// The entry of the live thunk of an address.
    pub fn thunk_at(&self, at: u64) -> Option<u64>
        ensures { result ≡ thunk_value at self.now }
    {
        match thunk_with(self.plain.thunks.as_slice(), at) {
            Some(thunk) => Some(thunk.entry),
            None => None,
        }
    }
}
