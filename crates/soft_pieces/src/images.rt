//! The images that are loaded, and what is removed with one: its bytes, its loaded image block,
//! its interface and its thunks.
ghost use Rattle.std.specs.List.{position, position_or_len};
ghost use Rattle.std.specs.Prelude.{◌≡◌, true, IfOk, OnErr, OnOk, Some, filter, insert, option_copied, Ok};
ghost use Rattle.guest_memory.specs.GuestMemory.{beginning_at, lie_from, mapped, unmapped};
ghost use Rattle.fw_types.specs.Guid.{known_guid};
ghost use Rattle.fw_types.specs.declared.guid.Known.TheVariants.{LoadedImage as LoadedImageProtocol};
ghost use Rattle.handle_db.specs.Undoing.{HasRoomFor, remove_undone};
ghost use Rattle.world_model.specs.Images.{image_from, image_of as image_found, without_image};
ghost use Rattle.world_model.specs.Thunks.{enters, without_thunks};
ghost use Rattle.world_model.specs.Undo.{with_thunks as with_all};
ghost use Rattle.world_model.specs.UndoLaws.{is_of_handle};

use crate::mapping::map_again;
use crate::thunks::{drop_from_segment, entering, with_thunks};
use fw_types::{Guid, Handle, Known, OutOfMemory};
use guest_memory::{Memory, Segment};
use handle_db::{Db, Removed};
use std::alloc::Global;
use world_model::{DroppedImage, LoadedImage, Thunk};

/// Unmaps the bytes of an image and its loaded image block, and removes the thunks that enter it.
pub fn unmap_image(memory: &mut Memory, thunks: &mut Vec<Thunk>, image: &LoadedImage)
    ensures memory { memory.new ≡
        unmapped (unmapped memory.old image.now.base) image.now.block }
    ensures thunks { thunks.new.items ≡
        without_thunks (beginning_at memory.old image.now.base) thunks.old.items }
{
    let bytes = memory.unmap(image.base);
    drop_from_segment(thunks, &bytes);
    let _ = memory.unmap(image.block);
}

/// Unmaps the bytes of an image and its loaded image block, removes the thunks that enter it, and answers
/// all three.
///
/// # Errors
///
/// `OutOfMemory` if there is no memory for the thunks; all of it is removed even then.
pub fn take_image(
    alloc: Global,
    memory: &mut Memory,
    thunks: &mut Vec<Thunk>,
    image: &LoadedImage,
) -> Result<(Segment, Segment, Vec<Thunk>), OutOfMemory>
    ensures memory { memory.new ≡
        unmapped (unmapped memory.old image.now.base) image.now.block }
    ensures thunks { thunks.new.items ≡
        without_thunks (beginning_at memory.old image.now.base) thunks.old.items }
    ensures bytes { IfOk result (λ gone. beginning_at memory.old image.now.base ≡ Ok gone.0) }
    ensures block { IfOk result (λ gone.
        beginning_at (unmapped memory.old image.now.base) image.now.block ≡ Ok gone.1) }
    ensures entering { IfOk result (λ gone. gone.2.items ≡ filter (enters gone.0) thunks.old.items) }
{
    let bytes = memory.unmap(image.base);
    let gone = match &bytes {
        Ok(segment) => entering(alloc, thunks.as_slice(), segment),
        Err(_) => Err(OutOfMemory),
    };
    drop_from_segment(thunks, &bytes);
    let block = memory.unmap(image.block);
    let (Ok(bytes), Ok(block)) = (bytes, block) else {
        return Err(OutOfMemory);
    };
    Ok((bytes, block, gone?))
}

/// Maps the bytes of an image and its loaded image block again, with its interface, or nothing.
///
/// # Errors
///
/// `OutOfMemory` if there is no memory; all is then as before.
pub fn remap(
    memory: &mut Memory,
    database: &mut Db,
    segment: Segment,
    block: Segment,
    handle: Handle,
    removed: Removed,
) -> Result<(), OutOfMemory>
    requires apart { lie_from 0 (mapped segment (mapped block memory.old)) ≡ true }
    requires room { HasRoomFor handle (known_guid LoadedImageProtocol) removed database.old }
    ensures memory { OnOk result (memory.new ≡ mapped segment (mapped block memory.old)) }
    ensures database { OnOk result (database.new ≡
        remove_undone handle (known_guid LoadedImageProtocol) removed database.old) }
    ensures memory_before { OnErr result (memory.new ≡ memory.old) }
    ensures database_before { OnErr result (database.new ≡ database.old) }
{
    let (base, block_base) = (segment.base, block.base);
    map_again(memory, block, segment)?;
    let installed = database.undo_remove(handle, Guid::known(Known::LoadedImage), &removed);
    if installed.is_err() {
        let _ = memory.unmap(base);
        let _ = memory.unmap(block_base);
    }
    installed
}

/// The place of the image of a handle, or how many images there are if there is none.
pub fn image_place(images: &[LoadedImage], handle: u64) -> usize
    ensures { result ≡ position_or_len (is_of_handle handle) images.now }
{
    image_position(images, handle).unwrap_or(images.len())
}

/// The place of the image of a handle.
fn image_position(images: &[LoadedImage], handle: u64) -> Option<usize>
    ensures { result ≡ position (is_of_handle handle) images.now }
{
    images.iter().position(|image| image.handle.get() == handle)
}

/// The images, with one that was dropped at its place.
pub fn with_image(
    alloc: Global,
    images: &[LoadedImage],
    dropped: &DroppedImage,
) -> Result<Vec<LoadedImage>, OutOfMemory>
    ensures { IfOk result (λ all. all.items ≡
        insert images.now dropped.now.place dropped.now.image) }
{
    let mut all = Vec::from_slice(alloc, images)?;
    let place = dropped.place.min(all.len());
    all.insert(place, dropped.image)?;
    Ok(all)
}

/// The thunks, with those of an image that was dropped.
pub fn with_thunks_of(
    alloc: Global,
    thunks: &[Thunk],
    dropped: &DroppedImage,
) -> Result<Vec<Thunk>, OutOfMemory>
    ensures { IfOk result (λ all. all.items ≡ with_all dropped.now.thunks thunks.now) }
{
    with_thunks(alloc, thunks, dropped.thunks.as_slice())
}

/// Removes the image of a handle from those that are loaded.
pub fn drop_from(images: &mut Vec<LoadedImage>, handle: Handle)
    ensures { images.new.items ≡ without_image handle images.old.items }
{
    let number = handle.get();
    images.retain(|image| image.handle.get() != number);
}

/// The image of a handle.
pub fn image_of(images: &[LoadedImage], handle: u64) -> Option<&LoadedImage>
    ensures { option_copied result ≡ image_found handle images.now }
{
    images.iter().find(|image| image.handle.get() == handle)
}

/// The image that begins at an address.
pub fn image_with_base(images: &[LoadedImage], base: u64) -> Option<Handle>
    ensures { result ≡ image_from (Some base) images.now }
{
    images
        .iter()
        .find(|image| image.base == base)
        .map(|image| image.handle)
}
