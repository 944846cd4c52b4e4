//! The drivers that the option ROM of a child brings (UEFI 2.8, 14.4.2: PCI Option ROMs).
ghost use Rattle.std.specs.Prelude.{◌≡◌, ◌&&◌, ◌++◌, ◌∷◌, [], IfOk, OnOk, nat_eq};
ghost use Rattle.driver_model.specs.Moves.{plain};
ghost use Rattle.driver_model.specs.BusDriver.{with_loaded};
ghost use Rattle.driver_model.specs.RomDrivers.{drivers_in, is_driver, is_loadable};
ghost use Rattle.bind_parts.specs.BusTurns.{drivers_to_load};

use driver_model::NewChild;
use fw_types::{EFI_CODE, Handle, ImageNote, MACHINE_EBC, OutOfMemory, Rows};
use fw_world::World;
use option_rom::{RomImage, images};
use std::alloc::Global;

/// Whether an image has an EBC driver.
pub fn is_driver(image: &RomImage<'_>) -> bool
    ensures { result ≡ is_driver image.now }
{
    image.code_type == EFI_CODE && image.machine == MACHINE_EBC
}

/// Whether an image has an EBC driver that is not compressed.
fn is_loadable(image: &RomImage<'_>) -> bool
    ensures { result ≡ is_loadable image.now }
{
    is_driver(image) && image.compression == 0
}

/// A copy of a file.
///
/// # Errors
///
/// `OutOfMemory` if there is no memory for it.
fn copy_of(alloc: Global, file: &[u8]) -> Result<Rows<u8>, OutOfMemory>
    ensures { IfOk result (λ copy. copy ≡ file.now) }
{
    Ok(Rows::of(Vec::from_slice(alloc, file)?))
}

/// The files of the drivers in an option ROM that can be loaded, in order.
///
/// # Errors
///
/// `OutOfMemory` if there is no memory for them.
fn drivers_in(alloc: Global, rom: &[u8]) -> Result<Rows<Rows<u8>>, OutOfMemory>
    ensures { IfOk result (λ files. files ≡ drivers_in rom.now) }
{
    let mut files = Rows::of(Vec::new(alloc));
    let mut walk = images(rom);
    while let Some(image) = walk.next() {
        if is_loadable(&image) {
            files.push(copy_of(alloc, image.body)?)?;
        }
    }
    Ok(files)
}

/// The files of the drivers to load for a new child, in order. The answer is `None` exactly if the
/// child is no longer live, if its function has no option ROM, or if that ROM was processed. The
/// files are copies, since loads change the world.
///
/// # Errors
///
/// `OutOfMemory` if there is no memory for them.
pub fn drivers_to_load(
    world: &World,
    child: &NewChild,
) -> Result<Option<Rows<Rows<u8>>>, OutOfMemory>
    ensures { IfOk result (λ files. files ≡ drivers_to_load child.now world.now.now) }
{
    if !world.db().is_live(child.handle.get()) || world.rom_done(child.function) {
        return Ok(None);
    }
    match world.rom_bytes(child.function) {
        Some(rom) => Ok(Some(drivers_in(world.alloc(), rom)?)),
        None => Ok(None),
    }
}

/// Puts an image after others if it stays loaded.
///
/// # Errors
///
/// `OutOfMemory` if there is no memory.
pub fn add_loaded(images: &mut Vec<Handle>, note: ImageNote) -> Result<(), OutOfMemory>
    ensures { OnOk result (images.new.items ≡ with_loaded plain images.old.items note) }
{
    if let ImageNote::Loaded(image) = note {
        images.push(image)?;
    }
    Ok(())
}
