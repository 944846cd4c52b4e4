ghost use Rattle.std.specs.Prelude.{◌≡◌, ◌+◌, false, nat_le, None, Some, IfOk, OnOk, if◌then◌else◌};
ghost use Rattle.pe_image.specs.ImageRules.{entry_of as entry_place, size_of};
ghost use Rattle.world_model.specs.World.{on_hard, on_soft};
ghost use Rattle.world_model.specs.Units.{units_spent};
ghost use Rattle.world_model.specs.Images.{entry_of, is_image_full};
ghost use Rattle.driver_model.specs.ImageLife.{laying_price};
ghost use Rattle.image_table.specs.Placing.{Gives, UnlessMemory, file_added, place_answer, placed, placed_unless, unless_refused};

use crate::fault::PlaceFault;
use fw_types::{Handle, OutOfMemory};
use fw_world::{World, WorldFault};
use pe_image::{PeView, check, lay};

/// The bytes of an image that one unit pays for.
const BYTES_PER_UNIT: u64 = 64;

/// Places the image of a file (UEFI 2.8, 7.4: LoadImage): checks the file, pays for laying it, lays
/// it at the next image address, and adds it to the world. The answer is a new handle, whose
/// interface is the loaded image block. Laying costs one unit for each 64 bytes of the size of the
/// image, rounded up. `device` is the handle of the device that the file comes from, or 0. The
/// entry point of the image is not called. Nothing is copied before the file is accepted, the price
/// is paid, and it is known that no limit is met.
///
/// # Errors
///
/// In this order: `Refused` if the file is not accepted as an EBC driver, for the first rule that
/// it breaks; `Units` if fewer units are left than the price; `Full` if a limit of the world is
/// met, of handles, of images or of blocks; `OutOfMemory` if there is no memory. After `Refused`
/// and `Units` the world is as before. After `Full` the price stays spent, and everything else is
/// as before.
pub fn place(w: &mut World, file: &[u8], device: u64) -> Result<Handle, PlaceFault>
    ensures answer { Gives result (place_answer file.now w.old.now) }
    ensures now { UnlessMemory result (w.new.now ≡ placed file.now device w.old.now) }
    ensures marks { UnlessMemory result (w.new.marks ≡ w.old.marks) }
    ensures entered { IfOk result (λ image. entry_of image w.new.now.soft ≡
        Some (w.old.now.soft.next_image + entry_place file.now)) }
{
    match check(file) {
        Err(refusal) => Err(PlaceFault::Refused(refusal)),
        Ok(view) => pay_and_lay(w, &view, device),
    }
}

/// Pays for laying an accepted file, and adds its image to the world.
fn pay_and_lay(w: &mut World, view: &PeView<'_>, device: u64) -> Result<Handle, PlaceFault>
    ensures answer { Gives result (unless_refused None view.now w.old.now) }
    ensures now { UnlessMemory result (w.new.now ≡ placed_unless None view.now device w.old.now) }
    ensures marks { UnlessMemory result (w.new.marks ≡ w.old.marks) }
    ensures entered { IfOk result (λ image. entry_of image w.new.now.soft ≡
        Some (w.old.now.soft.next_image + entry_place view.now)) }
{
    if !pay(w, view) {
        return Err(PlaceFault::Units);
    }
    if w.is_image_full(u64::from(view.size())) {
        return Err(PlaceFault::Full);
    }
    Ok(lay_image(w, view, device)?)
}

/// The units for laying an image.
fn price_of(view: &PeView<'_>) -> u64
    ensures { result ≡ laying_price view.now }
{
    u64::from(view.size()).div_ceil(BYTES_PER_UNIT)
}

/// Pays for laying an accepted file, one unit for each 64 bytes of the size of its image, rounded
/// up, and answers whether it is paid. If fewer units are left, nothing is spent.
pub fn pay(w: &mut World, view: &PeView<'_>) -> bool
    ensures answer { result ≡ nat_le (laying_price view.now) w.old.now.hard.units }
    ensures now { w.new.now ≡ (if result
        then on_hard (units_spent (laying_price view.now)) w.old.now else w.old.now) }
    ensures marks { w.new.marks ≡ w.old.marks }
{
    w.spend(price_of(view))
}

/// Lays an accepted file at the next image address, and adds its image to the world. The answer is
/// a new handle, whose interface is the loaded image block. `device` is the handle of the device
/// that the file comes from, or 0. The caller has paid, and no limit is met.
///
/// # Errors
///
/// `OutOfMemory` if there is no memory.
pub fn lay_image(w: &mut World, view: &PeView<'_>, device: u64) -> Result<Handle, OutOfMemory>
    requires { is_image_full (size_of view.now) w.old.now.soft ≡ false }
    ensures answer { IfOk result (λ image. image ≡ w.old.now.soft.database.next) }
    ensures now { OnOk result (w.new.now ≡ on_soft (file_added view.now device) w.old.now) }
    ensures marks { OnOk result (w.new.marks ≡ w.old.marks) }
    ensures entered { IfOk result (λ image. entry_of image w.new.now.soft ≡
        Some (w.old.now.soft.next_image + entry_place view.now)) }
{
    w.is_kept();
    let bytes = lay(w.alloc(), view, w.next_image())?;
    match w.add_image(bytes, view.entry(), view.subsystem(), device) {
        Ok(image) => Ok(image),
        Err(WorldFault::OutOfMemory) => Err(OutOfMemory),
        Err(WorldFault::Full | WorldFault::NotThere) => unreachable!(),
    }
}
