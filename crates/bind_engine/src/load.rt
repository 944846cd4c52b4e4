//! The `load` command.
ghost use Rattle.std.specs.Prelude.{◌≡◌, ◌≤◌, Some, IfOk, IsErrOf, OnOk};
ghost use Rattle.fw_shelf.specs.Faults.{Rose};
ghost use Rattle.fw_shelf.specs.Shelf.{Files, file_of};
ghost use Rattle.option_rom.specs.RomGrammar.{rom_in};
ghost use Rattle.driver_model.specs.Spending.{Spends};
ghost use Rattle.bind_engine.specs.Commands.{file_ending, image_ending, load_ending, rom_ending};
ghost use Rattle.bind_engine.specs.Levels.{loaded};
ghost use Rattle.bind_engine.specs.Machine.{IsIdle};
ghost use Rattle.bind_engine.specs.RomLoad.{no_images, with_images};

use crate::ending::Ending;
use crate::machine::ExecFault;
use crate::rom_load::{is_rom, load_driver, load_images};
use driver_model::Settings;
use fw_shelf::{Shelf, ShelfFault};
use fw_types::{OutOfMemory, Status};
use fw_world::World;

/// Loads the image in a file that is one image.
///
/// # Errors
///
/// `OutOfMemory` if there is no memory for the load.
fn load_one(world: &mut World, settings: &Settings, file: &[u8]) -> Result<Ending, OutOfMemory>
    requires { IsIdle world.old }
    ensures done { IfOk result (λ ending.
        image_ending (loaded settings.now file.now world.old.now) ≡ (ending, world.new.now)) }
    ensures spends { OnOk result (Spends world.old.now.hard world.new.now.hard) }
    ensures idle { OnOk result (IsIdle world.new) }
{
    let load = load_driver(world, settings, file)?;
    Ending::with_image(world.alloc(), load)
}

/// Loads the images of an option ROM.
///
/// # Errors
///
/// `OutOfMemory` if there is no memory for the loads.
fn load_rom(world: &mut World, settings: &Settings, file: &[u8]) -> Result<Ending, OutOfMemory>
    requires { IsIdle world.old }
    ensures done { IfOk result (λ ending.
        rom_ending (rom_in file.now).end
        (with_images settings.now (rom_in file.now).images (no_images, world.old.now))
        ≡ (ending, world.new.now)) }
    ensures spends { OnOk result (Spends world.old.now.hard world.new.now.hard) }
    ensures idle { OnOk result (IsIdle world.new) }
{
    let (tally, rom) = load_images(world, settings, file)?;
    let status = tally.status();
    Ok(Ending {
        images: tally.notes,
        rom,
        status,
    })
}

/// Loads what is in a file: the images of an option ROM, or one image.
///
/// # Errors
///
/// `OutOfMemory` if there is no memory for the load.
fn load_file(world: &mut World, settings: &Settings, file: &[u8]) -> Result<Ending, OutOfMemory>
    requires { IsIdle world.old }
    ensures done { IfOk result (λ ending.
        file_ending settings.now file.now world.old.now ≡ (ending, world.new.now)) }
    ensures spends { OnOk result (Spends world.old.now.hard world.new.now.hard) }
    ensures idle { OnOk result (IsIdle world.new) }
{
    if is_rom(file) {
        load_rom(world, settings, file)
    } else {
        load_one(world, settings, file)
    }
}

/// Loads the file with this name.
///
/// # Errors
///
/// - `ShelfFailed` only if the shelf failed in this call.
/// - `OutOfMemory` if there is no memory for the file or for the load.
pub fn load<F: Shelf>(
    world: &mut World,
    settings: &Settings,
    name: &str,
    shelf: &mut F,
) -> Result<Ending, ExecFault>
    requires { IsIdle world.old }
    ensures done { (files : Files) → F.files shelf.old ≡ Some files → IfOk result (λ ending.
        load_ending settings.now (file_of files name.now) world.old.now
        ≡ (ending, world.new.now)) }
    ensures failed { IsErrOf result ExecFault.ShelfFailed
        → Rose (F.faults shelf.old) (F.faults shelf.new) }
    ensures same_files { F.files shelf.new ≡ F.files shelf.old }
    ensures faults { F.faults shelf.old ≤ F.faults shelf.new }
    ensures becomes { F.becomes shelf.old shelf.new }
    ensures spends { OnOk result (Spends world.old.now.hard world.new.now.hard) }
    ensures idle { OnOk result (IsIdle world.new) }
{
    let alloc = world.alloc();
    match shelf.read(alloc, name) {
        Ok(Some(file)) => Ok(load_file(world, settings, file.as_slice())?),
        Ok(None) => Ok(Ending::with_status(alloc, Status::NOT_FOUND)),
        Err(ShelfFault::TooLong) => Ok(Ending::with_status(alloc, Status::LOAD_ERROR)),
        Err(ShelfFault::Failed) => Err(ExecFault::ShelfFailed),
        Err(ShelfFault::OutOfMemory) => Err(ExecFault::OutOfMemory),
    }
}
