//! The load of an option ROM's images, in order (UEFI 2.8, 14.4.2 'PCI Option ROMs').
ghost use Rattle.std.specs.Prelude.{◌≡◌, Some, IfOk, OnOk};
ghost use Rattle.option_rom.specs.RomGrammar.{rom_in};
ghost use Rattle.driver_model.specs.Spending.{Spends};
ghost use Rattle.bind_engine.specs.Levels.{loaded};
ghost use Rattle.bind_engine.specs.Machine.{IsIdle};
ghost use Rattle.driver_model.specs.RomDrivers.{is_driver};
ghost use Rattle.bind_engine.specs.RomLoad.{is_loaded, is_rom, no_images, rom_status, with_driver, with_image, with_images, with_load, with_note};

use crate::levels::{FIRST_ROOM, OUTSIDE};
use driver_model::Settings;
use driver_model::call_laws::all_is_paid;
use driver_model::laws::{command_paths_stay, levels_can_run, loads_stay};
use engine::{ImageLoad, load_image};
use fw_types::{EFI_CODE, ImageNote, MACHINE_EBC, OutOfMemory, RomEnd, Rows, Status};
use fw_world::World;
use option_rom::{RomImage, images};
use std::alloc::Global;
use world_model::laws::rest_is_free;

/// The device of an image that comes from no device.
const NO_DEVICE: u64 = 0;

/// What came of the images of an option ROM so far.
#[derive(Debug, Drop)]
pub struct RomTally {
    /// A note on each image, in order.
    pub notes: Rows<ImageNote>,
    /// Whether one of them stays loaded.
    pub any_loaded: bool,
    /// The status of the last load, if there was one.
    pub last_status: Option<Status>,
}

/// Whether a file is an option ROM: whether it begins with the signature of its header (PCI
/// Firmware 3.2, 5.1: PCI expansion ROM header format).
pub fn is_rom(file: &[u8]) -> bool
    ensures { result ≡ is_rom file.now }
{
    file.starts_with(&[0x55, 0xAA])
}

impl RomTally {
    fn new(alloc: Global) -> RomTally
        ensures { result ≡ no_images }
    {
        RomTally {
            notes: Rows::of(Vec::new(alloc)),
            any_loaded: false,
            last_status: None,
        }
    }

    /// Notes an image that is not loaded.
    fn note(&mut self, note: ImageNote) -> Result<(), OutOfMemory>
        ensures { OnOk result (self.new ≡ with_note note self.old) }
    {
        self.notes.push(note)
    }

    /// Notes what came of a load.
    fn note_load(&mut self, load: ImageLoad) -> Result<(), OutOfMemory>
        ensures { OnOk result (self.new ≡ with_load load.note load.status self.old) }
    {
        self.notes.push(load.note)?;
        self.any_loaded = self.any_loaded || is_loaded(load.note);
        self.last_status = Some(load.status);
        Ok(())
    }

    /// The status of the load of the whole option ROM: SUCCESS if an image stays loaded, and
    /// otherwise that of the last load, or UNSUPPORTED if there was no load.
    pub fn status(&self) -> Status
        ensures { result ≡ rom_status self.now }
    {
        if self.any_loaded {
            return Status::SUCCESS;
        }
        self.last_status.unwrap_or(Status::UNSUPPORTED)
    }
}

/// Whether a note says that an image stays loaded.
fn is_loaded(note: ImageNote) -> bool
    ensures { result ≡ is_loaded note }
{
    match note {
        ImageNote::Loaded(_) => true,
        _ => false,
    }
}

/// Whether an image has an EBC driver.
fn is_driver(image: &RomImage<'_>) -> bool
    ensures { result ≡ is_driver image.now }
{
    image.code_type == EFI_CODE && image.machine == MACHINE_EBC
}

/// Loads the image in a file. Its entry point runs at the first level, outside all events.
///
/// # Errors
///
/// `OutOfMemory` if there is no memory for the load.
pub fn load_driver(
    world: &mut World,
    settings: &Settings,
    file: &[u8],
) -> Result<ImageLoad, OutOfMemory>
    requires { IsIdle world.old }
    ensures done { IfOk result (λ load. loaded settings.now file.now world.old.now
        ≡ record { note = load.note; status = load.status; world = world.new.now }) }
    ensures spends { OnOk result (Spends world.old.now.hard world.new.now.hard) }
    ensures idle { OnOk result (IsIdle world.new) }
{
    world.is_kept();
    rest_is_free();
    levels_can_run();
    loads_stay();
    command_paths_stay();
    all_is_paid();
    load_image(world, settings, FIRST_ROOM, OUTSIDE, file, NO_DEVICE)
}

/// Loads a driver, and notes what came of it.
///
/// # Errors
///
/// `OutOfMemory` if there is no memory for the load or for the note.
fn add_driver(
    world: &mut World,
    settings: &Settings,
    tally: &mut RomTally,
    file: &[u8],
) -> Result<(), OutOfMemory>
    requires { IsIdle world.old }
    ensures done { OnOk result (with_driver settings.now file.now (tally.old, world.old.now)
        ≡ (tally.new, world.new.now)) }
    ensures spends { OnOk result (Spends world.old.now.hard world.new.now.hard) }
    ensures idle { OnOk result (IsIdle world.new) }
{
    let load = load_driver(world, settings, file)?;
    tally.note_load(load)
}

/// Loads an image if it is a driver that is not compressed, and notes what came of it.
///
/// # Errors
///
/// `OutOfMemory` if there is no memory for the load or for the note.
fn add_image(
    world: &mut World,
    settings: &Settings,
    tally: &mut RomTally,
    image: &RomImage<'_>,
) -> Result<(), OutOfMemory>
    requires { IsIdle world.old }
    ensures done { OnOk result (with_image settings.now image.now (tally.old, world.old.now)
        ≡ (tally.new, world.new.now)) }
    ensures spends { OnOk result (Spends world.old.now.hard world.new.now.hard) }
    ensures idle { OnOk result (IsIdle world.new) }
{
    if !is_driver(image) {
        return tally.note(ImageNote::Skipped);
    }
    if image.compression != 0 {
        return tally.note(ImageNote::Compressed);
    }
    add_driver(world, settings, tally, image.body)
}

/// Loads the images of an option ROM, in order. The answer is what came of them, and how the ROM
/// ended.
///
/// # Errors
///
/// `OutOfMemory` if there is no memory for a load or for the notes.
pub fn load_images(
    world: &mut World,
    settings: &Settings,
    file: &[u8],
) -> Result<(RomTally, Option<RomEnd>), OutOfMemory>
    requires { IsIdle world.old }
    ensures done { IfOk result (λ rom.
        with_images settings.now (rom_in file.now).images (no_images, world.old.now)
        ≡ (rom.0, world.new.now)) }
    ensures end { IfOk result (λ rom. rom.1 ≡ Some (rom_in file.now).end) }
    ensures spends { OnOk result (Spends world.old.now.hard world.new.now.hard) }
    ensures idle { OnOk result (IsIdle world.new) }
{
    let mut tally = RomTally::new(world.alloc());
    let mut walk = images(file);
    while let Some(image) = walk.next() {
        add_image(world, settings, &mut tally, &image)?;
    }
    Ok((tally, walk.end()))
}
