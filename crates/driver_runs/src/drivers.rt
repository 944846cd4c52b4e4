ghost use Rattle.std.specs.Prelude.{None, refl};
ghost use Rattle.fw_shelf.specs.Faults.{IsNotFallen-same};

use crate::cases::Case;
use anyhow::{Context, Result, ensure};
use ebc_asm::assemble;
use fw_shelf::{Shelf, ShelfFault};
use fw_types::Rows;
use rom_builder::{DriverParts, pe_of, rom_of};
use std::alloc::Global;
use std::fs;
use std::rt::Files;

/// The subsystem of an EFI boot service driver.
const BOOT_SERVICE_DRIVER: u16 = 11;

/// The most bytes of a listing.
const MOST_BYTES: usize = 0xFFFF_FFFF;

/// The IDs and the class of the network controller that the option ROMs of the cases are for.
const NETWORK_CONTROLLER: (u16, u16, u32) = (0x8086, 0x100E, 0x02_0000);

/// The files of a case, each with its name.
#[derive(Drop)]
pub struct ImageShelf {
    files: Vec<(String, Vec<u8>)>,
}

impl ImageShelf {
    /// The files that the lines of a case make.
    ///
    /// # Errors
    ///
    /// A listing that is refused, a file that can't be read, and out of memory.
    pub fn of<R: Files + AllocGlobal>(rt: &R, case: &Case) -> Result<ImageShelf> {
        let mut files = Vec::new(rt.alloc());
        for line in case.lines.as_slice() {
            if let Some(words) = line.strip_prefix("driver ") {
                files.push(driver_of(rt, words)?)?;
            }
            if let Some(words) = line.strip_prefix("rom-driver ") {
                files.push(driver_rom_of(rt, words)?)?;
            }
        }
        Ok(ImageShelf { files })
    }
}

impl Shelf for ImageShelf {
    ghost files = { λ _. None };

    ghost faults = { λ _. 0 };

    ghost becomes = { λ _ _. Unit {0} };

    ghost becomes_same = { λ _. tt };

    ghost becomes_again = { λ _ _ _ _ _. tt };

    ghost becomes_files = { λ _ _ _. refl };

    ghost becomes_faults = { λ _ _ _. IsNotFallen-same 0 };

    fn read(&mut self, alloc: Global, name: &str) -> Result<Option<Vec<u8>>, ShelfFault> {
        for file in self.files.as_slice() {
            if file.0.as_str() == name {
                return match Vec::from_slice(alloc, file.1.as_slice()) {
                    Ok(bytes) => Ok(Some(bytes)),
                    Err(_) => Err(ShelfFault::OutOfMemory),
                };
            }
        }
        Ok(None)
    }
}

/// The image file of a line `driver`: its name, and the image of its parts.
///
/// # Errors
///
/// A listing that is refused, a file that can't be read, and out of memory.
fn driver_of<R: Files + AllocGlobal>(rt: &R, words: &str) -> Result<(String, Vec<u8>)> {
    let (name, parts) = words.split_once(' ').context("a driver without a part")?;
    let image = image_of_parts(rt, parts).context(format_args!("making {name}"))?;
    Ok((name.to_string(rt.alloc())?, image))
}

/// The file of a line `rom-driver`: its name, and the option ROM with its images.
///
/// # Errors
///
/// A listing that is refused, a file that can't be read, and out of memory.
fn driver_rom_of<R: Files + AllocGlobal>(rt: &R, words: &str) -> Result<(String, Vec<u8>)> {
    let (name, drivers) = words
        .split_once(' ')
        .context("an option ROM without a part")?;
    let mut images = Vec::new(rt.alloc());
    for parts in drivers.split(" + ") {
        images.push(image_of_parts(rt, parts).context(format_args!("making {name}"))?)?;
    }
    let rom = rom_with(rt.alloc(), images.as_slice())?;
    Ok((name.to_string(rt.alloc())?, rom))
}

/// The image of parts, each of which follows the one before.
///
/// # Errors
///
/// A listing that is refused, a file that can't be read, and out of memory.
fn image_of_parts<R: Files + AllocGlobal>(rt: &R, parts: &str) -> Result<Vec<u8>> {
    let alloc = rt.alloc();
    let mut listing = String::new(alloc);
    for part in parts.split(' ') {
        let path = format!(in alloc; "drivers/{part}.asm")?;
        let text = fs::read_to_string(rt, path.as_str()).context(format_args!("reading {path}"))?;
        listing.push_str(text.as_str())?;
    }
    image_of(alloc, listing.as_str())
}

/// An option ROM with these images.
///
/// # Errors
///
/// An image that is too long, and out of memory.
fn rom_with(alloc: Global, images: &[Vec<u8>]) -> Result<Vec<u8>> {
    let (vendor, device, class) = NETWORK_CONTROLLER;
    Ok(rom_of(alloc, vendor, device, class, images)?)
}

/// The image of a listing, which is entered at its first instruction.
///
/// # Errors
///
/// A listing that is refused or that makes no image, and out of memory.
pub fn image_of(alloc: Global, listing: &str) -> Result<Vec<u8>> {
    ensure!(listing.len() <= MOST_BYTES, "the listing is too long");
    let parts = DriverParts {
        code: Rows::of(assemble(alloc, listing)?),
        entry: 0,
        relocs: Rows::of(Vec::new(alloc)),
        subsystem: BOOT_SERVICE_DRIVER,
    };
    Ok(pe_of(alloc, &parts)?)
}
