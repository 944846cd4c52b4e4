//! An option ROM of files.
ghost use Rattle.std.specs.Prelude.{◌≡◌, IfOk};
ghost use Rattle.std.specs.List.{list_any};
ghost use Rattle.option_rom.specs.RomGrammar.{rom_in};
ghost use Rattle.option_rom.specs.RomLayout.{RefusesFor, fault_of, is_too_long, laid_rom, rom_of_parts};
ghost use Rattle.rom_builder.specs.RomParts.{part_of, parts_of};

use fw_types::{OutOfMemory, Rows};
use option_rom::{HIGHEST_CLASS, LONGEST_BODY, RomPart, RomWriteFault, write};
use std::alloc::Global;

/// An option ROM of EBC images for one device, whose bodies are these files, in their order (PCI
/// Firmware 3.2: PCI Expansion ROM Header Format).
///
/// # Errors
///
/// - `Empty`: there is no file.
/// - `TooLong`: a file is longer than 33,553,856 bytes, or the class code has more than 24 bits.
/// - `OutOfMemory`: there is no memory for the ROM.
pub fn rom_of(
    alloc: Global,
    vendor: u16,
    device: u16,
    class: u32,
    files: &[Vec<u8>],
) -> Result<Vec<u8>, RomWriteFault>
    ensures refused { RefusesFor (fault_of (parts_of vendor device class files.now)) result }
    ensures layout { IfOk result (λ rom.
        rom.items ≡ laid_rom (parts_of vendor device class files.now)) }
    // The walk over it gives the files again.
    ensures reads_back { IfOk result (λ rom.
        rom_in rom.items ≡ rom_of_parts (parts_of vendor device class files.now)) }
{
    if files.is_empty() {
        return Err(RomWriteFault::Empty);
    }
    if is_any_too_long(vendor, device, class, files) {
        return Err(RomWriteFault::TooLong);
    }
    let parts = parts_of(alloc, vendor, device, class, files)?;
    write(alloc, &parts)
}

/// Whether the fields of an image have no room for one of the files.
fn is_any_too_long(vendor: u16, device: u16, class: u32, files: &[Vec<u8>]) -> bool
    ensures { result ≡ list_any (λ file. is_too_long (part_of vendor device class file)) files.now }
{
    files
        .iter()
        .any(|file| file.len() > LONGEST_BODY || class > HIGHEST_CLASS)
}

/// The files as parts, copied.
fn parts_of(
    alloc: Global,
    vendor: u16,
    device: u16,
    class: u32,
    files: &[Vec<u8>],
) -> Result<Vec<RomPart>, OutOfMemory>
    ensures { IfOk result (λ parts. parts.items ≡ parts_of vendor device class files.now) }
{
    let mut parts = Vec::with_capacity(alloc, files.len())?;
    for file in files {
        parts.push(part_of(alloc, vendor, device, class, file)?)?;
    }
    Ok(parts)
}

/// A file as a part, copied.
fn part_of(
    alloc: Global,
    vendor: u16,
    device: u16,
    class: u32,
    file: &Vec<u8>,
) -> Result<RomPart, OutOfMemory>
    ensures { IfOk result (λ part. part ≡ part_of vendor device class file.now) }
{
    Ok(RomPart {
        vendor,
        device,
        class,
        body: Rows::of(Vec::from_slice(alloc, file)?),
    })
}
