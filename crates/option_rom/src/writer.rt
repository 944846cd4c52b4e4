ghost use Rattle.std.specs.Prelude.{◌≡◌, ◌++◌, ◌+◌, ◌*◌, ◌/◌, ◌-◌, ◌≤◌, IfOk, OnOk, length, true, false};
ghost use Rattle.std.specs.List.{list_any, list_all};
ghost use Rattle.option_rom.specs.RomGrammar.{rom_in};
ghost use Rattle.option_rom.specs.RomLayout.{RefusesFor, fault_of, has_ids, is_too_long, laid_part, laid_rom, longest_body, rom_of_parts};

use crate::front::{FRONT, front_of};
use crate::part::{HIGHEST_CLASS, LONGEST_BODY, RomPart, RomWriteFault};
use fw_types::OutOfMemory;
use std::alloc::Global;

/// An option ROM of EBC images, one for each part and in their order (PCI Firmware 3.2: PCI
/// Expansion ROM Header Format).
///
/// # Errors
///
/// - `Empty`: there is no part.
/// - `TooLong`: a body is longer than 33,553,856 bytes, or a class code has more than 24 bits.
/// - `OutOfMemory`: there is no memory for the ROM.
pub fn write(alloc: Global, parts: &[RomPart]) -> Result<Vec<u8>, RomWriteFault>
    ensures refused { RefusesFor (fault_of parts.now) result }
    ensures layout { IfOk result (λ rom. rom.items ≡ laid_rom parts.now) }
    // The walk over it gives the parts again.
    ensures reads_back { IfOk result (λ rom. rom_in rom.items ≡ rom_of_parts parts.now) }
{
    if parts.is_empty() {
        return Err(RomWriteFault::Empty);
    }
    if is_any_too_long(parts) {
        return Err(RomWriteFault::TooLong);
    }
    Ok(laid_rom(alloc, parts)?)
}

/// Whether the fields of an image have no room for one of the parts.
fn is_any_too_long(parts: &[RomPart]) -> bool
    ensures { result ≡ list_any is_too_long parts.now }
{
    parts.iter().any(|part| is_too_long(part))
}

/// Whether the fields of an image have no room for a part.
fn is_too_long(part: &RomPart) -> bool
    ensures { result ≡ is_too_long part.now }
{
    part.body.as_slice().len() > LONGEST_BODY || part.class > HIGHEST_CLASS
}

/// The images of the parts, one after the other.
fn laid_rom(alloc: Global, parts: &[RomPart]) -> Result<Vec<u8>, OutOfMemory>
    requires { list_any is_too_long parts.now ≡ false }
    ensures rom { IfOk result (λ rom. rom.items ≡ laid_rom parts.now) }
    ensures ids { IfOk result (λ _. list_all has_ids parts.now ≡ true) }
{
    let mut rom = Vec::new(alloc);
    for (place, part) in parts.iter().enumerate() {
        put_part(&mut rom, part, place + 1 == parts.len())?;
    }
    Ok(rom)
}

/// Adds the image of a part to a ROM.
fn put_part(rom: &mut Vec<u8>, part: &RomPart, last: bool) -> Result<(), OutOfMemory>
    requires { length part.now.body ≤ longest_body }
    ensures rom { OnOk result (rom.new.items ≡ rom.old.items ++ laid_part last part.now) }
    ensures ids { OnOk result (has_ids part.now ≡ true) }
{
    let body = part.body.as_slice();
    let units = units_of(body.len());
    let spare = 512 * usize::from(units) - FRONT - body.len();
    rom.extend_from_slice(&front_of(units, last, part))?;
    rom.extend_from_slice(body)?;
    rom.resize(rom.len() + spare, 0)?;
    Ok(())
}

/// How many units of 512 bytes the image of a body of so many bytes has.
fn units_of(size: usize) -> u16
    requires { size ≤ longest_body }
    ensures { result ≡ (64 + size + 511) / 512 }
{
    ((FRONT + size + 511) / 512) as u16
}
