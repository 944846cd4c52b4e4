//! The whole file of an image.
ghost use Rattle.std.specs.Prelude.{◌≡◌, ◌≤◌, ◌<◌, ◌+◌, ◌^◌, None, IfOk, OnOk, length, ◌++◌};
ghost use Rattle.pe_image.specs.ImageRules.{refusal_of};
ghost use Rattle.rom_builder.specs.MadeImage.{fault_of, Gives, has_bad_entry, has_bad_reloc, has_bad_subsystem, header_bytes, is_too_long, made_image, padded_bytes, relocation_blocks};

use crate::headers::{HEADERS, aligned, header_bytes};
use crate::parts::{BuildFault, DriverParts};
use crate::relocations::relocation_blocks;
use fw_types::{BOOT_SERVICE_DRIVER, MOST_FILE_BYTES, OutOfMemory, RUNTIME_DRIVER};
use std::alloc::Global;

/// The most bytes of a file, 16 MiB.
const LONGEST: usize = MOST_FILE_BYTES as usize;

/// The file of a driver: a PE32+ image for the machine EBC that `pe_image` accepts, with headers of
/// 512 bytes, a section `.text` of the code and, if there are relocations, a section `.reloc`
/// (PE/COFF: File Headers, Optional Header, Section Table, The .reloc Section).
///
/// # Errors
///
/// The first of these that applies:
///
/// 1. `TooLong`: the file with all relocations, wherever they are, would have more than 16,777,216
///    bytes.
/// 2. `BadEntry`: the entry is odd, or not below the length of the code.
/// 3. `BadReloc`: the 8 bytes at a relocation do not lie in the code.
/// 4. `BadSubsystem`: the subsystem is neither 11 nor 12.
/// 5. `OutOfMemory`: there is no memory for the file. It may come in place of another error.
pub fn pe_of(alloc: Global, p: &DriverParts) -> Result<Vec<u8>, BuildFault>
    ensures answer { Gives result p.now }
    ensures accepted { IfOk result (λ file. refusal_of file.items ≡ None) }
{
    if p.code.as_slice().len() > LONGEST - HEADERS {
        return Err(BuildFault::TooLong);
    }
    let blocks = relocation_blocks(alloc, p)?;
    match fault_of(p, &blocks) {
        Some(fault) => Err(fault),
        None => Ok(made_image(alloc, p, &blocks)?),
    }
}

/// Why no image is made of parts with these relocation blocks.
#[tactic(auto, unfolding(crate::specs::MadeImage::fault_of))]
fn fault_of(p: &DriverParts, blocks: &[u8]) -> Option<BuildFault>
    requires blocks { blocks.now ≡ relocation_blocks p.now }
    requires size { length p.now.code ≤ 2 ^ 24 }
    ensures { result ≡ fault_of p.now }
{
    if is_too_long(p, blocks) {
        return Some(BuildFault::TooLong);
    }
    if has_bad_entry(p) {
        return Some(BuildFault::BadEntry);
    }
    if has_bad_reloc(p) {
        return Some(BuildFault::BadReloc);
    }
    if has_bad_subsystem(p) {
        return Some(BuildFault::BadSubsystem);
    }
    None
}

/// Whether the file would have more than 16 MiB.
#[tactic(auto, using(crate::proofs::SizeLemmas::made_image_size), unfolding(crate::specs::MadeImage::is_too_long))]
fn is_too_long(p: &DriverParts, blocks: &[u8]) -> bool
    requires blocks { blocks.now ≡ relocation_blocks p.now }
    requires size { length p.now.code ≤ 2 ^ 24 }
    ensures { result ≡ is_too_long p.now }
{
    blocks.len() > LONGEST
        || HEADERS + aligned(p.code.as_slice().len()) + aligned(blocks.len()) > LONGEST
}

/// Whether the entry is odd or not in the code.
#[tactic(auto, unfolding(crate::specs::MadeImage::has_bad_entry))]
fn has_bad_entry(p: &DriverParts) -> bool
    ensures { result ≡ has_bad_entry p.now }
{
    p.entry % 2 == 1 || p.entry as usize >= p.code.as_slice().len()
}

/// Whether the 8 bytes at a relocation pass the end of the code.
#[tactic(auto, unfolding(crate::specs::MadeImage::has_bad_reloc))]
fn has_bad_reloc(p: &DriverParts) -> bool
    ensures { result ≡ has_bad_reloc p.now }
{
    let size = p.code.as_slice().len();
    p.relocs
        .as_slice()
        .iter()
        .any(|offset| size < *offset as usize + 8)
}

/// Whether the subsystem is not that of a driver.
#[tactic(auto, unfolding(crate::specs::MadeImage::has_bad_subsystem))]
fn has_bad_subsystem(p: &DriverParts) -> bool
    ensures { result ≡ has_bad_subsystem p.now }
{
    p.subsystem != BOOT_SERVICE_DRIVER && p.subsystem != RUNTIME_DRIVER
}

/// The headers, the code and the relocation blocks.
#[tactic(auto, unfolding(crate::specs::MadeImage::made_image))]
fn made_image(alloc: Global, p: &DriverParts, blocks: &[u8]) -> Result<Vec<u8>, OutOfMemory>
    requires blocks { blocks.now ≡ relocation_blocks p.now }
    requires entry { p.now.entry ≤ 2 ^ 24 }
    requires size { length p.now.code ≤ 2 ^ 24 }
    requires few { length blocks.now ≤ 2 ^ 24 }
    ensures { IfOk result (λ file. file.items ≡ made_image p.now) }
{
    let code = p.code.as_slice();
    let headers = header_bytes(p.entry, p.subsystem, code.len() as u32, blocks.len() as u32);
    let mut file = Vec::new(alloc);
    file.extend_from_slice(&headers)?;
    push_padded(&mut file, code)?;
    push_padded(&mut file, blocks)?;
    Ok(file)
}

/// Adds bytes, and zeros up to the file alignment.
fn push_padded(file: &mut Vec<u8>, bytes: &[u8]) -> Result<(), OutOfMemory>
    requires { length bytes.now ≤ 2 ^ 24 }
    ensures { OnOk result (file.new.items ≡ file.old.items ++ padded_bytes bytes.now) }
{
    file.extend_from_slice(bytes)?;
    let end = file.len() + (aligned(bytes.len()) - bytes.len());
    file.resize(end, 0)?;
    Ok(())
}
