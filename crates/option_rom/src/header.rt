//! What the header and the PCI data structure of the image at the front of bytes say.
ghost use Rattle.std.specs.Prelude.{◌≡◌, ◌+◌, ◌^◌, ◌≤◌, ◌<◌, length, drop, IfNone, if◌then◌else◌};
ghost use Rattle.fw_types.specs.Layout.{uint16_at};
ghost use Rattle.option_rom.specs.RomGrammar.{pcir_place, pcir, image_length, image_bytes, is_last, lacks_header, lacks_pcir, has_no_length, is_cut_off, end_at, is_efi, image_at};
ghost use Rattle.option_rom.specs.RomRead.{HasImage, HasPcir};

use crate::image::RomImage;
use byteorder::{ByteOrder, LittleEndian};
use fw_types::{EFI_CODE, RomEnd};

/// How many bytes of the header are looked at in every image.
const HEADER: usize = 26;

/// How many bytes the PCI data structure has.
const PCIR: usize = 24;

/// The signature in the header of an EFI image.
pub const EFI_SIGNATURE: u32 = 0x0EF1;

/// Why there is no image at the front; `None` if there is one.
pub fn end_at(rest: &[u8]) -> Option<RomEnd>
    ensures end { result ≡ end_at rest.now }
    ensures image { IfNone result (HasImage rest.now) }
{
    if lacks_header(rest) {
        return Some(RomEnd::BadSignature);
    }
    if lacks_pcir(rest) {
        return Some(RomEnd::BadPcir);
    }
    if has_no_length(rest) {
        return Some(RomEnd::LengthZero);
    }
    if is_cut_off(rest) {
        return Some(RomEnd::PastEnd);
    }
    None
}

/// Whether the header is cut off, or does not begin with its signature.
fn lacks_header(rest: &[u8]) -> bool
    ensures { result ≡ lacks_header rest.now }
{
    rest.len() < HEADER || !rest.starts_with(&[0x55, 0xAA])
}

/// Whether the PCI data structure is cut off, or does not begin with its signature.
fn lacks_pcir(rest: &[u8]) -> bool
    requires { 26 ≤ length rest.now }
    ensures { result ≡ lacks_pcir rest.now }
{
    let place = pcir_place(rest);
    rest.len() < place + PCIR || !rest[place..].starts_with(b"PCIR")
}

/// Whether the length of the image is 0.
fn has_no_length(rest: &[u8]) -> bool
    requires { HasPcir rest.now }
    ensures { result ≡ has_no_length rest.now }
{
    image_length(rest) == 0
}

/// Whether the image is longer than what is left of the ROM.
fn is_cut_off(rest: &[u8]) -> bool
    requires { HasPcir rest.now }
    ensures { result ≡ is_cut_off rest.now }
{
    image_length(rest) > rest.len()
}

/// Where the PCI data structure begins.
#[tactic(auto, unfolding(fw_types::specs::Layout::uint16_at))]
fn pcir_place(rest: &[u8]) -> usize
    requires { 26 ≤ length rest.now }
    ensures place { result ≡ pcir_place rest.now }
    ensures small { result < 2 ^ 16 }
{
    usize::from(LittleEndian::read_u16(&rest[24..]))
}

/// The bytes from the PCI data structure on.
fn pcir(rest: &[u8]) -> &[u8]
    requires { HasPcir rest.now }
    ensures pcir { result.now ≡ pcir rest.now }
    ensures size { 24 ≤ length result.now }
{
    &rest[pcir_place(rest)..]
}

/// How many bytes the image has.
#[tactic(auto, unfolding(fw_types::specs::Layout::uint16_at))]
pub fn image_length(rest: &[u8]) -> usize
    requires { HasPcir rest.now }
    ensures { result ≡ image_length rest.now }
{
    512 * usize::from(LittleEndian::read_u16(&pcir(rest)[16..]))
}

/// Whether no image follows the one at the front.
pub fn is_last(rest: &[u8]) -> bool
    requires { HasPcir rest.now }
    ensures { result ≡ is_last rest.now }
{
    pcir(rest)[21] >> 7 == 1
}

/// Whether the image at the front has the header of an EFI image.
#[tactic(auto, unfolding(fw_types::specs::Layout::uint32_at))]
fn is_efi(rest: &[u8]) -> bool
    requires { HasPcir rest.now }
    ensures { result ≡ is_efi rest.now }
{
    pcir(rest)[20] == EFI_CODE && LittleEndian::read_u32(&rest[4..]) == EFI_SIGNATURE
}

/// What the image at the front says.
#[tactic(auto, unfolding(fw_types::specs::Layout::uint16_at))]
pub fn image_at(rest: &[u8]) -> RomImage<'_>
    requires { HasImage rest.now }
    ensures { result ≡ image_at rest.now }
{
    let pcir = pcir(rest);
    let efi = is_efi(rest);
    RomImage {
        size: image_length(rest),
        vendor: LittleEndian::read_u16(&pcir[4..]),
        device: LittleEndian::read_u16(&pcir[6..]),
        class: LittleEndian::read_u24(&pcir[13..]),
        code_type: pcir[20],
        machine: efi_number(rest, efi, 10),
        compression: efi_number(rest, efi, 12),
        body: body(rest, efi),
    }
}

/// A number of the header of an EFI image; 0 in another image.
#[tactic(auto, unfolding(fw_types::specs::Layout::uint16_at))]
fn efi_number(rest: &[u8], efi: bool, at: usize) -> u16
    requires { at + 2 ≤ length rest.now }
    ensures { result ≡ (if efi then uint16_at at rest.now else 0) }
{
    if efi {
        LittleEndian::read_u16(&rest[at..])
    } else {
        0
    }
}

/// The body of the image at the front.
#[tactic(auto, unfolding(fw_types::specs::Layout::uint16_at))]
fn body(rest: &[u8], efi: bool) -> &[u8]
    requires { HasImage rest.now }
    ensures { let bytes = image_bytes rest.now in
        result.now ≡ (if efi then drop (uint16_at 22 rest.now) bytes else bytes) }
{
    let bytes = &rest[..image_length(rest)];
    if efi {
        let place = usize::from(LittleEndian::read_u16(&rest[22..]));
        bytes.get(place..).unwrap_or(&[])
    } else {
        bytes
    }
}
