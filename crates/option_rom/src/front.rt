//! What comes before the body in a written image: the header and the PCI data structure.
ghost use Rattle.std.specs.Prelude.{◌≡◌, length, IsTrue};
ghost use Rattle.fw_types.specs.Layout.{put_all};
ghost use Rattle.option_rom.specs.RomLayout.{front_of, has_ids, header_fields, indicator, pcir_fields};

use crate::header::EFI_SIGNATURE;
use crate::part::RomPart;
use fw_types::{BOOT_SERVICE_DRIVER, EFI_CODE, MACHINE_EBC, put_bytes, put_u16, put_u32};

/// How many bytes come before a body.
pub const FRONT: usize = 64;

/// Where the PCI data structure begins.
const PCIR: usize = 28;

/// How many bytes the PCI data structure has.
const PCIR_SIZE: u16 = 24;

/// What comes before the body of a part in an image of so many units of 512 bytes.
#[tactic(auto, unfolding(crate::specs::RomLayout::front_of))]
pub fn front_of(units: u16, last: bool, part: &RomPart) -> [u8; 64]
    ensures front { result ≡ front_of units last part.now }
    ensures ids { IsTrue (has_ids part.now) }
{
    let mut front = [0; FRONT];
    put_header(&mut front, units);
    put_pcir(&mut front, units, last, part);
    front
}

/// Puts the header of an EFI image at 0.
fn put_header(front: &mut [u8], units: u16)
    requires { length front.old ≡ 64 }
    ensures { front.new ≡ put_all (header_fields units) front.old }
{
    put_bytes(front, 0, &[0x55, 0xAA]);
    put_u16(front, 2, units);
    put_u32(front, 4, EFI_SIGNATURE);
    put_u16(front, 8, BOOT_SERVICE_DRIVER);
    put_u16(front, 10, MACHINE_EBC);
    put_u16(front, 12, 0);
    put_u16(front, 22, FRONT as u16);
    put_u16(front, 24, PCIR as u16);
}

/// Puts the PCI data structure of a part at 28.
fn put_pcir(front: &mut [u8], units: u16, last: bool, part: &RomPart)
    requires { length front.old ≡ 64 }
    ensures fields { front.new ≡ put_all (pcir_fields units last part.now) front.old }
    ensures ids { IsTrue (has_ids part.now) }
{
    let (vendor, device) = (part.vendor, part.device);
    put_bytes(front, PCIR, b"PCIR");
    put_u16(front, PCIR + 4, vendor);
    put_u16(front, PCIR + 6, device);
    put_u16(front, PCIR + 10, PCIR_SIZE);
    put_bytes(front, PCIR + 12, &[0]);
    put_bytes(front, PCIR + 13, &part.class.to_le_bytes()[..3]);
    put_u16(front, PCIR + 16, units);
    put_bytes(front, PCIR + 20, &[EFI_CODE]);
    put_bytes(front, PCIR + 21, &[indicator(last)]);
}

/// The indicator: bit 7 is set in the last image.
fn indicator(last: bool) -> u8
    ensures { result ≡ indicator last }
{
    if last { 0x80 } else { 0 }
}
