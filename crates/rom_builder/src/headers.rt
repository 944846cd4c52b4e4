//! The headers of a made image (PE/COFF: File Headers, Optional Header, Section Table).
ghost use Rattle.std.specs.Prelude.{◌≡◌, ◌+◌, ◌≤◌, ◌^◌, length, nat_eq, [], if◌then◌else◌};
ghost use Rattle.fw_types.specs.Layout.{put_all};
ghost use Rattle.rom_builder.specs.MadeImage.{aligned, code_fields, file_fields, header_bytes, optional_fields, relocation_fields};

use fw_types::{MACHINE_EBC, put_bytes, put_u16, put_u32};

/// How many bytes the headers have, which is where the code begins.
pub const HEADERS: usize = 512;

/// The headers of an image with `size` bytes of code and `relocations` bytes of relocation blocks.
#[tactic(auto, unfolding(crate::specs::MadeImage::header_bytes))]
pub fn header_bytes(entry: u32, subsystem: u16, size: u32, relocations: u32) -> [u8; 512]
    requires entry { entry ≤ 2 ^ 24 }
    requires size { size ≤ 2 ^ 24 }
    requires few { relocations ≤ 2 ^ 24 }
    ensures { result ≡ header_bytes entry subsystem size relocations }
{
    let place = 512 + aligned_size(size);
    let mut header = [0; 512];
    put_file_fields(&mut header, section_count(relocations));
    put_optional_fields(
        &mut header,
        entry,
        place + aligned_size(relocations),
        subsystem,
    );
    put_code_fields(&mut header, size);
    put_relocation_fields(&mut header, place, relocations);
    header
}

/// A length rounded up to the file alignment.
pub fn aligned(size: usize) -> usize
    requires { size ≤ 2 ^ 25 }
    ensures { result ≡ aligned size }
{
    (size + 511) / 512 * 512
}

/// The same for the length of a section.
fn aligned_size(size: u32) -> u32
    requires { size ≤ 2 ^ 24 }
    ensures { result ≡ aligned size }
{
    aligned(size as usize) as u32
}

/// How many sections there are.
fn section_count(relocations: u32) -> u16
    ensures { result ≡ (if nat_eq relocations 0 then 1 else 2) }
{
    if relocations == 0 { 1 } else { 2 }
}

/// Puts the DOS header and the COFF file header.
fn put_file_fields(header: &mut [u8], sections: u16)
    requires { length header.old ≡ 512 }
    ensures { header.new ≡ put_all (file_fields sections) header.old }
{
    put_bytes(header, 0x00, b"MZ");
    put_u32(header, 0x3C, 0x40);
    put_bytes(header, 0x40, b"PE");
    put_u16(header, 0x44, MACHINE_EBC);
    put_u16(header, 0x46, sections);
    put_u16(header, 0x54, 160);
    put_u16(header, 0x56, 0x000E);
}

/// Puts the optional header.
fn put_optional_fields(header: &mut [u8], entry: u32, size_of_image: u32, subsystem: u16)
    requires room { length header.old ≡ 512 }
    requires entry { entry ≤ 2 ^ 24 }
    ensures { header.new ≡ put_all (optional_fields entry size_of_image subsystem) header.old }
{
    put_u16(header, 0x58, 0x020B);
    put_u32(header, 0x68, 512 + entry);
    put_u32(header, 0x78, 512);
    put_u32(header, 0x7C, 512);
    put_u32(header, 0x90, size_of_image);
    put_u32(header, 0x94, 512);
    put_u16(header, 0x9C, subsystem);
    put_u32(header, 0xC4, 6);
}

/// Puts the header of the section that has the code.
fn put_code_fields(header: &mut [u8], size: u32)
    requires room { length header.old ≡ 512 }
    requires size { size ≤ 2 ^ 24 }
    ensures { header.new ≡ put_all (code_fields size) header.old }
{
    put_bytes(header, 0xF8, b".text");
    put_u32(header, 0x100, size);
    put_u32(header, 0x104, 512);
    put_u32(header, 0x108, aligned_size(size));
    put_u32(header, 0x10C, 512);
}

/// Puts what the headers say about relocations, if there are any.
fn put_relocation_fields(header: &mut [u8], place: u32, size: u32)
    requires room { length header.old ≡ 512 }
    requires size { size ≤ 2 ^ 24 }
    ensures { let fields = if nat_eq size 0 then [] else relocation_fields place size in
        header.new ≡ put_all fields header.old }
{
    if size != 0 {
        put_relocation_section(header, place, size);
    }
}

/// Puts the data directory of the relocations, and the header of their section.
fn put_relocation_section(header: &mut [u8], place: u32, size: u32)
    requires room { length header.old ≡ 512 }
    requires size { size ≤ 2 ^ 24 }
    ensures { header.new ≡ put_all (relocation_fields place size) header.old }
{
    put_u32(header, 0xF0, place);
    put_u32(header, 0xF4, size);
    put_bytes(header, 0x120, b".reloc");
    put_u32(header, 0x128, size);
    put_u32(header, 0x12C, place);
    put_u32(header, 0x130, aligned_size(size));
    put_u32(header, 0x134, place);
}
