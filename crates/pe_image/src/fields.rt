//! The fields of the headers that count here, each read at its place in the file.
ghost use Rattle.std.specs.Prelude.{◌≡◌, ◌<◌, ◌^◌};
ghost use Rattle.pe_image.specs.Headers.{headers_of, section_table};

use crate::numbers::{u16_at, u32_at, u64_at};

/// The place of the PE signature (PE/COFF: MS-DOS Stub).
pub fn signature(bytes: &[u8]) -> usize
    ensures value { result ≡ (headers_of bytes.now).signature }
    ensures small { result < 2 ^ 32 }
{
    u32_at(bytes, 0x3C) as usize
}

/// The place of the optional header, which follows the signature and the COFF file header.
pub fn optional_header(bytes: &[u8]) -> usize
    ensures value { result ≡ (headers_of bytes.now).optional }
    ensures small { result < 2 ^ 33 }
{
    signature(bytes) + 24
}

/// The machine that the code is for (PE/COFF: COFF File Header).
pub fn machine(bytes: &[u8]) -> u16
    ensures { result ≡ (headers_of bytes.now).machine }
{
    u16_at(bytes, signature(bytes) + 4)
}

/// How many sections there are (PE/COFF: COFF File Header).
pub fn section_count(bytes: &[u8]) -> u16
    ensures { result ≡ (headers_of bytes.now).section_count }
{
    u16_at(bytes, signature(bytes) + 6)
}

/// The size of the optional header, in bytes (PE/COFF: COFF File Header).
pub fn optional_size(bytes: &[u8]) -> u16
    ensures { result ≡ (headers_of bytes.now).optional_size }
{
    u16_at(bytes, signature(bytes) + 20)
}

/// The flags of the image (PE/COFF: Characteristics).
pub fn characteristics(bytes: &[u8]) -> u16
    ensures { result ≡ (headers_of bytes.now).characteristics }
{
    u16_at(bytes, signature(bytes) + 22)
}

/// The number that tells PE32+ from PE32 (PE/COFF: Optional Header Standard Fields).
pub fn magic(bytes: &[u8]) -> u16
    ensures { result ≡ (headers_of bytes.now).magic }
{
    u16_at(bytes, optional_header(bytes))
}

/// The entry point's place in the image (PE/COFF: Optional Header Standard Fields).
pub fn entry_point(bytes: &[u8]) -> u32
    ensures { result ≡ (headers_of bytes.now).entry_point }
{
    u32_at(bytes, optional_header(bytes) + 16)
}

/// The preferred address of the image (PE/COFF: Optional Header Windows-Specific Fields).
pub fn image_base(bytes: &[u8]) -> u64
    ensures { result ≡ (headers_of bytes.now).image_base }
{
    u64_at(bytes, optional_header(bytes) + 24)
}

/// The size of the image once it is laid, in bytes (PE/COFF: Optional Header Windows-Specific
/// Fields).
pub fn size_of_image(bytes: &[u8]) -> u32
    ensures { result ≡ (headers_of bytes.now).size_of_image }
{
    u32_at(bytes, optional_header(bytes) + 56)
}

/// The size of all headers, in bytes (PE/COFF: Optional Header Windows-Specific Fields).
pub fn size_of_headers(bytes: &[u8]) -> u32
    ensures { result ≡ (headers_of bytes.now).size_of_headers }
{
    u32_at(bytes, optional_header(bytes) + 60)
}

/// The subsystem that runs the image (PE/COFF: Windows Subsystem).
pub fn subsystem(bytes: &[u8]) -> u16
    ensures { result ≡ (headers_of bytes.now).subsystem }
{
    u16_at(bytes, optional_header(bytes) + 68)
}

/// How many data directories there are (PE/COFF: Optional Header Windows-Specific Fields).
pub fn directory_count(bytes: &[u8]) -> u32
    ensures { result ≡ (headers_of bytes.now).directory_count }
{
    u32_at(bytes, optional_header(bytes) + 108)
}

/// The relocation directory's place in the image (PE/COFF: Optional Header Data Directories).
pub fn relocations(bytes: &[u8]) -> u32
    ensures { result ≡ (headers_of bytes.now).relocations }
{
    u32_at(bytes, optional_header(bytes) + 152)
}

/// The size of the relocation directory, in bytes (PE/COFF: Optional Header Data Directories).
pub fn size_of_relocations(bytes: &[u8]) -> u32
    ensures { result ≡ (headers_of bytes.now).size_of_relocations }
{
    u32_at(bytes, optional_header(bytes) + 156)
}

/// The place of the section table, which follows the optional header (PE/COFF: Section Table).
pub fn section_table(bytes: &[u8]) -> usize
    ensures value { result ≡ section_table bytes.now }
    ensures small { result < 2 ^ 34 }
{
    optional_header(bytes) + usize::from(optional_size(bytes))
}
