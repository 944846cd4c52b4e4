//! The twelve rules of an accepted file, one function each, in their order.
ghost use Rattle.std.specs.Prelude.{◌≡◌, length};
ghost use Rattle.pe_image.specs.Headers.{headers_of, sections_of};
ghost use Rattle.pe_image.specs.ImageRules.{is_short, lacks_mz, lacks_pe, is_for_another_machine, lacks_optional_header, is_no_driver, is_stripped, has_bad_size, has_bad_headers, is_misplaced, has_misplaced_section, has_bad_relocations, has_bad_entry, refusal_of};

use crate::fields::{
    characteristics, entry_point, machine, magic, optional_header, optional_size, section_count,
    section_table, signature, size_of_headers, size_of_image, subsystem,
};
use crate::numbers::bytes_from;
use crate::relocations::{directory_at, directory_place, has_directory, is_bad_directory};
use crate::sections::{SectionHeader, section_at};
use fw_types::{BOOT_SERVICE_DRIVER, MACHINE_EBC, MOST_FILE_BYTES, PeRefusal, RUNTIME_DRIVER};

/// The size of a DOS header (PE/COFF: MS-DOS Stub).
const DOS_HEADER: usize = 64;

/// PE32+ (PE/COFF: Optional Header).
const MAGIC_PE32_PLUS: u16 = 0x020B;

/// The size of the optional header without the data directories.
const WITHOUT_DIRECTORIES: u16 = 112;

/// The most sections.
const MOST_SECTIONS: u16 = 96;

/// Why a file is not accepted: the first rule that it breaks.
#[tactic(auto, unfolding(crate::specs::ImageRules::refusal_of))]
pub fn refusal(bytes: &[u8]) -> Option<PeRefusal>
    ensures { result ≡ refusal_of bytes.now }
{
    if is_short(bytes) {
        return Some(PeRefusal::Short);
    }
    if lacks_mz(bytes) {
        return Some(PeRefusal::NoMz);
    }
    if lacks_pe(bytes) {
        return Some(PeRefusal::NoPe);
    }
    if is_for_another_machine(bytes) {
        return Some(PeRefusal::Machine);
    }
    if lacks_optional_header(bytes) {
        return Some(PeRefusal::Magic);
    }
    if is_no_driver(bytes) {
        return Some(PeRefusal::Subsystem);
    }
    if is_stripped(bytes) {
        return Some(PeRefusal::Stripped);
    }
    if has_bad_size(bytes) {
        return Some(PeRefusal::Size);
    }
    if has_bad_headers(bytes) {
        return Some(PeRefusal::Headers);
    }
    if has_misplaced_section(bytes) {
        return Some(PeRefusal::Section);
    }
    if has_bad_relocations(bytes) {
        return Some(PeRefusal::Reloc);
    }
    if has_bad_entry(bytes) {
        return Some(PeRefusal::Entry);
    }
    None
}

/// Whether there is no room for a DOS header.
#[tactic(auto, unfolding(crate::specs::ImageRules::is_short))]
fn is_short(bytes: &[u8]) -> bool
    ensures { result ≡ is_short bytes.now }
{
    bytes.len() < DOS_HEADER
}

/// Whether the file has no DOS signature.
#[tactic(auto, unfolding(crate::specs::ImageRules::lacks_mz))]
fn lacks_mz(bytes: &[u8]) -> bool
    ensures { result ≡ lacks_mz bytes.now }
{
    !bytes.starts_with(b"MZ")
}

/// Whether there is no PE signature with room for a COFF file header after it.
#[tactic(auto, unfolding(crate::specs::ImageRules::lacks_pe))]
fn lacks_pe(bytes: &[u8]) -> bool
    ensures { result ≡ lacks_pe bytes.now }
{
    let place = signature(bytes);
    bytes.len() < place + 24 || !bytes_from(bytes, place).starts_with(b"PE\0\0")
}

/// Whether the code is not EBC.
#[tactic(auto, unfolding(crate::specs::ImageRules::is_for_another_machine))]
fn is_for_another_machine(bytes: &[u8]) -> bool
    ensures { result ≡ is_for_another_machine bytes.now }
{
    machine(bytes) != MACHINE_EBC
}

/// Whether the optional header is too small, passes the file's end or is not that of PE32+.
#[tactic(auto, unfolding(crate::specs::ImageRules::lacks_optional_header))]
fn lacks_optional_header(bytes: &[u8]) -> bool
    ensures { result ≡ lacks_optional_header bytes.now }
{
    let size = optional_size(bytes);
    size < WITHOUT_DIRECTORIES
        || bytes.len() < optional_header(bytes) + usize::from(size)
        || magic(bytes) != MAGIC_PE32_PLUS
}

/// Whether the image is neither a boot service driver nor a runtime driver.
#[tactic(auto, unfolding(crate::specs::ImageRules::is_no_driver))]
fn is_no_driver(bytes: &[u8]) -> bool
    ensures { result ≡ is_no_driver bytes.now }
{
    let subsystem = subsystem(bytes);
    subsystem != BOOT_SERVICE_DRIVER && subsystem != RUNTIME_DRIVER
}

/// Whether the relocations were stripped from the image.
#[tactic(auto, unfolding(crate::specs::ImageRules::is_stripped))]
fn is_stripped(bytes: &[u8]) -> bool
    ensures { result ≡ is_stripped bytes.now }
{
    characteristics(bytes) % 2 == 1
}

/// Whether the size of the image is 0 or over 16 MiB.
#[tactic(auto, unfolding(crate::specs::ImageRules::has_bad_size))]
fn has_bad_size(bytes: &[u8]) -> bool
    ensures { result ≡ has_bad_size bytes.now }
{
    let size = size_of_image(bytes);
    size == 0 || u64::from(size) > MOST_FILE_BYTES
}

/// Whether the headers pass the image's or the file's end, or the section table is too long for
/// them.
#[tactic(auto, unfolding(crate::specs::ImageRules::has_bad_headers))]
fn has_bad_headers(bytes: &[u8]) -> bool
    ensures { result ≡ has_bad_headers bytes.now }
{
    let size = size_of_headers(bytes);
    let count = section_count(bytes);
    size > size_of_image(bytes)
        || size as usize > bytes.len()
        || count > MOST_SECTIONS
        || section_table(bytes) + 40 * usize::from(count) > size as usize
}

/// Whether a section meets what comes before it, passes the image's end, or is copied from past the
/// file's end.
#[tactic(auto, unfolding(crate::specs::ImageRules::has_misplaced_section))]
fn has_misplaced_section(bytes: &[u8]) -> bool
    ensures { result ≡ has_misplaced_section bytes.now }
{
    let mut front = u64::from(size_of_headers(bytes));
    for index in 0..section_count(bytes) {
        let section = section_at(bytes, index);
        if is_misplaced(bytes, front, section) {
            return true;
        }
        front = section.end();
    }
    false
}

/// Whether a section begins before the end of what comes before it, passes the image's end, or is
/// copied from past the file's end.
fn is_misplaced(bytes: &[u8], front: u64, section: SectionHeader) -> bool
    ensures { result ≡
        is_misplaced (length bytes.now) (headers_of bytes.now).size_of_image (front, section) }
{
    let copied = section.copied_size();
    u64::from(section.address) < front
        || section.end() > u64::from(size_of_image(bytes))
        || (copied != 0 && section.file_offset as usize + copied as usize > bytes.len())
}

/// Whether the relocation directory lies in no copied part of a section, or is malformed.
#[tactic(auto, unfolding(crate::specs::ImageRules::has_bad_relocations))]
fn has_bad_relocations(bytes: &[u8]) -> bool
    ensures { result ≡ has_bad_relocations bytes.now }
{
    if !has_directory(bytes) {
        return false;
    }
    match directory_place(bytes) {
        Some(place) => is_bad_directory(size_of_image(bytes), directory_at(bytes, place)),
        None => true,
    }
}

/// Whether the entry point is odd or not in the image.
#[tactic(auto, unfolding(crate::specs::ImageRules::has_bad_entry))]
fn has_bad_entry(bytes: &[u8]) -> bool
    ensures { result ≡ has_bad_entry bytes.now }
{
    let entry = entry_point(bytes);
    entry % 2 == 1 || entry >= size_of_image(bytes)
}
