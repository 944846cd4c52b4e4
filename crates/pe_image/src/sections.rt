//! The section table.
ghost use Rattle.std.specs.Prelude.{◌≡◌, ◌≤◌, ◌<◌, ◌+◌, ◌*◌, ◌^◌, IfOk, find};
ghost use Rattle.pe_image.specs.Headers.{headers_of, section_table, section_at, sections_of, extent_of, copied_size, end_of, has_address, has_copied, file_place, named_section_at, named_sections_of};

use crate::fields::{section_count, section_table};
use crate::numbers::{u32_at, u64_at};
use std::alloc::{AllocError, Global};

/// A section of an image, as its header in the section table describes it (PE/COFF: Section Table).
#[derive(Clone, Copy, Debug, PartialEq, Eq)]
pub struct Section {
    /// The 8 bytes of its name. A shorter name ends with zeros.
    pub name: [u8; 8],
    /// How many bytes it has in the image; if this is 0, `raw_size` is that number.
    pub virtual_size: u32,
    /// Where it begins in the image.
    pub address: u32,
    /// How many bytes it has in the file.
    pub raw_size: u32,
    /// Where they begin in the file.
    pub file_offset: u32,
}

/// What the section table says about a section (PE/COFF: Section Table).
#[derive(Clone, Copy, Debug)]
pub struct SectionHeader {
    /// How many bytes it has in the image; if this is 0, `raw_size` is that number.
    pub virtual_size: u32,
    /// Where it begins in the image.
    pub address: u32,
    /// How many bytes it has in the file.
    pub raw_size: u32,
    /// Where they begin in the file.
    pub file_offset: u32,
}

impl SectionHeader {
    /// How many bytes the section has in the image.
    pub fn extent(self) -> u32
        ensures { result ≡ extent_of self }
    {
        if self.virtual_size == 0 {
            self.raw_size
        } else {
            self.virtual_size
        }
    }

    /// How many bytes of the section are copied from the file.
    pub fn copied_size(self) -> u32
        ensures { result ≡ copied_size self }
    {
        self.extent().min(self.raw_size)
    }

    /// The place in the image at which the section ends.
    pub fn end(self) -> u64
        ensures { result ≡ end_of self }
    {
        u64::from(self.address) + u64::from(self.extent())
    }

    /// Whether a place of the image lies in the section.
    pub fn has_address(self, place: u32) -> bool
        ensures { result ≡ has_address place self }
    {
        self.address <= place && u64::from(place) < self.end()
    }

    /// Whether so many bytes at a place of the image are all copied from the file.
    pub fn has_copied(self, place: u32, count: u32) -> bool
        ensures { result ≡ has_copied place count self }
    {
        self.address <= place
            && u64::from(place) + u64::from(count)
                <= u64::from(self.address) + u64::from(self.copied_size())
    }

    /// Where the file has the byte of a place of the image that is copied.
    pub fn file_place(self, place: u32) -> usize
        ensures { result ≡ file_place place self }
    {
        self.file_offset as usize + place.saturating_sub(self.address) as usize
    }
}

/// The header of a section, by its place in the section table.
pub fn section_at(bytes: &[u8], index: u16) -> SectionHeader
    ensures { result ≡ section_at (section_table bytes.now + 40 * index) bytes.now }
{
    let place = section_table(bytes) + 40 * usize::from(index);
    SectionHeader {
        virtual_size: u32_at(bytes, place + 8),
        address: u32_at(bytes, place + 12),
        raw_size: u32_at(bytes, place + 16),
        file_offset: u32_at(bytes, place + 20),
    }
}

/// A section with its name, by its place in the section table.
fn named_section_at(bytes: &[u8], index: u16) -> Section
    ensures { result ≡ named_section_at (section_table bytes.now + 40 * index) bytes.now }
{
    let header = section_at(bytes, index);
    let place = section_table(bytes) + 40 * usize::from(index);
    Section {
        name: u64_at(bytes, place).to_le_bytes(),
        virtual_size: header.virtual_size,
        address: header.address,
        raw_size: header.raw_size,
        file_offset: header.file_offset,
    }
}

/// The sections with their names, in the order of the section table.
///
/// # Errors
///
/// `AllocError` if there is no memory for the list of them.
#[tactic(auto, unfolding(crate::specs::Headers::named_sections_of))]
pub fn named_sections_of(alloc: Global, bytes: &[u8]) -> Result<Vec<Section>, AllocError>
    ensures { IfOk result (λ sections. sections.items ≡ named_sections_of bytes.now) }
{
    (0..section_count(bytes))
        .map(|index| named_section_at(bytes, index))
        .collect(alloc)
}

/// The section that has a place of the image.
#[tactic(auto, unfolding(crate::specs::Headers::sections_of))]
pub fn section_with(bytes: &[u8], place: u32) -> Option<SectionHeader>
    ensures { result ≡ find (has_address place) (sections_of bytes.now) }
{
    (0..section_count(bytes))
        .map(|index| section_at(bytes, index))
        .find(|section| section.has_address(place))
}

/// The section from which so many bytes at a place of the image are copied.
#[tactic(auto, unfolding(crate::specs::Headers::sections_of))]
pub fn section_with_copied(bytes: &[u8], place: u32, count: u32) -> Option<SectionHeader>
    ensures { result ≡ find (has_copied place count) (sections_of bytes.now) }
{
    (0..section_count(bytes))
        .map(|index| section_at(bytes, index))
        .find(|section| section.has_copied(place, count))
}
