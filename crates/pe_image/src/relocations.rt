//! The relocation directory of a file: its blocks and their entries.
ghost use Rattle.std.specs.Prelude.{◌≡◌, ◌≤◌, ◌<◌, ◌+◌, ◌-◌, ◌%◌, ◌^◌, map, take, drop, length};
ghost use Rattle.std.specs.List.{list_any};
ghost use Rattle.pe_image.specs.Headers.{headers_of};
ghost use Rattle.pe_image.specs.Relocations.{has_directory, directory_place, directory_at, block_of, is_malformed, words_in, block_entry, entries_in, is_bad_entry, is_bad_block, is_bad_directory};

use crate::fields::{directory_count, optional_size, relocations, size_of_relocations};
use crate::numbers::{bytes_from, u32_at};
use crate::sections::section_with_copied;

/// The type of an entry that pads a block (PE/COFF: Base Relocation Types).
const ABSOLUTE: u16 = 0;

/// The type of an entry for 4 bytes that hold the low half of an address.
pub const HIGH_LOW: u16 = 3;

/// The type of an entry for 8 bytes that hold an address.
pub const DIR_64: u16 = 10;

/// The size of a block's header, which is its page and its size.
const BLOCK_HEADER: usize = 8;

/// One base relocation (PE/COFF: Base Relocation Block).
#[derive(Clone, Copy, Debug)]
pub struct Entry {
    /// Its type, from 0 to 15.
    pub kind: u16,
    /// The place in the image of the bytes that it changes.
    pub place: usize,
}

/// Whether the file has a relocation directory.
#[tactic(auto, unfolding(crate::specs::Relocations::has_directory))]
pub fn has_directory(bytes: &[u8]) -> bool
    ensures { result ≡ has_directory bytes.now }
{
    directory_count(bytes) >= 6 && optional_size(bytes) >= 160 && size_of_relocations(bytes) != 0
}

/// Where the file has the relocation directory; `None` if no section has all its bytes.
#[tactic(auto, unfolding(crate::specs::Relocations::directory_place))]
pub fn directory_place(bytes: &[u8]) -> Option<usize>
    ensures { result ≡ directory_place bytes.now }
{
    let place = relocations(bytes);
    section_with_copied(bytes, place, size_of_relocations(bytes)).map(|section| section.file_place(
        place,
    ))
}

/// The bytes of the relocation directory at a place of the file.
pub fn directory_at(bytes: &[u8], place: usize) -> &[u8]
    ensures { result.now ≡ directory_at bytes.now place }
{
    front(
        bytes_from(bytes, place),
        size_of_relocations(bytes) as usize,
    )
}

/// The first bytes, as many as there are of so many.
fn front(bytes: &[u8], count: usize) -> &[u8]
    ensures { result.now ≡ take count bytes.now }
{
    if count < bytes.len() {
        &bytes[..count]
    } else {
        bytes
    }
}

/// The address of the page of the block at the front.
#[tactic(auto, unfolding(crate::specs::Relocations::block_of))]
pub fn block_page(rest: &[u8]) -> u32
    ensures { result ≡ (block_of rest.now).page }
{
    u32_at(rest, 0)
}

/// The size of the block at the front, with its header.
#[tactic(auto, unfolding(crate::specs::Relocations::block_of))]
pub fn block_size(rest: &[u8]) -> usize
    ensures { result ≡ (block_of rest.now).size }
{
    u32_at(rest, 4) as usize
}

/// The bytes of the entries of the block at the front.
#[tactic(auto, unfolding(crate::specs::Relocations::block_of))]
pub fn block_words(rest: &[u8]) -> &[u8]
    ensures { words_in result.now ≡ (block_of rest.now).words }
{
    front(
        bytes_from(rest, BLOCK_HEADER),
        block_size(rest).saturating_sub(BLOCK_HEADER),
    )
}

/// Whether the block at the front is malformed.
#[tactic(auto, unfolding(crate::specs::Relocations::block_of))]
fn is_malformed(rest: &[u8]) -> bool
    ensures { result ≡ is_malformed (block_of rest.now) }
{
    let size = block_size(rest);
    rest.len() < BLOCK_HEADER || size < BLOCK_HEADER || size % 2 == 1 || rest.len() < size
}

/// The entry in a word of a block.
pub fn block_entry(page: u32, word: u16) -> Entry
    ensures { result ≡ block_entry page word }
{
    Entry {
        kind: word / 0x1000,
        place: page as usize + usize::from(word % 0x1000),
    }
}

/// Whether an entry is one that an image of this size may not have.
fn is_bad_entry(size: u32, entry: Entry) -> bool
    ensures { result ≡ is_bad_entry size entry }
{
    match entry.kind {
        ABSOLUTE => false,
        HIGH_LOW => (size as usize) < entry.place.saturating_add(4),
        DIR_64 => (size as usize) < entry.place.saturating_add(8),
        _ => true,
    }
}

/// Whether one of the entries of a page is one that an image of this size may not have.
fn has_bad_entry(size: u32, page: u32, words: &[u8]) -> bool
    ensures { result ≡ list_any (is_bad_entry size) (map (block_entry page) (words_in words.now)) }
{
    let mut rest = words;
    while let [low, high, others @ ..] = rest {
        let word = u16::from_le_bytes([*low, *high]);
        if is_bad_entry(size, block_entry(page, word)) {
            return true;
        }
        rest = others;
    }
    false
}

/// Whether the block at the front, or one of its entries, is one that an image of this size may not
/// have.
fn is_bad_block(size: u32, rest: &[u8]) -> bool
    ensures { result ≡ is_bad_block size (block_of rest.now) }
{
    is_malformed(rest) || has_bad_entry(size, block_page(rest), block_words(rest))
}

/// Whether a directory has a block that an image of a size may not have.
pub fn is_bad_directory(size: u32, directory: &[u8]) -> bool
    ensures { result ≡ is_bad_directory size directory.now }
{
    let mut rest = directory;
    while !rest.is_empty() {
        if is_bad_block(size, rest) {
            return true;
        }
        rest = bytes_from(rest, block_size(rest));
    }
    false
}
