//! The relocation directory: a block for each page that has a relocation (PE/COFF: Base Relocation
//! Block, Base Relocation Types).
ghost use Rattle.std.specs.Prelude.{◌≡◌, ◌≤◌, ◌<◌, ◌+◌, ◌/◌, ◌%◌, ◌^◌, IfOk, OnOk, length, map, nat_eq};
ghost use Rattle.std.specs.List.{take_while};
ghost use Rattle.rom_builder.specs.MadeImage.{page_block, block_with, page_blocks, entry_bytes, entry_for, padded_entries, places_of, relocation_blocks};
ghost use Rattle.rom_builder.specs.SortedOnce.{RiseFrom};

use crate::parts::DriverParts;
use fw_types::OutOfMemory;
use std::alloc::Global;

/// Where the code begins in the image.
const CODE: usize = 512;

/// How many places a page has.
const PAGE: usize = 4096;

/// The type of an entry for 8 bytes that hold an address, in its bits (PE/COFF: Base Relocation
/// Types).
const DIR_64: u16 = 0xA000;

/// The blocks of the relocation directory.
pub fn relocation_blocks(alloc: Global, parts: &DriverParts) -> Result<Vec<u8>, OutOfMemory>
    ensures { IfOk result (λ blocks. blocks.items ≡ relocation_blocks parts.now) }
{
    let places = places_of(alloc, parts)?;
    page_blocks(alloc, places.as_slice())
}

/// The places of the image at which 8 bytes are relocated, in rising order and once each.
fn places_of(alloc: Global, parts: &DriverParts) -> Result<Vec<usize>, OutOfMemory>
    ensures places { IfOk result (λ places. places.items ≡ places_of parts.now) }
    ensures rise { IfOk result (λ places. RiseFrom 0 places.items) }
{
    let mut places = all_places(alloc, parts.relocs.as_slice())?;
    places.sort()?;
    places.dedup();
    Ok(places)
}

/// The place of the image that each offset in the code has.
fn all_places(alloc: Global, relocs: &[u32]) -> Result<Vec<usize>, OutOfMemory>
    ensures { IfOk result (λ places. places.items ≡ map (λ offset. 512 + offset) relocs.now) }
{
    let places = relocs
        .iter()
        .map(|offset| CODE + *offset as usize)
        .collect(alloc)?;
    Ok(places)
}

/// The blocks of places that rise, page by page.
fn page_blocks(alloc: Global, places: &[usize]) -> Result<Vec<u8>, OutOfMemory>
    requires { RiseFrom 0 places.now }
    ensures { IfOk result (λ blocks. blocks.items ≡ page_blocks places.now) }
{
    let mut blocks = Vec::new(alloc);
    let mut rest = places;
    while !rest.is_empty() {
        let page = rest[0] / PAGE;
        let (here, others) = rest.split_at(count_in_page(rest, page));
        let block = page_block(alloc, page, here)?;
        blocks.extend_from_slice(&block)?;
        rest = others;
    }
    Ok(blocks)
}

/// How many places at the front lie in a page.
fn count_in_page(places: &[usize], page: usize) -> usize
    ensures { result ≡ length (take_while (λ place. nat_eq (place / 4096) page) places.now) }
{
    places
        .iter()
        .take_while(|place| **place / PAGE == page)
        .count()
}

/// The block of a page that has these places.
fn page_block(alloc: Global, page: usize, places: &[usize]) -> Result<Vec<u8>, OutOfMemory>
    requires page { page < 2 ^ 52 }
    requires few { length places.now ≤ 4096 }
    ensures { IfOk result (λ block. block.items ≡ page_block page places.now) }
{
    let mut entries = entry_bytes(alloc, places)?;
    pad(&mut entries)?;
    block_with(alloc, page, &entries)
}

/// The block of a page with these entries.
fn block_with(alloc: Global, page: usize, entries: &[u8]) -> Result<Vec<u8>, OutOfMemory>
    requires page { page < 2 ^ 52 }
    requires few { length entries.now ≤ 2 ^ 14 }
    ensures { IfOk result (λ block. block.items ≡ block_with page entries.now) }
{
    let mut block = Vec::new(alloc);
    block.extend_from_slice(&(PAGE * page).to_le_bytes()[..4])?;
    block.extend_from_slice(&(8 + entries.len() as u32).to_le_bytes())?;
    block.extend_from_slice(entries)?;
    Ok(block)
}

/// An entry for each place.
fn entry_bytes(alloc: Global, places: &[usize]) -> Result<Vec<u8>, OutOfMemory>
    requires { length places.now ≤ 4096 }
    ensures bytes { IfOk result (λ entries. entries.items ≡ entry_bytes places.now) }
    ensures few { IfOk result (λ entries. length entries.items ≤ 2 ^ 13) }
{
    let mut entries = Vec::new(alloc);
    for place in places {
        entries.extend_from_slice(&entry_for(*place).to_le_bytes())?;
    }
    Ok(entries)
}

/// The entry for a place.
fn entry_for(place: usize) -> u16
    ensures { result ≡ entry_for place }
{
    DIR_64 + (place % PAGE) as u16
}

/// Adds an entry without meaning, if the number of entries is odd.
fn pad(entries: &mut Vec<u8>) -> Result<(), OutOfMemory>
    ensures bytes { OnOk result (entries.new.items ≡ padded_entries entries.old.items) }
    ensures few { OnOk result (length entries.new.items ≤ length entries.old.items + 2) }
{
    if entries.len() % 4 != 0 {
        entries.extend_from_slice(&[0, 0])?;
    }
    Ok(())
}
