//! The image in memory: headers and sections in their places, then the relocations.
ghost use Rattle.std.specs.Prelude.{◌≡◌, ◌≤◌, ◌<◌, ◌+◌, ◌%◌, ◌^◌, None, false, IfOk, length, map, fold, take, drop};
ghost use Rattle.std.specs.List.{list_any};
ghost use Rattle.byteorder.specs.Endian.{little_bytes};
ghost use Rattle.fw_types.specs.Layout.{put, uint32_at, uint64_at};
ghost use Rattle.pe_image.specs.Headers.{copied_size};
ghost use Rattle.pe_image.specs.ImageRules.{refusal_of, size_of};
ghost use Rattle.pe_image.specs.Relocations.{words_in, block_entry, is_bad_entry, is_bad_directory, entries_of_directory, entries_of};
ghost use Rattle.pe_image.specs.LaidImage.{headers_alone, plain_image, relocated};

use crate::fields::{section_count, size_of_headers, size_of_image};
use crate::numbers::{bytes_from, u32_at, u64_at};
use crate::relocations::{
    DIR_64, Entry, HIGH_LOW, block_entry, block_page, block_size, block_words, directory_at,
    directory_place, has_directory,
};
use crate::sections::{SectionHeader, section_at};
use fw_types::{OutOfMemory, put_bytes, put_u32, put_u64};
use std::alloc::Global;

/// The image before relocation.
///
/// # Errors
///
/// `OutOfMemory` if there is no memory for it.
pub fn plain_image(alloc: Global, bytes: &[u8]) -> Result<Vec<u8>, OutOfMemory>
    requires { refusal_of bytes.now ≡ None }
    ensures bytes { IfOk result (λ image. image.items ≡ plain_image bytes.now) }
    ensures size { IfOk result (λ image. length image.items ≡ size_of bytes.now) }
{
    let mut image = headers_alone(alloc, bytes)?;
    lay_sections(image.as_mut_slice(), bytes);
    Ok(image)
}

/// The headers, followed by zeros up to the size of the image.
#[tactic(auto, using(crate::proofs::RuleLemmas::keeps_limits), unfolding(crate::specs::LaidImage::headers_alone))]
fn headers_alone(alloc: Global, bytes: &[u8]) -> Result<Vec<u8>, OutOfMemory>
    requires { refusal_of bytes.now ≡ None }
    ensures bytes { IfOk result (λ image. image.items ≡ headers_alone bytes.now) }
    ensures size { IfOk result (λ image. length image.items ≡ size_of bytes.now) }
{
    let size = size_of_image(bytes) as usize;
    let mut image = Vec::with_capacity(alloc, size)?;
    image.extend_from_slice(&bytes[..size_of_headers(bytes) as usize])?;
    image.resize(size, 0)?;
    Ok(image)
}

/// Copies each section to its place.
fn lay_sections(image: &mut [u8], bytes: &[u8])
    requires accepted { refusal_of bytes.now ≡ None }
    requires headers { image.old ≡ headers_alone bytes.now }
    ensures { image.new ≡ plain_image bytes.now }
{
    for index in 0..section_count(bytes) {
        lay_section(image, bytes, section_at(bytes, index));
    }
}

/// Copies the bytes that a section has in the file to its place.
#[tactic(auto, unfolding(fw_types::specs::Layout::put))]
fn lay_section(image: &mut [u8], bytes: &[u8], section: SectionHeader)
    requires inside { section.address + copied_size section ≤ length image.old }
    requires in_file { 0 < copied_size section →
        section.file_offset + copied_size section ≤ length bytes.now }
    ensures { let bytes = take (copied_size section) (drop section.file_offset bytes.now) in
        image.new ≡ put section.address bytes image.old }
{
    let copied = section.copied_size() as usize;
    if copied == 0 {
        return;
    }
    let from = section.file_offset as usize;
    put_bytes(image, section.address as usize, &bytes[from..from + copied]);
}

/// Applies the relocations of the file to the image, in the order of the file.
#[tactic(auto, unfolding(crate::specs::Relocations::entries_of))]
pub fn relocate(image: &mut [u8], bytes: &[u8], delta: u64)
    requires accepted { refusal_of bytes.now ≡ None }
    requires size { length image.old ≡ size_of bytes.now }
    ensures { image.new ≡ fold (relocated delta) image.old (entries_of bytes.now) }
{
    if !has_directory(bytes) {
        return;
    }
    if let Some(place) = directory_place(bytes) {
        relocate_directory(image, directory_at(bytes, place), delta);
    }
}

/// Applies the entries of a directory.
fn relocate_directory(image: &mut [u8], directory: &[u8], delta: u64)
    requires { is_bad_directory (length image.old) directory.now ≡ false }
    ensures { image.new ≡ fold (relocated delta) image.old (entries_of_directory directory.now) }
{
    let mut rest = directory;
    while !rest.is_empty() {
        relocate_block(image, block_page(rest), block_words(rest), delta);
        rest = bytes_from(rest, block_size(rest));
    }
}

/// Applies the entries of a page.
fn relocate_block(image: &mut [u8], page: u32, words: &[u8], delta: u64)
    requires { let entries = map (block_entry page) (words_in words.now) in
        list_any (is_bad_entry (length image.old)) entries ≡ false }
    ensures { let entries = map (block_entry page) (words_in words.now) in
        image.new ≡ fold (relocated delta) image.old entries }
{
    let mut rest = words;
    while let [low, high, others @ ..] = rest {
        let word = u16::from_le_bytes([*low, *high]);
        relocate_entry(image, block_entry(page, word), delta);
        rest = others;
    }
}

/// Applies one entry.
#[tactic(auto, unfolding(crate::specs::LaidImage::relocated))]
fn relocate_entry(image: &mut [u8], entry: Entry, delta: u64)
    requires { is_bad_entry (length image.old) entry ≡ false }
    ensures { image.new ≡ relocated delta image.old entry }
{
    match entry.kind {
        HIGH_LOW => add_to_u32(image, entry.place, (delta % (1 << 32)) as u32),
        DIR_64 => add_to_u64(image, entry.place, delta),
        _ => {}
    }
}

/// Adds to the number in the 4 bytes at a place, in 32 bits that wrap.
fn add_to_u32(image: &mut [u8], place: usize, delta: u32)
    requires { place + 4 ≤ length image.old }
    ensures { let number = (uint32_at place image.old + delta) % 2 ^ 32 in
        image.new ≡ put place (little_bytes 4 number) image.old }
{
    let address = u32_at(image, place).wrapping_add(delta);
    put_u32(image, place, address);
}

/// Adds to the number in the 8 bytes at a place, in 64 bits that wrap.
fn add_to_u64(image: &mut [u8], place: usize, delta: u64)
    requires { place + 8 ≤ length image.old }
    ensures { let number = (uint64_at place image.old + delta) % 2 ^ 64 in
        image.new ≡ put place (little_bytes 8 number) image.old }
{
    let address = u64_at(image, place).wrapping_add(delta);
    put_u64(image, place, address);
}
