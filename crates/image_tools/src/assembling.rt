//! `asm`: the image of a listing.
ghost use Rattle.std.specs.Prelude.{◌≡◌, ◌≤◌, ◌<◌, ◌+◌, ◌^◌, IfNone, IfOk, length, min, option_map, true};
ghost use Rattle.std.specs.List.{list_all};
ghost use Rattle.fw_types.specs.declared.limits.TheConstants.{MOST_FILE_BYTES as most_file_bytes};
ghost use Rattle.image_tools.specs.declared.assembling.TheConstants.{LAST_PLACE as last_place};
ghost use Rattle.image_tools.specs.Tools.{assembled_answer, driver_parts, entered_answer, entry_place, is_listing_byte, line_not_ascii, listing_answer, number_after, parts_answer};
ghost use Rattle.ebc_asm.specs.Assembly.{assembly_of};

use crate::answer::Answer;
use crate::lines::{kind_name, missing_entry_answer, refused_line_answer, refused_parts_answer};
use ebc_asm::{AsmFault, assemble, place_of_label};
use fw_types::{BOOT_SERVICE_DRIVER, OutOfMemory, Rows};
use rom_builder::laws::far_entries_are_refused;
use rom_builder::{DriverParts, pe_of};
use std::alloc::Global;

/// The last place of 32 bits.
const LAST_PLACE: u64 = 0xFFFF_FFFF;

/// Whether a byte is text or an end of a line.
fn is_listing_byte(byte: u8) -> bool
    ensures { result ≡ is_listing_byte byte }
{
    matches!(byte, 9 | 10 | 13 | 32..=126)
}

/// The line of the first byte that no listing may have, counted from 1.
fn line_not_ascii(text: &[u8]) -> Option<u64>
    ensures line { result ≡ line_not_ascii 1 text.now }
    ensures none { IfNone result (list_all is_listing_byte text.now ≡ true) }
{
    let mut number: u64 = 1;
    for byte in text {
        if !is_listing_byte(*byte) {
            return Some(number);
        }
        number = number_after(number, *byte);
    }
    None
}

/// The number of the line after a byte of a line with this number.
fn number_after(number: u64, byte: u8) -> u64
    requires { number + 1 < 2 ^ 64 }
    ensures { result ≡ number_after number byte }
{
    if byte == b'\n' { number + 1 } else { number }
}

/// The text of bytes that are all ASCII.
fn text_of(bytes: &[u8]) -> &str
    requires { list_all is_listing_byte bytes.now ≡ true }
    ensures { result.now ≡ bytes.now }
{
    match str::from_utf8(bytes) {
        Ok(text) => text,
        Err(_) => unreachable!(),
    }
}

/// The answer for the bytes of a listing.
///
/// # Errors
///
/// `OutOfMemory` if there is no memory for the image or the line.
pub fn listing_answer(
    alloc: Global,
    label: Option<&str>,
    bytes: &[u8],
) -> Result<Answer, OutOfMemory>
    requires { length bytes.now ≤ most_file_bytes }
    ensures { IfOk result (λ made.
        made ≡ listing_answer (option_map (λ name. name.now) label.entry) bytes.now) }
{
    match line_not_ascii(bytes) {
        Some(number) => refused_line_answer(alloc, number, "NotAscii"),
        None => assembled_answer(alloc, label, text_of(bytes)),
    }
}

/// The answer for a listing that is text.
///
/// # Errors
///
/// `OutOfMemory` if there is no memory for the image or the line.
fn assembled_answer(alloc: Global, label: Option<&str>, text: &str) -> Result<Answer, OutOfMemory>
    requires { length text.now ≤ most_file_bytes }
    ensures { IfOk result (λ made. made ≡ assembled_answer (assembly_of text.now)
        (option_map (λ name. name.now) label.entry) text.now) }
{
    match assemble(alloc, text) {
        Ok(code) => entered_answer(alloc, label, text, code),
        Err(AsmFault::Refused { line, kind }) => {
            refused_line_answer(alloc, u64::from(line), kind_name(kind))
        }
        Err(AsmFault::OutOfMemory) => Err(OutOfMemory),
    }
}

/// The answer for the bytes of a text.
///
/// # Errors
///
/// `OutOfMemory` if there is no memory for the image or the line.
fn entered_answer(
    alloc: Global,
    label: Option<&str>,
    text: &str,
    code: Vec<u8>,
) -> Result<Answer, OutOfMemory>
    requires { length text.now < 2 ^ 32 }
    ensures { IfOk result (λ made. made ≡ entered_answer
        (entry_place (option_map (λ name. name.now) label.entry) text.now) code.items) }
{
    match entry_place(alloc, label, text)? {
        Some(place) => image_answer(alloc, code, place),
        None => missing_entry_answer(alloc),
    }
}

/// The place at which the driver is entered: the first byte, or the label that is given.
///
/// # Errors
///
/// `OutOfMemory` if there is no memory for the labels.
fn entry_place(alloc: Global, label: Option<&str>, text: &str) -> Result<Option<u64>, OutOfMemory>
    requires { length text.now < 2 ^ 32 }
    ensures { IfOk result (λ place.
        place ≡ entry_place (option_map (λ name. name.now) label.entry) text.now) }
{
    match label {
        Some(name) => place_of_label(alloc, text, name),
        None => Ok(Some(0)),
    }
}

/// The parts of a driver with this code, which is entered at a place. A place past 32 bits is cut
/// to the last one of 32 bits.
fn driver_parts(alloc: Global, code: Vec<u8>, place: u64) -> DriverParts
    ensures { result ≡ driver_parts code.items (min place last_place) }
{
    DriverParts {
        code: Rows::of(code),
        entry: place.min(LAST_PLACE) as u32,
        relocs: Rows::of(Vec::new(alloc)),
        subsystem: BOOT_SERVICE_DRIVER,
    }
}

/// The image of code that is entered at a place, or the line that says why there is none.
///
/// # Errors
///
/// `OutOfMemory` if there is no memory for the image or the line.
fn image_answer(alloc: Global, code: Vec<u8>, place: u64) -> Result<Answer, OutOfMemory>
    ensures { IfOk result (λ made. made ≡ parts_answer (driver_parts code.items place)) }
{
    // No image has the last place of 32 bits, nor one past it: both are refused in the same way.
    far_entries_are_refused();
    let parts = driver_parts(alloc, code, place);
    match pe_of(alloc, &parts) {
        Ok(file) => Ok(Answer {
            status: 0,
            output: Rows::of(file),
        }),
        Err(fault) => refused_parts_answer(alloc, fault),
    }
}
