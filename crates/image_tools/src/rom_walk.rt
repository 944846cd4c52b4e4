//! `walk`: the images of an option ROM.
ghost use Rattle.std.specs.Prelude.{◌≡◌, ◌++◌, ◌∷◌, [], IfOk, OnOk, codes, string_bytes};
ghost use Rattle.option_rom.specs.RomGrammar.{rom_in};
ghost use Rattle.report_text.specs.Report.{end_word, line};
ghost use Rattle.image_tools.specs.Tools.{walk_answer};
ghost use Rattle.image_tools.specs.ToolTexts.{code_fields, device_fields, image_line, place_fields, rom_text};

use crate::answer::{Answer, text_answer};
use crate::lines::write_hex;
use fw_types::{OutOfMemory, RomEnd};
use option_rom::{RomImage, images};
use report_text::end_name;
use std::alloc::{AllocError, Global};
use std::fmt::Write;

/// Writes where an image lies in the option ROM.
///
/// # Errors
///
/// `AllocError` if there is no memory for the text.
fn write_place(out: &mut String, place: usize, image: &RomImage<'_>) -> Result<(), AllocError>
    ensures { OnOk result (string_bytes out.new
        ≡ string_bytes out.old ++ place_fields place image.now) }
{
    write_hex(out, "at", place as u64)?;
    write_hex(out, "size", image.size as u64)
}

/// Writes which devices an image is for.
///
/// # Errors
///
/// `AllocError` if there is no memory for the text.
fn write_device(out: &mut String, image: &RomImage<'_>) -> Result<(), AllocError>
    ensures { OnOk result (string_bytes out.new
        ≡ string_bytes out.old ++ device_fields image.now) }
{
    write_hex(out, "vendor", u64::from(image.vendor))?;
    write_hex(out, "device", u64::from(image.device))?;
    write_hex(out, "class", u64::from(image.class))
}

/// Writes what code an image has.
///
/// # Errors
///
/// `AllocError` if there is no memory for the text.
fn write_code(out: &mut String, image: &RomImage<'_>) -> Result<(), AllocError>
    ensures { OnOk result (string_bytes out.new ≡ string_bytes out.old ++ code_fields image.now) }
{
    write_hex(out, "code-type", u64::from(image.code_type))?;
    write_hex(out, "machine", u64::from(image.machine))?;
    write_hex(out, "compression", u64::from(image.compression))
}

/// Writes the line of an image.
///
/// # Errors
///
/// `AllocError` if there is no memory for the text.
fn write_image(
    out: &mut String,
    number: u64,
    place: usize,
    image: &RomImage<'_>,
) -> Result<(), AllocError>
    ensures { OnOk result (string_bytes out.new
        ≡ string_bytes out.old ++ image_line number place image.now) }
{
    write!(out, "image {number}")?;
    write_place(out, place, image)?;
    write_device(out, image)?;
    write_code(out, image)?;
    writeln!(out)
}

/// Writes the line that says how an option ROM ends.
///
/// # Errors
///
/// `AllocError` if there is no memory for the text.
fn write_end(out: &mut String, end: RomEnd) -> Result<(), AllocError>
    ensures { OnOk result (string_bytes out.new
        ≡ string_bytes out.old ++ line (codes "rom" ∷ end_word end ∷ [])) }
{
    let end = end_name(end);
    writeln!(out, "rom {end}")
}

/// The lines of the images of an option ROM, and of its end.
///
/// # Errors
///
/// `OutOfMemory` if there is no memory for the text.
fn rom_text(alloc: Global, rom: &[u8]) -> Result<String, OutOfMemory>
    ensures { IfOk result (λ text. string_bytes text ≡ rom_text (rom_in rom.now)) }
{
    let mut text = String::new(alloc);
    let mut walk = images(rom);
    let mut number: u64 = 1;
    let mut place: usize = 0;
    while let Some(image) = walk.next() {
        write_image(&mut text, number, place, &image)?;
        number += 1;
        place += image.size;
    }
    match walk.end() {
        Some(end) => write_end(&mut text, end)?,
        None => unreachable!(),
    }
    Ok(text)
}

/// The answer for the bytes of an option ROM.
///
/// # Errors
///
/// `OutOfMemory` if there is no memory for the text.
pub fn walk_answer(alloc: Global, rom: &[u8]) -> Result<Answer, OutOfMemory>
    ensures { IfOk result (λ made. made ≡ walk_answer rom.now) }
{
    Ok(text_answer(0, rom_text(alloc, rom)?))
}
