//! `look`: what an image says about itself.
ghost use Rattle.std.specs.Prelude.{◌≡◌, ◌++◌, IfOk, OnOk, map, string_bytes};
ghost use Rattle.std.specs.List.{flat_map};
ghost use Rattle.pe_image.specs.ImageRules.{refusal_of};
ghost use Rattle.image_tools.specs.Tools.{image_or_refusal, look_answer};
ghost use Rattle.image_tools.specs.ToolTexts.{file_fields, image_fields, image_text, refused_image_line, section_line, shown_byte, shown_name};

use crate::answer::{Answer, text_answer};
use crate::lines::write_hex;
use fw_types::{OutOfMemory, PeRefusal};
use pe_image::{PeView, Section, check};
use report_text::refusal_name;
use std::alloc::{AllocError, Global};
use std::fmt::Write;
use text_lines::before_byte;

/// A byte of a name as it is shown.
fn shown_byte(byte: u8) -> u8
    ensures { result ≡ shown_byte byte }
{
    match byte {
        b'"' => b'?',
        32..=126 => byte,
        _ => b'?',
    }
}

/// The bytes of a name as they are shown.
///
/// # Errors
///
/// `AllocError` if there is no memory for them.
fn shown_bytes(alloc: Global, name: &[u8]) -> Result<Vec<u8>, AllocError>
    ensures { IfOk result (λ bytes. bytes.items ≡ map shown_byte name.now) }
{
    name.iter().map(|byte| shown_byte(*byte)).collect(alloc)
}

/// The name of a section as it is shown.
///
/// # Errors
///
/// `OutOfMemory` if there is no memory for it.
fn shown_name(alloc: Global, name: &[u8]) -> Result<String, OutOfMemory>
    ensures { IfOk result (λ text. string_bytes text ≡ shown_name name.now) }
{
    let bytes = shown_bytes(alloc, before_byte(name, 0))?;
    match String::from_utf8(bytes) {
        Ok(text) => Ok(text),
        Err(_) => unreachable!(),
    }
}

/// Writes where a section lies in the image.
///
/// # Errors
///
/// `AllocError` if there is no memory for the text.
fn write_image_range(out: &mut String, section: &Section) -> Result<(), AllocError>
    ensures { OnOk result (string_bytes out.new
        ≡ string_bytes out.old ++ image_fields section.now) }
{
    write_hex(out, "address", u64::from(section.address))?;
    write_hex(out, "size", u64::from(section.virtual_size))
}

/// Writes where a section lies in the file.
///
/// # Errors
///
/// `AllocError` if there is no memory for the text.
fn write_file_range(out: &mut String, section: &Section) -> Result<(), AllocError>
    ensures { OnOk result (string_bytes out.new
        ≡ string_bytes out.old ++ file_fields section.now) }
{
    write_hex(out, "file-offset", u64::from(section.file_offset))?;
    write_hex(out, "file-size", u64::from(section.raw_size))
}

/// Writes the line of a section.
///
/// # Errors
///
/// `OutOfMemory` if there is no memory for the text.
#[tactic(auto, unfolding(crate::specs::ToolTexts::section_line))]
fn write_section(alloc: Global, out: &mut String, section: &Section) -> Result<(), OutOfMemory>
    ensures { OnOk result (string_bytes out.new
        ≡ string_bytes out.old ++ section_line section.now) }
{
    let name = shown_name(alloc, &section.name)?;
    write!(out, "section \"{name}\"")?;
    write_image_range(out, section)?;
    write_file_range(out, section)?;
    writeln!(out)?;
    Ok(())
}

/// Writes the lines of sections.
///
/// # Errors
///
/// `OutOfMemory` if there is no memory for the text.
fn write_sections(alloc: Global, out: &mut String, sections: &[Section]) -> Result<(), OutOfMemory>
    ensures { OnOk result (string_bytes out.new
        ≡ string_bytes out.old ++ flat_map section_line sections.now) }
{
    for section in sections {
        write_section(alloc, out, section)?;
    }
    Ok(())
}

/// The lines of an accepted image.
///
/// # Errors
///
/// `OutOfMemory` if there is no memory for the text.
fn image_text(alloc: Global, view: &PeView<'_>) -> Result<String, OutOfMemory>
    ensures { IfOk result (λ text. string_bytes text ≡ image_text view.now) }
{
    let mut out = String::new(alloc);
    writeln!(&mut out, "subsystem {}", view.subsystem())?;
    writeln!(&mut out, "size 0x{:x}", view.size())?;
    writeln!(&mut out, "entry 0x{:x}", view.entry())?;
    let sections = view.sections(alloc)?;
    write_sections(alloc, &mut out, sections.as_slice())?;
    Ok(out)
}

/// The line that says why an image is refused.
///
/// # Errors
///
/// `OutOfMemory` if there is no memory for the line.
fn refusal_text(alloc: Global, refusal: PeRefusal) -> Result<String, OutOfMemory>
    ensures { IfOk result (λ text. string_bytes text ≡ refused_image_line refusal) }
{
    let word = refusal_name(refusal);
    Ok(format!(in alloc; "image {word}\n")?)
}

/// The lines for the bytes of an image, or the line that says why they are refused.
///
/// # Errors
///
/// `OutOfMemory` if there is no memory for the text.
fn look_text(alloc: Global, file: &[u8]) -> Result<String, OutOfMemory>
    ensures { IfOk result (λ text.
        string_bytes text ≡ image_or_refusal (refusal_of file.now) file.now) }
{
    match check(file) {
        Ok(view) => image_text(alloc, &view),
        Err(refusal) => refusal_text(alloc, refusal),
    }
}

/// The answer for the bytes of an image.
///
/// # Errors
///
/// `OutOfMemory` if there is no memory for the text.
pub fn look_answer(alloc: Global, file: &[u8]) -> Result<Answer, OutOfMemory>
    ensures { IfOk result (λ made. made ≡ look_answer file.now) }
{
    Ok(text_answer(0, look_text(alloc, file)?))
}
