//! Answers of one line, and the words in them.
ghost use Rattle.std.specs.Prelude.{◌≡◌, ◌≢◌, ◌++◌, IfOk, OnOk, string_bytes};
ghost use Rattle.image_tools.specs.Tools.{answer};
ghost use Rattle.image_tools.specs.ToolTexts.{absent_line, build_word, hex_field, kind_word, missing_entry_line, refused_line, refused_parts_line, refused_rom_line, rom_word, too_long_line, usage_line};

use crate::answer::{Answer, text_answer};
use ebc_asm::AsmKind;
use fw_types::OutOfMemory;
use option_rom::RomWriteFault;
use rom_builder::BuildFault;
use std::alloc::{AllocError, Global};
use std::fmt::Write;

/// The word for why a line of a listing is refused.
pub fn kind_name(kind: AsmKind) -> &'static str
    ensures { result.now ≡ kind_word kind }
{
    match kind {
        AsmKind::UnknownWord => "UnknownWord",
        AsmKind::Operand => "Operand",
        AsmKind::Number => "Number",
        AsmKind::Label => "Label",
        AsmKind::Range => "Range",
    }
}

/// The word for why no image is made.
///
/// # Errors
///
/// `OutOfMemory` if there was no memory for the image.
fn build_name(fault: BuildFault) -> Result<&'static str, OutOfMemory>
    ensures word { IfOk result (λ word. word.now ≡ build_word fault) }
    ensures cause { IfOk result (λ word. fault ≢ BuildFault.OutOfMemory) }
{
    match fault {
        BuildFault::TooLong => Ok("TooLong"),
        BuildFault::BadEntry => Ok("BadEntry"),
        BuildFault::BadReloc => Ok("BadReloc"),
        BuildFault::BadSubsystem => Ok("BadSubsystem"),
        BuildFault::OutOfMemory => Err(OutOfMemory),
    }
}

/// The word for why no option ROM is made.
///
/// # Errors
///
/// `OutOfMemory` if there was no memory for the option ROM.
fn rom_name(fault: RomWriteFault) -> Result<&'static str, OutOfMemory>
    ensures word { IfOk result (λ word. word.now ≡ rom_word fault) }
    ensures cause { IfOk result (λ word. fault ≢ RomWriteFault.OutOfMemory) }
{
    match fault {
        RomWriteFault::Empty => Ok("Empty"),
        RomWriteFault::TooLong => Ok("TooLong"),
        RomWriteFault::OutOfMemory => Err(OutOfMemory),
    }
}

/// Writes a number in hexadecimal digits after its name, with a space before both.
///
/// # Errors
///
/// `AllocError` if there is no memory for the text.
#[tactic(auto, unfolding(crate::specs::ToolTexts::hex_field))]
pub fn write_hex(out: &mut String, name: &str, n: u64) -> Result<(), AllocError>
    ensures { OnOk result (string_bytes out.new ≡ string_bytes out.old ++ hex_field name.now n) }
{
    write!(out, " {name} 0x{n:x}")
}

/// The answer to words of no form.
///
/// # Errors
///
/// `OutOfMemory` if there is no memory for the line.
pub fn usage_answer(alloc: Global) -> Result<Answer, OutOfMemory>
    ensures { IfOk result (λ line. line ≡ answer 1 usage_line) }
{
    let usage =
        "usage: asm LISTING [ENTRY], rom VENDOR DEVICE CLASS FILE..., walk ROM, look IMAGE\n";
    Ok(text_answer(1, String::from_str(alloc, usage)?))
}

/// The answer that there is no file under a name.
///
/// # Errors
///
/// `OutOfMemory` if there is no memory for the line.
pub fn absent_answer(alloc: Global, name: &str) -> Result<Answer, OutOfMemory>
    ensures { IfOk result (λ line. line ≡ answer 6 (absent_line name.now)) }
{
    Ok(text_answer(6, format!(in alloc; "no such file: {name}\n")?))
}

/// The answer that the file under a name is too long.
///
/// # Errors
///
/// `OutOfMemory` if there is no memory for the line.
pub fn too_long_answer(alloc: Global, name: &str) -> Result<Answer, OutOfMemory>
    ensures { IfOk result (λ line. line ≡ answer 7 (too_long_line name.now)) }
{
    Ok(text_answer(7, format!(in alloc; "file too long: {name}\n")?))
}

/// The answer that a line of a listing is refused, with the word that says why.
///
/// # Errors
///
/// `OutOfMemory` if there is no memory for the line.
pub fn refused_line_answer(alloc: Global, number: u64, word: &str) -> Result<Answer, OutOfMemory>
    ensures { IfOk result (λ line. line ≡ answer 8 (refused_line number word.now)) }
{
    Ok(text_answer(8, format!(in alloc; "line {number} {word}\n")?))
}

/// The answer that no line of a listing is the label at which the driver is to be entered.
///
/// # Errors
///
/// `OutOfMemory` if there is no memory for the line.
pub fn missing_entry_answer(alloc: Global) -> Result<Answer, OutOfMemory>
    ensures { IfOk result (λ line. line ≡ answer 8 missing_entry_line) }
{
    Ok(text_answer(8, String::from_str(alloc, "entry Label\n")?))
}

/// The answer that no image is made.
///
/// # Errors
///
/// `OutOfMemory` if there is no memory for the line, or was none for the image.
pub fn refused_parts_answer(alloc: Global, fault: BuildFault) -> Result<Answer, OutOfMemory>
    ensures line { IfOk result (λ line. line ≡ answer 8 (refused_parts_line fault)) }
    ensures cause { IfOk result (λ line. fault ≢ BuildFault.OutOfMemory) }
{
    let word = build_name(fault)?;
    Ok(text_answer(8, format!(in alloc; "image {word}\n")?))
}

/// The answer that no option ROM is made.
///
/// # Errors
///
/// `OutOfMemory` if there is no memory for the line, or was none for the option ROM.
pub fn refused_rom_answer(alloc: Global, fault: RomWriteFault) -> Result<Answer, OutOfMemory>
    ensures line { IfOk result (λ line. line ≡ answer 8 (refused_rom_line fault)) }
    ensures cause { IfOk result (λ line. fault ≢ RomWriteFault.OutOfMemory) }
{
    let word = rom_name(fault)?;
    Ok(text_answer(8, format!(in alloc; "rom {word}\n")?))
}
