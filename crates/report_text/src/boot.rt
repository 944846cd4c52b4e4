//! The text of the opening: what could not be read of the board's option ROMs.
ghost use Rattle.std.specs.Prelude.{◌≡◌, ◌++◌, IfOk, OnOk, string_bytes};
ghost use Rattle.report_text.specs.Report.{boot_text, rom_note_line};

use crate::names::rom_note_name;
use fw_types::{OutOfMemory, RomNote};
use std::alloc::{AllocError, Global};
use std::fmt::Write;

/// Writes the line of a function whose option ROM could not be read.
///
/// # Errors
///
/// `AllocError` if there is no memory for the text.
fn write_rom_note(out: &mut String, note: &RomNote) -> Result<(), AllocError>
    ensures { OnOk result (string_bytes out.new ≡ string_bytes out.old ++ rom_note_line note.now) }
{
    let kind = rom_note_name(note.kind);
    writeln!(
        out,
        "rom {}:{}.{} {kind}",
        note.bus, note.device, note.function
    )
}

/// The text of the opening: a line for each function of the board whose option ROM could not be
/// read, in the order of the notes.
///
/// # Errors
///
/// `OutOfMemory` if there is no memory for the text.
pub fn render_boot(alloc: Global, notes: &[RomNote]) -> Result<String, OutOfMemory>
    ensures { IfOk result (λ text. string_bytes text ≡ boot_text notes.now) }
{
    let mut out = String::new(alloc);
    for note in notes {
        write_rom_note(&mut out, note)?;
    }
    Ok(out)
}
