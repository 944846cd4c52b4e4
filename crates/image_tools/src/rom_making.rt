//! `rom`: the option ROM of files.
ghost use Rattle.std.specs.Prelude.{◌≡◌, Ok, Some, IfOk, IsErrOf, true};
ghost use Rattle.fw_shelf.specs.Faults.{Rose};
ghost use Rattle.fw_shelf.specs.Shelf.{Files};
ghost use Rattle.image_tools.specs.Steps.{bytes_in};
ghost use Rattle.image_tools.specs.Tools.{bodies_answer, bodies_of, is_file_status, words_in};

use crate::answer::{Answer, Stop};
use crate::files::find_bodies;
use crate::lines::refused_rom_answer;
use fw_shelf::Shelf;
use fw_types::{OutOfMemory, Rows};
use rom_builder::rom_of;
use std::alloc::Global;

/// The answer for the bytes of the files.
///
/// # Errors
///
/// `OutOfMemory` if there is no memory for the option ROM or the line.
fn bodies_answer(
    alloc: Global,
    vendor: u16,
    device: u16,
    class: u32,
    bodies: &[Vec<u8>],
) -> Result<Answer, OutOfMemory>
    ensures { IfOk result (λ made.
        made ≡ bodies_answer vendor device class (Ok (bytes_in bodies.now))) }
{
    match rom_of(alloc, vendor, device, class, bodies) {
        Ok(rom) => Ok(Answer {
            status: 0,
            output: Rows::of(rom),
        }),
        Err(fault) => refused_rom_answer(alloc, fault),
    }
}

/// The answer for the files under names.
///
/// # Errors
///
/// - `Shelf` only if the shelf failed.
/// - `Memory` if there is no memory.
pub fn rom_answer<F: Shelf>(
    alloc: Global,
    vendor: u16,
    device: u16,
    class: u32,
    names: &[String],
    shelf: &mut F,
) -> Result<Answer, Stop>
    ensures answered { (files : Files) → F.files shelf.old ≡ Some files
        → IfOk result (λ made. made
        ≡ bodies_answer vendor device class (bodies_of files (words_in names.now))) }
    ensures status { IfOk result (λ made. is_file_status made.status ≡ true) }
    ensures failed { IsErrOf result Stop.Shelf → Rose (F.faults shelf.old) (F.faults shelf.new) }
    ensures becomes { F.becomes shelf.old shelf.new }
{
    match find_bodies(alloc, names, shelf)? {
        Ok(bodies) => Ok(bodies_answer(alloc, vendor, device, class, bodies.as_slice())?),
        Err(refusal) => Ok(refusal),
    }
}
