ghost use Rattle.std.specs.Prelude.{◌≡◌, Some, IfOk, IsErrOf, is_none, nat_eq, option_map, true};
ghost use Rattle.fw_shelf.specs.Faults.{Rose};
ghost use Rattle.fw_shelf.specs.Shelf.{Files, file_of};
ghost use Rattle.image_tools.specs.Tools.{answer_of, file_answer, form_of, is_answer_status, is_file_status, listing_answer, look_answer, walk_answer, words_in};

use crate::answer::{Answer, Stop};
use crate::assembling::listing_answer;
use crate::files::{Found, find_file};
use crate::image_look::look_answer;
use crate::lines::{absent_answer, too_long_answer, usage_answer};
use crate::rom_making::rom_answer;
use crate::rom_walk::walk_answer;
use crate::words::{Form, form_of_words};
use fw_shelf::Shelf;
use std::alloc::Global;

/// Answers `asm`.
///
/// # Errors
///
/// - `Shelf` only if the shelf failed.
/// - `Memory` if there is no memory.
fn asm<F: Shelf>(
    alloc: Global,
    listing: &str,
    label: Option<&str>,
    shelf: &mut F,
) -> Result<Answer, Stop>
    ensures answered { (files : Files) → F.files shelf.old ≡ Some files
        → IfOk result (λ made. made ≡ file_answer listing.now (file_of files listing.now)
        (listing_answer (option_map (λ name. name.now) label.entry))) }
    ensures status { IfOk result (λ made. is_file_status made.status ≡ true) }
    ensures failed { IsErrOf result Stop.Shelf → Rose (F.faults shelf.old) (F.faults shelf.new) }
    ensures becomes { F.becomes shelf.old shelf.new }
{
    match find_file(alloc, listing, shelf)? {
        Found::Absent => Ok(absent_answer(alloc, listing)?),
        Found::Present(bytes) => Ok(listing_answer(alloc, label, bytes.as_slice())?),
        Found::TooLong => Ok(too_long_answer(alloc, listing)?),
    }
}

/// Answers `walk`.
///
/// # Errors
///
/// - `Shelf` only if the shelf failed.
/// - `Memory` if there is no memory.
fn walk<F: Shelf>(alloc: Global, name: &str, shelf: &mut F) -> Result<Answer, Stop>
    ensures answered { (files : Files) → F.files shelf.old ≡ Some files
        → IfOk result (λ made.
        made ≡ file_answer name.now (file_of files name.now) walk_answer) }
    ensures status { IfOk result (λ made. is_file_status made.status ≡ true) }
    ensures failed { IsErrOf result Stop.Shelf → Rose (F.faults shelf.old) (F.faults shelf.new) }
    ensures becomes { F.becomes shelf.old shelf.new }
{
    match find_file(alloc, name, shelf)? {
        Found::Absent => Ok(absent_answer(alloc, name)?),
        Found::Present(bytes) => Ok(walk_answer(alloc, bytes.as_slice())?),
        Found::TooLong => Ok(too_long_answer(alloc, name)?),
    }
}

/// Answers `look`.
///
/// # Errors
///
/// - `Shelf` only if the shelf failed.
/// - `Memory` if there is no memory.
fn look<F: Shelf>(alloc: Global, name: &str, shelf: &mut F) -> Result<Answer, Stop>
    ensures answered { (files : Files) → F.files shelf.old ≡ Some files
        → IfOk result (λ made.
        made ≡ file_answer name.now (file_of files name.now) look_answer) }
    ensures status { IfOk result (λ made. is_file_status made.status ≡ true) }
    ensures failed { IsErrOf result Stop.Shelf → Rose (F.faults shelf.old) (F.faults shelf.new) }
    ensures becomes { F.becomes shelf.old shelf.new }
{
    match find_file(alloc, name, shelf)? {
        Found::Absent => Ok(absent_answer(alloc, name)?),
        Found::Present(bytes) => Ok(look_answer(alloc, bytes.as_slice())?),
        Found::TooLong => Ok(too_long_answer(alloc, name)?),
    }
}

/// Answers the words after the program's name. Nothing is written yet.
///
/// # Errors
///
/// - `Shelf` only if the shelf failed.
/// - `Memory` if there is no memory.
pub fn respond<F: Shelf>(alloc: Global, words: &[String], shelf: &mut F) -> Result<Answer, Stop>
    ensures answered { (files : Files) → F.files shelf.old ≡ Some files
        → IfOk result (λ made. made ≡ answer_of files (words_in words.now)) }
    ensures status { IfOk result (λ made. is_answer_status made.status ≡ true) }
    ensures usage { IfOk result (λ made.
        nat_eq made.status 1 ≡ is_none (form_of (words_in words.now))) }
    ensures failed { IsErrOf result Stop.Shelf → Rose (F.faults shelf.old) (F.faults shelf.new) }
    ensures becomes { F.becomes shelf.old shelf.new }
{
    match form_of_words(words) {
        Some(Form::Asm { listing, entry }) => asm(alloc, listing, entry, shelf),
        Some(
            Form::Rom {
                vendor,
                device,
                class,
                files,
            },
        ) => rom_answer(alloc, vendor, device, class, files, shelf),
        Some(Form::Walk(name)) => walk(alloc, name, shelf),
        Some(Form::Look(name)) => look(alloc, name, shelf),
        None => Ok(usage_answer(alloc)?),
    }
}
