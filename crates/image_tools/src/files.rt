ghost use Rattle.std.specs.Prelude.{◌≡◌, ◌≤◌, Some, IfErr, IfOk, IfSome, IsErrOf, length, true};
ghost use Rattle.fw_types.specs.declared.limits.TheConstants.{MOST_FILE_BYTES as most_file_bytes};
ghost use Rattle.fw_shelf.specs.Faults.{Rose};
ghost use Rattle.fw_shelf.specs.Shelf.{Files, file_of, present};
ghost use Rattle.image_tools.specs.Steps.{AddsBody, IsShort, bodies_value};
ghost use Rattle.image_tools.specs.Tools.{bodies_of, found_value, is_file_status, words_in};

use crate::answer::{Answer, Stop};
use crate::lines::{absent_answer, too_long_answer};
use fw_shelf::{Shelf, ShelfFault};
use fw_types::{MOST_FILE_BYTES, Rows};
use std::alloc::Global;

/// What there is under a name.
#[derive(Debug, Drop)]
pub enum Found {
    /// No file.
    Absent,
    /// A file with these bytes.
    Present(Rows<u8>),
    /// A file of more than 16 MiB.
    TooLong,
}

/// A file with these bytes, if they are not too many.
fn found_bytes(bytes: Vec<u8>) -> Found
    ensures present { length bytes.items ≤ most_file_bytes
        → found_value result ≡ present bytes.items }
    ensures short { IsShort result }
{
    if bytes.len() as u64 > MOST_FILE_BYTES {
        Found::TooLong
    } else {
        Found::Present(Rows::of(bytes))
    }
}

/// Reads the file under a name, once.
///
/// # Errors
///
/// - `Shelf` only if the shelf failed.
/// - `Memory` if there is no memory for the bytes.
pub fn find_file<F: Shelf>(alloc: Global, name: &str, shelf: &mut F) -> Result<Found, Stop>
    ensures found { (files : Files) → F.files shelf.old ≡ Some files
        → IfOk result (λ found. found_value found ≡ file_of files name.now) }
    ensures short { IfOk result IsShort }
    ensures failed { IsErrOf result Stop.Shelf → Rose (F.faults shelf.old) (F.faults shelf.new) }
    ensures becomes { F.becomes shelf.old shelf.new }
{
    match shelf.read(alloc, name) {
        Ok(Some(bytes)) => Ok(found_bytes(bytes)),
        Ok(None) => Ok(Found::Absent),
        Err(ShelfFault::TooLong) => Ok(Found::TooLong),
        Err(ShelfFault::Failed) => Err(Stop::Shelf),
        Err(ShelfFault::OutOfMemory) => Err(Stop::Memory),
    }
}

/// Reads the file under a name and adds its bytes to those of other files. The answer says why it
/// has none.
///
/// # Errors
///
/// - `Shelf` only if the shelf failed.
/// - `Memory` if there is no memory.
fn add_body<F: Shelf>(
    alloc: Global,
    bodies: &mut Vec<Vec<u8>>,
    name: &str,
    shelf: &mut F,
) -> Result<Option<Answer>, Stop>
    ensures added { (files : Files) → F.files shelf.old ≡ Some files
        → IfOk result (λ refusal.
        AddsBody name.now (file_of files name.now) refusal bodies.old.items bodies.new.items) }
    ensures status { IfOk result (λ refusal.
        IfSome refusal (λ refused. is_file_status refused.status ≡ true)) }
    ensures failed { IsErrOf result Stop.Shelf → Rose (F.faults shelf.old) (F.faults shelf.new) }
    ensures becomes { F.becomes shelf.old shelf.new }
{
    match find_file(alloc, name, shelf)? {
        Found::Absent => Ok(Some(absent_answer(alloc, name)?)),
        Found::Present(bytes) => {
            bodies.push(bytes.into_vec())?;
            Ok(None)
        }
        Found::TooLong => Ok(Some(too_long_answer(alloc, name)?)),
    }
}

/// Reads the files under names, in their order, up to the first that is absent or too long.
///
/// # Errors
///
/// - `Shelf` only if the shelf failed.
/// - `Memory` if there is no memory.
pub fn find_bodies<F: Shelf>(
    alloc: Global,
    names: &[String],
    shelf: &mut F,
) -> Result<Result<Vec<Vec<u8>>, Answer>, Stop>
    ensures found { (files : Files) → F.files shelf.old ≡ Some files
        → IfOk result (λ found. bodies_value found ≡ bodies_of files (words_in names.now)) }
    ensures status { IfOk result (λ found.
        IfErr found (λ refused. is_file_status refused.status ≡ true)) }
    ensures failed { IsErrOf result Stop.Shelf → Rose (F.faults shelf.old) (F.faults shelf.new) }
    ensures becomes { F.becomes shelf.old shelf.new }
{
    let mut bodies = Vec::new(alloc);
    for name in names {
        if let Some(refusal) = add_body(alloc, &mut bodies, name.as_str(), shelf)? {
            return Ok(Err(refusal));
        }
    }
    Ok(Ok(bodies))
}
