ghost use Rattle.std.specs.Prelude.{◌≡◌, ◌≤◌, None, refl, IsErrOf, if◌then◌else◌};
ghost use Rattle.fw_shelf.specs.Faults.{IsNotFallen, IsNotFallen-again, IsNotFallen-le, IsNotFallen-same, Rose, next_count};
ghost use Rattle.fw_shelf.specs.Shelf.{is_failed};
ghost use Rattle.fw_shelf.specs.DirShelf.{GivesRest, OpensAs};

use crate::shelf::{Shelf, ShelfFault};
use fw_types::MOST_FILE_BYTES;
use std::alloc::Global;
use std::io::Read;
use std::marker::Model;
use std::rt::Files;
use std::{fs, io};

/// How many bytes one read of a file asks for at most.
const CHUNK: usize = 65_536;

/// One byte more than the longest file has.
const TOO_MANY: usize = MOST_FILE_BYTES as usize + 1;

/// The runtime's files. A name is a path from the folder in which the program was started.
///
/// There is no file if opening it says that it is not found. A file is too long if more than 16 MiB
/// of it can be read. Any other error of the runtime is a failure. Failures are counted up to
/// 2^64 - 1. A contract sees only the count, and knows nothing of the files.
#[derive(Drop)]
pub struct DirShelf<R: Files + Drop> {
    rt: R,
    faults: u64,
}

impl<R: Files + Drop> Model for DirShelf<R> {
    ghost use Rattle.std.specs.Prelude.{ℕ};

    ghost Value = { ℕ };

    ghost view = { λ shelf. shelf.faults };
}

impl<R: Files + Drop> DirShelf<R> {
    /// The files of this runtime, with a count of faults of 0.
    pub fn new(rt: R) -> DirShelf<R>
        ensures { result ≡ 0 }
    {
        DirShelf { rt, faults: 0 }
    }
}

impl<R: Files + Drop> Shelf for DirShelf<R> {
    ghost files = { λ _. None };

    ghost faults = { λ shelf. shelf };

    ghost becomes = { IsNotFallen };

    ghost becomes_same = { IsNotFallen-same };

    ghost becomes_again = { IsNotFallen-again };

    ghost becomes_files = { λ _ _ _. refl };

    ghost becomes_faults = { IsNotFallen-le };

    fn read(&mut self, alloc: Global, name: &str) -> Result<Option<Vec<u8>>, ShelfFault>
        ensures fault_count { self.new
            ≡ (if is_failed result then next_count self.old else self.old) }
        ensures failed { IsErrOf result ShelfFault.Failed → Rose self.old self.new }
        ensures faults { self.old ≤ self.new }
    {
        let answer = read_file(&self.rt, alloc, name);
        if let Err(ShelfFault::Failed) = answer {
            self.faults = self.faults.saturating_add(1);
        }
        answer
    }
}

/// The bytes of the file under `name`, or `None` if there is no such file.
///
/// # Errors
///
/// `Failed` if the runtime fails, `TooLong` if the file has more than 16 MiB, and `OutOfMemory` if
/// there is no memory for the bytes.
fn read_file<R: Files>(rt: &R, alloc: Global, name: &str) -> Result<Option<Vec<u8>>, ShelfFault> {
    match file_if_found(fs::open(rt, name))? {
        Some(mut file) => read_bytes(alloc, &mut file),
        None => Ok(None),
    }
}

/// The file that was opened, or `None` if opening it says that it is not found.
///
/// # Errors
///
/// `Failed` if opening it ends with any other error.
fn file_if_found<F>(opening: io::Result<F>) -> Result<Option<F>, ShelfFault>
    ensures { OpensAs opening result }
{
    match opening {
        Ok(file) => Ok(Some(file)),
        Err(error) if error.kind() == io::ErrorKind::NotFound => Ok(None),
        Err(_) => Err(ShelfFault::Failed),
    }
}

/// The bytes that a reader has left. It asks for at most one byte more than the longest file has.
///
/// # Errors
///
/// `Failed` if a read fails, `TooLong` if there are more than 16 MiB, and `OutOfMemory` if there is
/// no memory for the bytes.
fn read_bytes<F: Read>(alloc: Global, file: &mut F) -> Result<Option<Vec<u8>>, ShelfFault>
    ensures { GivesRest (F.remaining file.old) result }
{
    let mut bytes = Vec::new(alloc);
    let mut buffer = [0u8; CHUNK];
    'chunks: while bytes.len() < TOO_MANY {
        let wanted = CHUNK.min(TOO_MANY - bytes.len());
        let Ok(count) = file.read(&mut buffer[..wanted]) else {
            return Err(ShelfFault::Failed);
        };
        if count == 0 {
            return Ok(Some(bytes));
        }
        if bytes.extend_from_slice(&buffer[..count]).is_err() {
            return Err(ShelfFault::OutOfMemory);
        }
    }
    Err(ShelfFault::TooLong)
}
