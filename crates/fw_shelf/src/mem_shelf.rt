ghost use Rattle.std.specs.Prelude.{◌≡◌, ◌≤◌, Some, IsErrOf, IsTrue, false};
ghost use Rattle.fw_shelf.specs.Faults.{Rose};
ghost use Rattle.fw_shelf.specs.Shelf.{Gives, file_of, is_failed, names_differ};
ghost use Rattle.fw_shelf.specs.MemShelf.{files_of, after_read, read_fails, IsLater, IsLater-same, IsLater-again, IsLater-files, IsLater-faults};

use crate::shelf::{Shelf, ShelfFault};
use fw_types::MOST_FILE_BYTES;
use std::alloc::Global;
use std::marker::Model;

/// A shelf in memory, whose files a contract knows and which fails at chosen reads.
#[derive(Drop)]
pub struct MemShelf {
    files: Vec<(String, Vec<u8>)>,
    failing_reads: Vec<u64>,
    reads: u64,
    faults: u64,
}

impl Model for MemShelf {
    ghost use Rattle.std.specs.Prelude.{IsTrue};
    ghost use Rattle.fw_shelf.specs.Shelf.{names_differ};
    ghost use Rattle.fw_shelf.specs.MemShelf.{ShelfInMemory, files_of};

    ghost Value = { ShelfInMemory };

    ghost view = { λ shelf. record {
      files = files_of shelf.files.items;
      failing_reads = shelf.failing_reads.items;
      reads = shelf.reads;
      faults = shelf.faults;
    } };

    ghost invariant = { λ shelf. IsTrue (names_differ (files_of shelf.files.items)) };
}

impl MemShelf {
    /// A shelf with these files, each a name and its bytes. No two have the same name.
    ///
    /// Reads are numbered from 1. A read fails if its number is in `failing_reads`, and for no
    /// other cause. The numbers stop at 2^64 - 1, and so does the count of faults. Takes no memory.
    pub fn new(files: Vec<(String, Vec<u8>)>, failing_reads: Vec<u64>) -> MemShelf
        requires { IsTrue (names_differ (files_of files.items)) }
        ensures { result
            ≡ record {
              files = files_of files.items;
              failing_reads = failing_reads.items;
              reads = 0;
              faults = 0;
            } }
    {
        MemShelf {
            files,
            failing_reads,
            reads: 0,
            faults: 0,
        }
    }
}

impl Shelf for MemShelf {
    ghost files = { λ shelf. Some shelf.files };

    ghost faults = { λ shelf. shelf.faults };

    ghost becomes = { IsLater };

    ghost becomes_same = { IsLater-same };

    ghost becomes_again = { IsLater-again };

    ghost becomes_files = { IsLater-files };

    ghost becomes_faults = { IsLater-faults };

    fn read(&mut self, alloc: Global, name: &str) -> Result<Option<Vec<u8>>, ShelfFault>
        ensures answer { Gives result (file_of self.old.files name.now) }
        ensures failed { is_failed result ≡ read_fails self.old }
        ensures after { self.new ≡ after_read self.old }
        ensures rose { IsErrOf result ShelfFault.Failed → Rose self.old.faults self.new.faults }
        ensures faults { self.old.faults ≤ self.new.faults }
        ensures becomes { IsLater self.old self.new }
    {
        self.reads = self.reads.saturating_add(1);
        if self.failing_reads.contains(&self.reads) {
            self.faults = self.faults.saturating_add(1);
            return Err(ShelfFault::Failed);
        }
        copy_of(alloc, self.files.as_slice(), name)
    }
}

/// A copy of the file under `name`, or `None` if no file has this name.
///
/// # Errors
///
/// - `TooLong` if the file has more than 16 MiB.
/// - `OutOfMemory` if there is no memory for the copy.
fn copy_of(
    alloc: Global,
    files: &[(String, Vec<u8>)],
    name: &str,
) -> Result<Option<Vec<u8>>, ShelfFault>
    ensures file { Gives result (file_of (files_of files.now) name.now) }
    ensures works { is_failed result ≡ false }
{
    for file in files {
        if file.0.as_str() == name {
            if file.1.len() as u64 > MOST_FILE_BYTES {
                return Err(ShelfFault::TooLong);
            }
            return match Vec::from_slice(alloc, file.1.as_slice()) {
                Ok(bytes) => Ok(Some(bytes)),
                Err(_) => Err(ShelfFault::OutOfMemory),
            };
        }
    }
    Ok(None)
}
