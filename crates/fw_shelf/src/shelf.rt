ghost use Rattle.std.specs.Prelude.{◌≡◌, ◌≤◌, ℕ, Option, IsErrOf};
ghost use Rattle.fw_shelf.specs.Faults.{Rose};
ghost use Rattle.fw_shelf.specs.Shelf.{Files, GivesIfKnown};

use std::alloc::Global;
use thiserror::Error;

/// Why a file was not read.
#[derive(Clone, Copy, Debug, PartialEq, Eq, Error)]
pub enum ShelfFault {
    /// The outside failed, and the shelf counted it.
    #[error("the shelf failed")]
    Failed,
    /// The file has more than `fw_types::MOST_FILE_BYTES` bytes, which is 16 MiB.
    #[error("the file is too long")]
    TooLong,
    /// There was no memory for the file's bytes.
    #[error("out of memory")]
    OutOfMemory,
}

/// Files under names.
pub trait Shelf {
    /// The files, if a contract may know them.
    ghost files: { Self → Option Files };

    /// How often the outside failed. This count never falls.
    ghost faults: { Self → ℕ };

    /// What reads may make of a shelf.
    ghost becomes: { Self → Self → Type 0 };

    /// The bytes of the file under `name`, or `None` if there is no such file. The files of the
    /// shelf stay as they were.
    ///
    /// # Errors
    ///
    /// - `Failed` only if the outside failed in this call; the count of faults rose then.
    /// - `TooLong` if the file has more than 16 MiB.
    /// - `OutOfMemory` if there is no memory for the bytes.
    fn read(&mut self, alloc: Global, name: &str) -> Result<Option<Vec<u8>>, ShelfFault>
        ensures answer { GivesIfKnown (files self.old) name.now result }
        ensures failed { IsErrOf result ShelfFault.Failed
            → Rose (faults self.old) (faults self.new) }
        ensures same_files { files self.new ≡ files self.old }
        ensures faults { faults self.old ≤ faults self.new }
        ensures becomes { becomes self.old self.new };

    /// A shelf may become itself.
    ghost becomes_same: { (shelf : Self) → becomes shelf shelf };

    /// If a shelf may become a second one, and that a third one, it may become the third one.
    ghost becomes_again: { (a b c : Self) → becomes a b → becomes b c → becomes a c };

    /// What a shelf may become has the same files.
    ghost becomes_files: { (a b : Self) → becomes a b → files b ≡ files a };

    /// What a shelf may become has no lower count of faults.
    ghost becomes_faults: { (a b : Self) → becomes a b → faults a ≤ faults b };
}
