ghost use Rattle.std.specs.Prelude.{◌≡◌};
ghost use Rattle.rom_builder.specs.declared.parts.BuildFault.TheVariants.{OutOfMemory as NoMemory};

use fw_types::{OutOfMemory, Rows};
use thiserror::Error;

/// What the image of a driver is made of.
#[derive(Debug, Drop)]
pub struct DriverParts {
    /// The EBC code with its data, which is at 512 of the image.
    pub code: Rows<u8>,
    /// The offset in the code at which the driver is entered.
    pub entry: u32,
    /// The offsets in the code of 8 bytes that hold an address of the image, in any order.
    pub relocs: Rows<u32>,
    /// The subsystem: 11 for an EFI boot service driver, 12 for an EFI runtime driver (PE/COFF:
    /// Windows Subsystem).
    pub subsystem: u16,
}

/// Why no image is made: the first of these that applies.
#[derive(Clone, Copy, Debug, PartialEq, Eq, Error)]
pub enum BuildFault {
    /// The file with all relocations would have more than 16 MiB.
    #[error("the image is longer than 16 MiB")]
    TooLong,
    /// The entry is odd, or not in the code.
    #[error("the entry is odd or lies outside the code")]
    BadEntry,
    /// The 8 bytes at a relocation do not lie in the code.
    #[error("a relocation passes the end of the code")]
    BadReloc,
    /// The subsystem is neither 11 nor 12.
    #[error("the subsystem is none of a driver")]
    BadSubsystem,
    /// There is no memory for the file.
    #[error("there is no memory left")]
    OutOfMemory,
}

impl From<OutOfMemory> for BuildFault {
    ghost from_gives = { λ _ fault. fault ≡ NoMemory };

    fn from(_error: OutOfMemory) -> BuildFault {
        BuildFault::OutOfMemory
    }
}
