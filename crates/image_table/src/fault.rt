ghost use Rattle.std.specs.Prelude.{◌≡◌};
ghost use Rattle.image_table.specs.declared.fault.PlaceFault.TheVariants.{OutOfMemory as NoMemory};

use fw_types::{OutOfMemory, PeRefusal};
use thiserror::Error;

/// Why a file was not placed.
#[derive(Clone, Copy, Debug, PartialEq, Eq, Error)]
pub enum PlaceFault {
    /// The file is not accepted as an EBC driver.
    #[error("the file is refused")]
    Refused(PeRefusal),
    /// Fewer units are left than laying the image costs.
    #[error("too few units are left")]
    Units,
    /// A limit of the world is met.
    #[error("a limit of the world is met")]
    Full,
    /// There was no memory.
    #[error("out of memory")]
    OutOfMemory,
}

impl From<OutOfMemory> for PlaceFault {
    ghost from_gives = { λ _ fault. fault ≡ NoMemory };

    fn from(_error: OutOfMemory) -> PlaceFault {
        PlaceFault::OutOfMemory
    }
}
