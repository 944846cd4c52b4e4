ghost use Rattle.std.specs.Prelude.{◌≡◌};
ghost use Rattle.world_model.specs.declared.fault.WorldFault.TheVariants.{OutOfMemory as NoMemory};

use fw_types::OutOfMemory;
use std::alloc::{AllocError, AllocFailed};
use thiserror::Error;

/// Why the world was not changed.
#[derive(Clone, Copy, Debug, PartialEq, Eq, Error)]
pub enum WorldFault {
    /// A limit is met.
    #[error("a limit of the world is met")]
    Full,
    /// Nothing of the kind is there.
    #[error("nothing of the kind is there")]
    NotThere,
    /// There was no memory.
    #[error("out of memory")]
    OutOfMemory,
}

impl From<OutOfMemory> for WorldFault {
    ghost from_gives = { λ _ fault. fault ≡ NoMemory };

    fn from(_error: OutOfMemory) -> WorldFault {
        WorldFault::OutOfMemory
    }
}

impl From<AllocError> for WorldFault {
    ghost from_gives = { λ _ fault. fault ≡ NoMemory };

    fn from(_error: AllocError) -> WorldFault {
        WorldFault::OutOfMemory
    }
}

impl<T: Drop> From<AllocFailed<T>> for WorldFault {
    ghost from_gives = { λ _ fault. fault ≡ NoMemory };

    fn from(_error: AllocFailed<T>) -> WorldFault {
        WorldFault::OutOfMemory
    }
}
