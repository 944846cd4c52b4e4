ghost use Rattle.std.specs.Prelude.{◌≡◌};
ghost use Rattle.open_records.specs.declared.fault.RecFault.TheVariants.{OutOfMemory as NoMemory};

use fw_types::OutOfMemory;
use std::alloc::AllocFailed;
use thiserror::Error;

/// Why an open is not entered.
#[derive(Clone, Copy, Debug, PartialEq, Eq, Error)]
pub enum RecFault {
    /// There are as many records as there may be.
    #[error("there are as many open records as there may be")]
    Full,
    /// There is no memory.
    #[error("out of memory")]
    OutOfMemory,
}

impl From<OutOfMemory> for RecFault {
    ghost from_gives = { λ _ fault. fault ≡ NoMemory };

    fn from(_error: OutOfMemory) -> RecFault {
        RecFault::OutOfMemory
    }
}

impl<T: Drop> From<AllocFailed<T>> for RecFault {
    ghost from_gives = { λ _ fault. fault ≡ NoMemory };

    fn from(_error: AllocFailed<T>) -> RecFault {
        RecFault::OutOfMemory
    }
}
