ghost use Rattle.std.specs.Prelude.{◌≡◌};
ghost use Rattle.handle_db.specs.declared.refusal.DbRefusal.TheVariants.{OutOfMemory as NoMemory};

use fw_types::{Handle, OutOfMemory};
use std::alloc::{AllocError, AllocFailed};
use thiserror::Error;

/// Why an interface was not installed or removed.
#[derive(Clone, Copy, Debug, PartialEq, Eq, Error)]
pub enum DbRefusal {
    /// The handle is not live.
    #[error("the handle is not live")]
    BadHandle,
    /// The handle has the protocol.
    #[error("the handle has the protocol")]
    Already,
    /// There is no room for a handle, for a handle number or for an interface of the handle.
    #[error("a limit of the handle database is met")]
    Full,
    /// The handle does not have the protocol.
    #[error("the handle does not have the protocol")]
    NotThere,
    /// There is no memory.
    #[error("out of memory")]
    OutOfMemory,
}

impl From<OutOfMemory> for DbRefusal {
    ghost from_gives = { λ _ refusal. refusal ≡ NoMemory };

    fn from(_error: OutOfMemory) -> DbRefusal {
        DbRefusal::OutOfMemory
    }
}

impl From<AllocError> for DbRefusal {
    ghost from_gives = { λ _ refusal. refusal ≡ NoMemory };

    fn from(_error: AllocError) -> DbRefusal {
        DbRefusal::OutOfMemory
    }
}

impl<T: Drop> From<AllocFailed<T>> for DbRefusal {
    ghost from_gives = { λ _ refusal. refusal ≡ NoMemory };

    fn from(_error: AllocFailed<T>) -> DbRefusal {
        DbRefusal::OutOfMemory
    }
}

/// An interface that was removed.
#[derive(Clone, Copy, Debug, PartialEq, Eq)]
pub struct Removed {
    /// Its address in guest memory.
    pub interface: u64,
    /// The handle of the image that installed it.
    pub owner: Handle,
    /// Its place among the interfaces of its handle, counted from 0.
    pub place: u32,
    /// Whether it was the handle's last interface, so that the handle is no longer live.
    pub gone: bool,
}
