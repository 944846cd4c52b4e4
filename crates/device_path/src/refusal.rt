ghost use Rattle.std.specs.Prelude.{◌≡◌};
ghost use Rattle.device_path.specs.declared.refusal.PathRefusal.TheVariants.{OutOfMemory};

use std::alloc::AllocError;
use thiserror::Error;

/// What is wrong with a device path.
#[derive(Clone, Copy, Debug, PartialEq, Eq, Error)]
pub enum PathRefusal {
    /// The bytes end before a node does, or before the End node.
    #[error("the path ends inside a node")]
    Short,
    /// A node says that it is shorter than its own header of 4 bytes.
    #[error("a node is shorter than its header")]
    BadLength,
    /// A node has no text.
    #[error("a node has no text")]
    Unknown,
    /// There was no memory.
    #[error("out of memory")]
    OutOfMemory,
}

impl From<AllocError> for PathRefusal {
    ghost from_gives = { λ _ refusal. refusal ≡ OutOfMemory };

    fn from(_error: AllocError) -> PathRefusal {
        PathRefusal::OutOfMemory
    }
}
