ghost use Rattle.std.specs.Prelude.{◌≡◌, string_bytes};
ghost use Rattle.image_tools.specs.Tools.{answer};
ghost use Rattle.image_tools.specs.declared.answer.Stop.TheVariants.{Memory as MemoryStop};

use fw_types::{OutOfMemory, Rows};
use std::alloc::AllocFailed;

/// What the tools answer to their words.
#[derive(Debug, Drop)]
pub struct Answer {
    /// The status with which the program ends.
    pub status: u8,
    /// The bytes that it writes.
    pub output: Rows<u8>,
}

/// The answer of a status and a text. Takes no memory.
pub fn text_answer(status: u8, text: String) -> Answer
    ensures { result ≡ answer status (string_bytes text) }
{
    Answer {
        status,
        output: Rows::of(text.into_bytes()),
    }
}

/// Why the tools gave up before they wrote anything.
#[derive(Clone, Copy, Debug, PartialEq, Eq)]
pub enum Stop {
    /// The shelf failed.
    Shelf,
    /// There was no memory.
    Memory,
}

impl From<OutOfMemory> for Stop {
    ghost from_gives = { λ _ stop. stop ≡ MemoryStop };

    fn from(_error: OutOfMemory) -> Stop {
        Stop::Memory
    }
}

impl<T: Drop> From<AllocFailed<T>> for Stop {
    ghost from_gives = { λ _ stop. stop ≡ MemoryStop };

    fn from(_error: AllocFailed<T>) -> Stop {
        Stop::Memory
    }
}
