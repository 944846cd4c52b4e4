ghost use Rattle.std.specs.Prelude.{◌≡◌};
ghost use Rattle.ebc_asm.specs.declared.fault.AsmFault.TheVariants.{OutOfMemory};

use std::alloc::{AllocError, AllocFailed};
use thiserror::Error;

/// Why a line is refused.
#[derive(Clone, Copy, Debug, PartialEq, Eq, Error)]
pub enum AsmKind {
    /// The line begins with no instruction's name, nor with `.byte`.
    #[error("there is no such name")]
    UnknownWord,
    /// An operand is wrong, is missing or is one too many, or no bytes encode the instruction.
    #[error("a wrong operand")]
    Operand,
    /// A number is malformed.
    #[error("a malformed number")]
    Number,
    /// A label is missing or repeated.
    #[error("a label that is missing or repeated")]
    Label,
    /// A number or a distance does not fit, or the distance of JMP8 is odd.
    #[error("a number that does not fit")]
    Range,
}

/// Why a text is not assembled.
#[derive(Clone, Copy, Debug, PartialEq, Eq, Error)]
pub enum AsmFault {
    /// The first line that is refused, counted from 1, and its first fault from left to right.
    #[error("line {line}: {kind}")]
    Refused { line: u32, kind: AsmKind },
    /// There is no memory for the bytes or the labels.
    #[error("out of memory")]
    OutOfMemory,
}

impl From<fw_types::OutOfMemory> for AsmFault {
    ghost from_gives = { λ _ fault. fault ≡ OutOfMemory };

    fn from(_error: fw_types::OutOfMemory) -> AsmFault {
        AsmFault::OutOfMemory
    }
}

impl From<AllocError> for AsmFault {
    ghost from_gives = { λ _ fault. fault ≡ OutOfMemory };

    fn from(_error: AllocError) -> AsmFault {
        AsmFault::OutOfMemory
    }
}

impl<T: Drop> From<AllocFailed<T>> for AsmFault {
    ghost from_gives = { λ _ fault. fault ≡ OutOfMemory };

    fn from(_error: AllocFailed<T>) -> AsmFault {
        AsmFault::OutOfMemory
    }
}
