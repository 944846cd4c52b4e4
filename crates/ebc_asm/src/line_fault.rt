ghost use Rattle.std.specs.Prelude.{◌≡◌};
ghost use Rattle.ebc_asm.specs.declared.line_fault.LineFault.TheVariants.{OutOfMemory, Refused};

use crate::fault::AsmKind;
use std::alloc::{AllocError, AllocFailed};

/// Why a line has no bytes.
#[derive(Clone, Copy, Debug, PartialEq, Eq)]
pub enum LineFault {
    Refused(AsmKind),
    OutOfMemory,
}

impl From<AsmKind> for LineFault {
    ghost from_gives = { λ kind stop. stop ≡ Refused kind };

    fn from(kind: AsmKind) -> LineFault {
        LineFault::Refused(kind)
    }
}

impl From<AllocError> for LineFault {
    ghost from_gives = { λ _ stop. stop ≡ OutOfMemory };

    fn from(_error: AllocError) -> LineFault {
        LineFault::OutOfMemory
    }
}

impl<T: Drop> From<AllocFailed<T>> for LineFault {
    ghost from_gives = { λ _ stop. stop ≡ OutOfMemory };

    fn from(_error: AllocFailed<T>) -> LineFault {
        LineFault::OutOfMemory
    }
}
