ghost use Rattle.std.specs.Prelude.{◌≡◌};
ghost use Rattle.pci_model.specs.BoardRules.{fault_on};
ghost use Rattle.pci_model.specs.declared.fault.BoardFault.TheVariants.{OutOfMemory as NoMemory};

use fw_types::OutOfMemory;
use thiserror::Error;

/// What is wrong with a line, given the lines before it.
#[derive(Clone, Copy, Debug, PartialEq, Eq, Error)]
pub enum LineFault {
    /// The board has as many root bridges, or as many functions, as it may have.
    #[error("the board has too many roots or functions")]
    Extra,
    /// A number is out of its range, or the bus or the function is not there.
    #[error("a number of the line is out of range")]
    Number,
    /// The bus, the function, the BAR or the ROM is there already.
    #[error("the line repeats another")]
    Duplicate,
}

/// Why lines are no board. `line` is the place in the list of the line that is refused, from 1.
#[derive(Clone, Copy, Debug, PartialEq, Eq, Error)]
pub enum BoardFault {
    /// A 17th root bridge or a 257th function.
    #[error("line {line} is one root or function too many")]
    Extra { line: u32 },
    /// A number is out of its range, or the bus or the function is not there.
    #[error("a number of line {line} is out of range")]
    Number { line: u32 },
    /// The bus, the function, the BAR or the ROM is there already.
    #[error("line {line} repeats another")]
    Duplicate { line: u32 },
    /// There was no memory.
    #[error("out of memory")]
    OutOfMemory,
}

impl From<OutOfMemory> for BoardFault {
    ghost from_gives = { λ _ fault. fault ≡ NoMemory };

    fn from(_error: OutOfMemory) -> BoardFault {
        BoardFault::OutOfMemory
    }
}

impl LineFault {
    /// The fault of a board, for this fault on a line.
    pub(crate) fn on(self, line: u32) -> BoardFault
        ensures { result ≡ fault_on self line }
    {
        match self {
            LineFault::Extra => BoardFault::Extra { line },
            LineFault::Number => BoardFault::Number { line },
            LineFault::Duplicate => BoardFault::Duplicate { line },
        }
    }
}
