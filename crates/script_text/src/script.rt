ghost use Rattle.std.specs.Prelude.{◌≡◌};
ghost use Rattle.script_text.specs.declared.script.ScriptFault.TheVariants.{OutOfMemory};

use fw_types::{Command, Rows};
use pci_model::BoardLine;
use thiserror::Error;

/// The most bytes of a line.
pub const MOST_LINE_BYTES: usize = 1024;

/// The most lines of a script.
pub const MOST_LINES: u32 = 100_000;

/// The most bytes of the name of a file.
pub const MOST_NAME_BYTES: usize = 255;

/// The most handles in the list at the end of a line.
pub const MOST_LISTED_HANDLES: usize = 64;

/// A script: the board on which it is replayed, and what is asked for.
#[derive(Debug, PartialEq, Drop)]
pub struct Script {
    /// The lines of the board, in their order.
    pub board: Rows<BoardLine>,
    /// The commands, in the order of their lines.
    pub commands: Rows<Command>,
}

/// What a line gives.
#[derive(Debug, PartialEq, Drop)]
pub enum Item {
    /// A line of the board.
    Board(BoardLine),
    /// A command.
    Command(Command),
}

/// Why a line is refused, in the order in which the kinds count.
#[derive(Clone, Copy, Debug, PartialEq, Eq)]
pub enum ScriptKind {
    /// The line has over 1,024 bytes, its number is over 100,000, or the name of a file in it has
    /// over 255 bytes.
    TooLong,
    /// A byte is neither a tab nor a printable ASCII character.
    NotAscii,
    /// The first word, or the word for recursion or for a path, is not one that the grammar has.
    UnknownWord,
    /// The line has too few words.
    Missing,
    /// The line has too many words, or a list of over 64 handles, or it is a 17th `root` line or
    /// gives a 257th function.
    Extra,
    /// A number is malformed, does not fit in 64 bits or is out of its range, or no earlier line
    /// declares the bus or the function.
    Number,
    /// It is a line of the board after a command.
    BoardLate,
    /// It declares a bus, or gives a function, a BAR or an option ROM, a second time.
    Duplicate,
}

/// Why a script was not read.
#[derive(Clone, Copy, Debug, PartialEq, Eq, Error)]
pub enum ScriptFault {
    /// A line of it is refused: the first such line, counted from 1, and the first kind that holds
    /// for it.
    #[error("a line is refused")]
    Refused { line: u32, kind: ScriptKind },
    /// There was no memory for its lines.
    #[error("out of memory")]
    OutOfMemory,
}

impl From<fw_types::OutOfMemory> for ScriptFault {
    ghost from_gives = { λ _ fault. fault ≡ OutOfMemory };

    fn from(_error: fw_types::OutOfMemory) -> ScriptFault {
        ScriptFault::OutOfMemory
    }
}
