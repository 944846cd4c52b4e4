ghost use Rattle.std.specs.Prelude.{◌≡◌, ◌*◌, ◌≤◌, None, IfOk, length, true};
ghost use Rattle.std.specs.List.{list_all};
ghost use Rattle.fw_types.specs.Commands.{has_legal_budgets};
ghost use Rattle.pci_model.specs.BoardRules.{board_fault};
ghost use Rattle.load_gen.specs.GeneratedLoad.{script, shelf};

use crate::board::board_lines;
use crate::commands::commands;
use crate::files::shelf;
use fw_shelf::MemShelf;
use fw_types::{OutOfMemory, Rows};
use script_text::Script;
use std::alloc::Global;

/// The largest size of a load: as many functions as a board may have.
pub const LARGEST_LOAD: u32 = 256;

/// The load of a size from 1 to 256: a script, and the shelf with its file.
///
/// The board of the script is `root 0 0` and so many functions on bus 0, 8 to a device. Its commands
/// are `load s.efi` so many times, and then `connect 3 one none` and `disconnect 3 0 0` so many
/// times. The shelf has the image of the smallest driver under the name `s.efi`, and never fails.
///
/// # Errors
///
/// `OutOfMemory` if there is no memory for the script or the file.
pub fn generate(alloc: Global, size: u32) -> Result<(Script, MemShelf), OutOfMemory>
    requires least { 1 ≤ size }
    requires most { size ≤ LARGEST_LOAD }
    ensures script { IfOk result (λ load. load.0 ≡ script size) }
    ensures shelf { IfOk result (λ load. load.1 ≡ shelf) }
    // What a machine requires of a script.
    ensures board { IfOk result (λ load. board_fault load.0.board ≡ None) }
    ensures budgets { IfOk result (λ load. list_all has_legal_budgets load.0.commands ≡ true) }
    ensures count { IfOk result (λ load. length load.0.commands ≡ 3 * size) }
{
    let script = Script {
        board: Rows::of(board_lines(alloc, size)?),
        commands: Rows::of(commands(alloc, size)?),
    };
    Ok((script, shelf(alloc)?))
}
