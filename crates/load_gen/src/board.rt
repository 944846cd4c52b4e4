ghost use Rattle.std.specs.Prelude.{◌≡◌, ◌<◌, ◌≤◌, None, IfOk};
ghost use Rattle.pci_model.specs.BoardRules.{board_fault};
ghost use Rattle.load_gen.specs.GeneratedLoad.{board_lines, function_line};

use fw_types::OutOfMemory;
use pci_model::BoardLine;
use pci_model::laws::lines_are_checked;
use std::alloc::Global;

/// The vendor ID of every function.
const VENDOR: u16 = 0x1AF4;

/// The device ID of the function with the number 0. The others follow.
const FIRST_ID: u16 = 0x1000;

/// The class of every function: an Ethernet controller.
const CLASS: u32 = 0x02_0000;

/// The line of the function with a number: 8 functions to a device.
fn function_line(number: u32) -> BoardLine
    requires { number < 256 }
    ensures { result ≡ function_line number }
{
    BoardLine::Func {
        bus: 0,
        device: (number / 8) as u8,
        function: (number % 8) as u8,
        vendor: VENDOR,
        id: FIRST_ID + number as u16,
        class: CLASS,
    }
}

/// The lines of the board: a root bridge, and so many functions.
///
/// # Errors
///
/// `OutOfMemory` if there is no memory for the lines.
pub fn board_lines(alloc: Global, size: u32) -> Result<Vec<BoardLine>, OutOfMemory>
    requires { size ≤ 256 }
    ensures lines { IfOk result (λ lines. lines.items ≡ board_lines size) }
    ensures board { IfOk result (λ lines. board_fault lines.items ≡ None) }
{
    lines_are_checked();
    let mut lines = Vec::new(alloc);
    lines.push(BoardLine::Root { uid: 0, bus: 0 })?;
    for number in 0..size {
        lines.push(function_line(number))?;
    }
    Ok(lines)
}
