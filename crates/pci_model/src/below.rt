//! What is below a bus, and the bus on which the way to a function begins (PCI-to-PCI Bridge
//! Architecture 1.2, 1: Introduction).
ghost use Rattle.std.specs.Prelude.{◌≡◌, ◌++◌, ◌∷◌, [], OnOk, option_map, slice_get};
ghost use Rattle.std.specs.Option.{option_map_or};
ghost use Rattle.pci_model.specs.Below.{functions_within};
ghost use Rattle.pci_model.specs.BoardLines.{secondary_of};
ghost use Rattle.pci_model.specs.Ways.{way_within};

use crate::board::Board;
use fw_types::OutOfMemory;
use std::alloc::Global;

/// Appends the functions on a bus and below it, of at most so many buses one below the other.
///
/// # Errors
///
/// `OutOfMemory` if there is no memory for them.
#[cycle(below)]
#[tactic(auto, unfolding(crate::specs::Below::functions_within))]
pub fn add_below(
    numbers: &mut Vec<u32>,
    alloc: Global,
    board: &Board,
    most: u32,
    bus: u8,
) -> Result<(), OutOfMemory>
    ensures { OnOk result (numbers.new.items
        ≡ numbers.old.items ++ functions_within most board.now.lines bus) }
{
    if most == 0 {
        return Ok(());
    }
    let on_bus = board.functions_of(alloc, bus)?;
    for number in on_bus.as_slice() {
        add_function(numbers, alloc, board, most - 1, *number)?;
    }
    Ok(())
}

/// Appends a function and, if it is a bridge, those below it.
///
/// # Errors
///
/// `OutOfMemory` if there is no memory for them.
#[cycle(below)]
fn add_function(
    numbers: &mut Vec<u32>,
    alloc: Global,
    board: &Board,
    most: u32,
    number: u32,
) -> Result<(), OutOfMemory>
    ensures { OnOk result (numbers.new.items ≡ numbers.old.items ++ (number ∷
        option_map_or (functions_within most board.now.lines) (secondary_of board.now.lines number)
        [])) }
{
    numbers.push(number)?;
    match board.secondary(number) {
        Some(bus) => add_below(numbers, alloc, board, most, bus),
        None => Ok(()),
    }
}

/// The bus on which the way to function `f` begins, if the way has at most so many functions.
#[tactic(auto, unfolding(crate::specs::Ways::way_within))]
pub fn first_bus_within(board: &Board, most: u32, f: u32) -> Option<u8>
    ensures { result ≡ option_map (λ location. location.0)
        (slice_get (way_within most board.now.lines f) 0) }
{
    if most == 0 {
        return None;
    }
    let (bus, _, _) = board.location(f)?;
    let Some(bridge) = board.bridge_to(bus) else {
        return Some(bus);
    };
    match first_bus_within(board, most - 1, bridge) {
        Some(first) => Some(first),
        None => Some(bus),
    }
}
