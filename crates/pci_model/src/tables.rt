//! What a board keeps next to its lines, made from them.
ghost use Rattle.std.specs.Prelude.{◌≡◌, ◌≤◌, ◌<◌, None, IfOk, IfSome, length, map, option_copied, slice_get};
ghost use Rattle.pci_model.specs.Ways.{leads_to};
ghost use Rattle.std.specs.BTreeMap.{get};
ghost use Rattle.std.specs.List.{filter_map, position};
ghost use Rattle.pci_model.specs.BoardLines.{Location as LocationValue, functions, is_at, name_at, ranges_at, roots};
ghost use Rattle.pci_model.specs.BoardRules.{board_fault};
ghost use Rattle.pci_model.specs.ConfigSpace.{first_device};
ghost use Rattle.pci_model.specs.Indexed.{OnceEach, location_cmp};
ghost use Rattle.pci_model.specs.declared.function.Function.{Function as FunctionValue};

use crate::device::Device;
use crate::function::{BarRange, Function, Location, is_at};
use crate::line::BoardLine;
use fw_types::OutOfMemory;
use std::alloc::Global;
use std::collections::BTreeMap;

/// The _UID and the bus of each root bridge, in line order.
pub fn root_table(alloc: Global, lines: &[BoardLine]) -> Result<Vec<(u32, u8)>, OutOfMemory>
    ensures { IfOk result (λ table. table.items ≡ roots lines.now) }
{
    Ok(lines.iter().filter_map(|line| line.root()).collect(alloc)?)
}

/// The functions, in line order.
pub fn function_table(alloc: Global, lines: &[BoardLine]) -> Result<Vec<Function>, OutOfMemory>
    ensures { IfOk result (λ table. table.items ≡ functions lines.now) }
{
    Ok(
        lines
            .iter()
            .filter_map(|line| line.function())
            .collect(alloc)?,
    )
}

/// The number of the function at each location. No two of the functions are at one location.
pub fn number_table(
    alloc: Global,
    functions: &[Function],
) -> Result<BTreeMap<Location, u32>, OutOfMemory>
    requires few { length functions.now ≤ 256 }
    requires once { OnceEach functions.now }
    ensures { IfOk result (λ table. (location : LocationValue) → get location_cmp table location
        ≡ position (λ (function : FunctionValue). is_at function.location location) functions.now) }
{
    let mut table = BTreeMap::new(alloc);
    for (number, function) in functions.iter().enumerate() {
        table.insert(function.location, number as u32)?;
    }
    Ok(table)
}

/// The device of each function, before anything is written.
pub fn device_table(
    alloc: Global,
    lines: &[BoardLine],
    functions: &[Function],
) -> Result<Vec<Device>, OutOfMemory>
    requires { board_fault lines.now ≡ None }
    ensures { IfOk result (λ table. table.items ≡ map (first_device lines.now) functions.now) }
{
    let mut table = Vec::with_capacity(alloc, functions.len())?;
    for function in functions {
        table.push(device_of(alloc, lines, function)?)?;
    }
    Ok(table)
}

fn device_of(alloc: Global, lines: &[BoardLine], function: &Function) -> Result<Device, OutOfMemory>
    requires { board_fault lines.now ≡ None }
    ensures { IfOk result (λ device. device ≡ first_device lines.now function.now) }
{
    let ranges = ranges_at(alloc, lines, function.location)?;
    Device::new(alloc, function, ranges.as_slice())
}

/// The BARs of the function at a location, in line order.
fn ranges_at(
    alloc: Global,
    lines: &[BoardLine],
    location: Location,
) -> Result<Vec<BarRange>, OutOfMemory>
    ensures { IfOk result (λ ranges. ranges.items ≡ ranges_at lines.now location) }
{
    Ok(
        lines
            .iter()
            .filter_map(|line| line.range())
            .filter(|range| is_at(range.location, location))
            .collect(alloc)?,
    )
}

/// Equal lines.
pub fn copies_of(alloc: Global, lines: &[BoardLine]) -> Result<Vec<BoardLine>, OutOfMemory>
    ensures { IfOk result (λ copies. copies.items ≡ lines.now) }
{
    let mut copies = Vec::with_capacity(alloc, lines.len())?;
    for line in lines {
        copies.push(line.duplicate(alloc)?)?;
    }
    Ok(copies)
}

/// The function of a number.
pub fn function_at(functions: &[Function], number: u32) -> Option<Function>
    ensures { result ≡ slice_get functions.now number }
{
    functions.get(number as usize).copied()
}

/// Where the bridge to a bus is among functions.
pub fn bridge_place(functions: &[Function], bus: u8) -> Option<usize>
    ensures there { result ≡ position (leads_to bus) functions.now }
    ensures within { IfSome result (λ place. place < length functions.now) }
{
    functions
        .iter()
        .position(|function| function.secondary == Some(bus))
}

/// The name of the file of the ROM of the function at a location.
pub fn name_in(lines: &[BoardLine], location: Location) -> Option<&str>
    ensures { option_copied result ≡ slice_get (filter_map (name_at location) lines.now) 0 }
{
    for line in lines {
        if let Some(name) = line.name_at(location) {
            return Some(name);
        }
    }
    None
}
