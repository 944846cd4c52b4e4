//! The rules of a board's lines, one function each, in their order.
ghost use Rattle.std.specs.Prelude.{◌≡◌, length};
ghost use Rattle.pci_model.specs.BoardLines.{find_at, functions, has_bus, roots};
ghost use Rattle.pci_model.specs.BoardRules.{board_fault, has_bar, has_bridge, has_bad_class, has_bad_index, has_bad_location, has_bad_size, has_bad_vendor, has_rom, highest_index, is_bridge_at, is_extra_function, is_extra_root, has_bad_range, is_of_no_function, is_off_bus, is_on_undeclared_bus, is_same_bar, leads_to_bus_0, line_fault, repeats_bar, repeats_bus, repeats_function, repeats_rom};

use crate::fault::{BoardFault, LineFault};
use crate::function::{BarRange, Function, Location, is_at};
use crate::line::BoardLine;
use crate::numbers::{
    HIGHEST_BAR, HIGHEST_BRIDGE_BAR, HIGHEST_CLASS, HIGHEST_DEVICE, HIGHEST_FUNCTION,
    HIGHEST_VENDOR, LARGEST_BAR, MOST_FUNCTIONS, MOST_ROOTS, SMALLEST_BAR,
};

/// What is wrong with a line, given the lines before it: the first rule that it breaks. Takes no
/// memory.
#[tactic(auto, unfolding(crate::specs::BoardRules::line_fault))]
pub fn line_fault(before: &[BoardLine], line: &BoardLine) -> Option<LineFault>
    ensures { result ≡ line_fault before.now line.now }
{
    if is_extra_root(before, line) {
        return Some(LineFault::Extra);
    }
    if is_extra_function(before, line) {
        return Some(LineFault::Extra);
    }
    if has_bad_location(line) {
        return Some(LineFault::Number);
    }
    if has_bad_vendor(line) {
        return Some(LineFault::Number);
    }
    if has_bad_class(line) {
        return Some(LineFault::Number);
    }
    if leads_to_bus_0(line) {
        return Some(LineFault::Number);
    }
    if is_on_undeclared_bus(before, line) {
        return Some(LineFault::Number);
    }
    if is_of_no_function(before, line) {
        return Some(LineFault::Number);
    }
    if has_bad_index(before, line) {
        return Some(LineFault::Number);
    }
    if has_bad_range(line) {
        return Some(LineFault::Number);
    }
    if repeats_bus(before, line) {
        return Some(LineFault::Duplicate);
    }
    if repeats_function(before, line) {
        return Some(LineFault::Duplicate);
    }
    if repeats_bar(before, line) {
        return Some(LineFault::Duplicate);
    }
    if repeats_rom(before, line) {
        return Some(LineFault::Duplicate);
    }
    None
}

fn is_extra_root(before: &[BoardLine], line: &BoardLine) -> bool
    ensures { result ≡ is_extra_root before.now line.now }
{
    line.root().is_some() && root_count(before) >= MOST_ROOTS
}

fn is_extra_function(before: &[BoardLine], line: &BoardLine) -> bool
    ensures { result ≡ is_extra_function before.now line.now }
{
    line.function().is_some() && function_count(before) >= MOST_FUNCTIONS
}

fn has_bad_location(line: &BoardLine) -> bool
    ensures { result ≡ has_bad_location line.now }
{
    line.named_location().is_some_and(is_off_bus)
}

fn has_bad_vendor(line: &BoardLine) -> bool
    ensures { result ≡ has_bad_vendor line.now }
{
    line.function()
        .is_some_and(|function| function.vendor > HIGHEST_VENDOR)
}

fn has_bad_class(line: &BoardLine) -> bool
    ensures { result ≡ has_bad_class line.now }
{
    line.function()
        .is_some_and(|function| function.class > HIGHEST_CLASS)
}

fn leads_to_bus_0(line: &BoardLine) -> bool
    ensures { result ≡ leads_to_bus_0 line.now }
{
    line.function()
        .is_some_and(|function| function.secondary == Some(0))
}

fn is_on_undeclared_bus(before: &[BoardLine], line: &BoardLine) -> bool
    ensures { result ≡ is_on_undeclared_bus before.now line.now }
{
    line.function()
        .is_some_and(|function| !has_bus(before, function.location.0))
}

fn is_of_no_function(before: &[BoardLine], line: &BoardLine) -> bool
    ensures { result ≡ is_of_no_function before.now line.now }
{
    line.part_location()
        .is_some_and(|location| find_at(before, location).is_none())
}

fn has_bad_index(before: &[BoardLine], line: &BoardLine) -> bool
    ensures { result ≡ has_bad_index before.now line.now }
{
    line.range().is_some_and(|range| range.index > highest_index(before, range.location))
}

fn has_bad_range(line: &BoardLine) -> bool
    ensures { result ≡ has_bad_range line.now }
{
    line.range().is_some_and(|range| has_bad_size(&range) || range.address % range.size != 0)
}

fn repeats_bus(before: &[BoardLine], line: &BoardLine) -> bool
    ensures { result ≡ repeats_bus before.now line.now }
{
    line.declared_bus().is_some_and(|bus| has_bus(before, bus))
}

fn repeats_function(before: &[BoardLine], line: &BoardLine) -> bool
    ensures { result ≡ repeats_function before.now line.now }
{
    line.function()
        .is_some_and(|function| find_at(before, function.location).is_some())
}

fn repeats_bar(before: &[BoardLine], line: &BoardLine) -> bool
    ensures { result ≡ repeats_bar before.now line.now }
{
    line.range().is_some_and(|range| has_bar(before, &range))
}

fn repeats_rom(before: &[BoardLine], line: &BoardLine) -> bool
    ensures { result ≡ repeats_rom before.now line.now }
{
    line.rom_location()
        .is_some_and(|location| has_rom(before, location))
}

fn is_off_bus(location: Location) -> bool
    ensures { result ≡ is_off_bus location }
{
    location.1 > HIGHEST_DEVICE || location.2 > HIGHEST_FUNCTION
}

// What the lines before a line say.

fn root_count(lines: &[BoardLine]) -> usize
    ensures { result ≡ length (roots lines.now) }
{
    lines.iter().filter_map(|line| line.root()).count()
}

fn function_count(lines: &[BoardLine]) -> usize
    ensures { result ≡ length (functions lines.now) }
{
    lines.iter().filter_map(|line| line.function()).count()
}

fn has_bus(lines: &[BoardLine], bus: u8) -> bool
    ensures { result ≡ has_bus lines.now bus }
{
    lines.iter().any(|line| line.declares(bus))
}

fn find_at(lines: &[BoardLine], location: Location) -> Option<usize>
    ensures { result ≡ find_at lines.now location }
{
    lines
        .iter()
        .filter_map(|line| line.function())
        .position(|function| is_at(function.location, location))
}

fn highest_index(lines: &[BoardLine], location: Location) -> u8
    ensures { result ≡ highest_index lines.now location }
{
    if has_bridge(lines, location) {
        HIGHEST_BRIDGE_BAR
    } else {
        HIGHEST_BAR
    }
}

fn has_bridge(lines: &[BoardLine], location: Location) -> bool
    ensures { result ≡ has_bridge lines.now location }
{
    lines
        .iter()
        .filter_map(|line| line.function())
        .any(|function| is_bridge_at(location, &function))
}

fn is_bridge_at(location: Location, function: &Function) -> bool
    ensures { result ≡ is_bridge_at location function.now }
{
    is_at(function.location, location) && function.secondary.is_some()
}

fn has_bad_size(range: &BarRange) -> bool
    ensures { result ≡ has_bad_size range.now }
{
    !range.size.is_power_of_two() || range.size < SMALLEST_BAR || range.size > LARGEST_BAR
}

fn has_bar(lines: &[BoardLine], range: &BarRange) -> bool
    ensures { result ≡ has_bar lines.now range.now }
{
    lines
        .iter()
        .filter_map(|line| line.range())
        .any(|other| is_same_bar(range, &other))
}

fn is_same_bar(range: &BarRange, other: &BarRange) -> bool
    ensures { result ≡ is_same_bar range.now other.now }
{
    is_at(other.location, range.location) && other.index == range.index
}

fn has_rom(lines: &[BoardLine], location: Location) -> bool
    ensures { result ≡ has_rom lines.now location }
{
    lines
        .iter()
        .filter_map(|line| line.rom_location())
        .any(|other| is_at(other, location))
}

/// Why lines are no board: the fault of the first line that has one.
pub fn board_fault(lines: &[BoardLine]) -> Option<BoardFault>
    ensures { result ≡ board_fault lines.now }
{
    for (place, line) in lines.iter().enumerate() {
        if let Some(fault) = line_fault(&lines[..place], line) {
            return Some(fault.on(place as u32 + 1));
        }
    }
    None
}
