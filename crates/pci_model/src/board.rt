ghost use Rattle.std.specs.Prelude.{◌≡◌, ◌+◌, [], true, None, IfOk, IsTrue, is_ok, length, option_copied, if◌then◌else◌};
ghost use Rattle.byteorder.specs.Endian.{little_bytes};
ghost use Rattle.pci_model.specs.Below.{first_bus, functions_below};
ghost use Rattle.pci_model.specs.BoardAnswers.{GivesBoard};
ghost use Rattle.pci_model.specs.BoardLines.{find_at, functions, functions_on, location_of, rom_name_of, roots, secondary_of};
ghost use Rattle.pci_model.specs.BoardRules.{board_fault};
ghost use Rattle.pci_model.specs.Spaces.{has_range, space_of, space_written};
ghost use Rattle.pci_model.specs.Ways.{bridge_to};
ghost use Rattle.pci_model.specs.Devices.{IsSound, bar_read, bar_refusal, bar_written, board_of, config_read, config_refusal, config_written, ok_unless, is_access};

use crate::access::{device_at, is_past, low_bytes, number_at, write_bar, write_config};
use crate::below::{add_below, first_bus_within};
use crate::device::Device;
use crate::fault::BoardFault;
use crate::function::{Function, Location};
use crate::line::BoardLine;
use crate::numbers::CONFIG_SIZE;
use crate::refusal::DevRefusal;
use crate::rules::board_fault;
use crate::space::Space;
use crate::tables::{
    bridge_place, copies_of, device_table, function_at, function_table, name_in, number_table,
    root_table,
};
use fw_types::OutOfMemory;
use std::alloc::Global;
use std::collections::BTreeMap;
use std::marker::Model;

/// How many positions a bus has for functions: 8 of each of 32 devices.
const POSITIONS_ON_BUS: u16 = 256;

/// A board: its lines, and what drivers read and write of its functions. A function's number is its
/// place among the functions, including bridges, in line order from 0.
#[derive(Drop)]
pub struct Board {
    lines: Vec<BoardLine>,
    roots: Vec<(u32, u8)>,
    functions: Vec<Function>,
    numbers: BTreeMap<Location, u32>,
    devices: Vec<Device>,
}

impl Model for Board {
    ghost use Rattle.pci_model.specs.Devices.{BoardState};

    ghost Value = { BoardState };

    ghost view = { λ inside. record {
      lines = inside.lines.items;
      devices = inside.devices.items;
    } };

    ghost use Rattle.pci_model.specs.Indexed.{IsIndexed};

    ghost invariant = { λ inside.
        IsIndexed inside.lines.items inside.roots.items inside.functions.items inside.numbers
        inside.devices.items };
}

/// The board of lines, each of which is checked by the rules of a board, given the lines before it.
/// `line` of a fault counts from 1.
///
/// # Errors
///
/// For the first line that has a fault, the first of these that applies. `Extra`: a 17th root
/// bridge, or a 257th function, including bridges. `Number`: a device number over 31, a function
/// number over 7, the vendor 0xFFFF, a class over 24 bits, a secondary bus 0, a function on a bus
/// that is not declared, a BAR or a ROM of a function that is not declared, the index of a BAR over
/// 5 or, on a bridge, over 1, a size that is no power of two from 16 to 65,536, an address that is
/// no multiple of the size. `Duplicate`: a bus, a function, a BAR of a function or its ROM a second
/// time. Otherwise `OutOfMemory` if there is no memory for the board.
pub fn board_from(alloc: Global, lines: &[BoardLine]) -> Result<Board, BoardFault>
    ensures { GivesBoard result lines.now }
{
    if let Some(fault) = board_fault(lines) {
        return Err(fault);
    }
    Ok(board_of(alloc, lines)?)
}

/// The board of lines that have no fault.
fn board_of(alloc: Global, lines: &[BoardLine]) -> Result<Board, OutOfMemory>
    requires { board_fault lines.now ≡ None }
    ensures { IfOk result (λ board. board ≡ board_of lines.now) }
{
    let roots = root_table(alloc, lines)?;
    let functions = function_table(alloc, lines)?;
    let numbers = number_table(alloc, functions.as_slice())?;
    let devices = device_table(alloc, lines, functions.as_slice())?;
    let lines = copies_of(alloc, lines)?;
    Ok(Board {
        lines,
        roots,
        functions,
        numbers,
        devices,
    })
}

impl Board {
    /// The board of no lines: it has no root bridge and no function. Takes no memory.
    pub fn empty(alloc: Global) -> Board
        ensures { result ≡ board_of [] }
    {
        Board {
            lines: Vec::new(alloc),
            roots: Vec::new(alloc),
            functions: Vec::new(alloc),
            numbers: BTreeMap::new(alloc),
            devices: Vec::new(alloc),
        }
    }

    /// The lines, in order. Takes no memory.
    pub fn lines(&self) -> &[BoardLine]
        ensures { result.now ≡ self.now.lines }
    {
        self.lines.as_slice()
    }

    /// The _UID and the bus of each root bridge, in line order. Takes no memory.
    pub fn roots(&self) -> &[(u32, u8)]
        ensures { result.now ≡ roots self.now.lines }
    {
        self.roots.as_slice()
    }

    /// How many functions the board has, including bridges. Takes no memory.
    pub fn functions(&self) -> u32
        ensures { result ≡ length (functions self.now.lines) }
    {
        self.functions.len() as u32
    }

    /// Where function `f` is: its bus, its device number and its function number; `None` exactly if
    /// there is no such function. Takes no memory.
    pub fn location(&self, f: u32) -> Option<(u8, u8, u8)>
        ensures { result ≡ location_of self.now.lines f }
    {
        let function = function_at(self.functions.as_slice(), f)?;
        Some(function.location)
    }

    /// The function at a location; `None` exactly if there is none. Takes no memory.
    pub fn find(&self, bus: u8, device: u8, function: u8) -> Option<u32>
        ensures { result ≡ find_at self.now.lines (bus, device, function) }
    {
        self.numbers.get(&(bus, device, function)).copied()
    }

    /// The bus below function `f`; `None` exactly if `f` is no bridge. Takes no memory.
    pub fn secondary(&self, f: u32) -> Option<u8>
        ensures { result ≡ secondary_of self.now.lines f }
    {
        let function = function_at(self.functions.as_slice(), f)?;
        function.secondary
    }

    /// The bridge to a bus; `None` exactly if no bridge leads to it. Takes no memory.
    pub fn bridge_to(&self, bus: u8) -> Option<u32>
        ensures { result ≡ bridge_to self.now.lines bus }
    {
        let place = bridge_place(self.functions.as_slice(), bus)?;
        Some(place as u32)
    }

    /// The name of the file of the option ROM of function `f`; `None` exactly if it has none. Takes
    /// no memory.
    pub fn rom_name(&self, f: u32) -> Option<&str>
        ensures { option_copied result ≡ rom_name_of self.now.lines f }
    {
        let location = self.location(f)?;
        name_in(self.lines.as_slice(), location)
    }

    /// The functions on a bus, by device number, then by function number.
    ///
    /// # Errors
    ///
    /// `OutOfMemory` if there is no memory for the list.
    pub fn functions_of(&self, alloc: Global, bus: u8) -> Result<Vec<u32>, OutOfMemory>
        ensures { IfOk result (λ numbers. numbers.items ≡ functions_on self.now.lines bus) }
    {
        let mut numbers = Vec::new(alloc);
        for position in 0..POSITIONS_ON_BUS {
            if let Some(number) = self.find(bus, (position / 8) as u8, (position % 8) as u8) {
                numbers.push(number)?;
            }
        }
        Ok(numbers)
    }

    /// The functions on a bus and below it: those on the bus by device number, then by function
    /// number, each bridge followed by those on its own bus and below that.
    ///
    /// # Errors
    ///
    /// `OutOfMemory` if there is no memory for the list.
    pub fn functions_below(&self, alloc: Global, bus: u8) -> Result<Vec<u32>, OutOfMemory>
        ensures { IfOk result (λ numbers. numbers.items ≡ functions_below self.now.lines bus) }
    {
        let mut numbers = Vec::new(alloc);
        add_below(&mut numbers, alloc, self, self.functions(), bus)?;
        Ok(numbers)
    }

    /// The bus on which the way to function `f` begins: that of a root bridge. `None` exactly if
    /// there is no such function. Takes no memory.
    pub fn first_bus(&self, f: u32) -> Option<u8>
        ensures { result ≡ first_bus self.now.lines f }
    {
        first_bus_within(self, self.functions(), f)
    }

    /// The number in `n` bytes of configuration space of function `f` from `at` on, lowest byte
    /// first. `n` is 1, 2, 4 or 8. Takes no memory.
    ///
    /// # Errors
    ///
    /// `NoFunction` if there is no such function; otherwise `PastEnd` if a byte lies past the 256
    /// of configuration space.
    pub fn config_read(&self, f: u32, at: u64, n: u8) -> Result<u64, DevRefusal>
        requires { IsTrue (is_access n) }
        ensures { result ≡ config_read self.now f at n }
    {
        let Some(device) = device_at(self.devices.as_slice(), f) else {
            return Err(DevRefusal::NoFunction);
        };
        number_at(device.config(), at, n)
    }

    /// Writes the lowest `n` bytes of a number to configuration space of function `f` from `at` on,
    /// the lowest byte first. `n` is 1, 2, 4 or 8. Only the bytes 4 and 5, the command register,
    /// and 0x3C, the interrupt line, can be written: a write leaves the others as they are. Takes
    /// no memory.
    ///
    /// # Errors
    ///
    /// As `config_read`. After them the board is as before.
    pub fn config_write(&mut self, f: u32, at: u64, n: u8, value: u64) -> Result<(), DevRefusal>
        requires { IsTrue (is_access n) }
        ensures answer { result ≡ ok_unless (config_refusal self.old.lines f at n) tt }
        ensures written { self.new ≡ (if is_ok result
            then config_written f at (little_bytes n value) self.old else self.old) }
    {
        if f >= self.functions() {
            return Err(DevRefusal::NoFunction);
        }
        if is_past(CONFIG_SIZE, at, n) {
            return Err(DevRefusal::PastEnd);
        }
        write_config(
            self.devices.as_mut_slice(),
            f as usize,
            at,
            low_bytes(&value.to_le_bytes(), n),
        );
        Ok(())
    }

    /// The number in `n` bytes of the BAR `bar` of function `f` from `at` on, lowest byte first.
    /// `n` is 1, 2, 4 or 8. Takes no memory.
    ///
    /// # Errors
    ///
    /// In this order: `NoFunction` if there is no such function; `NoBar` if it has no such BAR;
    /// `PastEnd` if a byte lies past the BAR's end.
    pub fn bar_read(&self, f: u32, bar: u8, at: u64, n: u8) -> Result<u64, DevRefusal>
        requires { IsTrue (is_access n) }
        ensures { result ≡ bar_read self.now f bar at n }
    {
        let Some(device) = device_at(self.devices.as_slice(), f) else {
            return Err(DevRefusal::NoFunction);
        };
        let Some(bytes) = device.bar(bar) else {
            return Err(DevRefusal::NoBar);
        };
        number_at(bytes, at, n)
    }

    /// Writes the lowest `n` bytes of a number to the BAR `bar` of function `f` from `at` on, the
    /// lowest byte first. `n` is 1, 2, 4 or 8. Takes no memory.
    ///
    /// # Errors
    ///
    /// As `bar_read`. After them the board is as before.
    pub fn bar_write(
        &mut self,
        f: u32,
        bar: u8,
        at: u64,
        n: u8,
        value: u64,
    ) -> Result<(), DevRefusal>
        requires { IsTrue (is_access n) }
        ensures answer { result ≡ ok_unless (bar_refusal self.old.lines f bar at n) tt }
        ensures written { self.new ≡ (if is_ok result
            then bar_written f bar at (little_bytes n value) self.old else self.old) }
    {
        let Some(device) = device_at(self.devices.as_slice(), f) else {
            return Err(DevRefusal::NoFunction);
        };
        let Some(bytes) = device.bar(bar) else {
            return Err(DevRefusal::NoBar);
        };
        if is_past(bytes.len(), at, n) {
            return Err(DevRefusal::PastEnd);
        }
        write_bar(
            self.devices.as_mut_slice(),
            f as usize,
            bar,
            at,
            low_bytes(&value.to_le_bytes(), n),
        );
        Ok(())
    }

    /// The bytes of configuration space of function `f`, or of one of its BARs; `None` exactly if
    /// there is no such function or no such BAR. Takes no memory.
    pub fn space(&self, f: u32, space: Space) -> Option<&[u8]>
        ensures { option_copied result ≡ space_of self.now f space }
    {
        let device = device_at(self.devices.as_slice(), f)?;
        match space {
            Space::Config => Some(device.config()),
            Space::Bar(bar) => device.bar(bar),
        }
    }

    /// Writes bytes to configuration space of function `f`, or to one of its BARs, from `at` on.
    /// All of them lie in it. Of configuration space only the bytes 4 and 5, the command register,
    /// and 0x3C, the interrupt line, can be written: a write leaves the others as they are. Takes
    /// no memory.
    pub fn write_space(&mut self, f: u32, space: Space, at: u64, bytes: &[u8])
        requires { has_range (space_of self.old f space) (at + length bytes.now) ≡ true }
        ensures { self.new ≡ space_written f space at bytes.now self.old }
    {
        match space {
            Space::Config => write_config(self.devices.as_mut_slice(), f as usize, at, bytes),
            Space::Bar(bar) => write_bar(self.devices.as_mut_slice(), f as usize, bar, at, bytes),
        }
    }

    /// What holds of every board: its lines have no fault, and each function has its device, with
    /// 256 bytes of configuration space and the BARs of its lines. Takes no memory.
    pub fn soundness(&self)
        ensures { IsSound self.now }
    {
        let _lines = &self.lines;
    }
}
