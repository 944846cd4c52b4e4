ghost use Rattle.std.specs.Prelude.{◌≡◌, IfOk, option_copied};
ghost use Rattle.pci_model.specs.BoardLines.{declared_bus, declares, function_of, name_at, named_location, part_location, range_of, rom_location, root_of};

use crate::function::{BarRange, Function, Location, is_at};
use crate::numbers::BRIDGE_CLASS;
use fw_types::{OutOfMemory, Text};
use std::alloc::Global;

/// A line of a board.
///
/// A function is named by its bus (0 to 255), its device number on the bus (0 to 31) and its
/// function number in the device (0 to 7).
#[derive(Debug, PartialEq, Drop)]
pub enum BoardLine {
    /// A root bridge (UEFI 2.8, 10.3.3: ACPI Device Path), with its _UID, and the bus below it.
    Root {
        uid: u32,
        bus: u8,
    },
    /// A function, with its vendor and device IDs (0xFFFF is no vendor) and its class code of 24
    /// bits: the base class in bits 23:16, the sub-class in bits 15:8, the programming interface in
    /// bits 7:0.
    Func {
        bus: u8,
        device: u8,
        function: u8,
        vendor: u16,
        id: u16,
        class: u32,
    },
    /// A PCI-to-PCI bridge: a function of class 0x060400 with a bus below it, its secondary bus (1
    /// to 255).
    Bridge {
        bus: u8,
        device: u8,
        function: u8,
        vendor: u16,
        id: u16,
        secondary: u8,
    },
    /// A 32-bit memory BAR of a function: its index (0 to 5, on a bridge 0 or 1), its address, a
    /// multiple of its size, and its size in bytes, a power of two from 16 to 65,536.
    Bar {
        bus: u8,
        device: u8,
        function: u8,
        index: u8,
        address: u32,
        size: u32,
    },
    /// The file of a function's option ROM.
    Rom {
        bus: u8,
        device: u8,
        function: u8,
        name: Text,
    },
}

impl BoardLine {
    /// The _UID and the bus of a root bridge.
    pub(crate) fn root(&self) -> Option<(u32, u8)>
        ensures { result ≡ root_of self.now }
    {
        match self {
            BoardLine::Root { uid, bus } => Some((*uid, *bus)),
            _ => None,
        }
    }

    /// The function that the line gives.
    pub(crate) fn function(&self) -> Option<Function>
        ensures { result ≡ function_of self.now }
    {
        match self {
            BoardLine::Func {
                bus,
                device,
                function,
                vendor,
                id,
                class,
            } => Some(Function {
                location: (*bus, *device, *function),
                vendor: *vendor,
                id: *id,
                class: *class,
                secondary: None,
            }),
            BoardLine::Bridge {
                bus,
                device,
                function,
                vendor,
                id,
                secondary,
            } => Some(Function {
                location: (*bus, *device, *function),
                vendor: *vendor,
                id: *id,
                class: BRIDGE_CLASS,
                secondary: Some(*secondary),
            }),
            _ => None,
        }
    }

    /// The BAR that the line gives.
    pub(crate) fn range(&self) -> Option<BarRange>
        ensures { result ≡ range_of self.now }
    {
        match self {
            BoardLine::Bar {
                bus,
                device,
                function,
                index,
                address,
                size,
            } => Some(BarRange {
                location: (*bus, *device, *function),
                index: *index,
                address: *address,
                size: *size,
            }),
            _ => None,
        }
    }

    /// Where the function is whose ROM the line gives.
    pub(crate) fn rom_location(&self) -> Option<Location>
        ensures { result ≡ rom_location self.now }
    {
        match self {
            BoardLine::Rom {
                bus,
                device,
                function,
                name: _,
            } => Some((*bus, *device, *function)),
            _ => None,
        }
    }

    /// The name of the file of a ROM, if it is that of the function at a location.
    pub(crate) fn name_at(&self, location: Location) -> Option<&str>
        ensures { option_copied result ≡ name_at location self.now }
    {
        match self {
            BoardLine::Rom {
                bus,
                device,
                function,
                name,
            } if is_at((*bus, *device, *function), location) => Some(name.as_str()),
            _ => None,
        }
    }

    /// Where the function is whose BAR or ROM the line gives.
    pub(crate) fn part_location(&self) -> Option<Location>
        ensures { result ≡ part_location self.now }
    {
        match self {
            BoardLine::Bar {
                bus,
                device,
                function,
                ..
            }
            | BoardLine::Rom {
                bus,
                device,
                function,
                ..
            } => Some((*bus, *device, *function)),
            _ => None,
        }
    }

    /// Where the function is that the line gives, or whose BAR or ROM it gives.
    pub(crate) fn named_location(&self) -> Option<Location>
        ensures { result ≡ named_location self.now }
    {
        match self.function() {
            Some(function) => Some(function.location),
            None => self.part_location(),
        }
    }

    /// The bus that the line declares.
    pub(crate) fn declared_bus(&self) -> Option<u8>
        ensures { result ≡ declared_bus self.now }
    {
        match self {
            BoardLine::Root { uid: _, bus } => Some(*bus),
            BoardLine::Bridge { secondary, .. } => Some(*secondary),
            _ => None,
        }
    }

    /// Whether the line declares a bus.
    pub(crate) fn declares(&self, bus: u8) -> bool
        ensures { result ≡ declares bus self.now }
    {
        self.declared_bus() == Some(bus)
    }

    /// An equal line.
    pub(crate) fn duplicate(&self, alloc: Global) -> Result<BoardLine, OutOfMemory>
        ensures { IfOk result (λ copy. copy ≡ self.now) }
    {
        match self {
            BoardLine::Root { uid, bus } => Ok(BoardLine::Root {
                uid: *uid,
                bus: *bus,
            }),
            BoardLine::Func {
                bus,
                device,
                function,
                vendor,
                id,
                class,
            } => Ok(BoardLine::Func {
                bus: *bus,
                device: *device,
                function: *function,
                vendor: *vendor,
                id: *id,
                class: *class,
            }),
            BoardLine::Bridge {
                bus,
                device,
                function,
                vendor,
                id,
                secondary,
            } => Ok(BoardLine::Bridge {
                bus: *bus,
                device: *device,
                function: *function,
                vendor: *vendor,
                id: *id,
                secondary: *secondary,
            }),
            BoardLine::Bar {
                bus,
                device,
                function,
                index,
                address,
                size,
            } => Ok(BoardLine::Bar {
                bus: *bus,
                device: *device,
                function: *function,
                index: *index,
                address: *address,
                size: *size,
            }),
            BoardLine::Rom {
                bus,
                device,
                function,
                name,
            } => Ok(BoardLine::Rom {
                bus: *bus,
                device: *device,
                function: *function,
                name: Text::of(String::from_str(alloc, name.as_str())?),
            }),
        }
    }
}
