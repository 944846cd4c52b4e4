//! Numbers of the standard that board lines and configuration space have, and this project's own
//! limits on boards.

/// The most root bridges, a limit of this project.
pub const MOST_ROOTS: usize = 16;

/// The most functions, including bridges, a limit of this project.
pub const MOST_FUNCTIONS: usize = 256;

/// The most bytes of a function's option ROM, a limit of this project.
pub const MOST_ROM_BYTES: usize = 1_048_576;

/// The most bytes of a BAR, a limit of this project.
pub const LARGEST_BAR: u32 = 65_536;

/// The fewest bytes of a memory BAR (PCI Local Bus 3.0, 6.2.5.1: Address Maps).
pub const SMALLEST_BAR: u32 = 16;

/// The highest device number on a bus.
pub const HIGHEST_DEVICE: u8 = 31;

/// The highest function number in a device.
pub const HIGHEST_FUNCTION: u8 = 7;

/// The highest vendor ID; 0xFFFF is that of no vendor (PCI Local Bus 3.0, 6.2.1: Device
/// Identification).
pub const HIGHEST_VENDOR: u16 = 0xFFFE;

/// The highest class code, which has 24 bits.
pub const HIGHEST_CLASS: u32 = 0x00FF_FFFF;

/// The class code of a PCI-to-PCI bridge.
pub const BRIDGE_CLASS: u32 = 0x06_0400;

/// The highest index of a bridge's BAR.
pub const HIGHEST_BRIDGE_BAR: u8 = 1;

/// The highest index of the BAR of a function that is no bridge.
pub const HIGHEST_BAR: u8 = 5;

/// How many bytes the configuration space of a function has.
pub const CONFIG_SIZE: usize = 256;
