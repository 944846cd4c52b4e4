//! The memory map: where things lie in the addresses that drivers use. UEFI leaves it open; this map is
//! this project's own. Native functions and thunks have addresses at which no memory is mapped.

/// The system table (UEFI 2.8, 4.3: EFI System Table).
pub const SYSTEM_TABLE: u64 = 0x1_0000;

/// The boot services table (UEFI 2.8, 4.4: EFI Boot Services Table).
pub const BOOT_TABLE: u64 = 0x1_1000;

/// The driver binding of the PCI bus driver (UEFI 2.8, 11.1: EFI Driver Binding Protocol).
pub const BUS_BINDING: u64 = 0x1_3000;

/// The loaded image block of the firmware itself (UEFI 2.8, 9.1: EFI Loaded Image Protocol).
pub const FIRMWARE_IMAGE: u64 = 0x1_4000;

/// The device path that a `connect` command gives, while the command runs (UEFI 2.8, 7.3:
/// ConnectController, RemainingDevicePath).
pub const COMMAND_PATH: u64 = 0x1_5000;

/// All tables with an address of their own end at or below this address.
pub const TABLES_END: u64 = 0x2_0000;

/// The boot service at an offset of its table has this address plus the offset.
pub const BOOT_SERVICES: u64 = 0x2_0000;

/// The function of PCI I/O at an offset of the protocol has this address plus the offset.
pub const PCI_IO_FUNCTIONS: u64 = 0x2_1000;

/// The PCI bus driver's Supported.
pub const BUS_SUPPORTED: u64 = 0x2_2000;

/// The PCI bus driver's Start.
pub const BUS_START: u64 = 0x2_2008;

/// The PCI bus driver's Stop.
pub const BUS_STOP: u64 = 0x2_2010;

/// GetDriver of the bus specific driver override (UEFI 2.8, 11.6: EFI Bus Specific Driver Override
/// Protocol).
pub const BUS_GET_DRIVER: u64 = 0x2_3000;

/// The return address of every driver call. A run that reaches it is done.
pub const EXIT: u64 = 0x2_4000;

/// The address of the first thunk.
pub const THUNKS: u64 = 0x40_0000;

/// The distance between the addresses of two thunks.
pub const THUNK_STEP: u64 = 16;

/// The stack of a level lies at this address plus a stack's size for each level.
pub const STACKS: u64 = 0x80_0000;

/// The size of a stack, in bytes.
pub const STACK_SIZE: u64 = 0x1_0000;

/// The list of children of a level lies at this address plus a list's room for each level.
pub const CHILD_LISTS: u64 = 0xC0_0000;

/// The room of a list of children, in bytes.
pub const LIST_ROOM: u64 = 0x2_0000;

/// Images lie from this address on.
pub const FIRST_IMAGE: u64 = 0x200_0000;

/// Each image begins at a multiple of this.
pub const IMAGE_STEP: u64 = 0x1_0000;

/// Images end at or below this address.
pub const IMAGE_END: u64 = 0x8000_0000;

/// Blocks of the pool and of the firmware lie from this address on.
pub const FIRST_BLOCK: u64 = 0x1_0000_0000;

/// Blocks end at or below this address, which is 2^62.
pub const BLOCK_END: u64 = 0x4000_0000_0000_0000;
