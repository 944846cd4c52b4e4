//! Numbers of the standard that services look at, and this project's own limits on their lists.

/// The highest task priority level (UEFI 2.8, 7.1: Event, Timer, and Task Priority Services).
pub const TPL_HIGH_LEVEL: u64 = 31;

/// A native protocol interface, the only type there is (UEFI 2.8, 7.3: EFI_INTERFACE_TYPE).
pub const NATIVE_INTERFACE: u32 = 0;

/// A search for all handles (UEFI 2.8, 7.3: EFI_LOCATE_SEARCH_TYPE, AllHandles).
pub const ALL_HANDLES: u32 = 0;

/// A search for the handles with a protocol (UEFI 2.8, 7.3: EFI_LOCATE_SEARCH_TYPE, ByProtocol).
pub const BY_PROTOCOL: u32 = 2;

/// The type and the sub-type of the node that ends a device path, in 2 bytes, low byte first
/// (UEFI 2.8, 10.3.1: End Entire Device Path).
pub const END_NODE: u64 = 0xFF7F;

/// The most pairs in the list of InstallMultipleProtocolInterfaces.
pub const MOST_PAIRS: u64 = 32;

/// The slots in which the list of handles of ConnectController must end.
pub const CONTEXT_SLOTS: u64 = 64;

/// The last width of PCI I/O (UEFI 2.8, 14.4: EFI_PCI_IO_PROTOCOL_WIDTH, EfiPciIoWidthFillUint64).
pub const LAST_WIDTH: u32 = 11;

/// The last width that is built (EfiPciIoWidthUint64). The others use one address or one element
/// again and again.
pub const LAST_BUILT_WIDTH: u32 = 3;

/// The price of Mem.Read, Mem.Write, Pci.Read and Pci.Write counts no more elements than these.
pub const PRICED_ELEMENTS: u64 = 65_536;

/// The offset of the command register in configuration space (PCI Local Bus 3.0, 6.2.2).
pub const COMMAND: u64 = 4;

/// The attributes that are supported (UEFI 2.8, 14.4: EFI_PCI_IO_ATTRIBUTE_IO, _MEMORY and _BUS_MASTER).
pub const ALL_ATTRIBUTES: u64 = 0x700;

/// The current attributes are stored (UEFI 2.8, 14.4: EFI_PCI_IO_PROTOCOL_ATTRIBUTE_OPERATION).
pub const ATTRIBUTES_GET: u32 = 0;

/// Attributes are set.
pub const ATTRIBUTES_SET: u32 = 1;

/// Attributes are added to those that are there.
pub const ATTRIBUTES_ENABLE: u32 = 2;

/// Attributes are removed from those that are there.
pub const ATTRIBUTES_DISABLE: u32 = 3;

/// The attributes that are supported are stored.
pub const ATTRIBUTES_SUPPORTED: u32 = 4;
