use fw_types::Handle;

/// The units that a child of the PCI bus driver costs, at Start and at Stop.
pub const CHILD_PRICE: u64 = 16;

/// Which functions a remaining device path asks the PCI bus driver for (UEFI 2.8, 11.1:
/// EFI_DRIVER_BINDING_PROTOCOL.Supported(), `RemainingDevicePath`).
#[derive(Clone, Copy, Debug, PartialEq, Eq)]
pub enum PathChoice {
    /// NULL: all functions.
    AllFunctions,
    /// An End node: no function.
    NoFunction,
    /// A PCI node: the function with these numbers on the root bridge's bus.
    OneFunction { device: u8, function: u8 },
}

/// A handle that the PCI bus driver made for a function.
#[derive(Clone, Copy, Debug, PartialEq, Eq)]
pub struct NewChild {
    /// The handle.
    pub handle: Handle,
    /// The number of the function on the board.
    pub function: u32,
}
