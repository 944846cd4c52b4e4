use fw_types::Handle;

/// A child of the bus: a handle with PCI I/O (UEFI 2.8, 14.4: EFI PCI I/O Protocol), to which a
/// function of the board belongs.
#[derive(Clone, Copy, Debug, PartialEq, Eq)]
pub struct BusChild {
    /// Its handle.
    pub handle: Handle,
    /// The address of its PCI I/O interface.
    pub pci_io: u64,
    /// The number of its function.
    pub function: u32,
}
