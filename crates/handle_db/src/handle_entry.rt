use fw_types::{Guid, Handle, Rows};

/// A protocol interface that is installed on a handle (UEFI 2.8, 7.3: Protocol Handler Services).
#[derive(Clone, Copy, Debug, PartialEq, Eq)]
pub struct Interface {
    /// The protocol.
    pub guid: Guid,
    /// The address of the interface in guest memory, which may be 0.
    pub interface: u64,
    /// The handle of the image that installed it.
    pub owner: Handle,
}

/// A handle that is live, with its interfaces.
#[derive(Debug, Drop)]
pub struct HandleEntry {
    /// The handle.
    pub handle: Handle,
    /// Its interfaces, in order of installation.
    pub interfaces: Rows<Interface>,
}
