use fw_types::{Attr, Cause, Guid, Handle, Rows};

/// Who calls a service.
#[derive(Clone, Copy, Debug, PartialEq, Eq)]
pub struct Caller {
    /// The image that has the instruction which calls.
    pub image: Handle,
    /// The level of the driver call that runs it, from 1.
    pub level: u8,
    /// The caller's R0. The arguments are at this address and after it, in 8 bytes each.
    pub sp: u64,
}

/// An open of a protocol interface that was found, with the arguments as they were given (UEFI 2.8, 7.3:
/// OpenProtocol).
#[derive(Clone, Copy, Debug, PartialEq, Eq)]
pub struct Opening {
    /// The handle that has the interface.
    pub handle: Handle,
    /// The protocol.
    pub guid: Guid,
    /// Where the address of the interface is stored, except with TEST_PROTOCOL.
    pub out: u64,
    /// The agent that opens it. It need not be the number of a live handle.
    pub agent: u64,
    /// The controller for which it is opened. It need not be the number of a live handle.
    pub controller: u64,
    /// The attributes with which it is opened.
    pub attr: Attr,
}

/// An open that a driver is in the way of.
#[derive(Clone, Copy, Debug, PartialEq, Eq)]
pub struct Removal {
    /// The open.
    pub opening: Opening,
    /// The driver, which manages the handle by the interface.
    pub victim: u64,
}

/// A protocol interface of a handle.
#[derive(Clone, Copy, Debug, PartialEq, Eq)]
pub struct HandleInterface {
    /// The handle.
    pub handle: Handle,
    /// The protocol.
    pub guid: Guid,
    /// The address of the interface.
    pub interface: u64,
}

/// How a service that enters the driver model again goes on, with the arguments that were read.
#[derive(Debug, PartialEq, Drop)]
pub enum Reentry {
    /// Drivers are connected to a controller (UEFI 2.8, 7.3: ConnectController).
    Connect {
        /// The controller. It need not be the number of a live handle.
        controller: u64,
        /// The handles of drivers that are asked first, in order.
        context: Rows<u64>,
        /// The address of the remaining device path, or 0.
        path: u64,
        /// Whether the path began with its end node when the service was called.
        at_end: bool,
        /// Whether drivers are also connected to the controller's children.
        recursive: bool,
    },
    /// Drivers are disconnected from a controller (UEFI 2.8, 7.3: DisconnectController).
    Disconnect {
        /// The controller. It need not be the number of a live handle.
        controller: u64,
        /// The driver, or 0 for all drivers.
        driver: u64,
        /// The child that is destroyed, or 0 for all children.
        child: u64,
    },
    /// A driver is disconnected, and then the open is looked at again (UEFI 2.8, 7.3: OpenProtocol).
    Remove(Removal),
    /// An interface is uninstalled, after its driver is disconnected (UEFI 2.8, 7.3:
    /// UninstallProtocolInterface).
    Uninstall(HandleInterface),
    /// Interfaces are uninstalled one after the other, all or none (UEFI 2.8, 7.3:
    /// UninstallMultipleProtocolInterfaces).
    UninstallMany(Rows<HandleInterface>),
}

/// How a service ended.
#[derive(Debug, PartialEq, Drop)]
pub enum Served {
    /// It returned to its caller, with this value in R7.
    Value(u64),
    /// It ended the driver call for this cause.
    Trap(Cause),
    /// It goes on with this.
    Again(Reentry),
}
