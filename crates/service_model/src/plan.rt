use crate::call::{HandleInterface, Removal};
use fw_types::{Attr, Cause, Guid, Handle, Status};
use pci_model::Space;

/// Why a row stops. Then it changes nothing.
#[derive(Clone, Copy, Debug, PartialEq, Eq)]
pub enum Stop {
    /// The service answers this status.
    Status(Status),
    /// The driver call ends for this cause.
    Trap(Cause),
}

/// What a service writes into a block of the pool that it returns.
#[derive(Clone, Copy, Debug, PartialEq, Eq)]
pub enum Contents {
    /// The handles that have a protocol, or all handles, by rising number: 8 bytes each.
    Handles(Option<Guid>),
    /// The open records of an interface in order of their making, in 24 bytes each: agent and controller
    /// in 8, attributes and count in 4 (UEFI 2.8, 7.3: EFI_OPEN_PROTOCOL_INFORMATION_ENTRY).
    Opens {
        /// The handle that has the interface.
        handle: Handle,
        /// The protocol.
        guid: Guid,
    },
    /// The protocols of a handle in order of installation: for each 8 bytes that point to its GUID, and
    /// after these the GUIDs, 16 bytes each.
    Protocols(Handle),
}

/// Bytes that are moved between a device and memory.
#[derive(Clone, Copy, Debug, PartialEq, Eq)]
pub struct Transfer {
    /// The number of the device's function.
    pub function: u32,
    /// Whether they are in its configuration space or in one of its BARs.
    pub space: Space,
    /// The offset of the first in it.
    pub at: u64,
    /// How many bytes.
    pub n: u64,
    /// The address of the first in memory.
    pub buffer: u64,
}

/// What a row ends with. Except for the price, nothing else changes the world.
#[derive(Clone, Copy, Debug, PartialEq, Eq)]
pub enum Change {
    /// Nothing changes, and R7 is this value.
    Value(u64),
    /// The task priority level is set.
    SetTpl {
        /// The new level.
        tpl: u8,
        /// R7.
        answer: u64,
    },
    /// A block of the pool is made, and its address is stored.
    Allot {
        /// How many bytes it has, all 0.
        size: u64,
        /// Where its address is stored.
        out: u64,
    },
    /// A block of the pool is freed.
    Free {
        /// Its address.
        at: u64,
    },
    /// Bytes are copied, as if through a buffer that is separate from both ranges.
    Copy {
        /// The address of the first byte that is written.
        to: u64,
        /// The address of the first byte that is read.
        from: u64,
        /// How many bytes.
        n: u64,
    },
    /// Bytes are all set to one value.
    Fill {
        /// The address of the first.
        to: u64,
        /// How many.
        n: u64,
        /// Their new value.
        byte: u8,
    },
    /// A number is stored if a place is given for it.
    Store {
        /// The address of its 8 bytes.
        out: Option<u64>,
        /// The number.
        value: u64,
        /// What the service answers.
        status: Status,
    },
    /// A protocol interface is installed.
    Install {
        /// The handle, or none if it is installed on a new one.
        handle: Option<Handle>,
        /// The protocol.
        guid: Guid,
        /// The address of the interface.
        interface: u64,
        /// The image that installs it.
        owner: Handle,
        /// Where the number of a new handle is stored.
        out: u64,
    },
    /// Protocol interfaces are installed, all on one handle.
    InstallMany {
        /// The handle, or none if they are installed on a new one.
        handle: Option<Handle>,
        /// Where the list of them begins: for each 8 bytes that point to a GUID and 8 bytes of an
        /// interface.
        list: u64,
        /// How many there are, at most `MOST_PAIRS`.
        count: u64,
        /// The image that installs them.
        owner: Handle,
        /// Where the number of a new handle is stored.
        out: u64,
    },
    /// An open of an interface is recorded.
    Open {
        /// The handle that has it.
        handle: Handle,
        /// The protocol.
        guid: Guid,
        /// The agent that opens it.
        agent: u64,
        /// The controller for which it is opened, or 0.
        controller: u64,
        /// The attributes with which it is opened.
        attr: Attr,
        /// Where the address of the interface is stored; none with TEST_PROTOCOL.
        out: Option<u64>,
        /// The address of the interface.
        interface: u64,
    },
    /// The open records of an agent for a controller are removed from an interface.
    Close {
        /// The handle that has it.
        handle: Handle,
        /// The protocol.
        guid: Guid,
        /// The agent.
        agent: u64,
        /// The controller, or 0.
        controller: u64,
    },
    /// The handles that have a protocol, or all handles, are stored, and how many bytes they take.
    Handles {
        /// The protocol, or none for all handles.
        guid: Option<Guid>,
        /// Where the number of bytes is stored.
        size: u64,
        /// Where the handles are stored, 8 bytes each.
        buffer: u64,
    },
    /// A block of the pool is made, and its address and the number of its items are stored.
    Block {
        /// What it holds.
        contents: Contents,
        /// Where its address is stored.
        buffer: u64,
        /// Where the number of items is stored.
        count: u64,
        /// Whether the number is stored before the address.
        count_first: bool,
    },
    /// Nothing changes, and the service goes on to connect drivers to a controller.
    Connect {
        /// The controller.
        controller: u64,
        /// Where the list of handles begins, 8 bytes each.
        list: u64,
        /// How many of them come before the 0 that ends the list.
        count: u64,
        /// The address of the remaining device path, or 0.
        path: u64,
        /// Whether the path begins with its end node.
        at_end: bool,
        /// Whether drivers are also connected to the controller's children.
        recursive: bool,
    },
    /// Nothing changes, and the service goes on to disconnect drivers from a controller.
    Disconnect {
        /// The controller.
        controller: u64,
        /// The driver, or 0 for all drivers.
        driver: u64,
        /// The child that is destroyed, or 0 for all children.
        child: u64,
    },
    /// Nothing changes, and the service goes on to disconnect a driver that is in the way of an open.
    Remove(Removal),
    /// Nothing changes, and the service goes on to uninstall a protocol interface.
    Uninstall(HandleInterface),
    /// Nothing changes, and the service goes on to uninstall protocol interfaces of one handle.
    UninstallMany {
        /// The handle that has them.
        handle: Handle,
        /// Where the list of them begins: for each 8 bytes that point to a GUID and 8 bytes of an
        /// interface.
        list: u64,
        /// How many there are, at most `MOST_PAIRS`.
        count: u64,
    },
    /// Bytes of a device are read into memory.
    ReadDevice(Transfer),
    /// Bytes of a device are written from memory.
    WriteDevice(Transfer),
    /// The location of a function is stored: a segment group, which is 0, and three numbers.
    StoreLocation {
        /// Where the segment group is stored, in 8 bytes.
        segment: u64,
        /// Where the bus is stored.
        bus: u64,
        /// Where the device number is stored.
        device: u64,
        /// Where the function number is stored.
        function: u64,
        /// The bus, the device number and the function number.
        location: (u8, u8, u8),
    },
    /// The command register of a device is written.
    SetCommand {
        /// The number of the device's function.
        function: u32,
        /// Its new value, in the lowest 16 bits.
        command: u64,
    },
}
