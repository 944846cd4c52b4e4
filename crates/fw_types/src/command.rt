use crate::rows::Rows;
use crate::text::Text;

/// The remaining device path that ConnectController is given (UEFI 2.8, 7.3).
#[derive(Clone, Copy, Debug, PartialEq, Eq)]
pub enum PathArg {
    /// No path: NULL.
    Null,
    /// A path of only the End node.
    End,
    /// A path of one PCI node and the End node (UEFI 2.8, 10.3.2.1). The device is at most 31 and
    /// the function at most 7.
    Pci { device: u8, function: u8 },
}

/// What a line of a script asks for.
#[derive(Debug, PartialEq, Drop)]
pub enum Command {
    /// Load the image file or the option ROM of this name, and call each entry point.
    Load {
        name: Text,
    },
    /// Call ConnectController on a handle, with a path and a list of driver image handles.
    Connect {
        controller: u64,
        recursive: bool,
        path: PathArg,
        context: Rows<u64>,
    },
    /// Call DisconnectController on a handle. A driver or a child of 0 is NULL.
    Disconnect {
        controller: u64,
        driver: u64,
        child: u64,
    },
    /// Unload the image of a handle (UEFI 2.8, 7.4: UnloadImage).
    Unload {
        image: u64,
    },
    /// Replace the list of driver image handles that the platform prefers for a controller.
    Platform {
        controller: u64,
        drivers: Rows<u64>,
    },
    /// Set the units that each later command may spend, and each later driver call.
    Budget {
        command: u32,
        call: u32,
    },
    /// List the handle database.
    Dump,
}
