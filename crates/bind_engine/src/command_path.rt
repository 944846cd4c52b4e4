//! The remaining device path of a `connect` command (UEFI 2.8, 7.3: ConnectController,
//! RemainingDevicePath).
ghost use Rattle.std.specs.Prelude.{◌≡◌, IfOk, option_map};
ghost use Rattle.bind_engine.specs.CommandPaths.{connection, is_end, path_address, path_bytes};

use driver_model::Connection;
use fw_types::{OutOfMemory, PathArg};
use guest_memory::address_map::COMMAND_PATH;
use std::alloc::Global;

/// The End node (UEFI 2.8, 10.3.1: Generic Device Path Structures).
const END_NODE: [u8; 4] = [0x7F, 0xFF, 0x04, 0x00];

/// What a command asks ConnectController for.
pub fn connection(controller: u64, recursive: bool, path: PathArg) -> Connection
    ensures { result ≡ connection controller recursive path }
{
    Connection {
        controller,
        path: path_address(path),
        at_end: is_end(path),
        recursive,
    }
}

/// The address of a path: NULL for no path.
fn path_address(path: PathArg) -> u64
    ensures { result ≡ path_address path }
{
    match path {
        PathArg::Null => 0,
        PathArg::End | PathArg::Pci { .. } => COMMAND_PATH,
    }
}

/// Whether a path is an End node.
fn is_end(path: PathArg) -> bool
    ensures { result ≡ is_end path }
{
    match path {
        PathArg::End => true,
        PathArg::Null | PathArg::Pci { .. } => false,
    }
}

/// The bytes of a path, unless it is NULL: the End node, after a PCI node (UEFI 2.8, 10.3.2.1: PCI
/// Device Path) if a function is named.
///
/// # Errors
///
/// `OutOfMemory` if there is no memory for them.
pub fn path_bytes(alloc: Global, path: PathArg) -> Result<Option<Vec<u8>>, OutOfMemory>
    ensures { IfOk result (λ bytes.
        option_map (λ bytes. bytes.items) bytes ≡ path_bytes path) }
{
    match path {
        PathArg::Null => Ok(None),
        PathArg::End => Ok(Some(Vec::from_slice(alloc, &END_NODE)?)),
        PathArg::Pci { device, function } => {
            let path = [
                0x01, 0x01, 0x06, 0x00, function, device, 0x7F, 0xFF, 0x04, 0x00,
            ];
            Ok(Some(Vec::from_slice(alloc, &path)?))
        }
    }
}
