//! The root bridges of the opening state. Nothing refuses the handles and the device paths of at
//! most 16.
ghost use Rattle.std.specs.Prelude.{◌≡◌, ◌≤◌, Ok, Some, None, IfOk, OnOk, false, is_ok, length, true};
ghost use Rattle.guest_memory.specs.Segment.{is_block};
ghost use Rattle.pci_model.specs.declared.numbers.TheConstants.{MOST_ROOTS as most_roots};
ghost use Rattle.world_model.specs.Blocks.{block_added, is_block_full};
ghost use Rattle.world_model.specs.Boards.{is_root_full};
ghost use Rattle.world_model.specs.Interfaces.{firmware, install_answer, interface as interface_value, interface_added};
ghost use Rattle.world_model.specs.Opening.{firmware_soft, opening_soft, root_added};

use crate::soft_part::SoftPart;
use device_path::root_path;
use fw_types::{Guid, Handle, Known, OutOfMemory};
use guest_memory::SegKind;
use handle_db::DbRefusal;
use std::alloc::Global;
use world_model::WorldFault;
use world_model::laws::roots_are_there;

/// The interface of root bridge I/O, which has no functions here.
const ROOT_BRIDGE_IO: u64 = 0;

/// Makes a block of the firmware, for which there is room, and answers its address.
///
/// # Errors
///
/// `OutOfMemory` if there is no memory.
fn add_block(soft: &mut SoftPart, bytes: Vec<u8>) -> Result<u64, OutOfMemory>
    requires { is_block_full (length bytes.items) soft.old ≡ false }
    ensures address { IfOk result (λ at. at ≡ soft.old.next_block) }
    ensures ok { OnOk result (soft.new ≡ block_added bytes.items SegKind.Firmware soft.old) }
{
    match soft.allot(bytes, SegKind::Firmware) {
        Ok(at) => Ok(at),
        Err(WorldFault::OutOfMemory) => Err(OutOfMemory),
        Err(_) => unreachable!(),
    }
}

/// Installs an interface of the firmware, which nothing refuses, and answers its handle.
///
/// # Errors
///
/// `OutOfMemory` if there is no memory.
fn add_interface(
    soft: &mut SoftPart,
    handle: Option<Handle>,
    guid: Guid,
    interface: u64,
) -> Result<Handle, OutOfMemory>
    requires { is_ok (install_answer handle guid soft.old) ≡ true }
    ensures handle { IfOk result (λ on. install_answer handle guid soft.old ≡ Ok on) }
    ensures ok { OnOk result (soft.new ≡
        interface_added handle (interface_value guid interface firmware) soft.old) }
{
    match soft.install(handle, guid, interface, Handle::firmware()) {
        Ok(handle) => Ok(handle),
        Err(DbRefusal::OutOfMemory) => Err(OutOfMemory),
        Err(_) => unreachable!(),
    }
}

/// Adds a handle for the root bridge with a _UID, first with its device path and then with root
/// bridge I/O (UEFI 2.8, 14.2: PCI Root Bridge I/O Protocol). There is room for it.
///
/// # Errors
///
/// `OutOfMemory` if there is no memory.
fn add_root(soft: &mut SoftPart, alloc: Global, uid: u32) -> Result<(), OutOfMemory>
    requires { is_root_full uid soft.old ≡ false }
    ensures { OnOk result (soft.new ≡ root_added uid soft.old) }
{
    soft.is_kept();
    let bytes = Vec::from_slice(alloc, &root_path(uid))?;
    let path = add_block(soft, bytes)?;
    let handle = add_interface(soft, None, Guid::known(Known::DevicePath), path)?;
    let guid = Guid::known(Known::RootBridgeIo);
    add_interface(soft, Some(handle), guid, ROOT_BRIDGE_IO)?;
    Ok(())
}

/// Adds the root bridges of a board, each with its _UID and its bus, in order.
///
/// # Errors
///
/// `OutOfMemory` if there is no memory.
pub fn add_roots(
    soft: &mut SoftPart,
    alloc: Global,
    bridges: &[(u32, u8)],
) -> Result<(), OutOfMemory>
    requires first { soft.old ≡ firmware_soft (length soft.old.bus_lists) }
    requires few { length bridges.now ≤ most_roots }
    ensures { OnOk result (soft.new ≡ opening_soft (length soft.old.bus_lists) bridges.now) }
{
    roots_are_there();
    for bridge in bridges {
        add_root(soft, alloc, bridge.0)?;
    }
    Ok(())
}
