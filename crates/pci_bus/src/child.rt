//! Children of a root bridge.
ghost use Rattle.std.specs.Prelude.{◌≡◌, IfOk, OnOk, Ok, Err, None, Some, false, true, is_ok, length};
ghost use Rattle.fw_types.specs.Guid.{known_guid};
ghost use Rattle.world_model.specs.World.{on_soft};
ghost use Rattle.world_model.specs.Blocks.{block_added, is_block_full};
ghost use Rattle.world_model.specs.Faults.{Gives};
ghost use Rattle.world_model.specs.Marks.{stacks};
ghost use Rattle.world_model.specs.Interfaces.{firmware, install_answer, interface as interface_value, interface_added};
ghost use Rattle.world_model.specs.NewChild.{IsChildPossible, block_interface_added, child_added, child_answer, child_made, is_child_full, override_added, override_size, root_uid, with_interfaces};

use crate::blocks::{override_block, pci_io_block};
use crate::path::child_path;
use fw_types::{Guid, Handle, Known, OutOfMemory};
use fw_world::{World, WorldFault};
use guest_memory::SegKind;
use handle_db::DbRefusal;
use world_model::laws::children_are_made;

/// The handle of the first root bridge.
const FIRST_ROOT: u64 = 3;

/// The _UID of the root bridge of a handle.
fn root_uid(w: &World, controller: Handle) -> u32
    ensures { result ≡ root_uid controller w.now.now }
{
    let Some(place) = controller.get().checked_sub(FIRST_ROOT) else {
        return 0;
    };
    match w.board().roots().get(place as usize) {
        Some(bridge) => bridge.0,
        None => 0,
    }
}

/// Makes a block of the firmware and answers its address. There is room for the block.
///
/// # Errors
///
/// `OutOfMemory` if there is no memory.
fn add_block(w: &mut World, bytes: Vec<u8>) -> Result<u64, OutOfMemory>
    requires { is_block_full (length bytes.items) w.old.now.soft ≡ false }
    ensures address { IfOk result (λ at. at ≡ w.old.now.soft.next_block) }
    ensures now { OnOk result (w.new.now ≡
        on_soft (block_added bytes.items SegKind.Firmware) w.old.now) }
    ensures marks { OnOk result (w.new.marks ≡ w.old.marks) }
{
    match w.allot(bytes, SegKind::Firmware) {
        Ok(at) => Ok(at),
        Err(WorldFault::OutOfMemory) => Err(OutOfMemory),
        Err(_) => unreachable!(),
    }
}

/// Installs an interface of the firmware and answers its handle. Nothing refuses the interface.
///
/// # Errors
///
/// `OutOfMemory` if there is no memory.
fn add_interface(
    w: &mut World,
    handle: Option<Handle>,
    protocol: Known,
    interface: u64,
) -> Result<Handle, OutOfMemory>
    requires { is_ok (install_answer handle (known_guid protocol) w.old.now.soft) ≡ true }
    ensures handle { IfOk result (λ on.
        install_answer handle (known_guid protocol) w.old.now.soft ≡ Ok on) }
    ensures now { OnOk result (w.new.now ≡
        on_soft (interface_added handle (interface_value (known_guid protocol) interface firmware))
        w.old.now) }
    ensures marks { OnOk result (w.new.marks ≡ w.old.marks) }
{
    match w.install(handle, Guid::known(protocol), interface, Handle::firmware()) {
        Ok(handle) => Ok(handle),
        Err(DbRefusal::OutOfMemory) => Err(OutOfMemory),
        Err(_) => unreachable!(),
    }
}

/// Installs an interface of the firmware that is a block of these bytes, and answers its handle.
/// There is room for the block, and nothing refuses the interface.
///
/// # Errors
///
/// `OutOfMemory` if there is no memory.
fn add_block_interface(
    w: &mut World,
    handle: Option<Handle>,
    protocol: Known,
    bytes: Vec<u8>,
) -> Result<Handle, OutOfMemory>
    requires room { is_block_full (length bytes.items) w.old.now.soft ≡ false }
    requires accepted { is_ok (install_answer handle (known_guid protocol) w.old.now.soft) ≡ true }
    ensures handle { IfOk result (λ on.
        install_answer handle (known_guid protocol) w.old.now.soft ≡ Ok on) }
    ensures now { OnOk result (w.new.now ≡
        on_soft (block_interface_added handle (known_guid protocol) bytes.items) w.old.now) }
    ensures marks { OnOk result (w.new.marks ≡ w.old.marks) }
{
    let at = add_block(w, bytes)?;
    add_interface(w, handle, protocol, at)
}

/// Adds the bus specific driver override of a new child, if its function has an option ROM.
///
/// # Errors
///
/// `OutOfMemory` if there is no memory.
fn add_override(w: &mut World, handle: Handle, has_rom: bool) -> Result<(), OutOfMemory>
    requires room { has_rom ≡ true → is_block_full override_size w.old.now.soft ≡ false }
    requires accepted { is_ok (install_answer (Some handle) (known_guid Known.BusOverride) w.old.now.soft) ≡ true }
    ensures now { OnOk result (w.new.now ≡ on_soft (override_added has_rom handle) w.old.now) }
    ensures marks { OnOk result (w.new.marks ≡ w.old.marks) }
{
    if !has_rom {
        return Ok(());
    }
    children_are_made();
    let bytes = override_block(w.alloc())?;
    add_block_interface(w, Some(handle), Known::BusOverride, bytes)?;
    Ok(())
}

/// Adds the interfaces of a new child on a new handle: its device path, PCI I/O and, if its function
/// has an option ROM, the bus specific driver override. No limit is met.
///
/// # Errors
///
/// `OutOfMemory` if there is no memory.
fn add_interfaces(w: &mut World, path: Vec<u8>, has_rom: bool) -> Result<Handle, OutOfMemory>
    requires { IsChildPossible path.items has_rom w.old.now.soft }
    ensures handle { IfOk result (λ handle. handle ≡ w.old.now.soft.database.next) }
    ensures now { OnOk result (w.new.now ≡
        on_soft (with_interfaces path.items has_rom) w.old.now) }
    ensures marks { OnOk result (w.new.marks ≡ w.old.marks) }
{
    children_are_made();
    let handle = add_block_interface(w, None, Known::DevicePath, path)?;
    let bytes = pci_io_block(w.alloc())?;
    add_block_interface(w, Some(handle), Known::PciIo, bytes)?;
    add_override(w, handle, has_rom)?;
    Ok(handle)
}

/// Adds a child: its interfaces on a new handle, and its function. No limit is met.
///
/// # Errors
///
/// `OutOfMemory` if there is no memory.
fn add_child(w: &mut World, path: Vec<u8>, has_rom: bool, f: u32) -> Result<Handle, OutOfMemory>
    requires { is_child_full (length path.items) has_rom w.old.now.soft ≡ false }
    ensures handle { IfOk result (λ handle. handle ≡ w.old.now.soft.database.next) }
    ensures now { OnOk result (w.new.now ≡ on_soft (child_added path.items has_rom f) w.old.now) }
    ensures marks { OnOk result (w.new.marks ≡ w.old.marks) }
{
    children_are_made();
    w.is_kept();
    let handle = add_interfaces(w, path, has_rom)?;
    w.note_child(handle, f)?;
    Ok(handle)
}

/// Makes a child of a root bridge for function `f` of the board, which is on its bus or below it,
/// and answers its handle (UEFI 2.8, 11.1: EFI Driver Binding Protocol, Start). The handle is a new
/// one. It has a device path, with a PCI node for each bridge on the way and for the function; then
/// PCI I/O; and then, if the function has an option ROM, the bus specific driver override. The
/// firmware owns all three. From then on the handle's PCI I/O is that of function `f`.
///
/// # Errors
///
/// `Full` if 4,096 handles are live or the next handle number is 2^62. `Full` also if with the
/// blocks of the child there would be more than 65,536 blocks, or they would have more than
/// 67,108,864 bytes in all, or would pass the address 2^62. After `Full` everything is as before.
/// `OutOfMemory` if there is no memory. `NotThere` never comes.
pub fn make_child(w: &mut World, controller: Handle, f: u32) -> Result<Handle, WorldFault>
    ensures answer { Gives result (child_answer controller f w.old.now) }
    ensures now { OnOk result (w.new.now ≡ child_made controller f w.old.now) }
    ensures marks { OnOk result (w.new.marks ≡ w.old.marks) }
    ensures stacks { OnOk result (stacks w.new.now.soft ≡ stacks w.old.now.soft) }
    ensures refused { result ≡ Err WorldFault.Full → w.new ≡ w.old }
{
    children_are_made();
    let has_rom = w.rom_bytes(f).is_some();
    let uid = root_uid(w, controller);
    let path = child_path(w.alloc(), w.board(), uid, f)?;
    if w.is_child_full(path.len() as u64, has_rom) {
        return Err(WorldFault::Full);
    }
    Ok(add_child(w, path, has_rom, f)?)
}
