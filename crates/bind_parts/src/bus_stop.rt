//! What Stop of the PCI bus driver does around the uninstalls of a child (UEFI 2.8, 11.1:
//! EFI_DRIVER_BINDING_PROTOCOL.Stop()).
ghost use Rattle.std.specs.Prelude.{◌≡◌, ◌++◌, ◌∷◌, [], IfOk, None, OnOk, Some, if◌then◌else◌, true};
ghost use Rattle.std.specs.List.{list_all};
ghost use Rattle.fw_types.specs.Guid.{known_guid};
ghost use Rattle.handle_db.specs.Database.{interface_of};
ghost use Rattle.world_model.specs.Marks.{stacks};
ghost use Rattle.world_model.specs.World.{on_soft};
ghost use Rattle.driver_model.specs.Moves.{plain};
ghost use Rattle.driver_model.specs.Allowed.{may_go};
ghost use Rattle.driver_model.specs.BusChildren.{firmware_address, firmware_block_freed, has_of_firmware, interface_to_go, interfaces_to_go, is_child_of};
ghost use Rattle.driver_model.specs.BusDriver.{blocks_freed};
ghost use Rattle.driver_model.specs.declared.request.Remover.{Remover as RemoverValue};
ghost use Rattle.driver_model.specs.declared.request.Remover.TheVariants.{TheFirmware};

use crate::handles::live_handle;
use driver_model::bus_laws::children_can_go;
use fw_types::{Guid, Handle, Known, OutOfMemory};
use fw_world::{World, WorldFault};
use guest_memory::SegKind;
use service_model::HandleInterface;
use world_model::laws::stacks_stand;

/// Whether a handle is a child of the bus, and the controller the root bridge above it.
fn is_child_of(world: &World, controller: u64, child: u64) -> bool
    ensures { result ≡ is_child_of controller child world.now.now }
{
    let Some(bus) = world.root_bus(controller) else {
        return false;
    };
    let Some(function) = world.child_function(child) else {
        return false;
    };
    match world.board().first_bus(function) {
        Some(first) => bus == first,
        None => false,
    }
}

/// The handle of a child of the bus with this number, if the controller is the root bridge above it.
pub fn child_of_root(world: &World, controller: u64, child: u64) -> Option<Handle>
    ensures { result ≡ (if is_child_of controller child world.now.now then Some child else None) }
{
    children_can_go();
    world.is_kept();
    let handle = live_handle(world, child)?;
    if is_child_of(world, controller, child) {
        Some(handle)
    } else {
        None
    }
}

/// The interface of a protocol of a child, at the address of the firmware's interface, or at 0 if it
/// has none.
fn interface_to_go(world: &World, child: Handle, name: Known) -> HandleInterface
    ensures { result ≡ interface_to_go child (known_guid name) world.now.now.soft }
{
    HandleInterface {
        handle: child,
        guid: Guid::known(name),
        interface: firmware_address(world.db().interface(child, Guid::known(name))),
    }
}

/// The address of an interface if the firmware owns it, or 0.
fn firmware_address(found: Option<(u64, Handle)>) -> u64
    ensures { result ≡ firmware_address found }
{
    match found {
        Some((at, owner)) if owner == Handle::firmware() => at,
        _ => 0,
    }
}

/// Whether there is an interface and the firmware owns it.
fn is_of_firmware(found: Option<(u64, Handle)>) -> bool
    ensures { result ≡ has_of_firmware found }
{
    match found {
        Some((_, owner)) => owner == Handle::firmware(),
        None => false,
    }
}

/// What Stop uninstalls of a child: PCI I/O, then the device path, then the bus specific driver
/// override, if the child has one.
///
/// # Errors
///
/// `OutOfMemory` if there is no memory for the list.
pub fn interfaces_to_go(world: &World, child: Handle) -> Result<Vec<HandleInterface>, OutOfMemory>
    ensures list { IfOk result (λ interfaces.
        interfaces.items ≡ interfaces_to_go child world.now.now.soft) }
    ensures may_go { IfOk result (λ interfaces.
        list_all (may_go TheFirmware) interfaces.items ≡ true) }
{
    children_can_go();
    let mut interfaces = Vec::new(world.alloc());
    interfaces.push(interface_to_go(world, child, Known::PciIo))?;
    interfaces.push(interface_to_go(world, child, Known::DevicePath))?;
    let override_name = Guid::known(Known::BusOverride);
    if is_of_firmware(world.db().interface(child, override_name)) {
        interfaces.push(interface_to_go(world, child, Known::BusOverride))?;
    }
    Ok(interfaces)
}

/// Frees a block of the firmware, if one begins at the address.
///
/// # Errors
///
/// `OutOfMemory` if there is no memory.
fn free_block(world: &mut World, at: u64) -> Result<(), OutOfMemory>
    ensures now { OnOk result (world.new.now ≡ on_soft (firmware_block_freed at) world.old.now) }
    ensures marks { OnOk result (world.new.marks ≡ world.old.marks) }
    ensures stacks { OnOk result (stacks world.new.now.soft ≡ stacks world.old.now.soft) }
{
    stacks_stand();
    world.is_kept();
    match world.free(at, SegKind::Firmware) {
        Ok(()) => Ok(()),
        Err(WorldFault::OutOfMemory) => Err(OutOfMemory),
        Err(_) => Ok(()),
    }
}

/// Frees the blocks of interfaces that were uninstalled.
///
/// # Errors
///
/// `OutOfMemory` if there is no memory.
pub fn free_blocks(world: &mut World, interfaces: &[HandleInterface]) -> Result<(), OutOfMemory>
    ensures now { OnOk result (blocks_freed plain interfaces.now world.old.now ≡ world.new.now) }
    ensures marks { OnOk result (world.new.marks ≡ world.old.marks) }
    ensures stacks { OnOk result (stacks world.new.now.soft ≡ stacks world.old.now.soft) }
    ensures hard { OnOk result (world.new.now.hard ≡ world.old.now.hard) }
{
    for i in interfaces {
        free_block(world, i.interface)?;
    }
    Ok(())
}
