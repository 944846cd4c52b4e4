use crate::{BindingBlock, StartedDrivers, binding, order, order_of_unmarked, stop_list};
use fw_types::{Attr, Guid, Handle, Known, OutOfMemory, put_u32, put_u64};
use fw_world::World;
use guest_memory::SegKind;
use pci_model::{Board, BoardLine, board_from};
use std::alloc::{AllocError, Global};
use std::process::Abort;
use std::test::Fail;

/// A handle by its number, which is not 0.
fn numbered(rt: &impl Abort, number: u64) -> Handle {
    Handle::new(number).expect(rt, "a handle's number is not 0")
}

/// `room` bytes and after them the 48 bytes of a binding, with three functions, a Version and two handles.
fn binding_bytes(
    alloc: Global,
    room: usize,
    version: u32,
    image: u64,
) -> Result<Vec<u8>, AllocError> {
    let mut block = [0u8; 48];
    put_u64(&mut block, 0, 0x22000);
    put_u64(&mut block, 8, 0x22008);
    put_u64(&mut block, 16, 0x22010);
    put_u32(&mut block, 24, version);
    put_u64(&mut block, 32, image);
    put_u64(&mut block, 40, u64::MAX);
    let mut bytes = vec![in alloc; 0xee; room]?;
    bytes.extend_from_slice(&block)?;
    Ok(bytes)
}

/// A new handle with a driver binding in a block of its own.
fn add_driver(world: &mut World, version: u32, image: u64) -> Result<Handle, Fail> {
    let bytes = binding_bytes(world.alloc(), 0, version, image)?;
    let at = world.allot(bytes, SegKind::Pool)?;
    let name = Guid::known(Known::DriverBinding);
    Ok(world.install(None, name, at, Handle::firmware())?)
}

/// A new handle whose driver binding lies at the end of a block and lacks its last byte.
fn add_cut_driver(world: &mut World) -> Result<Handle, Fail> {
    let mut bytes = binding_bytes(world.alloc(), 16, u32::MAX, 9)?;
    let _ = bytes.pop();
    let at = world.allot(bytes, SegKind::Pool)?;
    let name = Guid::known(Known::DriverBinding);
    Ok(world.install(None, name, at.saturating_add(16), Handle::firmware())?)
}

/// A world with a disk, handle 3, and its partition, 7; with the drivers 4 and 5 of Version 0x10, and 6 of
/// the greatest Version; with 8, of whose driver binding only 47 bytes can be read; and with an image, 9.
/// The ImageHandle of drivers 4 and 6 is 9, that of driver 5 is 8, and that of 2, the bus driver, is 1.
fn with_drivers(rt: &impl AllocGlobal) -> Result<World, Fail> {
    let mut world = World::new(rt.alloc(), Board::empty(rt.alloc()), Vec::new(rt.alloc()))?;
    add_drivers(&mut world)?;
    Ok(world)
}

/// Adds the disk, its partition, the drivers and the image to a new world.
fn add_drivers(world: &mut World) -> Result<(), Fail> {
    let (disk, path) = (Guid::known(Known::PciIo), Guid::known(Known::DevicePath));
    let owner = Handle::firmware();
    let controller = world.install(None, disk, 0, owner)?;
    let _ = world.install(Some(controller), path, 0, owner)?;
    for (version, image) in [(0x10, 9), (0x10, 8), (u32::MAX, 9)] {
        let _ = add_driver(world, version, image)?;
    }
    let _ = world.install(None, disk, 0, owner)?;
    let _ = add_cut_driver(world)?;
    let image = Guid::known(Known::LoadedImage);
    let _ = world.install(None, image, 0, owner)?;
    Ok(())
}

/// A context and a platform list, and the handles of the drivers in their order.
type Row = (&'static [u64], &'static [u64], &'static [u64]);

const ROWS: [Row; 12] = [
    (&[], &[], &[6, 4, 5, 2]),
    // a context with a driver twice; the handle of an image means nothing there
    (&[5, 9, 5], &[], &[5, 6, 4, 2]),
    (&[0, 77, 3, 8], &[], &[6, 4, 5, 2]),
    // in the platform list it means the drivers of the image
    (&[], &[9], &[4, 6, 5, 2]),
    (&[], &[1], &[2, 6, 4, 5]),
    // so does a handle whose binding can't be read
    (&[], &[8], &[5, 6, 4, 2]),
    // other handles mean nothing
    (&[], &[3, 0, 77], &[6, 4, 5, 2]),
    // the context comes before the platform list, and a driver that is in both is listed once
    (&[2], &[5], &[2, 5, 6, 4]),
    (&[4], &[4, 5], &[4, 5, 6, 2]),
    (&[6], &[9, 2], &[6, 4, 2, 5]),
    (&[9], &[2, 9], &[2, 4, 6, 5]),
    (&[2, 5, 4, 6], &[6, 5], &[2, 5, 4, 6]),
];

/// Whether bindings are those of handles, in order.
fn are_of(blocks: &[BindingBlock], handles: &[u64]) -> bool {
    for (block, handle) in blocks.iter().zip(handles) {
        if block.handle.get() != *handle {
            return false;
        }
    }
    blocks.len() == handles.len()
}

#[test]
fn drivers_in_order(rt: HostRuntime) -> Result<(), Fail> {
    let world = with_drivers(&rt)?;
    drivers_in_order_in(&rt, &world)
}

fn drivers_in_order_in(rt: &(impl AllocGlobal + Abort), world: &World) -> Result<(), Fail> {
    let controller = numbered(rt, 3);
    for (context, platform, wanted) in ROWS {
        let blocks = order(world, controller, context, platform)?;
        assert!(rt;
            are_of(blocks.as_slice(), wanted),
            "at {context:?} and {platform:?}"
        );
    }
    Ok(())
}

/// Marked handles, a context and a platform list, and the handles of the unmarked drivers in their order.
type MarkedRow = (
    &'static [u64],
    &'static [u64],
    &'static [u64],
    &'static [u64],
);

const MARKED_ROWS: [MarkedRow; 6] = [
    (&[6], &[], &[], &[4, 5, 2]),
    (&[4, 2, 6, 5], &[], &[], &[]),
    // the handle of an image means only those of its drivers that are not marked
    (&[4], &[], &[9], &[6, 5, 2]),
    (&[5, 6], &[5], &[6, 2], &[2, 4]),
    (&[5], &[4, 5], &[], &[4, 6, 2]),
    // handles that have no driver
    (&[77, 3, 0], &[2], &[], &[2, 6, 4, 5]),
];

#[test]
fn unmarked_drivers_in_order(rt: HostRuntime) -> Result<(), Fail> {
    let world = with_drivers(&rt)?;
    unmarked_drivers_in_order_in(&rt, &world)
}

fn unmarked_drivers_in_order_in(
    rt: &(impl AllocGlobal + Abort),
    world: &World,
) -> Result<(), Fail> {
    let controller = numbered(rt, 3);
    for (marked, context, platform, wanted) in MARKED_ROWS {
        let started = started_drivers(rt, marked)?;
        let blocks = order_of_unmarked(world, controller, context, platform, &started)?;
        assert!(rt; are_of(blocks.as_slice(), wanted), "at {marked:?}");
    }
    Ok(())
}

/// Drivers with these handles, as started one after the other.
fn started_drivers(rt: &impl AllocGlobal, handles: &[u64]) -> Result<StartedDrivers, OutOfMemory> {
    let mut started = StartedDrivers::new(rt.alloc());
    for handle in handles {
        started.add(*handle)?;
    }
    Ok(started)
}

/// A world with a root bridge, handle 3, and a child of it, 4, for function 0; with the drivers 5 and 6 of
/// Version 0x10 and 7 of Version 0x20. The first two are of image 8, the third is of 9.
fn with_child(rt: &(impl AllocGlobal + Abort)) -> Result<World, Fail> {
    let lines = [
        BoardLine::Root { uid: 0, bus: 0 },
        BoardLine::Func {
            bus: 0,
            device: 3,
            function: 0,
            vendor: 0x8086,
            id: 0x100E,
            class: 0x02_0000,
        },
    ];
    let board = board_from(rt.alloc(), &lines)?;
    let mut roms = Vec::new(rt.alloc());
    roms.push(None)?;
    assert!(rt; roms.len() == board.functions() as usize);
    let mut world = World::new(rt.alloc(), board, roms)?;
    let pci_io = Guid::known(Known::PciIo);
    let child = world.install(None, pci_io, 0, Handle::firmware())?;
    assert!(rt; world.child_function(child.get()).is_none());
    world.note_child(child, 0)?;
    add_three_drivers(&mut world)?;
    Ok(world)
}

/// Adds the drivers.
fn add_three_drivers(world: &mut World) -> Result<(), Fail> {
    for (version, image) in [(0x10, 8), (0x10, 8), (0x20, 9)] {
        let _ = add_driver(world, version, image)?;
    }
    Ok(())
}

/// Handles by their numbers, which are not 0.
fn all_numbered(rt: &(impl AllocGlobal + Abort), numbers: &[u64]) -> Result<Vec<Handle>, Fail> {
    let mut handles = Vec::new(rt.alloc());
    for number in numbers {
        handles.push(numbered(rt, *number))?;
    }
    Ok(handles)
}

/// A context, a platform list and a bus list, and the handles of the drivers in their order.
type BusRow = (
    &'static [u64],
    &'static [u64],
    &'static [u64],
    &'static [u64],
);

const BUS_ROWS: [BusRow; 7] = [
    (&[], &[], &[], &[7, 5, 6, 2]),
    // an image means its drivers
    (&[], &[], &[8], &[5, 6, 7, 2]),
    (&[], &[], &[6], &[6, 7, 5, 2]),
    // a handle that is not live means nothing
    (&[], &[], &[77, 5], &[5, 7, 6, 2]),
    // the bus list comes after the context and the platform list
    (&[], &[6], &[5], &[6, 5, 7, 2]),
    (&[2], &[], &[8], &[2, 5, 6, 7]),
    (&[6], &[2], &[8], &[6, 2, 5, 7]),
];

/// Only the child has the bus list, and the order for the root bridge uses none.
#[test]
fn drivers_of_a_child(rt: HostRuntime) -> Result<(), Fail> {
    let mut world = with_child(&rt)?;
    drivers_of_a_child_in(&rt, &mut world)
}

fn drivers_of_a_child_in(rt: &(impl AllocGlobal + Abort), world: &mut World) -> Result<(), Fail> {
    let (root, child) = (numbered(rt, 3), numbered(rt, 4));
    for (context, platform, bus, wanted) in BUS_ROWS {
        world.set_bus_list(0, all_numbered(rt, bus)?)?;
        let blocks = order(world, child, context, platform)?;
        assert!(rt; are_of(blocks.as_slice(), wanted), "at {bus:?}");
    }
    let blocks = order(world, root, &[], &[])?;
    assert!(rt; are_of(blocks.as_slice(), &[7, 5, 6, 2]));
    Ok(())
}

/// All fields of a binding, and handles that have none.
#[test]
fn bindings_of_handles(rt: HostRuntime) -> Result<(), Fail> {
    let world = with_drivers(&rt)?;
    let first = binding(&world, 4).ok_or("handle 4 has a binding")?;
    let wanted = BindingBlock {
        handle: numbered(&rt, 4),
        supported: 0x22000,
        start: 0x22008,
        stop: 0x22010,
        version: 0x10,
        image: 9,
        at: first.at,
    };
    assert_eq!(rt; first, wanted);
    for handle in [0, 1, 3, 8, 9, 77] {
        assert!(rt; binding(&world, handle).is_none(), "at {handle}");
    }
    Ok(())
}

/// Opens the disk's PCI I/O, or its device path, for an agent with an attribute.
fn open(
    rt: &impl Abort,
    world: &mut World,
    name: Known,
    opened: (u64, u64, u32),
) -> Result<(), Fail> {
    let (agent, controller, bits) = opened;
    let (disk, guid) = (numbered(rt, 3), Guid::known(name));
    let attr = Attr::legal(bits).expect(rt, "a legal attribute");
    assert!(rt; world.db().interface(disk, guid).is_some());
    assert!(rt; world.db().is_live(agent));
    assert!(rt; world.db().is_live(controller));
    let verdict = world.entries().judged(disk, guid, agent, controller, attr);
    assert!(rt; verdict.may_enter());
    Ok(world.enter(disk, guid, agent, controller, attr)?)
}

/// A controller, a driver and a child, and the drivers to stop in their order.
type StopRow = (u64, u64, u64, Option<&'static [u64]>);

const STOP_ROWS: [StopRow; 10] = [
    // in the order in which the disk's protocols were installed: PCI I/O, then the device path
    (3, 0, 0, Some(&[5, 4])),
    (3, 4, 0, Some(&[4])),
    (3, 6, 0, Some(&[])),
    // the partition is a child of driver 4 only
    (3, 0, 7, Some(&[4])),
    (3, 4, 7, Some(&[4])),
    (3, 5, 7, None),
    (3, 0, 9, None),
    // if no driver remains, the child is not looked at
    (3, 6, 7, Some(&[])),
    (7, 0, 9, Some(&[])),
    (9, 0, 0, Some(&[])),
];

#[test]
fn drivers_to_stop(rt: HostRuntime) -> Result<(), Fail> {
    let mut world = with_drivers(&rt)?;
    drivers_to_stop_in(&rt, &mut world)
}

fn drivers_to_stop_in(rt: &(impl AllocGlobal + Abort), world: &mut World) -> Result<(), Fail> {
    open(rt, world, Known::DevicePath, (4, 3, 0x10))?;
    open(rt, world, Known::PciIo, (5, 3, 0x10))?;
    open(rt, world, Known::PciIo, (4, 7, 0x08))?;
    open(rt, world, Known::PciIo, (6, 9, 0x08))?;
    for (controller, driver, child, wanted) in STOP_ROWS {
        let agents = stop_list(world, numbered(rt, controller), driver, child)?;
        let found = agents.as_ref().map(|agents| agents.as_slice());
        assert!(rt; found == wanted, "at {controller}, {driver} and {child}");
    }
    Ok(())
}
