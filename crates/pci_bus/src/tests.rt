use crate::make_child;
use fw_types::{Guid, Handle, Known};
use fw_world::World;
use guest_memory::GuestMem;
use pci_model::{BoardLine, board_from};
use std::process::Abort;
use std::test::Fail;

/// A root bridge, a bridge on its bus, and a function below the bridge with an option ROM.
fn on_a_bridge(rt: &(impl AllocGlobal + Abort)) -> Result<World, Fail> {
    let lines = [
        BoardLine::Root { uid: 7, bus: 0 },
        BoardLine::Bridge {
            bus: 0,
            device: 1,
            function: 0,
            vendor: 0x8086,
            id: 1,
            secondary: 5,
        },
        BoardLine::Func {
            bus: 5,
            device: 3,
            function: 2,
            vendor: 0x8086,
            id: 0x100E,
            class: 0x02_0000,
        },
    ];
    let board = board_from(rt.alloc(), &lines)?;
    let mut roms = Vec::new(rt.alloc());
    roms.push(None)?;
    roms.push(Some(vec![in rt.alloc(); 0x55, 0xAA, 1]?))?;
    assert!(rt; roms.len() == board.functions() as usize);
    Ok(World::new(rt.alloc(), board, roms)?)
}

/// A child below a bridge, with its path, PCI I/O and the override, and then one without an option ROM.
#[test]
fn children_of_a_root(rt: HostRuntime) -> Result<(), Fail> {
    let mut world = on_a_bridge(&rt)?;
    children_of_a_root_in(&rt, &mut world)
}

fn children_of_a_root_in(rt: &(impl AllocGlobal + Abort), world: &mut World) -> Result<(), Fail> {
    let root = Handle::bus_driver().next();
    let child = make_child(world, root, 1)?;
    assert_eq!(rt; child.get(), 4);
    let firmware = Handle::firmware();
    let found = world.db().protocols_of(child)?;
    let three = [
        (Guid::known(Known::DevicePath), 0x1_0000_0010, firmware),
        (Guid::known(Known::PciIo), 0x1_0000_0030, firmware),
        (Guid::known(Known::BusOverride), 0x1_0000_00D0, firmware),
    ];
    assert_eq!(rt; found.as_slice(), three.as_slice());
    let path: [u64; 4] = [
        0x0A03_41D0_000C_0102,
        0x0006_0101_0000_0007,
        0x0302_0006_0101_0100,
        0x0004_FF7F,
    ];
    for (at, value) in [0x10_u64, 0x18, 0x20].iter().zip(path.iter()) {
        assert_eq!(rt; world.read(0x1_0000_0000 | *at, 8), Some(*value));
    }
    assert_eq!(rt; world.read(0x1_0000_0028, 4), Some(path[3]));
    // the functions of PCI I/O, RomSize, and GetDriver of the override
    let fields = [
        (0x1_0000_0030, 0x2_1000),
        (0x1_0000_0040, 0x2_1010),
        (0x1_0000_00B8, 0x2_1088),
        (0x1_0000_00C0, 0),
        (0x1_0000_00D0, 0x2_3000),
    ];
    for (at, value) in fields {
        assert_eq!(rt; world.read(at, 8), Some(value));
    }
    let bridge = make_child(world, root, 0)?;
    assert_eq!(rt; world.db().protocols_of(bridge)?.len(), 2);
    Ok(())
}

/// What the world knows of children and of option ROMs.
#[test]
fn children_are_known(rt: HostRuntime) -> Result<(), Fail> {
    let mut world = on_a_bridge(&rt)?;
    children_are_known_in(&rt, &mut world)
}

fn children_are_known_in(rt: &(impl AllocGlobal + Abort), world: &mut World) -> Result<(), Fail> {
    let root = Handle::bus_driver().next();
    let first = make_child(world, root, 1)?;
    let second = make_child(world, root, 1)?;
    assert_eq!(rt; world.child_of(1), Some(first));
    assert_eq!(rt; world.child_of(0), None);
    assert_eq!(rt; world.child_function(second.get()), Some(1));
    assert_eq!(rt; world.child_function(root.get()), None);
    assert_eq!(rt; world.pci_at(0x1_0000_0030), Some(1));
    assert_eq!(rt; world.pci_at(0x1_0000_0031), None);
    assert_eq!(rt; world.rom_done(1), false);
    let mut images = Vec::new(rt.alloc());
    images.push(second)?;
    world.set_bus_list(1, images)?;
    assert_eq!(rt; world.rom_done(1), true);
    assert_eq!(rt; world.bus_list(1), [second].as_slice());
    assert_eq!(rt; world.bus_list(0).len(), 0);
    Ok(())
}
