//! The board in the world: its root bridges at first, its option ROMs, and what no undo touches.
ghost use Rattle.std.specs.Prelude.{◌≡◌, [], IfOk};
ghost use Rattle.world_model.specs.Marks.{stacks};

use crate::World;
use fw_types::{Guid, Handle, Known};
use guest_memory::GuestMem;
use pci_model::{BoardLine, DevRefusal, board_from};
use std::process::Abort;
use std::test::Fail;
use world_model::laws::rest_is_free;

/// Two root bridges, and a function with an option ROM of three bytes.
pub(crate) fn on_two_roots(rt: &(impl AllocGlobal + Abort)) -> Result<World, Fail>
    ensures marks { IfOk result (λ world. world.marks ≡ []) }
    ensures stacks { IfOk result (λ world. stacks world.now.soft ≡ []) }
{
    let lines = [
        BoardLine::Root { uid: 0, bus: 0 },
        BoardLine::Root {
            uid: 0x1234,
            bus: 0x80,
        },
        BoardLine::Func {
            bus: 0x80,
            device: 3,
            function: 0,
            vendor: 0x8086,
            id: 0x100E,
            class: 0x02_0000,
        },
    ];
    rest_is_free();
    let board = board_from(rt.alloc(), &lines)?;
    let mut roms = Vec::new(rt.alloc());
    roms.push(Some(vec![in rt.alloc(); 0x55, 0xAA, 1]?))?;
    assert!(rt; roms.len() == board.functions() as usize);
    Ok(World::new(rt.alloc(), board, roms)?)
}

/// Each root bridge has a handle from 3 on, with its device path and then with root bridge I/O.
#[test]
fn roots_in_line_order(rt: HostRuntime) -> Result<(), Fail> {
    let world = on_two_roots(&rt)?;
    roots_in_line_order_in(&rt, &world)
}

fn roots_in_line_order_in(rt: &impl Abort, world: &World) -> Result<(), Fail> {
    shows_root(rt, world, 3, 0x1_0000_0000, [0, 0, 0, 0])?;
    shows_root(rt, world, 4, 0x1_0000_0010, [0x34, 0x12, 0, 0])?;
    assert_eq!(rt; world.read(0x1_0000_0010, 1).is_some(), true);
    assert_eq!(rt; world.read(0x1_0000_0020, 1).is_some(), false);
    let buses = [
        (0, None),
        (1, None),
        (2, None),
        (3, Some(0)),
        (4, Some(0x80)),
        (5, None),
    ];
    for (number, bus) in buses {
        assert_eq!(rt; world.root_bus(number), bus, "of {number}");
    }
    assert_eq!(rt; world.db().is_live(5), false);
    Ok(())
}

/// A root bridge: its protocols, and the 16 bytes of its device path, with its UID.
fn shows_root(
    rt: &impl Abort,
    world: &World,
    number: u64,
    at: u64,
    uid: [u8; 4],
) -> Result<(), Fail> {
    let handle = Handle::new(number).expect(rt, "the number of a handle");
    let firmware = Handle::firmware();
    let found = world.db().protocols_of(handle)?;
    let both = [
        (Guid::known(Known::DevicePath), at, firmware),
        (Guid::known(Known::RootBridgeIo), 0, firmware),
    ];
    assert_eq!(rt; found.as_slice(), both.as_slice());
    let [a, b, c, d] = uid;
    let bytes: [u8; 16] = [
        0x02, 0x01, 0x0C, 0x00, 0xD0, 0x41, 0x03, 0x0A, a, b, c, d, 0x7F, 0xFF, 0x04, 0x00,
    ];
    for (place, byte) in (at..u64::MAX).zip(bytes) {
        assert_eq!(rt; world.read(place, 1), Some(u64::from(byte)));
    }
    Ok(())
}

/// Writes the interrupt line of function 0.
fn write_interrupt_line(world: &mut World, line: u64) -> Result<(), DevRefusal>
    ensures soft { world.new.now.soft ≡ world.old.now.soft }
    ensures marks { world.new.marks ≡ world.old.marks }
{
    world.write_config(0, 0x3C, 1, line)
}

/// What is written to a device stays after an undo, and so do the option ROMs.
#[test]
fn devices_stay(rt: HostRuntime) -> Result<(), Fail> {
    let mut world = on_two_roots(&rt)?;
    devices_stay_in(&rt, &mut world)
}

fn devices_stay_in(rt: &(impl AllocGlobal + Abort), world: &mut World) -> Result<(), Fail>
    requires { world.old.marks ≡ [] }
{
    let mark = world.mark();
    write_interrupt_line(world, 11)?;
    world.rollback(mark)?;
    assert_eq!(rt; world.board().config_read(0, 0x3C, 1), Ok(11));
    assert_eq!(rt; world.rom_bytes(0), Some(&[0x55, 0xAA, 1][..]));
    assert_eq!(rt; world.rom_bytes(1), None);
    Ok(())
}
