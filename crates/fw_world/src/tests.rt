ghost use Rattle.std.specs.Prelude.{◌≡◌, [], IfOk, OnOk, length};
ghost use Rattle.world_model.specs.Marks.{stacks};

use crate::{World, WorldFault};
use fw_types::{
    BOOT_SERVICE_DRIVER, Cause, EventKind, Guid, Handle, Known, OutOfMemory, Outcome,
    RUNTIME_DRIVER, Status,
};
use guest_memory::{GuestMem, SegKind};
use pci_model::Board;
use std::alloc::AllocError;
use std::process::Abort;
use std::test::Fail;
use world_model::laws::stacks_stand;

/// `len` bytes, all the same.
pub(crate) fn bytes_of(rt: &impl AllocGlobal, len: usize, byte: u8) -> Result<Vec<u8>, AllocError>
    ensures { IfOk result (λ bytes. length bytes.items ≡ len) }
{
    vec![in rt.alloc(); byte; len]
}

/// The opening state of an empty board.
pub(crate) fn opened(rt: &impl AllocGlobal) -> Result<World, OutOfMemory>
    ensures { IfOk result (λ world. world.marks ≡ []) }
{
    World::new(rt.alloc(), Board::empty(rt.alloc()), Vec::new(rt.alloc()))
}

/// The byte that some fields of a block give at a place in it: that of the last field that covers the place,
/// or 0.
fn byte_in(fields: &[(usize, &[u8])], place: usize) -> u8 {
    let mut found = 0;
    for (at, bytes) in fields {
        if *at <= place {
            found = bytes.get(place - *at).copied().unwrap_or(found);
        }
    }
    found
}

/// Memory has exactly this many bytes from an address on, which are 0 except for these fields.
fn shows(rt: &impl Abort, world: &World, base: u64, size: usize, fields: &[(usize, &[u8])]) {
    for (at, place) in (base..u64::MAX).zip(0..size) {
        let byte = byte_in(fields, place);
        assert_eq!(rt; world.read(at, 1), Some(u64::from(byte)), "at {at:x}");
    }
    assert_eq!(rt; world.read(base.saturating_add(size as u64), 1), None);
}

/// All bytes of the bus driver's binding.
#[test]
fn opening_binding(rt: HostRuntime) -> Result<(), Fail> {
    let world = opened(&rt)?;
    let binding: [(usize, &[u8]); 6] = [
        // Supported, Start and Stop at 0x22000, 0x22008 and 0x22010
        (0, &[0, 0x20, 2]),
        (8, &[8, 0x20, 2]),
        (16, &[0x10, 0x20, 2]),
        // Version, ImageHandle and DriverBindingHandle
        (24, &[10]),
        (32, &[1]),
        (40, &[2]),
    ];
    shows(&rt, &world, 0x1_3000, 48, &binding);
    Ok(())
}

/// All bytes of the firmware's loaded image block.
#[test]
fn opening_image_block(rt: HostRuntime) -> Result<(), Fail> {
    let world = opened(&rt)?;
    let firmware: [(usize, &[u8]); 4] = [
        (0, &[0, 0x10]),
        // the system table at 0x10000
        (16, &[0, 0, 1]),
        // the types of code and data
        (80, &[3]),
        (84, &[4]),
    ];
    shows(&rt, &world, 0x1_4000, 96, &firmware);
    Ok(())
}

/// The handles of the opening state, and its numbers.
#[test]
fn opening_handles(rt: HostRuntime) -> Result<(), Fail> {
    let world = opened(&rt)?;
    let firmware = Handle::firmware();
    let image = Guid::known(Known::LoadedImage);
    let binding = Guid::known(Known::DriverBinding);
    assert_eq!(rt;
        world.db().interface(firmware, image),
        Some((0x1_4000, firmware))
    );
    assert_eq!(rt;
        world.db().interface(Handle::bus_driver(), binding),
        Some((0x1_3000, firmware))
    );
    assert_eq!(rt;
        (world.tpl(), world.left(), world.next_image()),
        (4, 0, 0x200_0000)
    );
    Ok(())
}

/// Adds two images to a new world: 0x10001 bytes of a boot service driver, with its entry at offset 0x10,
/// and 0x10000 of a runtime driver, from a device 3 and with the last byte as its entry.
fn add_images(rt: &impl AllocGlobal, world: &mut World) -> Result<Handle, Fail> {
    let first = world.add_image(bytes_of(rt, 0x1_0001, 0x11)?, 0x10, BOOT_SERVICE_DRIVER, 0)?;
    let _ = world.add_image(bytes_of(rt, 0x1_0000, 0x22)?, 0xffff, RUNTIME_DRIVER, 3)?;
    Ok(first)
}

/// All bytes of the loaded image block of a runtime driver from a device.
#[test]
fn runtime_image_block(rt: HostRuntime) -> Result<(), Fail> {
    let mut world = opened(&rt)?;
    runtime_image_block_in(&rt, &mut world)
}

fn runtime_image_block_in(rt: &(impl AllocGlobal + Abort), world: &mut World) -> Result<(), Fail> {
    let _ = add_images(rt, world)?;
    let block: [(usize, &[u8]); 8] = [
        (0, &[0, 0x10]),
        (8, &[1]),
        (16, &[0, 0, 1]),
        // DeviceHandle
        (24, &[3]),
        (64, &[0, 0, 2, 2]),
        (72, &[0, 0, 1]),
        (80, &[5]),
        (84, &[6]),
    ];
    shows(rt, world, 0x1_0000_0060, 96, &block);
    Ok(())
}

/// The addresses of two images and of a thunk, and what is removed with a dropped image. Neither its address
/// nor its handle nor the thunk's number is used again.
#[test]
fn images_and_thunks(rt: HostRuntime) -> Result<(), Fail> {
    let mut world = opened(&rt)?;
    images_and_thunks_in(&rt, &mut world)
}

fn images_and_thunks_in(rt: &(impl AllocGlobal + Abort), world: &mut World) -> Result<(), Fail> {
    let first = add_images(rt, world)?;
    assert_eq!(rt;
        (world.entry_of(3), world.entry_of(4)),
        (Some(0x200_0010), Some(0x202_ffff))
    );
    assert_eq!(rt; thunk_into(world, 0x201_0000)?, Some(0x40_0000));
    assert_eq!(rt; thunk_into(world, 0x202_0000)?, Some(0x40_0010));
    assert_eq!(rt; world.drop_image(first), Ok(()));
    assert_eq!(rt;
        (world.read(0x200_0000, 1), world.read(0x1_0000_0000, 1)),
        (None, None)
    );
    assert_eq!(rt;
        (world.thunk_at(0x40_0000), world.thunk_at(0x40_0010)),
        (None, Some(0x202_0000))
    );
    let third = world.add_image(bytes_of(rt, 0x40, 0x33)?, 0, BOOT_SERVICE_DRIVER, 0)?;
    assert_eq!(rt; (third.get(), world.entry_of(5)), (5, Some(0x203_0000)));
    assert_eq!(rt; thunk_into(world, 0x203_0000)?, Some(0x40_0020));
    Ok(())
}

/// The sizes of blocks that are made after a loaded image block of 96 bytes, and their addresses:
/// what each takes is a multiple of 16.
const SIZES: [(usize, u64); 6] = [
    (24, 0x1_0000_0060),
    (16, 0x1_0000_0080),
    (0, 0x1_0000_0090),
    (17, 0x1_0000_00a0),
    (32, 0x1_0000_00c0),
    (1, 0x1_0000_00e0),
];

/// The addresses of blocks.
#[test]
fn block_addresses(rt: HostRuntime) -> Result<(), Fail> {
    let mut world = opened(&rt)?;
    block_addresses_in(&rt, &mut world)
}

fn block_addresses_in(rt: &(impl AllocGlobal + Abort), world: &mut World) -> Result<(), Fail> {
    let _ = world.add_image(bytes_of(rt, 0x40, 0)?, 0, BOOT_SERVICE_DRIVER, 0)?;
    for (size, at) in SIZES {
        assert_eq!(rt; world.allot(bytes_of(rt, size, 0)?, SegKind::Pool), Ok(at));
    }
    // a block has just its bytes
    assert_eq!(rt;
        (world.read(0x1_0000_0077, 1), world.read(0x1_0000_0078, 1)),
        (Some(0), None)
    );
    Ok(())
}

/// The most bytes of all blocks, including loaded image blocks. What is refused changes nothing.
#[test]
fn most_bytes_of_blocks(rt: HostRuntime) -> Result<(), Fail> {
    let mut world = opened(&rt)?;
    most_bytes_of_blocks_in(&rt, &mut world)
}

fn most_bytes_of_blocks_in(rt: &(impl AllocGlobal + Abort), world: &mut World) -> Result<(), Fail> {
    let most = bytes_of(rt, 67_108_864 - 96, 0)?;
    assert_eq!(rt; world.allot(most, SegKind::Pool), Ok(0x1_0000_0000));
    let image = world.add_image(bytes_of(rt, 1, 0)?, 0, BOOT_SERVICE_DRIVER, 0)?;
    assert_eq!(rt; image.get(), 3);
    assert_eq!(rt;
        world.allot(bytes_of(rt, 1, 0)?, SegKind::Firmware),
        Err(WorldFault::Full)
    );
    assert_eq!(rt;
        world.add_image(bytes_of(rt, 1, 0)?, 0, BOOT_SERVICE_DRIVER, 0),
        Err(WorldFault::Full)
    );
    assert_eq!(rt;
        (world.next_image(), world.db().is_live(4)),
        (0x201_0000, false)
    );
    Ok(())
}

/// Events inside one another, which end in another order than they begin.
#[test]
fn events(rt: HostRuntime) -> Result<(), Fail> {
    let mut world = opened(&rt)?;
    events_in(&rt, &mut world)
}

/// The number of an event, the one inside which it begins, the driver, and how it ends.
type EventRow = (u64, u64, u64, Outcome);

const EVENTS: [EventRow; 2] = [
    (1, 0, 3, Outcome::Value(Status::NOT_FOUND)),
    (2, 1, 4, Outcome::Trapped(Cause::Memory)),
];

fn events_in(rt: &impl Abort, world: &mut World) -> Result<(), Fail> {
    begin_and_end(world)?;
    let events = world.take_events();
    assert_eq!(rt; events.len(), 2);
    for (event, row) in events.iter().zip(EVENTS) {
        assert_eq!(rt;
            (event.serial, event.parent, event.driver, event.result),
            row
        );
    }
    Ok(())
}

/// Begins and ends two events, of which the second begins and ends inside the first.
fn begin_and_end(world: &mut World) -> Result<(), OutOfMemory> {
    world.begin_command(64);
    let first = world.begin_event(0, EventKind::Entry, 3, 0, 0)?;
    let second = world.begin_event(first, EventKind::Entry, 4, 5, 6)?;
    world.end_event(second, Outcome::Trapped(Cause::Memory));
    world.end_event(first, Outcome::Value(Status::NOT_FOUND));
    Ok(())
}

/// A stack with its frame.
#[test]
fn stack_frame(rt: HostRuntime) -> Result<(), Fail> {
    let mut world = World::new(rt.alloc(), Board::empty(rt.alloc()), Vec::new(rt.alloc()))?;
    let slots = [1, 2, 3, 4, 5, 6, 7, 8, 9, 10, 11, 12, 13, 14, 15, 16];
    let cpu = world.push_stack(1, &slots, &[3, 0x0102_0304_0506_0708])?;
    assert_eq!(rt; cpu.r, [0x81_ff70, 0, 0, 0, 0, 0, 0, 0]);
    assert_eq!(rt; (cpu.flags, cpu.ip), (0, 0));
    shows_frame(&rt, &world);
    Ok(())
}

/// The stack of level 1: zeros below the frame, the return address, 8 bytes of zeros, and the arguments 1 to
/// 16.
fn shows_frame(rt: &impl Abort, world: &World) {
    for i in 0..0xff70 {
        assert_eq!(rt; world.read(0x81_0000 + i, 1), Some(0));
    }
    assert_eq!(rt;
        (world.read(0x81_ff70, 8), world.read(0x81_ff78, 8)),
        (Some(0x2_4000), Some(0))
    );
    for i in 0..16 {
        assert_eq!(rt; world.read(0x81_ff80 + 8 * i, 8), Some(i + 1));
    }
    assert_eq!(rt; world.read(0x82_0000, 1), None);
}

/// A list of children next to a stack. They are removed together.
#[test]
fn list_of_children(rt: HostRuntime) -> Result<(), Fail> {
    let mut world = World::new(rt.alloc(), Board::empty(rt.alloc()), Vec::new(rt.alloc()))?;
    let _ = world.push_stack(1, &[0; 16], &[3, 0x0102_0304_0506_0708])?;
    let list: [(usize, &[u8]); 2] = [(0, &[3]), (8, &[8, 7, 6, 5, 4, 3, 2, 1])];
    shows(&rt, &world, 0xc2_0000, 16, &list);
    world.pop_stack(1)?;
    assert_eq!(rt;
        (world.read(0x81_0000, 1), world.read(0xc2_0000, 1)),
        (None, None)
    );
    Ok(())
}

/// Makes a thunk if an image has the entry.
pub(crate) fn thunk_into(world: &mut World, entry: u64) -> Result<Option<u64>, WorldFault>
    ensures marks { OnOk result (world.new.marks ≡ world.old.marks) }
    ensures stacks { OnOk result (stacks world.new.now.soft ≡ stacks world.old.now.soft) }
{
    match world.image_at(entry) {
        Some(_) => {
            let at = world.make_thunk(entry)?;
            Ok(Some(at))
        }
        None => Ok(None),
    }
}

/// Puts bytes if they can be written.
pub(crate) fn put_at(world: &mut World, at: u64, bytes: &[u8]) -> Result<bool, OutOfMemory>
    ensures marks { OnOk result (world.new.marks ≡ world.old.marks) }
    ensures stacks { OnOk result (stacks world.new.now.soft ≡ stacks world.old.now.soft) }
{
    stacks_stand();
    if !world.can_write(at, bytes.len() as u64) {
        return Ok(false);
    }
    world.put(at, bytes)?;
    Ok(true)
}

/// Puts a byte in many places if they can be written.
pub(crate) fn fill_at(world: &mut World, at: u64, n: u64, byte: u8) -> Result<bool, OutOfMemory>
    ensures marks { OnOk result (world.new.marks ≡ world.old.marks) }
    ensures stacks { OnOk result (stacks world.new.now.soft ≡ stacks world.old.now.soft) }
{
    stacks_stand();
    if !world.can_write(at, n) {
        return Ok(false);
    }
    world.fill(at, n, byte)?;
    Ok(true)
}

/// Whether these bytes can be read at an address.
fn reads(world: &World, at: u64, bytes: &[u8]) -> bool {
    let n = bytes.len() as u64;
    if !world.can_read(at, n) {
        return false;
    }
    world.bytes(at, n) == bytes
}

/// Ranges in which bytes are put, and ranges in which they are not.
#[test]
fn ranges(rt: HostRuntime) -> Result<(), Fail> {
    let mut world = opened(&rt)?;
    ranges_in(&rt, &mut world)
}

fn ranges_in(rt: &(impl AllocGlobal + Abort), world: &mut World) -> Result<(), Fail> {
    let _ = world.allot(bytes_of(rt, 8, 0x11)?, SegKind::Pool)?;
    let puts: [(u64, &[u8], bool); 5] = [
        (0x1_0000_0002, &[1, 2, 3], true),
        // past the end of the block
        (0x1_0000_0006, &[1, 2, 3], false),
        // in a table, in no segment, and no bytes
        (0x1_3000, &[0], false),
        (0x2_0000, &[0], false),
        (0x2_0000, &[], true),
    ];
    for (at, bytes, done) in puts {
        assert_eq!(rt; put_at(world, at, bytes)?, done);
    }
    assert_eq!(rt; fill_at(world, 0x1_0000_0004, 3, 9)?, true);
    assert_eq!(rt; fill_at(world, 0x1_0000_0004, 5, 9)?, false);
    assert!(rt; reads(world, 0x1_0000_0000, &[0x11, 0x11, 1, 2, 9, 9, 9, 0x11]));
    assert!(rt; !reads(world, 0x1_0000_0007, &[0x11, 0]));
    // the version in the bus driver's binding
    assert!(rt; reads(world, 0x1_3018, &[10, 0, 0, 0]));
    Ok(())
}
