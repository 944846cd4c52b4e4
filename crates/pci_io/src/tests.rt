ghost use Rattle.std.specs.Prelude.{◌≡◌, [], IfOk, OnOk, false};
ghost use Rattle.service_model.specs.BootServices.{is_boot_service};
ghost use Rattle.world_model.specs.Marks.{stacks};

use crate::pci_serve;
use fw_types::{Cause, Guid, Handle, Known, OutOfMemory, Status};
use fw_world::World;
use guest_memory::GuestMem;
use pci_bus::make_child;
use pci_model::{BoardLine, board_from};
use service_model::laws::services_keep;
use service_model::{Caller, Served};
use service_thunks::Service;
use std::process::Abort;
use std::test::Fail;
use world_model::laws::stacks_stand;

/// The beginning of the sixteen slots of the stack of level 1, and a place far from its frame.
const SLOTS: u64 = 0x81_FF80;

const PLACE: u64 = 0x81_8000;

/// An address with nothing at it, and one that can only be read.
const BAD: u64 = 0x1000;

const TABLE: u64 = 0x1_0000;

/// PCI I/O of the child, and an address with no PCI I/O at it.
const THIS: u64 = 0x1_0000_0030;

const OTHER: u64 = THIS + 8;

/// PCI I/O of a second child.
const SECOND_THIS: u64 = 0x1_0000_00F0;

/// What a function answers.
#[derive(Clone, Copy, Debug, PartialEq, Eq)]
enum Answer {
    Value(u64),
    Trap(Cause),
    GoesOn,
}

const DONE: Answer = Answer::Value(Status::SUCCESS.0);

const INVALID: Answer = Answer::Value(Status::INVALID_PARAMETER.0);

const UNSUPPORTED: Answer = Answer::Value(Status::UNSUPPORTED.0);

const TRAPPED: Answer = Answer::Trap(Cause::Memory);

/// The arguments of a call, and what it answers.
type Call = ([u64; 6], Answer);

/// The board of a root bridge and a function with 64 bytes at BAR 1, with a child for the function, a
/// stack of level 1, and `units` units.
fn with_a_child(rt: &(impl AllocGlobal + Abort), units: u32) -> Result<World, Fail>
    ensures { IfOk result (λ world. world.marks ≡ []) }
{
    let lines = [
        BoardLine::Root { uid: 0, bus: 0 },
        BoardLine::Func {
            bus: 0,
            device: 3,
            function: 0,
            vendor: 0x8086,
            id: 0x100E,
            class: 0x02_0000,
        },
        BoardLine::Bar {
            bus: 0,
            device: 3,
            function: 0,
            index: 1,
            address: 0xFEB0_0000,
            size: 64,
        },
    ];
    let board = board_from(rt.alloc(), &lines)?;
    let mut roms = Vec::new(rt.alloc());
    roms.push(None)?;
    assert!(rt; roms.len() == board.functions() as usize);
    let mut world = World::new(rt.alloc(), board, roms)?;
    let _ = world.push_stack(1, &[0; 16], &[])?;
    add_child(&mut world, units)?;
    Ok(world)
}

/// Adds the child and the units.
fn add_child(world: &mut World, units: u32) -> Result<(), Fail>
    ensures { OnOk result (world.new.marks ≡ world.old.marks) }
{
    let _ = make_child(world, Handle::bus_driver().next(), 0)?;
    world.begin_command(units);
    Ok(())
}

/// Puts the arguments of a call on the stack.
fn put_arguments(world: &mut World, arguments: &[u64; 6]) -> Result<(), Fail>
    ensures marks { OnOk result (world.new.marks ≡ world.old.marks) }
    ensures stacks { OnOk result (stacks world.new.now.soft ≡ stacks world.old.now.soft) }
{
    stacks_stand();
    world.write(SLOTS, 8, arguments[0])?;
    world.write(SLOTS + 8, 8, arguments[1])?;
    world.write(SLOTS + 16, 8, arguments[2])?;
    world.write(SLOTS + 24, 8, arguments[3])?;
    world.write(SLOTS + 32, 8, arguments[4])?;
    world.write(SLOTS + 40, 8, arguments[5])?;
    Ok(())
}

/// What a function answers to a caller.
fn answered(world: &mut World, s: Service, caller: &Caller) -> Result<Served, OutOfMemory>
    requires { is_boot_service s ≡ false }
    ensures marks { OnOk result (world.new.marks ≡ world.old.marks) }
    ensures stacks { OnOk result (stacks world.new.now.soft ≡ stacks world.old.now.soft) }
{
    services_keep();
    world.is_kept();
    pci_serve(world, s, caller)
}

/// Calls a function with the arguments at an address.
fn called_at(world: &mut World, s: Service, sp: u64) -> Result<Answer, Fail>
    requires { is_boot_service s ≡ false }
    ensures marks { OnOk result (world.new.marks ≡ world.old.marks) }
    ensures stacks { OnOk result (stacks world.new.now.soft ≡ stacks world.old.now.soft) }
{
    let caller = Caller {
        image: Handle::bus_driver(),
        level: 1,
        sp,
    };
    match answered(world, s, &caller)? {
        Served::Value(value) => Ok(Answer::Value(value)),
        Served::Trap(cause) => Ok(Answer::Trap(cause)),
        Served::Again(_) => Ok(Answer::GoesOn),
    }
}

/// Calls a function with these arguments.
fn call(world: &mut World, s: Service, arguments: &[u64; 6]) -> Result<Answer, Fail>
    requires { is_boot_service s ≡ false }
    ensures marks { OnOk result (world.new.marks ≡ world.old.marks) }
    ensures stacks { OnOk result (stacks world.new.now.soft ≡ stacks world.old.now.soft) }
{
    put_arguments(world, arguments)?;
    called_at(world, s, SLOTS)
}

/// A function answers each of these calls as given.
fn all_answer(rt: &impl Abort, world: &mut World, s: Service, calls: &[Call]) -> Result<(), Fail>
    requires { is_boot_service s ≡ false }
{
    for (arguments, answer) in calls {
        assert_eq!(rt; call(world, s, arguments)?, *answer, "at {arguments:?}");
    }
    Ok(())
}

/// Pci.Read. Its offset has 32 bits.
const CONFIG_READS: [Call; 6] = [
    ([THIS, 2, 0, 1, PLACE, 0], DONE),
    ([THIS, 2, 1 << 32, 1, PLACE, 0], DONE),
    ([THIS, 2, 252, 1, PLACE + 8, 0], DONE),
    ([THIS, 2, 253, 1, PLACE + 8, 0], UNSUPPORTED),
    ([THIS, 0, 256, 0, BAD, 0], DONE),
    ([THIS, 0, 257, 0, BAD, 0], UNSUPPORTED),
];

#[test]
fn config_space_is_read(rt: HostRuntime) -> Result<(), Fail> {
    let mut world = with_a_child(&rt, 100)?;
    all_answer(&rt, &mut world, Service::PciRead, &CONFIG_READS)?;
    assert_eq!(rt; world.read(PLACE, 4), Some(0x100E_8086));
    // 4 units each, and one for each element
    assert_eq!(rt; world.left(), 100 - 28);
    Ok(())
}

/// Mem.Read with what is wrong: two things at once, of which the earlier answers, and each alone.
const READS: [Call; 24] = [
    // `This` is checked before anything else
    ([OTHER, 5, 1, 0, 1, PLACE], INVALID),
    ([OTHER, 0, 1, 0, 1, BAD], INVALID),
    ([OTHER, 0, 2, 0, 1, PLACE], INVALID),
    ([OTHER, 0, 1, 64, 1, PLACE], INVALID),
    // a NULL buffer answers before a width that is not built, the BAR and its end
    ([THIS, 5, 1, 0, 1, 0], INVALID),
    ([THIS, 0, 2, 0, 1, 0], INVALID),
    ([THIS, 0, 1, 64, 1, 0], INVALID),
    // a width over 11 answers before the buffer's bytes, the BAR and its end
    ([THIS, 12, 1, 0, 1, BAD], INVALID),
    ([THIS, 12, 2, 0, 1, PLACE], INVALID),
    ([THIS, 12, 1, 64, 1, PLACE], INVALID),
    // a width that is not built answers before the buffer's bytes
    ([THIS, 4, 1, 0, 1, BAD], UNSUPPORTED),
    ([THIS, 11, 1, 0, 1, BAD], UNSUPPORTED),
    // the buffer's bytes answer before the BAR and its end
    ([THIS, 0, 2, 0, 1, BAD], TRAPPED),
    ([THIS, 0, 1, 64, 1, BAD], TRAPPED),
    // each alone: neither a table nor 2^64 bytes can be written
    ([THIS, 0, 1, 0, 1, TABLE], TRAPPED),
    ([THIS, 3, 1, 0, 1 << 61, PLACE], TRAPPED),
    ([THIS, 0, 2, 0, 1, PLACE], UNSUPPORTED),
    ([THIS, 3, 1, 57, 1, PLACE], UNSUPPORTED),
    ([THIS, 3, 1, u64::MAX, 1, PLACE], UNSUPPORTED),
    // the width has 32 bits, the BAR 8, and the offset 64
    ([THIS, 1 << 32, 0x101, 63, 1, PLACE], DONE),
    ([THIS, 0, 1, 1 << 32, 1, PLACE], UNSUPPORTED),
    ([THIS, 3, 1, 0, 8, PLACE], DONE),
    // no element
    ([THIS, 3, 1, 64, 0, BAD], DONE),
    ([THIS, 3, 1, 65, 0, BAD], UNSUPPORTED),
];

#[test]
fn reads_are_refused_in_order(rt: HostRuntime) -> Result<(), Fail> {
    let mut world = with_a_child(&rt, 1_000_000)?;
    all_answer(&rt, &mut world, Service::MemRead, &READS)
}

/// Mem.Write, whose buffer must be readable.
const WRITES: [Call; 8] = [
    ([OTHER, 0, 1, 0, 1, BAD], INVALID),
    ([THIS, 5, 1, 0, 1, 0], INVALID),
    ([THIS, 12, 1, 0, 1, BAD], INVALID),
    ([THIS, 4, 1, 0, 1, BAD], UNSUPPORTED),
    ([THIS, 0, 2, 0, 1, BAD], TRAPPED),
    ([THIS, 0, 1, 64, 1, BAD], TRAPPED),
    ([THIS, 0, 1, 64, 1, TABLE], UNSUPPORTED),
    ([THIS, 3, 1, 8, 2, TABLE], DONE),
];

#[test]
fn writes_are_refused_in_order(rt: HostRuntime) -> Result<(), Fail> {
    let mut world = with_a_child(&rt, 1_000_000)?;
    writes_are_refused_in_order_in(&rt, &mut world)
}

fn writes_are_refused_in_order_in(
    rt: &(impl AllocGlobal + Abort),
    world: &mut World,
) -> Result<(), Fail> {
    all_answer(rt, world, Service::MemWrite, &WRITES)?;
    assert_eq!(rt;
        call(world, Service::MemRead, &[THIS, 2, 1, 4, 4, PLACE])?,
        DONE
    );
    // the bytes of the table are in the BAR from 8 to 23
    let read = [
        world.read(PLACE, 4),
        world.read(PLACE + 4, 8),
        world.read(PLACE + 12, 4),
    ];
    assert_eq!(rt;
        read,
        [Some(0), world.read(TABLE, 8), world.read(TABLE + 8, 4)]
    );
    Ok(())
}

/// GetLocation with two things wrong at once, and with each alone.
const LOCATIONS: [Call; 7] = [
    ([OTHER, BAD, PLACE, PLACE, PLACE, 0], INVALID),
    ([THIS, BAD, PLACE, PLACE, 0, 0], INVALID),
    ([THIS, 0, BAD, PLACE, PLACE, 0], INVALID),
    ([THIS, PLACE, 0, BAD, PLACE, 0], INVALID),
    ([THIS, PLACE, PLACE, 0, BAD, 0], INVALID),
    ([THIS, PLACE, PLACE, PLACE, TABLE, 0], TRAPPED),
    ([THIS, PLACE, PLACE + 8, PLACE + 16, PLACE + 24, 0], DONE),
];

/// The numbers at four places.
fn numbers_at(world: &World, places: [u64; 4]) -> [Option<u64>; 4] {
    [
        world.read(places[0], 8),
        world.read(places[1], 8),
        world.read(places[2], 8),
        world.read(places[3], 8),
    ]
}

#[test]
fn location_has_four_numbers(rt: HostRuntime) -> Result<(), Fail> {
    let mut world = with_a_child(&rt, 100)?;
    location_has_four_numbers_in(&rt, &mut world)
}

fn location_has_four_numbers_in(
    rt: &(impl AllocGlobal + Abort),
    world: &mut World,
) -> Result<(), Fail> {
    world.write(PLACE, 8, u64::MAX)?;
    world.write(PLACE + 16, 8, u64::MAX)?;
    all_answer(rt, world, Service::GetLocation, &LOCATIONS)?;
    let numbers = numbers_at(world, [PLACE, PLACE + 8, PLACE + 16, PLACE + 24]);
    assert_eq!(rt; numbers, [Some(0), Some(0), Some(3), Some(0)]);
    assert_eq!(rt; world.left(), 100 - 28);
    Ok(())
}

/// Numbers whose places overlap are stored in the order of the arguments.
#[test]
fn location_at_one_place(rt: HostRuntime) -> Result<(), Fail> {
    let mut world = with_a_child(&rt, 100)?;
    let same = [([THIS, PLACE, PLACE, PLACE, PLACE + 8, 0], DONE)];
    all_answer(&rt, &mut world, Service::GetLocation, &same)?;
    assert_eq!(rt; world.read(PLACE, 8), Some(3));
    Ok(())
}

/// Calls of Attributes, one after the other: what each answers, and the command register after it.
const ATTRIBUTES: [(u64, u64, u64, Answer, u64); 15] = [
    // operation, bits, out
    (4, 0xFFFF, PLACE, DONE, 0),
    (1, 0x500, BAD, DONE, 5),
    (2, 0x300, 0, DONE, 7),
    (3, 0x600, 0, DONE, 1),
    (0, 0xFFFF, PLACE + 8, DONE, 1),
    // the operation has 32 bits
    ((1 << 32) | 1, 0x200, 0, DONE, 2),
    // an operation over 4 answers before anything else
    (5, 0x800, 0, INVALID, 2),
    (5, 0x800, BAD, INVALID, 2),
    // NULL and an address that can't be written, when attributes are stored
    (0, 0, 0, INVALID, 2),
    (4, 0x800, 0, INVALID, 2),
    (0, 0, TABLE, TRAPPED, 2),
    // an attribute that is not supported, when attributes are changed
    (1, 0x701, BAD, UNSUPPORTED, 2),
    (2, 0x8000, 0, UNSUPPORTED, 2),
    (3, 1 << 63, 0, UNSUPPORTED, 2),
    (1, 0, 0, DONE, 0),
];

#[test]
fn attributes_are_command_bits(rt: HostRuntime) -> Result<(), Fail> {
    let mut world = with_a_child(&rt, 1000)?;
    attributes_are_command_bits_in(&rt, &mut world)
}

fn attributes_are_command_bits_in(
    rt: &(impl AllocGlobal + Abort),
    world: &mut World,
) -> Result<(), Fail> {
    for (operation, bits, out, answer, command) in ATTRIBUTES {
        let arguments = [THIS, operation, bits, out, 0, 0];
        let served = call(world, Service::Attributes, &arguments)?;
        assert_eq!(rt; served, answer, "at {arguments:?}");
        assert_eq!(rt;
            world.board().config_read(0, 4, 2),
            Ok(command),
            "at {arguments:?}"
        );
    }
    assert_eq!(rt;
        (world.read(PLACE, 8), world.read(PLACE + 8, 8)),
        (Some(0x700), Some(0x100))
    );
    let other = [OTHER, 5, 0x800, BAD, 0, 0];
    assert_eq!(rt; call(world, Service::Attributes, &other)?, INVALID);
    Ok(())
}

/// The price of a transfer counts 65,536 elements at most, and is spent before the statuses.
#[test]
fn elements_have_a_price(rt: HostRuntime) -> Result<(), Fail> {
    let mut world = with_a_child(&rt, 65_540)?;
    let many = [OTHER, 0, 1, 0, u64::MAX, PLACE];
    let calls = [(many, INVALID), (many, Answer::Trap(Cause::Budget))];
    all_answer(&rt, &mut world, Service::MemRead, &calls)?;
    assert_eq!(rt; world.left(), 0);
    Ok(())
}

/// A price that depends on an argument is spent after the arguments are read, and any other price
/// before.
#[test]
fn arguments_are_read_in_turn(rt: HostRuntime) -> Result<(), Fail> {
    let mut world = with_a_child(&rt, 0)?;
    arguments_are_read_in_turn_in(&rt, &mut world)
}

fn arguments_are_read_in_turn_in(
    rt: &(impl AllocGlobal + Abort),
    world: &mut World,
) -> Result<(), Fail> {
    assert_eq!(rt; called_at(world, Service::MemRead, BAD)?, TRAPPED);
    assert_eq!(rt;
        called_at(world, Service::Attributes, BAD)?,
        Answer::Trap(Cause::Budget)
    );
    world.begin_command(10);
    assert_eq!(rt; called_at(world, Service::GetLocation, BAD)?, TRAPPED);
    assert_eq!(rt; world.left(), 6);
    Ok(())
}

/// Makes another child of the function.
fn make_another(world: &mut World) -> Result<Handle, Fail>
    ensures marks { OnOk result (world.new.marks ≡ world.old.marks) }
    ensures stacks { OnOk result (stacks world.new.now.soft ≡ stacks world.old.now.soft) }
{
    Ok(make_child(world, Handle::bus_driver().next(), 0)?)
}

/// The child is gone, and the byte in BAR 1 is still there.
fn only_byte_stays(rt: &impl Abort, world: &mut World, child: Handle) -> Result<(), Fail> {
    assert_eq!(rt; world.child_function(child.get()), None);
    assert_eq!(rt; world.db().is_live(child.get()), false);
    assert_eq!(rt; world.pci_at(SECOND_THIS), None);
    let reads = [([THIS, 0, 1, 7, 1, PLACE + 8], DONE)];
    all_answer(rt, world, Service::MemRead, &reads)?;
    assert_eq!(rt; world.read(PLACE + 8, 1), Some(0xAB));
    Ok(())
}

/// An undo removes a child, but not what was written to a device.
#[test]
fn undo_leaves_devices(rt: HostRuntime) -> Result<(), Fail> {
    let mut world = with_a_child(&rt, 100)?;
    undo_leaves_devices_in(&rt, &mut world)
}

fn undo_leaves_devices_in(rt: &(impl AllocGlobal + Abort), world: &mut World) -> Result<(), Fail>
    requires { world.old.marks ≡ [] }
{
    world.write(PLACE, 8, 0xAB)?;
    let mark = world.mark();
    let second = make_another(world)?;
    let byte = [SECOND_THIS, 0, 1, 7, 1, PLACE];
    assert_eq!(rt; call(world, Service::MemWrite, &byte)?, DONE);
    world.rollback(mark)?;
    only_byte_stays(rt, world, second)
}

/// A handle whose PCI I/O was uninstalled is not a child, even if another PCI I/O is installed on it.
#[test]
fn uninstalled_pci_io_is_none(rt: HostRuntime) -> Result<(), Fail> {
    let mut world = with_a_child(&rt, 100)?;
    uninstalled_pci_io_is_none_in(&rt, &mut world)
}

fn uninstalled_pci_io_is_none_in(
    rt: &(impl AllocGlobal + Abort),
    world: &mut World,
) -> Result<(), Fail> {
    let child = Handle::bus_driver().next().next();
    world.uninstall(child, Guid::known(Known::PciIo))?;
    let read = [THIS, 0, 1, 0, 1, PLACE];
    assert_eq!(rt; call(world, Service::MemRead, &read)?, INVALID);
    assert_eq!(rt; world.child_function(child.get()), None);
    let _ = world.install(
        Some(child),
        Guid::known(Known::PciIo),
        THIS,
        Handle::firmware(),
    )?;
    assert_eq!(rt; call(world, Service::MemRead, &read)?, INVALID);
    Ok(())
}
