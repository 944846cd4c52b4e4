//! Open records in the world: which of them are removed with an agent, an interface, a handle or an
//! undo.
ghost use Rattle.std.specs.Prelude.{◌≡◌, [], OnOk};
ghost use Rattle.world_model.specs.Marks.{stacks};

use crate::World;
use crate::tests::{bytes_of, opened};
use fw_types::{Attr, BOOT_SERVICE_DRIVER, Guid, Handle, Known, OutOfMemory};
use handle_db::DbRefusal;
use open_records::RecFault;
use std::process::Abort;
use std::test::Fail;

/// An open: its handle and protocol, and the agent, the controller and the attribute's bits.
pub(crate) type Open = (u64, Known, (u64, u64, u32));

/// Enters an open if it may be entered, and says whether it was.
pub(crate) fn open(world: &mut World, asked: Open) -> Result<bool, RecFault>
    ensures marks { OnOk result (world.new.marks ≡ world.old.marks) }
    ensures stacks { OnOk result (stacks world.new.now.soft ≡ stacks world.old.now.soft) }
{
    let (number, protocol, (agent, controller, bits)) = asked;
    let guid = Guid::known(protocol);
    let (Some(handle), Some(attr)) = (Handle::new(number), Attr::legal(bits)) else {
        return Ok(false);
    };
    let Some(_) = world.db().interface(handle, guid) else {
        return Ok(false);
    };
    if !world.db().is_live(agent) {
        return Ok(false);
    }
    if controller != 0 && !world.db().is_live(controller) {
        return Ok(false);
    }
    let verdict = world
        .entries()
        .judged(handle, guid, agent, controller, attr);
    if !verdict.may_enter() {
        return Ok(false);
    }
    world.enter(handle, guid, agent, controller, attr)?;
    Ok(true)
}

/// Adds an image, and a disk and its child, each with PCI I/O, the disk with a device path too, to a new
/// world. Their handles are 3, 4 and 5.
fn add_disk(rt: &impl AllocGlobal, world: &mut World) -> Result<[Handle; 3], Fail> {
    let (pci, path) = (Guid::known(Known::PciIo), Guid::known(Known::DevicePath));
    let driver = world.add_image(bytes_of(rt, 0x40, 0x11)?, 0, BOOT_SERVICE_DRIVER, 0)?;
    let disk = world.install(None, pci, 0, driver)?;
    let _ = world.install(Some(disk), path, 0, driver)?;
    let child = world.install(None, pci, 0, driver)?;
    Ok([driver, disk, child])
}

/// Enters opens one after another.
pub(crate) fn open_all(rt: &impl Abort, world: &mut World, opens: &[Open]) -> Result<(), RecFault>
    ensures marks { OnOk result (world.new.marks ≡ world.old.marks) }
    ensures stacks { OnOk result (stacks world.new.now.soft ≡ stacks world.old.now.soft) }
{
    for asked in opens {
        assert!(rt; open(world, *asked)?);
    }
    Ok(())
}

/// Opens of the disk and its child that may be entered one after another.
const OPENS: [Open; 9] = [
    (4, Known::PciIo, (3, 4, 0x10)),
    (4, Known::PciIo, (3, 5, 0x08)),
    (4, Known::PciIo, (3, 0, 0x02)),
    (4, Known::PciIo, (1, 0, 0x01)),
    // it is counted by the record before
    (4, Known::PciIo, (1, 0, 0x01)),
    (4, Known::DevicePath, (3, 5, 0x08)),
    (4, Known::DevicePath, (3, 4, 0x10)),
    (4, Known::DevicePath, (1, 0, 0x04)),
    (5, Known::PciIo, (5, 0, 0x02)),
];

/// How many records each way of leaving removes.
#[test]
fn leaves(rt: HostRuntime) -> Result<(), Fail> {
    let mut world = opened(&rt)?;
    leaves_in(&rt, &mut world)
}

fn leaves_in(rt: &(impl AllocGlobal + Abort), world: &mut World) -> Result<(), Fail> {
    let [_, disk, child] = add_disk(rt, world)?;
    let pci = Guid::known(Known::PciIo);
    open_all(rt, world, &OPENS)?;
    assert_eq!(rt; world.entries().len(), 8);
    world.leave(disk, pci, 3, 0)?;
    assert_eq!(rt; world.entries().len(), 7);
    world.leave(disk, pci, 3, 0)?;
    assert_eq!(rt; world.entries().len(), 7);
    world.leave_child(disk, 3, child)?;
    assert_eq!(rt; world.entries().len(), 5);
    world.drop_weak(disk, pci)?;
    assert_eq!(rt; world.entries().len(), 4);
    world.leave_all(disk, 3)?;
    assert_eq!(rt; world.entries().len(), 2);
    Ok(())
}

/// Opens that name all of image 3, disk 4 and child 5.
const OPENS_OF_ALL: [Open; 6] = [
    (4, Known::PciIo, (5, 0, 0x02)),
    (4, Known::PciIo, (3, 5, 0x08)),
    (4, Known::PciIo, (3, 4, 0x10)),
    (4, Known::DevicePath, (4, 0, 0x02)),
    (5, Known::PciIo, (4, 0, 0x04)),
    (5, Known::PciIo, (3, 0, 0x01)),
];

/// The records of an interface are removed with it. A handle that is no longer live is named by no
/// record, as agent or as controller, and one that has another interface is still named.
#[test]
fn records_of_removed_interfaces(rt: HostRuntime) -> Result<(), Fail> {
    let mut world = opened(&rt)?;
    records_of_removed_interfaces_in(&rt, &mut world)
}

fn records_of_removed_interfaces_in(
    rt: &(impl AllocGlobal + Abort),
    world: &mut World,
) -> Result<(), Fail> {
    let [driver, disk, child] = add_disk(rt, world)?;
    open_all(rt, world, &OPENS_OF_ALL)?;
    let (pci, path) = (Guid::known(Known::PciIo), Guid::known(Known::DevicePath));
    world.uninstall(child, pci)?;
    // without the records of the child's interface, and those that named the child
    assert_eq!(rt; world.entries().len(), 2);
    assert_eq!(rt; records_on(world, disk, pci)?, 1);
    world.uninstall(disk, pci)?;
    assert_eq!(rt; world.entries().len(), 1);
    assert!(rt; open(world, (4, Known::DevicePath, (3, 0, 0x02)))?);
    assert_eq!(rt; world.drop_image(driver), Ok(()));
    // the image was an agent, and disk still is
    assert_eq!(rt; world.entries().len(), 1);
    world.uninstall(disk, path)?;
    assert_eq!(rt; world.entries().len(), 0);
    Ok(())
}

/// How many records there are on a protocol of a handle.
fn records_on(world: &World, handle: Handle, guid: Guid) -> Result<usize, OutOfMemory> {
    Ok(world.entries().list(handle, guid)?.len())
}

/// Removes an agent's records on a handle.
pub(crate) fn leave_all(world: &mut World, handle: Handle, agent: u64) -> Result<(), OutOfMemory>
    ensures marks { OnOk result (world.new.marks ≡ world.old.marks) }
    ensures stacks { OnOk result (stacks world.new.now.soft ≡ stacks world.old.now.soft) }
{
    world.leave_all(handle, agent)
}

/// An open that is undone is entered again as the first one.
#[test]
fn undone_opens(rt: HostRuntime) -> Result<(), Fail> {
    let mut world = opened(&rt)?;
    undone_opens_in(&rt, &mut world)
}

fn undone_opens_in(rt: &impl Abort, world: &mut World) -> Result<(), Fail>
    requires { world.old.marks ≡ [] }
{
    let pci = Guid::known(Known::PciIo);
    let disk = world.install(None, pci, 0, Handle::firmware())?;
    opens(rt, world, (3, Known::PciIo, (1, 0, 0x02)))?;
    let mark = world.mark();
    opens(rt, world, (3, Known::PciIo, (1, 3, 0x10)))?;
    opens(rt, world, (3, Known::PciIo, (1, 0, 0x02)))?;
    leave_all(world, disk, 1)?;
    assert_eq!(rt; world.entries().len(), 0);
    world.rollback(mark)?;
    has_records(rt, world, disk, &[(1, 0, 1)])?;
    opens(rt, world, (3, Known::PciIo, (1, 3, 0x10)))?;
    assert_eq!(rt; world.entries().len(), 2);
    Ok(())
}

/// Enters an open that may be entered.
fn opens(rt: &impl Abort, world: &mut World, asked: Open) -> Result<(), RecFault>
    ensures marks { OnOk result (world.new.marks ≡ world.old.marks) }
    ensures stacks { OnOk result (stacks world.new.now.soft ≡ stacks world.old.now.soft) }
{
    let done = open(world, asked)?;
    assert!(rt; done);
    Ok(())
}

/// The records on PCI I/O of a handle: agent, controller and count.
fn has_records(
    rt: &impl Abort,
    world: &World,
    handle: Handle,
    rows: &[(u64, u64, u32)],
) -> Result<(), OutOfMemory> {
    let found = world.entries().list(handle, Guid::known(Known::PciIo))?;
    assert_eq!(rt; found.len(), rows.len());
    for (one, row) in found.iter().zip(rows) {
        assert_eq!(rt; (one.agent, one.controller, one.count), *row);
    }
    Ok(())
}

/// Uninstalls PCI I/O from a handle.
pub(crate) fn uninstall_pci(world: &mut World, handle: Handle) -> Result<(), DbRefusal>
    ensures marks { OnOk result (world.new.marks ≡ world.old.marks) }
    ensures stacks { OnOk result (stacks world.new.now.soft ≡ stacks world.old.now.soft) }
{
    world.uninstall(handle, Guid::known(Known::PciIo))
}

/// When a handle is removed, so are the records that name it, on three other handles too. An undo
/// puts the handle back with its interface, and each record at its place.
#[test]
fn undone_sweep(rt: HostRuntime) -> Result<(), Fail> {
    let mut world = opened(&rt)?;
    undone_sweep_in(&rt, &mut world)
}

fn undone_sweep_in(rt: &impl Abort, world: &mut World) -> Result<(), Fail>
    requires { world.old.marks ≡ [] }
{
    let [second, gone] = install_four(world)?;
    open_six(rt, world)?;
    let mark = world.mark();
    uninstall_pci(world, gone)?;
    assert_eq!(rt; (world.db().is_live(6), world.entries().len()), (false, 2));
    world.rollback(mark)?;
    assert_eq!(rt;
        world.db().interface(gone, Guid::known(Known::PciIo)),
        Some((7, Handle::firmware()))
    );
    assert_eq!(rt; world.entries().len(), 6);
    has_records(rt, world, second, &[(1, 0, 1), (6, 0, 1), (2, 3, 1)])?;
    Ok(())
}

/// Installs PCI I/O on four new handles, and answers the second and the last of them.
fn install_four(world: &mut World) -> Result<[Handle; 2], DbRefusal>
    ensures { OnOk result (world.new.marks ≡ world.old.marks) }
{
    let pci = Guid::known(Known::PciIo);
    let _ = world.install(None, pci, 0, Handle::firmware())?;
    let second = world.install(None, pci, 0, Handle::firmware())?;
    let _ = world.install(None, pci, 0, Handle::firmware())?;
    let gone = world.install(None, pci, 7, Handle::firmware())?;
    Ok([second, gone])
}

/// Opens PCI I/O of handles 3 to 6 six times.
fn open_six(rt: &impl Abort, world: &mut World) -> Result<(), RecFault>
    ensures { OnOk result (world.new.marks ≡ world.old.marks) }
{
    opens(rt, world, (3, Known::PciIo, (6, 0, 0x02)))?;
    opens(rt, world, (4, Known::PciIo, (1, 0, 0x02)))?;
    opens(rt, world, (4, Known::PciIo, (6, 0, 0x02)))?;
    opens(rt, world, (4, Known::PciIo, (2, 3, 0x04)))?;
    opens(rt, world, (5, Known::PciIo, (1, 6, 0x02)))?;
    opens(rt, world, (6, Known::PciIo, (1, 0, 0x02)))
}
