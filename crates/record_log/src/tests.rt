//! That each call which takes memory does its work, with ample memory.
ghost use Rattle.std.specs.Prelude.{◌≡◌, [], OnOk};

use crate::RecordLog;
use fw_types::{Attr, Guid, Handle, Known, MOST_HANDLES, OutOfMemory};
use handle_db::{Db, DbRefusal};
use open_records::RecFault;
use std::process::Abort;
use std::test::Fail;

/// A protocol of handle 3; and of an open of it, the agent, the controller and the bits.
type Open = (Known, (u64, u64, u32));

/// Opens that may be entered one after another.
const OPENS: [Open; 6] = [
    (Known::PciIo, (1, 3, 0x10)),
    (Known::PciIo, (1, 2, 0x08)),
    (Known::PciIo, (2, 0, 0x02)),
    // it is counted by the record before
    (Known::PciIo, (2, 0, 0x02)),
    (Known::DevicePath, (1, 0, 0x04)),
    (Known::DevicePath, (3, 2, 0x01)),
];

/// A way in which records are removed.
#[derive(Clone, Copy, Debug)]
enum Way {
    Leave,
    LeaveAll,
    LeaveChild,
    DropWeak,
    RemoveInterface,
    RemoveHandle,
}

/// Three handles, of which the last has PCI I/O and a device path. Answers the last two.
fn install_three(db: &mut Db) -> Result<[Handle; 2], DbRefusal> {
    let (pci, path) = (Guid::known(Known::PciIo), Guid::known(Known::DevicePath));
    let _ = db.install(None, pci, 0, Handle::firmware())?;
    let child = db.install(None, pci, 0, Handle::firmware())?;
    let disk = db.install(None, pci, 0, Handle::firmware())?;
    let _ = db.install(Some(disk), path, 0, Handle::firmware())?;
    Ok([child, disk])
}

/// Enters an open of a handle, if it may be entered, and says whether it was.
fn open(log: &mut RecordLog, disk: Handle, asked: Open) -> Result<bool, RecFault>
    ensures { OnOk result (log.new.marks ≡ log.old.marks) }
{
    let (protocol, (agent, controller, bits)) = asked;
    let guid = Guid::known(protocol);
    let Some(attr) = Attr::legal(bits) else {
        return Ok(false);
    };
    let verdict = log.judged(disk, guid, agent, controller, attr);
    if !verdict.may_enter() {
        return Ok(false);
    }
    log.enter(disk, guid, agent, controller, attr)?;
    Ok(true)
}

/// Enters the opens one after another.
fn open_all(rt: &impl Abort, log: &mut RecordLog, disk: Handle) -> Result<(), RecFault>
    ensures { OnOk result (log.new.marks ≡ log.old.marks) }
{
    for asked in OPENS {
        assert!(rt; open(log, disk, asked)?);
    }
    Ok(())
}

/// Removes records of a handle, or of a child of it, in one of the ways.
fn remove(log: &mut RecordLog, disk: Handle, child: Handle, way: Way) -> Result<(), OutOfMemory>
    ensures { OnOk result (log.new.marks ≡ log.old.marks) }
{
    let pci = Guid::known(Known::PciIo);
    match way {
        Way::Leave => log.leave(disk, pci, 1, 3),
        Way::LeaveAll => log.leave_all(disk, 1),
        Way::LeaveChild => log.leave_child(disk, 1, child),
        Way::DropWeak => log.drop_weak(disk, pci),
        Way::RemoveInterface => log.remove_interface(disk, pci, false),
        Way::RemoveHandle => log.remove_interface(disk, pci, true),
    }
}

/// Removes records under a mark, so that so many are left, and puts them back.
fn there_and_back(
    rt: &impl Abort,
    log: &mut RecordLog,
    handles: [Handle; 2],
    case: (Way, u32),
) -> Result<(), OutOfMemory>
    requires { log.old.marks ≡ [] }
    ensures { OnOk result (log.new.marks ≡ []) }
{
    let (way, left) = case;
    let [child, disk] = handles;
    let mark = log.mark();
    remove(log, disk, child, way)?;
    assert_eq!(rt; log.len(), left, "after {way:?}");
    log.rollback(mark);
    assert_eq!(rt; log.len(), 5, "taken back after {way:?}");
    Ok(())
}

/// How many records each way of removing some leaves, and that a rollback puts them back.
#[test]
fn removed_and_put_back(rt: HostRuntime) -> Result<(), Fail> {
    let mut db = Db::new(rt.alloc(), MOST_HANDLES);
    let handles = install_three(&mut db)?;
    let mut log = RecordLog::new(rt.alloc(), 5)?;
    removed_and_put_back_in(&rt, &mut log, &db, handles)
}

fn removed_and_put_back_in(
    rt: &impl Abort,
    log: &mut RecordLog,
    db: &Db,
    handles: [Handle; 2],
) -> Result<(), Fail>
    requires { log.old.marks ≡ [] }
{
    let [_, disk] = handles;
    open_all(rt, log, disk)?;
    there_and_back(rt, log, handles, (Way::Leave, 4))?;
    there_and_back(rt, log, handles, (Way::LeaveAll, 2))?;
    there_and_back(rt, log, handles, (Way::LeaveChild, 4))?;
    there_and_back(rt, log, handles, (Way::DropWeak, 4))?;
    there_and_back(rt, log, handles, (Way::RemoveInterface, 2))?;
    there_and_back(rt, log, handles, (Way::RemoveHandle, 1))?;
    assert_eq!(rt; log.list(disk, Guid::known(Known::DevicePath))?.len(), 2);
    assert_eq!(rt; log.children_of(db, disk, None)?.len(), 1);
    assert_eq!(rt; log.managers_of(db, disk)?.len(), 1);
    Ok(())
}
