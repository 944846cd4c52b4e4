ghost use Rattle.std.specs.Prelude.{◌≡◌, OnOk};

use crate::{Db, DbRefusal, Removed, installing_is_undone, removing_is_undone};
use fw_types::{Guid, Handle, Known, MOST_HANDLES};
use std::alloc::Global;
use std::process::Abort;
use std::test::Fail;

/// The GUID whose text form ends in a number.
fn guid(number: u8) -> Guid {
    Guid::from_guest(&[0, 0, 0, 0, 0, 0, 0, 0, 0, 0, 0, 0, 0, 0, 0, number])
}

/// The handle with a number, which is not 0.
fn handle(rt: &impl Abort, number: u64) -> Handle {
    Handle::new(number).expect(rt, "a handle's number is not 0")
}

/// What installing answers, one call after the other, in a database of three handles.
#[test]
fn installing(rt: HostRuntime) -> Result<(), Fail> {
    let mut db = Db::new(rt.alloc(), 3);
    let path = Guid::known(Known::DevicePath);
    let binding = Guid::known(Known::DriverBinding);
    let cases: [(u64, Guid, Result<u64, DbRefusal>); 10] = [
        // no handle is live yet
        (1, path, Err(DbRefusal::BadHandle)),
        (0, path, Ok(1)),
        (1, path, Err(DbRefusal::Already)),
        (1, binding, Ok(1)),
        // a new handle may have the protocol too
        (0, path, Ok(2)),
        (0, binding, Ok(3)),
        // the limit of handles
        (0, path, Err(DbRefusal::Full)),
        (4, path, Err(DbRefusal::BadHandle)),
        (3, binding, Err(DbRefusal::Already)),
        (3, path, Ok(3)),
    ];
    for (number, protocol, answer) in cases {
        let installed = db.install(Handle::new(number), protocol, 0x1000, Handle::firmware());
        assert_eq!(rt; installed.map(|handle| handle.get()), answer);
    }
    Ok(())
}

/// A handle is removed with its last interface, and its number is not given to another.
#[test]
fn removing(rt: HostRuntime) -> Result<(), Fail> {
    let mut db = Db::new(rt.alloc(), MOST_HANDLES);
    let owner = handle(&rt, 9);
    for number in 1..4 {
        db.install(None, guid(1), number * 16, Handle::firmware())?;
    }
    db.install(Some(handle(&rt, 2)), guid(2), 0x50, owner)?;
    db.install(Some(handle(&rt, 2)), guid(3), 0, owner)?;
    let removals: [(u64, u8, Result<(u64, u64, u32, bool), DbRefusal>); 7] = [
        (2, 4, Err(DbRefusal::NotThere)),
        (2, 2, Ok((0x50, 9, 1, false))),
        (2, 2, Err(DbRefusal::NotThere)),
        (2, 3, Ok((0, 9, 1, false))),
        (2, 1, Ok((0x20, 1, 0, true))),
        (2, 1, Err(DbRefusal::BadHandle)),
        (3, 1, Ok((0x30, 1, 0, true))),
    ];
    for (number, protocol, answer) in removals {
        let removed = db.remove(handle(&rt, number), guid(protocol));
        let answered = removed.map(|r: Removed| (r.interface, r.owner.get(), r.place, r.gone));
        assert_eq!(rt; answered, answer);
    }
    assert_eq!(rt; db.install(None, guid(1), 0, owner)?.get(), 4);
    assert_eq!(rt; db.is_live(1), true);
    assert_eq!(rt; db.is_live(3), false);
    assert_eq!(rt; db.is_live(0), false);
    Ok(())
}

/// A database of four handles, of which the second, `owner`, has three protocols.
fn of_four_handles(alloc: Global, owner: Handle) -> Result<Db, DbRefusal> {
    let mut db = Db::new(alloc, MOST_HANDLES);
    for number in 1..5 {
        db.install(None, guid(number % 2), u64::from(number), owner)?;
    }
    db.install(Some(owner), guid(7), 0x70, owner)?;
    db.install(Some(owner), guid(3), 0x30, Handle::firmware())?;
    Ok(db)
}

/// What a database says about handles: which there are, which have a protocol, and how many; before
/// and after one of them is removed.
#[test]
fn handles_of_a_database(rt: HostRuntime) -> Result<(), Fail> {
    let owner = handle(&rt, 2);
    let mut db = of_four_handles(rt.alloc(), owner)?;
    let odd = db.handles_with(Some(guid(1)))?;
    assert_eq!(rt; odd.as_slice(), [handle(&rt, 1), handle(&rt, 3)].as_slice());
    assert_eq!(rt; db.handles_with(Some(guid(8)))?.len(), 0);
    // counted and found without a list
    assert_eq!(rt; (db.count_with(None), db.count_with(Some(guid(1)))), (4, 2));
    assert_eq!(rt; db.first_with(guid(0)), Some((2, owner)));
    assert_eq!(rt; db.first_with(guid(8)), None);
    db.remove(handle(&rt, 3), guid(1))?;
    let all = db.handles_with(None)?;
    assert_eq!(rt;
        all.as_slice(),
        [handle(&rt, 1), owner, handle(&rt, 4)].as_slice()
    );
    assert_eq!(rt; (db.count_with(None), db.count_with(Some(guid(1)))), (3, 1));
    Ok(())
}

/// What a database says about the interfaces of a handle.
#[test]
fn interfaces_of_a_handle(rt: HostRuntime) -> Result<(), Fail> {
    let owner = handle(&rt, 2);
    let db = of_four_handles(rt.alloc(), owner)?;
    // in order of installation
    let protocols = db.protocols_of(owner)?;
    let wanted = [
        (guid(0), 2, owner),
        (guid(7), 0x70, owner),
        (guid(3), 0x30, Handle::firmware()),
    ];
    assert_eq!(rt; protocols.as_slice(), wanted.as_slice());
    assert_eq!(rt; db.protocols_of(handle(&rt, 9))?.len(), 0);
    assert_eq!(rt;
        (
            db.interface_count(owner),
            db.interface_count(handle(&rt, 9))
        ),
        (3, 0)
    );
    assert_eq!(rt;
        db.interface(owner, guid(3)),
        Some((0x30, Handle::firmware()))
    );
    assert_eq!(rt; db.interface(owner, guid(1)), None);
    assert_eq!(rt; db.interface(handle(&rt, 9), guid(1)), None);
    Ok(())
}

/// A `copy` and a `clone` of this test's own.
trait Absent {
    fn copy(&self) -> u64;

    fn clone(&self) -> u64;
}

impl Absent for Db {
    fn copy(&self) -> u64 {
        1
    }

    fn clone(&self) -> u64 {
        2
    }
}

/// A database has no call that copies it, and is not Clone: otherwise these would not be the calls
/// of `Absent`.
#[test]
fn no_copies(rt: HostRuntime) -> Result<(), Fail> {
    let db = Db::new(rt.alloc(), 1);
    assert_eq!(rt; (db.copy(), db.clone()), (1, 2));
    Ok(())
}

/// As many handles as may be, and as many interfaces on one of them.
#[test]
fn limits(rt: HostRuntime) -> Result<(), Fail> {
    let mut db = Db::new(rt.alloc(), MOST_HANDLES);
    for _ in 0..MOST_HANDLES {
        db.install(None, guid(0), 0, Handle::firmware())?;
    }
    let one_more = db.install(None, guid(0), 0, Handle::firmware());
    assert_eq!(rt;
        (one_more.err(), db.is_full()),
        (Some(DbRefusal::Full), true)
    );
    let last = handle(&rt, u64::from(MOST_HANDLES));
    for number in 1..64 {
        db.install(Some(last), guid(number), 0, Handle::firmware())?;
    }
    let one_more = db.install(Some(last), guid(64), 0, Handle::firmware());
    assert_eq!(rt; one_more.err(), Some(DbRefusal::Full));
    // the protocol is there, and there is no room either
    let again = db.install(Some(last), guid(63), 0, Handle::firmware());
    assert_eq!(rt; again.err(), Some(DbRefusal::Already));
    assert_eq!(rt; db.protocols_of(last)?.len(), 64);
    // a handle that is removed makes room for a new one
    db.remove(Handle::firmware(), guid(0))?;
    assert!(rt; !db.is_full());
    let new = db.install(None, guid(0), 0, Handle::firmware())?;
    assert_eq!(rt; new.get(), 4097);
    Ok(())
}

/// Installs an interface and takes it back. The handle that it had is answered.
fn installed_and_back(db: &mut Db, given: Option<Handle>, guid: Guid) -> Result<Handle, DbRefusal>
    ensures { OnOk result (db.new ≡ db.old) }
{
    db.soundness();
    installing_is_undone();
    let handle = db.install(given, guid, 0, Handle::firmware())?;
    db.undo_install(handle, guid, given.is_none());
    Ok(handle)
}

/// Removes an interface and puts it back.
fn removed_and_back(db: &mut Db, handle: Handle, guid: Guid) -> Result<Removed, DbRefusal>
    ensures { OnOk result (db.new ≡ db.old) }
{
    db.soundness();
    removing_is_undone();
    let removed = db.remove(handle, guid)?;
    db.undo_remove(handle, guid, &removed)?;
    Ok(removed)
}

/// An interface is removed and comes back at its place, and so does a handle with its number.
#[test]
fn taken_back(rt: HostRuntime) -> Result<(), Fail> {
    let mut db = Db::new(rt.alloc(), MOST_HANDLES);
    let first = installed_and_back(&mut db, None, guid(1))?;
    assert_eq!(rt; (first.get(), db.is_live(1)), (1, false));
    for number in 1..4 {
        db.install(None, guid(1), number, Handle::firmware())?;
    }
    let second = handle(&rt, 2);
    assert_eq!(rt; removed_and_back(&mut db, second, guid(1))?.gone, true);
    for number in 2..5 {
        db.install(Some(second), guid(number), 0, second)?;
    }
    assert_eq!(rt; installed_and_back(&mut db, Some(second), guid(7))?, second);
    assert_eq!(rt; removed_and_back(&mut db, second, guid(3))?.place, 2);
    let all = db.handles_with(Some(guid(1)))?;
    let handles = [handle(&rt, 1), second, handle(&rt, 3)];
    assert_eq!(rt; all.as_slice(), handles.as_slice());
    let third = db.protocols_of(second)?.get(2).copied();
    assert_eq!(rt; third, Some((guid(3), 0, second)));
    Ok(())
}
