//! The records of some opens: what they say about others, which of them leave, and what is put back.
ghost use Rattle.std.specs.Prelude.{◌≡◌, [], OnOk};

use crate::RecordLog;
use fw_types::{Attr, Guid, Handle, MOST_HANDLES, MOST_RECORDS, OutOfMemory};
use handle_db::{Db, DbRefusal};
use open_records::{Rec, RecFault, Verdict, judge};
use std::alloc::Global;
use std::process::Abort;
use std::test::Fail;

/// A handle's number and the number of a protocol.
type Interface = (u64, u8);

/// An agent, a controller and the bits of an attribute.
type Opener = (u64, u64, u32);

/// The GUID whose text form ends in a number.
fn guid(number: u8) -> Guid {
    Guid::from_guest(&[0, 0, 0, 0, 0, 0, 0, 0, 0, 0, 0, 0, 0, 0, 0, number])
}

/// The handle with a number, which is not 0.
fn handle(rt: &impl Abort, number: u64) -> Handle {
    Handle::new(number).expect(rt, "a handle's number is not 0")
}

/// The attribute with these bits, which are legal.
fn attr(rt: &impl Abort, bits: u32) -> Attr {
    Attr::legal(bits).expect(rt, "the bits are legal")
}

/// Enters an open of a handle's protocol by an agent for a controller, which the records must allow.
fn open(
    rt: &impl Abort,
    records: &mut RecordLog,
    interface: Interface,
    by: Opener,
) -> Result<(), RecFault>
    ensures { records.new.marks ≡ records.old.marks }
{
    let on = handle(rt, interface.0);
    let protocol = guid(interface.1);
    let bits = attr(rt, by.2);
    let verdict = records.judged(on, protocol, by.0, by.1, bits);
    assert!(rt; verdict.may_enter());
    records.enter(on, protocol, by.0, by.1, bits)
}

/// Enters opens one after another.
fn open_all(
    rt: &impl Abort,
    records: &mut RecordLog,
    opens: &[(Interface, Opener)],
) -> Result<(), RecFault>
    ensures { records.new.marks ≡ records.old.marks }
{
    'opens: for (interface, by) in opens {
        open(rt, records, *interface, *by)?;
    }
    Ok(())
}

/// The verdict on an open of a protocol of handle 3.
fn judged_of(rt: &impl Abort, records: &RecordLog, protocol: u8, asked: Opener) -> Verdict {
    let bits = attr(rt, asked.2);
    records.judged(handle(rt, 3), guid(protocol), asked.0, asked.1, bits)
}

/// The verdict on an open if there is one record of agent 5, or none, for the same agent and for agent 6.
#[test]
fn verdicts(rt: HostRuntime) -> Result<(), Fail> {
    let own = Verdict::MustDisconnect(5);
    let cases: [(Opener, Opener, Verdict); 27] = [
        // against a driver
        ((5, 9, 0x10), (5, 9, 0x10), Verdict::Already),
        ((5, 9, 0x10), (5, 8, 0x10), Verdict::Already),
        ((5, 9, 0x10), (6, 9, 0x10), Verdict::Denied),
        ((5, 9, 0x10), (5, 9, 0x30), own),
        ((5, 9, 0x10), (6, 9, 0x30), own),
        ((5, 9, 0x10), (6, 0, 0x20), own),
        ((5, 9, 0x10), (5, 0, 0x20), own),
        ((5, 9, 0x10), (6, 9, 0x02), Verdict::Add),
        ((5, 9, 0x10), (5, 9, 0x08), Verdict::Add),
        // against an exclusive driver
        ((5, 9, 0x30), (5, 9, 0x10), Verdict::Denied),
        ((5, 9, 0x30), (5, 9, 0x30), Verdict::Already),
        ((5, 9, 0x30), (6, 9, 0x30), Verdict::Denied),
        ((5, 9, 0x30), (5, 0, 0x20), Verdict::Denied),
        ((5, 9, 0x30), (6, 9, 0x10), Verdict::Denied),
        ((5, 9, 0x30), (6, 9, 0x04), Verdict::Add),
        // against an exclusive open
        ((5, 0, 0x20), (5, 9, 0x10), Verdict::Denied),
        ((5, 0, 0x20), (5, 0, 0x20), Verdict::Denied),
        ((5, 0, 0x20), (5, 9, 0x30), Verdict::Denied),
        ((5, 0, 0x20), (6, 9, 0x10), Verdict::Denied),
        ((5, 0, 0x20), (6, 0, 0x20), Verdict::Denied),
        ((5, 0, 0x20), (6, 9, 0x30), Verdict::Denied),
        // against an open that keeps nobody out
        ((5, 9, 0x02), (5, 9, 0x02), Verdict::Count),
        ((5, 9, 0x02), (5, 9, 0x04), Verdict::Add),
        ((5, 9, 0x02), (6, 9, 0x02), Verdict::Add),
        ((5, 9, 0x02), (5, 8, 0x02), Verdict::Add),
        ((5, 9, 0x02), (6, 9, 0x30), Verdict::Add),
        ((5, 9, 0x08), (5, 9, 0x08), Verdict::Count),
    ];
    for (there, asked, verdict) in cases {
        let mut records = RecordLog::new(rt.alloc(), MOST_RECORDS)?;
        open(&rt, &mut records, (3, 1), there)?;
        assert_eq!(rt; judged_of(&rt, &records, 1, asked), verdict);
        // another interface has no record
        assert_eq!(rt; judged_of(&rt, &records, 2, asked), Verdict::Add);
    }
    assert_eq!(rt; judge(&[], 5, 9, attr(&rt, 0x30)), Verdict::Add);
    Ok(())
}

/// As many records as may be, on 1,024 interfaces.
#[test]
fn limit(rt: HostRuntime) -> Result<(), Fail> {
    let mut records = RecordLog::new(rt.alloc(), MOST_RECORDS)?;
    limit_in(&rt, &mut records)
}

fn limit_in(rt: &impl Abort, records: &mut RecordLog) -> Result<(), Fail> {
    for number in 1..1025 {
        for agent in 1..65 {
            open(rt, records, (number, 1), (agent, 0, 0x01))?;
        }
    }
    let one_more = open(rt, records, (1, 1), (65, 0, 0x01));
    assert_eq!(rt; one_more.err(), Some(RecFault::Full));
    assert!(rt; records.is_full(handle(rt, 1), guid(1), 65, 0, attr(rt, 0x01)));
    // an equal open is still counted
    open(rt, records, (1, 1), (64, 0, 0x01))?;
    let list = records.list(handle(rt, 1), guid(1))?;
    assert_eq!(rt; list.len(), 64);
    assert_eq!(rt; list.as_slice().last().map(|rec| rec.count), Some(2));
    // a record that leaves makes room, again and again
    for _ in 0..20_000 {
        records.leave(handle(rt, 7), guid(1), 3, 0)?;
        open(rt, records, (7, 1), (3, 0, 0x01))?;
    }
    records.tidy();
    assert_eq!(rt; records.len(), MOST_RECORDS);
    assert_eq!(rt; records.list(handle(rt, 7), guid(1))?.len(), 64);
    Ok(())
}

/// Four interfaces, of which two are of one handle.
fn open_four(rt: &impl Abort, records: &mut RecordLog) -> Result<(), RecFault>
    ensures { records.new.marks ≡ records.old.marks }
{
    let opens: [(Interface, Opener); 9] = [
        ((4, 2), (6, 0, 0x02)),
        ((4, 1), (5, 4, 0x10)),
        ((3, 9), (5, 4, 0x04)),
        ((4, 2), (5, 7, 0x08)),
        ((4, 2), (6, 4, 0x08)),
        ((9, 1), (8, 6, 0x01)),
        ((4, 2), (6, 0, 0x02)),
        ((4, 1), (6, 7, 0x08)),
        ((4, 2), (6, 4, 0x10)),
    ];
    open_all(rt, records, &opens)
}

/// A way in which records leave.
#[derive(Clone, Copy, Debug)]
enum Way {
    /// Those of an agent for a controller on the second protocol of handle 4.
    Leave(u64, u64),
    /// Those of an agent on handle 4.
    LeaveAll(u64),
    /// Those of an agent for a child on handle 4.
    LeaveChild(u64, u64),
    /// The weak ones of the second protocol of handle 4.
    DropWeak,
    /// All of the second protocol of a handle.
    Interface(u64),
    /// The same, with those that name the handle.
    Handle(u64),
}

/// Lets records leave in one of the ways.
fn leave(rt: &impl Abort, records: &mut RecordLog, way: Way) -> Result<(), OutOfMemory>
    ensures { records.new.marks ≡ records.old.marks }
{
    let four = handle(rt, 4);
    match way {
        Way::Leave(agent, controller) => records.leave(four, guid(2), agent, controller),
        Way::LeaveAll(agent) => records.leave_all(four, agent),
        Way::LeaveChild(agent, child) => records.leave_child(four, agent, handle(rt, child)),
        Way::DropWeak => records.drop_weak(four, guid(2)),
        Way::Interface(number) => records.remove_interface(handle(rt, number), guid(2), false),
        Way::Handle(number) => records.remove_interface(handle(rt, number), guid(2), true),
    }
}

/// How many records there are, and how many each of the four interfaces has.
fn counts(rt: &impl Abort, records: &RecordLog) -> [u32; 5] {
    let four = handle(rt, 4);
    [
        records.len(),
        records.count_on(handle(rt, 3), guid(9)),
        records.count_on(four, guid(1)),
        records.count_on(four, guid(2)),
        records.count_on(handle(rt, 9), guid(1)),
    ]
}

/// Lets records leave under a mark, so that so many are left, and puts them back.
fn there_and_back(
    rt: &impl Abort,
    records: &mut RecordLog,
    case: (Way, [u32; 5]),
) -> Result<(), Fail>
    requires { records.old.marks ≡ [] }
    ensures { OnOk result (records.new.marks ≡ []) }
{
    let (way, left) = case;
    let before = records.list(handle(rt, 4), guid(2))?;
    let mark = records.mark();
    leave(rt, records, way)?;
    assert_eq!(rt; counts(rt, records), left, "after {way:?}");
    records.rollback(mark);
    assert_eq!(rt;
        counts(rt, records),
        [8, 1, 2, 4, 1],
        "taken back after {way:?}"
    );
    let after = records.list(handle(rt, 4), guid(2))?;
    assert!(rt; is_left(before.as_slice(), after.as_slice(), 0xFFFF));
    Ok(())
}

/// How many records each way leaves, and that they are put back.
#[test]
fn leaving_and_coming_back(rt: HostRuntime) -> Result<(), Fail> {
    let mut records = RecordLog::new(rt.alloc(), MOST_RECORDS)?;
    leaving_in(&rt, &mut records)
}

fn leaving_in(rt: &impl Abort, records: &mut RecordLog) -> Result<(), Fail>
    requires { records.old.marks ≡ [] }
{
    open_four(rt, records)?;
    let cases: [(Way, [u32; 5]); 13] = [
        (Way::Leave(6, 4), [6, 1, 2, 2, 1]),
        (Way::Leave(5, 7), [7, 1, 2, 3, 1]),
        (Way::Leave(5, 6), [8, 1, 2, 4, 1]),
        (Way::LeaveAll(6), [4, 1, 1, 1, 1]),
        (Way::LeaveAll(5), [6, 1, 1, 3, 1]),
        (Way::LeaveAll(7), [8, 1, 2, 4, 1]),
        (Way::LeaveChild(6, 7), [7, 1, 1, 4, 1]),
        (Way::LeaveChild(6, 4), [7, 1, 2, 3, 1]),
        (Way::DropWeak, [7, 1, 2, 3, 1]),
        (Way::Interface(4), [4, 1, 2, 0, 1]),
        (Way::Handle(4), [2, 0, 1, 0, 1]),
        (Way::Handle(6), [3, 1, 1, 1, 0]),
        (Way::Handle(12), [8, 1, 2, 4, 1]),
    ];
    'ways: for case in cases {
        there_and_back(rt, records, case)?;
    }
    Ok(())
}

/// What is left if a handle goes for good, and that another handle with its number has no records.
#[test]
fn a_handle_goes(rt: HostRuntime) -> Result<(), Fail> {
    let mut records = RecordLog::new(rt.alloc(), MOST_RECORDS)?;
    a_handle_goes_in(&rt, &mut records)
}

fn a_handle_goes_in(rt: &impl Abort, records: &mut RecordLog) -> Result<(), Fail> {
    open_four(rt, records)?;
    let four = handle(rt, 4);
    let before = records.list(four, guid(2))?;
    leave(rt, records, Way::Handle(6))?;
    let after = records.list(four, guid(2))?;
    assert!(rt; is_left(before.as_slice(), after.as_slice(), 6));
    assert_eq!(rt; after.len(), 1);
    // an open that was counted before is a new record now
    open(rt, records, (4, 2), (6, 0, 0x02))?;
    let last = records.list(four, guid(2))?;
    assert_eq!(rt;
        last.as_slice().last().map(|rec| (rec.agent, rec.count)),
        Some((6, 1))
    );
    assert_eq!(rt; counts(rt, records), [4, 1, 1, 2, 0]);
    assert!(rt; records.has_meant(four, guid(2), Some(6), None, Attr::ALL_BITS));
    assert!(rt; !records.has_meant(four, guid(2), Some(6), None, 0x18));
    Ok(())
}

/// Whether of the records before exactly those are left, in their order, that do not name a handle.
fn is_left(before: &[Rec], after: &[Rec], name: u64) -> bool {
    let mut rest = after.iter().copied();
    for rec in before {
        let stays = rec.agent != name && rec.controller != name;
        if stays && rest.next() != Some(*rec) {
            return false;
        }
    }
    rest.next().is_none()
}

/// Interfaces of which it is known which records are there, and others, stay alike while records leave.
#[test]
fn made_ready(rt: HostRuntime) -> Result<(), Fail> {
    let mut records = RecordLog::new(rt.alloc(), MOST_RECORDS)?;
    made_ready_in(&rt, &mut records)
}

fn made_ready_in(rt: &impl Abort, records: &mut RecordLog) -> Result<(), Fail>
    requires { records.old.marks ≡ [] }
{
    let (three, four) = (handle(rt, 3), handle(rt, 4));
    for agent in 11..111 {
        open(rt, records, (3, 1), (agent, 7, 0x02))?;
        open(rt, records, (4, 1), (agent, 7, 0x02))?;
        records.make_ready(three, guid(1));
    }
    for agent in 21..31 {
        records.leave(three, guid(1), agent, 7)?;
        records.leave(four, guid(1), agent, 7)?;
        records.make_ready(three, guid(1));
        assert!(rt; are_alike(records, three, four)?);
    }
    assert_eq!(rt; records.count_on(three, guid(1)), 90);
    records.drop_weak(three, guid(1))?;
    records.drop_weak(four, guid(1))?;
    records.make_ready(three, guid(1));
    assert!(rt; are_alike(records, three, four)?);
    assert_eq!(rt; records.len(), 0);
    Ok(())
}

/// Whether the first protocols of two handles have equal records, and as many as are counted.
fn are_alike(records: &RecordLog, one: Handle, other: Handle) -> Result<bool, OutOfMemory> {
    let first = records.list(one, guid(1))?;
    let second = records.list(other, guid(1))?;
    let count = records.count_on(one, guid(1));
    Ok(first.len() == count as usize && is_left(first.as_slice(), second.as_slice(), 0xFFFF))
}

// ---- many records

/// 60,000 records on one interface leave one after another.
#[test]
fn many_leave(rt: HostRuntime) -> Result<(), Fail> {
    let mut records = RecordLog::new(rt.alloc(), MOST_RECORDS)?;
    open_many(&rt, &mut records)?;
    many_leave_in(&rt, &mut records)
}

/// 60,000 weak records on an interface, next to one that is not weak.
fn open_many(rt: &impl Abort, records: &mut RecordLog) -> Result<(), RecFault>
    ensures { records.new.marks ≡ records.old.marks }
{
    'opens: for agent in 1..60_001 {
        open(rt, records, (4, 2), (agent, 7, 0x02))?;
    }
    open(rt, records, (4, 2), (8, 7, 0x08))
}

fn many_leave_in(rt: &impl Abort, records: &mut RecordLog) -> Result<(), Fail> {
    for agent in 1..60_001 {
        leave(rt, records, Way::Leave(agent, 7))?;
    }
    assert_eq!(rt; records.len(), 0);
    assert_eq!(rt; records.list(handle(rt, 4), guid(2))?.len(), 0);
    Ok(())
}

/// The weak ones of 60,000 records leave and come back, 100,000 times, and so do all of them.
#[test]
fn many_come_back(rt: HostRuntime) -> Result<(), Fail> {
    let mut records = RecordLog::new(rt.alloc(), MOST_RECORDS)?;
    open_many(&rt, &mut records)?;
    many_come_back_in(&rt, &mut records)
}

fn many_come_back_in(rt: &impl Abort, records: &mut RecordLog) -> Result<(), Fail>
    requires { records.old.marks ≡ [] }
{
    let four = handle(rt, 4);
    'turns: for _ in 0..100_000 {
        let mark = records.mark();
        records.drop_weak(four, guid(2))?;
        assert_eq!(rt; records.count_on(four, guid(2)), 1);
        records.remove_interface(four, guid(2), true)?;
        assert_eq!(rt; records.count_on(four, guid(2)), 0);
        records.rollback(mark);
    }
    assert_eq!(rt; records.len(), 60_001);
    assert_eq!(rt; records.list(four, guid(2))?.len(), 60_001);
    Ok(())
}

/// A handle that 60,000 records name goes and comes back, 1,000,000 times.
#[test]
fn a_name_comes_back(rt: HostRuntime) -> Result<(), Fail> {
    let mut records = RecordLog::new(rt.alloc(), MOST_RECORDS)?;
    open_many(&rt, &mut records)?;
    a_name_comes_back_in(&rt, &mut records)
}

fn a_name_comes_back_in(rt: &impl Abort, records: &mut RecordLog) -> Result<(), Fail>
    requires { records.old.marks ≡ [] }
{
    'turns: for _ in 0..1_000_000 {
        let mark = records.mark();
        leave(rt, records, Way::Handle(7))?;
        records.rollback(mark);
    }
    leave(rt, records, Way::Handle(7))?;
    assert_eq!(rt; records.len(), 0);
    Ok(())
}

// ---- others

/// Children and managers, by the protocols of the handle in order of installation.
#[test]
fn children_and_managers(rt: HostRuntime) -> Result<(), Fail> {
    let mut db = Db::new(rt.alloc(), MOST_HANDLES);
    install_four(&mut db, handle(&rt, 4))?;
    let mut records = RecordLog::new(rt.alloc(), MOST_RECORDS)?;
    children_and_managers_in(&rt, &db, &mut records)
}

/// Four handles, of which the last has four protocols.
fn install_four(db: &mut Db, last: Handle) -> Result<(), DbRefusal> {
    for number in 1..5 {
        db.install(None, guid(7), number, Handle::firmware())?;
    }
    for protocol in [2, 1, 3] {
        db.install(Some(last), guid(protocol), 0, Handle::firmware())?;
    }
    Ok(())
}

fn children_and_managers_in(rt: &impl Abort, db: &Db, records: &mut RecordLog) -> Result<(), Fail> {
    let parent = handle(rt, 4);
    let opens: [(Interface, Opener); 11] = [
        ((4, 1), (5, 8, 0x08)),
        ((4, 1), (5, 9, 0x08)),
        ((4, 2), (6, 9, 0x08)),
        ((4, 2), (5, 0, 0x08)),
        ((4, 2), (5, 7, 0x08)),
        ((4, 2), (5, 6, 0x04)),
        ((4, 2), (6, 4, 0x10)),
        ((4, 1), (5, 4, 0x30)),
        ((4, 3), (6, 4, 0x10)),
        ((4, 7), (7, 0, 0x20)),
        ((3, 7), (8, 2, 0x08)),
    ];
    open_all(rt, records, &opens)?;
    let cases: [(Option<u64>, &[u64]); 4] = [
        (None, &[9, 7, 8]),
        (Some(5), &[7, 8, 9]),
        (Some(6), &[9]),
        (Some(7), &[]),
    ];
    for (agent, wanted) in cases {
        let children = records.children_of(db, parent, agent)?;
        assert_eq!(rt; children.len(), wanted.len());
        for (child, number) in children.as_slice().iter().zip(wanted) {
            assert_eq!(rt; child.get(), *number);
        }
    }
    let managers = records.managers_of(db, parent)?;
    assert_eq!(rt; managers.as_slice(), [6u64, 5].as_slice());
    // a handle that is not live has neither
    assert_eq!(rt; records.children_of(db, handle(rt, 9), None)?.len(), 0);
    assert_eq!(rt; records.managers_of(db, handle(rt, 9))?.len(), 0);
    Ok(())
}

/// A `copy` and a `clone` of this test's own.
trait Absent {
    fn copy(&self) -> u64;

    fn clone(&self) -> u64;
}

impl Absent for RecordLog {
    fn copy(&self) -> u64 {
        1
    }

    fn clone(&self) -> u64 {
        2
    }
}

/// Records have no call that copies them, and are not Clone: otherwise these would not be the calls of
/// `Absent`.
#[test]
fn no_copies(rt: HostRuntime) -> Result<(), Fail> {
    let records = RecordLog::new(rt.alloc(), 1)?;
    assert_eq!(rt; (records.copy(), records.clone()), (1, 2));
    Ok(())
}
