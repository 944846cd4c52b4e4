//! Rows that are made, cut and taken back, and what is asked of them in between.

use crate::RecordRows;
use fw_types::{Attr, Guid, Handle, OutOfMemory};
use open_records::{KeyedRecord, Rec};
use std::process::Abort;
use std::test::Fail;

/// The GUID whose text form ends in a number.
fn guid(number: u8) -> Guid {
    Guid::from_guest(&[0, 0, 0, 0, 0, 0, 0, 0, 0, 0, 0, 0, 0, 0, 0, number])
}

/// The handle with a number, which is not 0.
fn handle(rt: &impl Abort, number: u64) -> Handle {
    Handle::new(number).expect(rt, "a handle's number is not 0")
}

/// A record of an agent for controller 9, on a protocol of handle 3.
fn record(rt: &impl Abort, protocol: u8, agent: u64, bits: u32) -> KeyedRecord {
    KeyedRecord {
        handle: handle(rt, 3),
        guid: guid(protocol),
        rec: Rec {
            agent,
            controller: 9,
            attr: Attr::legal(bits).expect(rt, "the bits are legal"),
            count: 1,
        },
    }
}

/// Makes 40 weak rows and two others on the first protocol, and a weak row on the second.
fn make_rows(rt: &impl Abort, rows: &mut RecordRows) -> Result<(), OutOfMemory> {
    for agent in 11..51 {
        rows.push(record(rt, 1, agent, 0x02))?;
    }
    rows.push(record(rt, 1, 11, 0x08))?;
    rows.push(record(rt, 1, 12, 0x10))?;
    rows.push(record(rt, 2, 11, 0x01))
}

/// How many records the two protocols have, and how many there are in all.
fn counts(rt: &impl Abort, rows: &RecordRows) -> [usize; 3] {
    let three = handle(rt, 3);
    [
        rows.count_on(three, guid(1)),
        rows.count_on(three, guid(2)),
        rows.shown_count(),
    ]
}

/// An agent goes and comes back, and then the controller of all rows.
#[test]
fn names(rt: HostRuntime) -> Result<(), Fail> {
    let mut rows = RecordRows::new(rt.alloc());
    make_rows(&rt, &mut rows)?;
    names_in(&rt, &mut rows)
}

fn names_in(rt: &impl Abort, rows: &mut RecordRows) -> Result<(), Fail> {
    let cases: [(u64, [usize; 3]); 4] = [
        (11, [40, 0, 40]),
        (12, [40, 1, 41]),
        (50, [41, 1, 42]),
        (9, [0, 0, 0]),
    ];
    for (name, left) in cases {
        if let Some(before) = rows.cut_name(name) {
            assert_eq!(rt; (before, counts(rt, rows)), (0, left));
            rows.restore_name(name, before);
        }
        rows.make_ready(handle(rt, 3), guid(1));
        assert_eq!(rt; counts(rt, rows), [42, 1, 43]);
    }
    // nothing names this one
    assert_eq!(rt; rows.cut_name(60), None);
    Ok(())
}

/// The weak rows of an interface go and come back, and then all of them.
#[test]
fn interfaces(rt: HostRuntime) -> Result<(), Fail> {
    let mut rows = RecordRows::new(rt.alloc());
    make_rows(&rt, &mut rows)?;
    interfaces_in(&rt, &mut rows)
}

fn interfaces_in(rt: &impl Abort, rows: &mut RecordRows) -> Result<(), Fail> {
    let (three, first) = (handle(rt, 3), guid(1));
    'ways: for (all, left) in [(false, [2, 1, 3]), (true, [0, 1, 1])] {
        rows.make_ready(three, first);
        if let Some(before) = rows.cut_interface(three, first, all) {
            assert_eq!(rt; counts(rt, rows), left);
            assert_eq!(rt; rows.has_child(three, first), !all);
            rows.restore_interface(three, first, before);
        }
        assert_eq!(rt; counts(rt, rows), [42, 1, 43]);
        assert_eq!(rt; rows.children(three, first)?.len(), 1);
    }
    assert_eq!(rt; rows.cut_interface(three, guid(3), true), None);
    Ok(())
}

/// How many records count is known if few rows were made since the last cut.
#[test]
fn few_rows(rt: HostRuntime) -> Result<(), Fail> {
    let mut rows = RecordRows::new(rt.alloc());
    make_rows(&rt, &mut rows)?;
    few_rows_in(&rt, &mut rows)
}

fn few_rows_in(rt: &impl Abort, rows: &mut RecordRows) -> Result<(), Fail> {
    let three = handle(rt, 3);
    assert_eq!(rt;
        [rows.few_on(three, guid(1)), rows.few_on(three, guid(2))],
        [None, Some(1)]
    );
    assert_eq!(rt;
        [rows.few_named(9), rows.few_named(12), rows.few_named(60)],
        [None, Some(2), Some(0)]
    );
    let _ = rows.cut_interface(three, guid(1), true);
    assert_eq!(rt; rows.few_on(three, guid(1)), Some(0));
    rows.push(record(rt, 1, 9, 0x02))?;
    assert_eq!(rt; rows.few_on(three, guid(1)), Some(1));
    let _ = rows.cut_name(9);
    assert_eq!(rt;
        [rows.few_named(9), rows.few_on(three, guid(1))],
        [Some(0), Some(0)]
    );
    // an agent that is its own controller is named once by the row
    rows.push(record(rt, 1, 9, 0x02))?;
    assert_eq!(rt; rows.few_named(9), Some(1));
    rows.pop();
    assert_eq!(rt; rows.few_named(9), Some(0));
    Ok(())
}

/// Rows are found by their openers, closed, and taken out.
#[test]
fn places(rt: HostRuntime) -> Result<(), Fail> {
    let mut rows = RecordRows::new(rt.alloc());
    make_rows(&rt, &mut rows)?;
    places_in(&rt, &mut rows)
}

fn places_in(rt: &impl Abort, rows: &mut RecordRows) -> Result<(), Fail> {
    let three = handle(rt, 3);
    assert_eq!(rt; rows.last_by(three, guid(1), (20, 9, 0x02)), Some(9));
    assert_eq!(rt; rows.last_by(three, guid(1), (20, 9, 0x04)), None);
    assert_eq!(rt; rows.last_strong(three, guid(1)), Some(41));
    assert_eq!(rt;
        rows.places_by(three, guid(1), 11)?.as_slice(),
        [0usize, 40].as_slice()
    );
    rows.set_closed(9, true);
    assert_eq!(rt; (rows.counts(9), counts(rt, rows)), (false, [41, 1, 42]));
    // it is made again, and taken out
    rows.push(record(rt, 1, 20, 0x02))?;
    assert_eq!(rt; rows.last_by(three, guid(1), (20, 9, 0x02)), Some(43));
    assert_eq!(rt; counts(rt, rows), [42, 1, 43]);
    rows.pop();
    assert_eq!(rt; rows.last_by(three, guid(1), (20, 9, 0x02)), Some(9));
    rows.set_closed(9, false);
    assert_eq!(rt; (rows.len(), counts(rt, rows)), (43, [42, 1, 43]));
    Ok(())
}
