//! The children of a handle, and the agents that manage it.
ghost use Rattle.std.specs.Prelude.{◌≡◌, None, Some, IfOk, OnOk, find, option_map, if◌then◌else◌};
ghost use Rattle.std.specs.Option.{option_to_list};
ghost use Rattle.open_records.specs.Keyed.{records_of};
ghost use Rattle.open_records.specs.Leaving.{fits};
ghost use Rattle.open_records.specs.Managing.{child_numbers, is_child, is_managing, manager_numbers, once_each, records_on};
ghost use Rattle.open_records.specs.NumberLists.{joined, with_number};
ghost use Rattle.open_records.specs.declared.open_record.Rec.{Rec as RecValue};
ghost use Rattle.record_rows.specs.Inside.{rows_of};
ghost use Rattle.record_rows.specs.Rows.{entries_of};
ghost use Rattle.record_log.specs.SoundRows.{AreSound};

use crate::found::Found;
use crate::row_finding::holder;
use fw_types::{Attr, Guid, Handle, OutOfMemory};
use open_records::{Rec, fits};
use record_rows::RecordRows;
use std::alloc::Global;

/// The children of a handle, by the protocols of the handle.
pub fn children_on(
    alloc: Global,
    rows: &RecordRows,
    handle: Handle,
    protocols: &[(Guid, u64, Handle)],
    agent: Option<u64>,
) -> Result<Vec<Handle>, OutOfMemory>
    ensures { let records = records_on (entries_of (rows_of rows.now)) handle protocols.now in
        IfOk result (λ found. found.items ≡ once_each (child_numbers agent records)) }
{
    let mut found = Found::new(alloc);
    for (guid, _, _) in protocols {
        add_children_on(&mut found, rows, handle, *guid, agent)?;
    }
    Ok(found.into_list())
}

/// The agents that manage a handle, by the protocols of the handle.
pub fn managers_on(
    alloc: Global,
    rows: &RecordRows,
    handle: Handle,
    protocols: &[(Guid, u64, Handle)],
) -> Result<Vec<u64>, OutOfMemory>
    requires { AreSound (rows_of rows.now) }
    ensures { let records = records_on (entries_of (rows_of rows.now)) handle protocols.now in
        IfOk result (λ found. found.items ≡ once_each (manager_numbers records)) }
{
    let mut found = Vec::new(alloc);
    for (guid, _, _) in protocols {
        add_manager(&mut found, holder(rows, handle, *guid))?;
    }
    Ok(found)
}

/// The agent that manages a handle by one of its interfaces.
pub fn manager_on(rows: &RecordRows, handle: Handle, guid: Guid) -> Option<u64>
    requires { AreSound (rows_of rows.now) }
    ensures { let records = records_of (entries_of (rows_of rows.now)) handle guid in
        result ≡ option_map (λ (rec : RecValue). rec.agent) (find is_managing records) }
{
    match holder(rows, handle, guid) {
        Some(rec) => {
            if is_managing(&rec) {
                Some(rec.agent)
            } else {
                None
            }
        }
        None => None,
    }
}

/// Puts the children on an interface after others, if they are new.
fn add_children_on(
    found: &mut Found,
    rows: &RecordRows,
    handle: Handle,
    guid: Guid,
    agent: Option<u64>,
) -> Result<(), OutOfMemory>
    ensures { let records = records_of (entries_of (rows_of rows.now)) handle guid in
        OnOk result (found.new ≡ joined found.old (child_numbers agent records)) }
{
    let children = rows.children(handle, guid)?;
    add_children(found, children.as_slice(), agent)
}

/// Puts the children that an interface's records name after others, if they are new.
fn add_children(found: &mut Found, mine: &[Rec], agent: Option<u64>) -> Result<(), OutOfMemory>
    ensures { OnOk result (found.new ≡ joined found.old (child_numbers agent mine.now)) }
{
    for rec in mine {
        if let Some(child) = child_of(rec, agent) {
            found.add(child)?;
        }
    }
    Ok(())
}

/// Puts the agent of a record after others, if there is one, it has BY_DRIVER and the agent is new.
fn add_manager(found: &mut Vec<u64>, holder: Option<Rec>) -> Result<(), OutOfMemory>
    ensures { OnOk result (found.new.items ≡ joined found.old.items (manager_numbers (option_to_list holder))) }
{
    match holder {
        Some(rec) => {
            if is_managing(&rec) {
                add_number(found, rec.agent)
            } else {
                Ok(())
            }
        }
        None => Ok(()),
    }
}

/// Puts a number after others, if it is new.
fn add_number(found: &mut Vec<u64>, number: u64) -> Result<(), OutOfMemory>
    ensures { OnOk result (found.new.items ≡ with_number number found.old.items) }
{
    if !found.contains(&number) {
        found.push(number)?;
    }
    Ok(())
}

/// The child that a record names, if it is a BY_CHILD_CONTROLLER record, of an agent if one is given.
fn child_of(rec: &Rec, agent: Option<u64>) -> Option<Handle>
    ensures { result ≡ (if is_child agent rec.now then Some rec.now.controller else None) }
{
    if rec.attr.bits() == Attr::BY_CHILD_CONTROLLER && fits(agent, rec.agent) {
        Handle::new(rec.controller)
    } else {
        None
    }
}

/// Whether a record has BY_DRIVER, so that its agent manages the controller.
fn is_managing(rec: &Rec) -> bool
    ensures { result ≡ is_managing rec.now }
{
    rec.attr.has_bit_of(Attr::BY_DRIVER)
}
