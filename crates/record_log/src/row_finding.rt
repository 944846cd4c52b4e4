//! Rows that count, found by their records.
ghost use Rattle.std.specs.Prelude.{◌≡◌, ◌++◌, ℕ, ◌&&◌, ◌||◌, Some, None, IfOk, OnOk, find, nat_eq, if◌then◌else◌};
ghost use Rattle.std.specs.List.{flat_map};
ghost use Rattle.std.specs.Option.{option_to_list};
ghost use Rattle.fw_types.specs.Attr.{legal_attributes};
ghost use Rattle.fw_types.specs.declared.attr.TheConstants.Attr.{ALL_BITS as all_bits, BY_CHILD_CONTROLLER as by_child_controller};
ghost use Rattle.open_records.specs.Records.{is_meant, is_strong};
ghost use Rattle.open_records.specs.Changing.{is_open};
ghost use Rattle.open_records.specs.Keyed.{is_of, records_of};
ghost use Rattle.open_records.specs.declared.open_record.KeyedRecord.{KeyedRecord as KeyedValue};
ghost use Rattle.record_rows.specs.Asking.{counts_at};
ghost use Rattle.record_rows.specs.Inside.{rows_of};
ghost use Rattle.record_rows.specs.Rows.{entries_of};
ghost use Rattle.record_log.specs.SoundRows.{AreChosen, AreSound, is_among, is_chosen, last_counting};

use fw_types::{Attr, Guid, Handle, OutOfMemory};
use open_records::{Opener, Rec};
use record_rows::RecordRows;
use std::alloc::Global;

/// The attributes that a record may have.
pub(crate) const LEGAL: [u32; 7] = [0x01, 0x02, 0x04, 0x08, 0x10, 0x20, 0x30];

/// A place, if its row counts.
fn if_counts(rows: &RecordRows, place: usize) -> Option<usize>
    ensures { result ≡ (if counts_at (rows_of rows.now) place then Some place else None) }
{
    if rows.counts(place) {
        Some(place)
    } else {
        None
    }
}

/// The place of the last row of an interface with an opener, if that row counts.
pub(crate) fn place_of(
    rows: &RecordRows,
    handle: Handle,
    guid: Guid,
    opener: Opener,
) -> Option<usize>
    ensures { result ≡ last_counting (is_open handle guid opener.0 opener.1 opener.2) (rows_of rows.now) }
{
    match rows.last_by(handle, guid, opener) {
        None => None,
        Some(place) => if_counts(rows, place),
    }
}

/// The place of the last row of an interface with BY_DRIVER or EXCLUSIVE, if that row counts.
fn holder_place(rows: &RecordRows, handle: Handle, guid: Guid) -> Option<usize>
    ensures { result ≡ last_counting (λ (one : KeyedValue). is_of handle guid one && is_strong one.rec) (rows_of rows.now) }
{
    match rows.last_strong(handle, guid) {
        None => None,
        Some(place) => if_counts(rows, place),
    }
}

/// The record of an interface with BY_DRIVER or EXCLUSIVE, if it has one that counts.
pub(crate) fn holder(rows: &RecordRows, handle: Handle, guid: Guid) -> Option<Rec>
    requires { AreSound (rows_of rows.now) }
    ensures { result ≡ find is_strong (records_of (entries_of (rows_of rows.now)) handle guid) }
{
    match holder_place(rows, handle, guid) {
        None => None,
        Some(place) => rows.rec(place),
    }
}

/// Puts the place of the last row of an interface with an opener after others, if that row counts.
fn push_place(
    places: &mut Vec<usize>,
    rows: &RecordRows,
    handle: Handle,
    guid: Guid,
    opener: Opener,
) -> Result<(), OutOfMemory>
    ensures { OnOk result (places.new.items ≡ places.old.items ++ option_to_list (last_counting (is_open handle guid opener.0 opener.1 opener.2) (rows_of rows.now))) }
{
    match place_of(rows, handle, guid, opener) {
        None => Ok(()),
        Some(place) => {
            places.push(place)?;
            Ok(())
        }
    }
}

/// The places of the last rows of an interface with an agent, a controller and each of the attributes, of those that count.
fn last_places(
    alloc: Global,
    rows: &RecordRows,
    handle: Handle,
    guid: Guid,
    agent: u64,
    controller: u64,
) -> Result<Vec<usize>, OutOfMemory>
    ensures { IfOk result (λ places. places.items ≡ flat_map (λ (attr : ℕ). option_to_list (last_counting (is_open handle guid agent controller attr) (rows_of rows.now))) legal_attributes) }
{
    let mut places = Vec::new(alloc);
    for attr in &LEGAL {
        push_place(&mut places, rows, handle, guid, (agent, controller, *attr))?;
    }
    Ok(places)
}

/// The places of an agent's records for a controller on an interface.
pub(crate) fn places_left(
    alloc: Global,
    rows: &RecordRows,
    handle: Handle,
    guid: Guid,
    agent: u64,
    controller: u64,
) -> Result<Vec<usize>, OutOfMemory>
    requires { AreSound (rows_of rows.now) }
    ensures { IfOk result (λ places.
        AreChosen (λ (one : KeyedValue). is_of handle guid one && is_meant (Some agent) (Some controller) all_bits one.rec) (rows_of rows.now) places.items) }
{
    last_places(alloc, rows, handle, guid, agent, controller)
}

/// The places of an agent's records on all interfaces of a handle.
pub(crate) fn places_of_agent(
    alloc: Global,
    rows: &RecordRows,
    handle: Handle,
    agent: u64,
) -> Result<Vec<usize>, OutOfMemory>
    requires { AreSound (rows_of rows.now) }
    ensures { IfOk result (λ places.
        AreChosen (λ (one : KeyedValue). nat_eq one.handle handle && is_meant (Some agent) None all_bits one.rec) (rows_of rows.now) places.items) }
{
    let guids = rows.protocols_on(handle)?;
    let mut places = Vec::new(alloc);
    for guid in guids.as_slice() {
        push_places_by(&mut places, rows, handle, *guid, agent)?;
    }
    Ok(places)
}

/// Puts the places of an agent's records on an interface after others.
fn push_places_by(
    places: &mut Vec<usize>,
    rows: &RecordRows,
    handle: Handle,
    guid: Guid,
    agent: u64,
) -> Result<(), OutOfMemory>
    ensures { OnOk result ((place : ℕ) → is_among places.new.items place
        ≡ (is_among places.old.items place || is_chosen (λ (one : KeyedValue). is_of handle guid one && nat_eq one.rec.agent agent) (rows_of rows.now) place)) }
{
    let mine = rows.places_by(handle, guid, agent)?;
    places.extend_from_slice(mine.as_slice())?;
    Ok(())
}

/// The places of an agent's records for a child on all interfaces of a handle.
pub(crate) fn places_of_child(
    alloc: Global,
    rows: &RecordRows,
    handle: Handle,
    agent: u64,
    child: Handle,
) -> Result<Vec<usize>, OutOfMemory>
    requires { AreSound (rows_of rows.now) }
    ensures { IfOk result (λ places.
        AreChosen (λ (one : KeyedValue). nat_eq one.handle handle && is_meant (Some agent) (Some child) by_child_controller one.rec) (rows_of rows.now) places.items) }
{
    let guids = rows.protocols_on(handle)?;
    let mut places = Vec::new(alloc);
    let opener = (agent, child.get(), Attr::BY_CHILD_CONTROLLER);
    for guid in guids.as_slice() {
        push_place(&mut places, rows, handle, *guid, opener)?;
    }
    Ok(places)
}
