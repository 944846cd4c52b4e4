//! Changes of the rows, each with what is needed to take it back.
ghost use Rattle.std.specs.Prelude.{◌≡◌, ◌+◌, ℕ, Bool, false, true, min, None, IfOk, OnErr, slice_get};
ghost use Rattle.fw_types.specs.declared.attr.TheConstants.Attr.{WEAK_BITS as weak_bits};
ghost use Rattle.open_records.specs.Adding.{added, is_full, most};
ghost use Rattle.open_records.specs.Leaving.{cut, is_meant};
ghost use Rattle.open_records.specs.OpenRecords.{records_of};
ghost use Rattle.open_records.specs.Verdicts.{judge, may_enter};
ghost use Rattle.open_records.specs.declared.open_record.KeyedRecord.{KeyedRecord as KeyedValue};
ghost use Rattle.record_rows.specs.Asking.{KeepsKeys};
ghost use Rattle.record_rows.specs.Inside.{rows_of};
ghost use Rattle.record_log.specs.MarkedRecords.{interface_cut};
ghost use Rattle.record_rows.specs.Rows.{closed_at, counted_at, entries_of};
ghost use Rattle.record_log.specs.SoundRows.{AreChosen, CutsInterface, CutsName, GivesChange, IsChange, IsSoundRows, count_in_line, without};
ghost use Rattle.record_log.specs.Tallies.{IsTallied};
ghost use Rattle.record_log.specs.TakingBack.{IsInterfaceKnown, IsKnown, IsNameKnown, back, closed_each, table_of, with_interface_back, with_name_back};
ghost use Rattle.record_log.specs.declared.record_change.RecordChange.TheVariants.{Counted as CountedValue};

use crate::record_change::RecordChange;
use crate::row_finding::place_of;
use crate::tally::{Tally, meets_limit};
use fw_types::{Attr, Guid, Handle, OutOfMemory};
use open_records::{KeyedRecord, Rec, RecFault};
use record_rows::RecordRows;

// ---- taking a change back

/// Takes a change back, the last that is not taken back yet.
pub(crate) fn take_back(rows: &mut RecordRows, change: RecordChange)
    requires { IsKnown change rows.old }
    ensures back { rows_of rows.new ≡ back change (rows_of rows.old) }
    ensures keys { KeepsKeys rows.old rows.new }
{
    match change {
        RecordChange::Made => rows.pop(),
        RecordChange::Counted { place, before } => rows.set_count(place, before),
        RecordChange::Closed { places } => open_each(rows, places.as_slice()),
        RecordChange::Cut {
            handle,
            guid,
            interface,
            name,
        } => {
            restore_interface(rows, handle, guid, interface);
            restore_name(rows, handle, name);
        }
    }
}

/// Sets both cuts of an interface back to these, if any are given.
fn restore_interface(
    rows: &mut RecordRows,
    handle: Handle,
    guid: Guid,
    before: Option<(usize, usize)>,
)
    requires { IsInterfaceKnown (handle, guid) before rows.old }
    ensures restored { rows_of rows.new ≡ record (rows_of rows.old) { cuts = with_interface_back (handle, guid) before (rows_of rows.old).cuts } }
    ensures keys { KeepsKeys rows.old rows.new }
{
    if let Some(cuts) = before {
        rows.restore_interface(handle, guid, cuts);
    }
}

/// Sets the cut of a handle number back to this, if one is given.
fn restore_name(rows: &mut RecordRows, name: Handle, before: Option<usize>)
    requires { IsNameKnown name before rows.old }
    ensures restored { rows_of rows.new ≡ record (rows_of rows.old) { cuts = with_name_back name before (rows_of rows.old).cuts } }
    ensures keys { KeepsKeys rows.old rows.new }
{
    if let Some(place) = before {
        rows.restore_name(name.get(), place);
    }
}

/// Opens the rows at some places again.
fn open_each(rows: &mut RecordRows, places: &[usize])
    ensures { rows.new ≡ record rows.old { lines = closed_each places.now false rows.old.lines } }
{
    for place in places {
        rows.set_closed(*place, false);
    }
}

// ---- changes

/// Closes the rows at some places.
pub(crate) fn close_rows(
    rows: &mut RecordRows,
    tally: &mut Tally,
    places: Vec<usize>,
) -> RecordChange
    requires { IsTallied tally.old (rows_of rows.old) }
    ensures change { (limit : ℕ) (test : KeyedValue → Bool) → IsSoundRows limit (rows_of rows.old) → AreChosen test (rows_of rows.old) places.items
        → IsChange limit result (without test) rows.old rows.new }
    ensures tally { IsTallied tally.new (rows_of rows.new) }
{
    close_each(rows, tally, places.as_slice());
    RecordChange::closed(places)
}

/// Closes the rows at some places.
fn close_each(rows: &mut RecordRows, tally: &mut Tally, places: &[usize])
    requires { IsTallied tally.old (rows_of rows.old) }
    ensures rows { rows.new ≡ record rows.old { lines = closed_each places.now true rows.old.lines } }
    ensures tally { IsTallied tally.new (rows_of rows.new) }
{
    for place in places {
        close_row(rows, tally, *place);
    }
}

/// Closes the row at a place. If it counts, one record less does.
fn close_row(rows: &mut RecordRows, tally: &mut Tally, place: usize)
    requires { IsTallied tally.old (rows_of rows.old) }
    ensures rows { rows.new ≡ record rows.old { lines = closed_at place true rows.old.lines } }
    ensures tally { IsTallied tally.new (rows_of rows.new) }
{
    let counts = rows.counts(place);
    rows.set_closed(place, true);
    if counts {
        tally.most = tally.most.saturating_sub(1);
    }
}

/// Cuts the weak records of an interface, and its other records too if all are to go.
fn cut_interface(
    rows: &mut RecordRows,
    tally: &mut Tally,
    handle: Handle,
    guid: Guid,
    all: bool,
) -> Option<(usize, usize)>
    requires { IsTallied tally.old (rows_of rows.old) }
    ensures cut { CutsInterface all handle guid result rows.old rows.new }
    ensures keys { KeepsKeys rows.old rows.new }
    ensures tally { IsTallied tally.new (rows_of rows.new) }
{
    let before = rows.few_on(handle, guid);
    let cuts = rows.cut_interface(handle, guid, all);
    tally.fall(before, rows.few_on(handle, guid));
    cuts
}

/// Cuts a handle number.
fn cut_name(rows: &mut RecordRows, tally: &mut Tally, name: Handle) -> Option<usize>
    requires { IsTallied tally.old (rows_of rows.old) }
    ensures cut { CutsName name result rows.old rows.new }
    ensures keys { KeepsKeys rows.old rows.new }
    ensures tally { IsTallied tally.new (rows_of rows.new) }
{
    let before = rows.few_named(name.get());
    let cut = rows.cut_name(name.get());
    tally.fall(before, Some(0));
    cut
}

/// Cuts the weak records of an interface.
pub(crate) fn cut_weak(
    rows: &mut RecordRows,
    tally: &mut Tally,
    handle: Handle,
    guid: Guid,
) -> RecordChange
    requires { IsTallied tally.old (rows_of rows.old) }
    ensures change { (limit : ℕ) → IsSoundRows limit (rows_of rows.old)
        → IsChange limit result (cut handle guid (is_meant None None weak_bits)) rows.old rows.new }
    ensures tally { IsTallied tally.new (rows_of rows.new) }
{
    let interface = cut_interface(rows, tally, handle, guid, false);
    RecordChange::Cut {
        handle,
        guid,
        interface,
        name: None,
    }
}

/// Cuts all records of an interface, and if its handle goes with it, those that name the handle.
pub(crate) fn cut_all(
    rows: &mut RecordRows,
    tally: &mut Tally,
    handle: Handle,
    guid: Guid,
    goes: bool,
) -> RecordChange
    requires { IsTallied tally.old (rows_of rows.old) }
    ensures change { (limit : ℕ) → IsSoundRows limit (rows_of rows.old)
        → IsChange limit result (interface_cut handle guid goes) rows.old rows.new }
    ensures tally { IsTallied tally.new (rows_of rows.new) }
{
    let interface = cut_interface(rows, tally, handle, guid, true);
    if !goes {
        return RecordChange::Cut {
            handle,
            guid,
            interface,
            name: None,
        };
    }
    let name = cut_name(rows, tally, handle);
    RecordChange::Cut {
        handle,
        guid,
        interface,
        name,
    }
}

/// Counts one more open of the record at a place. The largest count stays.
fn raise(rows: &mut RecordRows, place: usize) -> RecordChange
    ensures change { result ≡ CountedValue place (count_in_line (slice_get rows.old.lines place)) }
    ensures raised { rows.new ≡ record rows.old {
      lines = counted_at place (min (count_in_line (slice_get rows.old.lines place) + 1) most) rows.old.lines;
    } }
{
    let before = count_at(rows, place);
    rows.set_count(place, before.saturating_add(1));
    RecordChange::Counted { place, before }
}

/// The count of the record at a place; 0 if there is none.
fn count_at(rows: &RecordRows, place: usize) -> u32
    ensures { result ≡ count_in_line (slice_get rows.now.lines place) }
{
    match rows.rec(place) {
        None => 0,
        Some(rec) => rec.count,
    }
}

/// Enters an open of an interface: the record with its opener counts one more, or a row is made.
///
/// # Errors
///
/// What counts is then as before.
///
/// - `Full` if the open needs a record, and there are as many records as there may be.
/// - `OutOfMemory` if there is no memory.
pub(crate) fn enter_row(
    rows: &mut RecordRows,
    tally: &mut Tally,
    limit: u32,
    handle: Handle,
    guid: Guid,
    agent: u64,
    controller: u64,
    attr: Attr,
) -> Result<RecordChange, RecFault>
    requires sound { IsSoundRows limit (rows_of rows.old) }
    requires tally { IsTallied tally.old (rows_of rows.old) }
    requires verdict { may_enter (judge (records_of (entries_of (rows_of rows.old)) handle guid) agent controller attr) ≡ true }
    ensures answer { GivesChange result (is_full handle guid agent controller attr (table_of limit (rows_of rows.old))) }
    ensures ok { IfOk result (λ change. IsChange limit change (added handle guid agent controller attr) rows.old rows.new) }
    ensures err { OnErr result (rows_of rows.new ≡ rows_of rows.old) }
    ensures keys { KeepsKeys rows.old rows.new }
    ensures tally { IsTallied tally.new (rows_of rows.new) }
{
    match place_of(rows, handle, guid, (agent, controller, attr.bits())) {
        Some(place) => Ok(raise(rows, place)),
        None => {
            if meets_limit(rows, tally, limit) {
                return Err(RecFault::Full);
            }
            rows.push(KeyedRecord {
                handle,
                guid,
                rec: Rec {
                    agent,
                    controller,
                    attr,
                    count: 1,
                },
            })?;
            tally.most += 1;
            Ok(RecordChange::Made)
        }
    }
}
