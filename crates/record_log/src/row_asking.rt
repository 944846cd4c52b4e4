//! What the records of an interface say.
ghost use Rattle.std.specs.Prelude.{◌≡◌, ◌&&◌, None, Some, true, find, is_some};
ghost use Rattle.std.specs.List.{list_any};
ghost use Rattle.std.specs.Option.{option_to_list};
ghost use Rattle.fw_types.specs.declared.attr.TheConstants.Attr.{AGENT_BITS as agent_bits};
ghost use Rattle.open_records.specs.Records.{is_asked, is_equal, is_meant};
ghost use Rattle.open_records.specs.Verdicts.{judge};
ghost use Rattle.open_records.specs.Keyed.{is_of, records_of};
ghost use Rattle.record_rows.specs.Inside.{rows_of};
ghost use Rattle.record_rows.specs.Rows.{entries_of};
ghost use Rattle.record_log.specs.SoundRows.{AreSound, is_holding, last_counting};
ghost use Rattle.record_rows.specs.Asking.{passes_at};
ghost use Rattle.fw_types.specs.Attr.{has_bit_of};
ghost use Rattle.open_records.specs.Changing.{is_open};
ghost use Rattle.open_records.specs.declared.open_record.KeyedRecord.{KeyedRecord as KeyedValue};

use crate::row_finding::{LEGAL, holder, place_of};
use fw_types::{Attr, Guid, Handle};
use open_records::{KeyedRecord, Meant, Opener, Rec, Test, Verdict, judge};
use record_rows::RecordRows;

/// The records of an interface that are meant.
#[derive(Clone, Copy)]
struct MeantOn<'a> {
    handle: Handle,
    guid: Guid,
    meant: &'a Meant,
}

impl Test for MeantOn<'_> {
    ghost chosen = { λ on one. is_of on.handle on.guid one && is_asked on.meant.now one.rec };

    fn chooses(&self, one: &KeyedRecord) -> bool {
        one.is_of(self.handle, self.guid) && one.rec.is_meant(self.meant)
    }
}

/// An interface's record of an opener, if it has one that counts.
fn record_of(rows: &RecordRows, handle: Handle, guid: Guid, opener: Opener) -> Option<Rec>
    requires { AreSound (rows_of rows.now) }
    ensures { result ≡ find (is_equal opener.0 opener.1 opener.2) (records_of (entries_of (rows_of rows.now)) handle guid) }
{
    match place_of(rows, handle, guid, opener) {
        None => None,
        Some(place) => rows.rec(place),
    }
}

/// Whether an interface has a record of an agent, a controller and an attribute.
pub(crate) fn is_open(
    rows: &RecordRows,
    handle: Handle,
    guid: Guid,
    agent: u64,
    controller: u64,
    attr: Attr,
) -> bool
    requires { AreSound (rows_of rows.now) }
    ensures { result ≡ list_any (is_equal agent controller attr) (records_of (entries_of (rows_of rows.now)) handle guid) }
{
    record_of(rows, handle, guid, (agent, controller, attr.bits())).is_some()
}

/// What the records of an interface say about an open by an agent for a controller.
pub(crate) fn judged(
    rows: &RecordRows,
    handle: Handle,
    guid: Guid,
    agent: u64,
    controller: u64,
    attr: Attr,
) -> Verdict
    requires { AreSound (rows_of rows.now) }
    ensures { result ≡ judge (records_of (entries_of (rows_of rows.now)) handle guid) agent controller attr }
{
    if attr.has_bit_of(Attr::HOLDING_BITS) {
        return judged_by(holder(rows, handle, guid), agent, controller, attr);
    }
    let opener = (agent, controller, attr.bits());
    judged_by(
        record_of(rows, handle, guid, opener),
        agent,
        controller,
        attr,
    )
}

/// What one record, if one is given, says about an open by an agent for a controller.
fn judged_by(found: Option<Rec>, agent: u64, controller: u64, attr: Attr) -> Verdict
    ensures { result ≡ judge (option_to_list found) agent controller attr }
{
    match found {
        None => judge(&[], agent, controller, attr),
        Some(rec) => judge(&[rec], agent, controller, attr),
    }
}

/// Whether an interface has a record that is meant.
pub(crate) fn has_meant(rows: &RecordRows, handle: Handle, guid: Guid, meant: &Meant) -> bool
    requires { AreSound (rows_of rows.now) }
    ensures { result ≡ list_any (is_asked meant.now) (records_of (entries_of (rows_of rows.now)) handle guid) }
{
    if is_holding(meant.bits) {
        return is_holder_meant(rows, handle, guid, meant);
    }
    match meant.agent {
        Some(agent) => has_of_agent(rows, handle, guid, agent, meant),
        None => has_of_any(rows, handle, guid, meant),
    }
}

/// Whether only records with BY_DRIVER or EXCLUSIVE can have one of some bits.
fn is_holding(bits: u32) -> bool
    ensures { result ≡ is_holding bits }
{
    bits == Attr::HOLDING_BITS || bits == Attr::BY_DRIVER || bits == Attr::EXCLUSIVE
}

/// Whether an interface has a record that is meant, if only those with BY_DRIVER or EXCLUSIVE can be.
fn is_holder_meant(rows: &RecordRows, handle: Handle, guid: Guid, meant: &Meant) -> bool
    requires sound { AreSound (rows_of rows.now) }
    requires meant { is_holding meant.now.bits ≡ true }
    ensures { result ≡ list_any (is_asked meant.now) (records_of (entries_of (rows_of rows.now)) handle guid) }
{
    match holder(rows, handle, guid) {
        None => false,
        Some(rec) => rec.is_meant(meant),
    }
}

/// Whether an interface has a record that is meant, if an agent is given.
fn has_of_agent(rows: &RecordRows, handle: Handle, guid: Guid, agent: u64, meant: &Meant) -> bool
    requires sound { AreSound (rows_of rows.now) }
    requires meant { meant.now.agent ≡ Some agent }
    ensures { result ≡ list_any (is_asked meant.now) (records_of (entries_of (rows_of rows.now)) handle guid) }
{
    match meant.controller {
        Some(controller) => has_of_opener(rows, handle, guid, agent, controller, meant),
        None => match rows.places_by(handle, guid, agent) {
            Ok(places) => is_meant_at(rows, places.as_slice(), meant),
            Err(_) => rows.any(&MeantOn {
                handle,
                guid,
                meant,
            }),
        },
    }
}

/// Whether one of the records at some places is meant.
fn is_meant_at(rows: &RecordRows, places: &[usize], meant: &Meant) -> bool
    ensures { result ≡ list_any (λ place. passes_at (λ (one : KeyedValue). is_asked meant.now one.rec) rows.now.lines place) places.now }
{
    for place in places {
        if is_one_meant(rows, *place, meant) {
            return true;
        }
    }
    false
}

/// Whether the record at a place is meant, if there is one.
fn is_one_meant(rows: &RecordRows, place: usize, meant: &Meant) -> bool
    ensures { result ≡ passes_at (λ (one : KeyedValue). is_asked meant.now one.rec) rows.now.lines place }
{
    match rows.rec(place) {
        None => false,
        Some(rec) => rec.is_meant(meant),
    }
}

/// Whether an interface has a record that is meant, if an agent and a controller are given.
fn has_of_opener(
    rows: &RecordRows,
    handle: Handle,
    guid: Guid,
    agent: u64,
    controller: u64,
    meant: &Meant,
) -> bool
    requires sound { AreSound (rows_of rows.now) }
    requires meant { meant.now ≡ record { agent = Some agent; controller = Some controller; bits = meant.now.bits } }
    ensures { result ≡ list_any (is_asked meant.now) (records_of (entries_of (rows_of rows.now)) handle guid) }
{
    for attr in &LEGAL {
        if is_meant_open(rows, handle, guid, (agent, controller, *attr), meant.bits) {
            return true;
        }
    }
    false
}

/// Whether an opener's attribute has one of some bits and an interface has a record of it.
fn is_meant_open(rows: &RecordRows, handle: Handle, guid: Guid, opener: Opener, bits: u32) -> bool
    ensures { result ≡ (has_bit_of bits opener.2 && is_some (last_counting (is_open handle guid opener.0 opener.1 opener.2) (rows_of rows.now))) }
{
    opener.2 & bits != 0 && place_of(rows, handle, guid, opener).is_some()
}

/// Whether an interface has a record that is meant, if no agent is given.
fn has_of_any(rows: &RecordRows, handle: Handle, guid: Guid, meant: &Meant) -> bool
    requires sound { AreSound (rows_of rows.now) }
    requires meant { meant.now.agent ≡ None }
    ensures { result ≡ list_any (is_asked meant.now) (records_of (entries_of (rows_of rows.now)) handle guid) }
{
    if meant.controller.is_none() && meant.bits == Attr::AGENT_BITS {
        return has_of_agents(rows, handle, guid);
    }
    rows.any(&MeantOn {
        handle,
        guid,
        meant,
    })
}

/// Whether an interface has a record with BY_DRIVER, EXCLUSIVE or BY_CHILD_CONTROLLER.
fn has_of_agents(rows: &RecordRows, handle: Handle, guid: Guid) -> bool
    requires { AreSound (rows_of rows.now) }
    ensures { result ≡ list_any (is_meant None None agent_bits) (records_of (entries_of (rows_of rows.now)) handle guid) }
{
    holder(rows, handle, guid).is_some() || rows.has_child(handle, guid)
}
