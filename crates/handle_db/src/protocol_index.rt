//! The index by protocol: which handles have each protocol.
ghost use Rattle.std.specs.Prelude.{◌≡◌, ◌&&◌, ◌<◌, ℕ, List, [], IfOk, length, map, slice_get, true};
ghost use Rattle.std.specs.BTreeSet.{IsOrdered, contains};
ghost use Rattle.handle_db.specs.Database.{has_in, rise_from};
ghost use Rattle.handle_db.specs.ProtocolIndex.{named, naming_cmp};

use crate::handle_entry::HandleEntry;
use crate::places::{entry_of, has_guid};
use fw_types::{Guid, Handle, OutOfMemory};
use std::alloc::Global;
use std::collections::BTreeSet;
use std::collections::btree_set::Range;

/// Each protocol with each handle that has it, in order.
pub type ProtocolIndex = BTreeSet<(Guid, Handle)>;

/// The handles below a number that are named with a protocol, by rising number.
pub fn named_handles(
    alloc: Global,
    index: &ProtocolIndex,
    guid: Guid,
    next: Handle,
) -> Result<Vec<Handle>, OutOfMemory>
    requires { 0 < next }
    ensures handles { IfOk result (λ handles. handles.items ≡ named guid next index.now) }
    ensures ordered { IsOrdered naming_cmp index.now }
{
    handles_in(alloc, index.range((guid, Handle::firmware())..(guid, next)))
}

/// The handles of a part of an index.
fn handles_in(alloc: Global, range: Range<'_, (Guid, Handle)>) -> Result<Vec<Handle>, OutOfMemory>
    ensures { IfOk result (λ handles. handles.items ≡ map (λ one. one.1) range.entry) }
{
    let mut handles = Vec::new(alloc);
    for one in range {
        handles.push(one.1)?;
    }
    Ok(handles)
}

/// How many handles below a number are named with a protocol.
pub fn count_named(index: &ProtocolIndex, guid: Guid, next: Handle) -> usize
    requires { 0 < next }
    ensures count { result ≡ length (named guid next index.now) }
    ensures ordered { IsOrdered naming_cmp index.now }
{
    index
        .range((guid, Handle::firmware())..(guid, next))
        .count()
}

/// The least handle below a number that is named with a protocol.
pub fn first_named(index: &ProtocolIndex, guid: Guid, next: Handle) -> Option<Handle>
    requires { 0 < next }
    ensures first { result ≡ slice_get (named guid next index.now) 0 }
    ensures ordered { IsOrdered naming_cmp index.now }
{
    match index.range((guid, Handle::firmware())..(guid, next)).next() {
        Some(one) => Some(one.1),
        None => None,
    }
}

/// Keeps in an index those handles that still have their protocol.
pub fn keep_named(index: &mut ProtocolIndex, entries: &[HandleEntry])
    requires { rise_from 1 entries.now ≡ true }
    ensures { (guid : List ℕ) (handle : ℕ) →
        contains naming_cmp index.new (guid, handle)
        ≡ (has_in handle guid entries.now && contains naming_cmp index.old (guid, handle)) }
{
    index.retain(|one| still_has(entries, one.1, one.0));
}

/// Whether one of the entries is a handle that has a protocol.
fn still_has(entries: &[HandleEntry], handle: Handle, guid: Guid) -> bool
    requires { rise_from 1 entries.now ≡ true }
    ensures { result ≡ has_in handle guid entries.now }
{
    match entry_of(entries, handle.get()) {
        Some(entry) => has_guid(entry.interfaces.as_slice(), guid),
        None => false,
    }
}
