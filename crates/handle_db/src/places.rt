ghost use Rattle.std.specs.Prelude.{◌≡◌, ◌<◌, ◌≤◌, find, map, filter, false, true, is_some, length, nat_le, option_copied, IfSome, IfNone, IfOk};
ghost use Rattle.std.specs.List.{list_any, position};
ghost use Rattle.handle_db.specs.Database.{has_guid as has_protocol, is_guid, is_handle, numbers, rise_from};
ghost use Rattle.handle_db.specs.Places.{IsPlaceOf, IsRoomFor};

use crate::handle_entry::{HandleEntry, Interface};
use fw_types::{Guid, Handle, MOST_INTERFACES, OutOfMemory, Rows};
use std::alloc::Global;

/// The place of a handle among entries with rising handle numbers.
pub fn place_of(entries: &[HandleEntry], handle: u64) -> Option<usize>
    requires { rise_from 1 entries.now ≡ true }
    ensures found { IfSome result (IsPlaceOf handle entries.now) }
    ensures none { IfNone result (list_any (is_handle handle) entries.now ≡ false) }
{
    entries
        .binary_search_by_key(&handle, |entry| entry.handle.get())
        .ok()
}

/// The place that a handle would have among entries with rising handle numbers.
pub fn room_for(entries: &[HandleEntry], handle: u64) -> usize
    requires { rise_from 1 entries.now ≡ true }
    ensures { list_any (is_handle handle) entries.now ≡ false → IsRoomFor handle entries.now result }
{
    match entries.binary_search_by_key(&handle, |entry| entry.handle.get()) {
        Ok(place) => place,
        Err(place) => place,
    }
}

/// The entry of a handle among entries with rising handle numbers.
pub fn entry_of(entries: &[HandleEntry], handle: u64) -> Option<&HandleEntry>
    requires { rise_from 1 entries.now ≡ true }
    ensures found { option_copied result ≡ find (is_handle handle) entries.now }
    ensures live { is_some result ≡ list_any (is_handle handle) entries.now }
{
    match place_of(entries, handle) {
        Some(place) => Some(&entries[place]),
        None => None,
    }
}

/// A handle's interface of a protocol.
pub fn interface_in(interfaces: &[Interface], guid: Guid) -> Option<&Interface>
    ensures { option_copied result ≡ find (is_guid guid) interfaces.now }
{
    interfaces.iter().find(|one| one.guid == guid)
}

/// The place of a handle's interface of a protocol among the interfaces of that handle.
pub fn interface_place(interfaces: &[Interface], guid: Guid) -> Option<usize>
    ensures { result ≡ position (is_guid guid) interfaces.now }
{
    interfaces.iter().position(|one| one.guid == guid)
}

/// Whether one of a handle's interfaces is of a protocol.
pub fn has_guid(interfaces: &[Interface], guid: Guid) -> bool
    ensures { result ≡ list_any (is_guid guid) interfaces.now }
{
    interfaces.iter().any(|one| one.guid == guid)
}

/// Whether a handle has as many interfaces as it may have.
pub fn has_no_room(interfaces: &[Interface]) -> bool
    ensures { result ≡ nat_le MOST_INTERFACES (length interfaces.now) }
{
    interfaces.len() >= MOST_INTERFACES as usize
}

/// The numbers of all handles.
pub fn all_handles(alloc: Global, entries: &[HandleEntry]) -> Result<Vec<Handle>, OutOfMemory>
    ensures { IfOk result (λ handles. handles.items ≡ numbers entries.now) }
{
    Ok(entries.iter().map(|entry| entry.handle).collect(alloc)?)
}

/// The protocols of a handle's interfaces, each with the interface's address and its owner.
pub fn protocols_in(
    alloc: Global,
    interfaces: &[Interface],
) -> Result<Vec<(Guid, u64, Handle)>, OutOfMemory>
    ensures { let named = map (λ one. (one.guid, one.interface, one.owner)) interfaces.now in
        IfOk result (λ protocols. protocols.items ≡ named) }
{
    Ok(
        interfaces
            .iter()
            .map(|one| (one.guid, one.interface, one.owner))
            .collect(alloc)?,
    )
}
