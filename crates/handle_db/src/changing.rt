//! Changes of handles and their interfaces at their places.
ghost use Rattle.std.specs.Prelude.{◌≡◌, ◌≤◌, ◌<◌, false, true, IfOk, OnOk, OnErr, filter, find, insert, length, nat_eq, not, remove, slice_index_or, slice_set};
ghost use Rattle.std.specs.List.{list_all, list_any};
ghost use Rattle.handle_db.specs.Database.{has_any, interfaces_in, is_handle, rise_from};
ghost use Rattle.handle_db.specs.Installing.{appended, new_entry};
ghost use Rattle.handle_db.specs.Undoing.{inserted, with_back, with_entry};
ghost use Rattle.handle_db.specs.Places.{removed_at};
ghost use Rattle.handle_db.specs.declared.handle_entry.HandleEntry.{HandleEntry as EntryValue};

use crate::handle_entry::{HandleEntry, Interface};
use crate::places::{place_of, room_for};
use crate::refusal::Removed;
use fw_types::{Handle, MOST_INTERFACES, OutOfMemory, Rows};
use std::alloc::Global;

/// Puts an interface after those of the handle at a place.
pub fn append_at(
    entries: &mut Vec<HandleEntry>,
    place: usize,
    interface: Interface,
) -> Result<(), OutOfMemory>
    requires { place < length entries.old.items }
    ensures ok { (other : EntryValue) → let entry = slice_index_or entries.old.items place other in
        OnOk result (entries.new.items ≡ slice_set entries.old.items place (appended interface entry)) }
    ensures err { OnErr result (entries.new.items ≡ entries.old.items) }
{
    let entry = &mut entries[place];
    entry.interfaces.push(interface)
}

/// Takes out the interface at a place of the handle at a place.
pub fn take_at(entries: &mut Vec<HandleEntry>, at: usize, place: usize) -> Interface
    requires handle { at < length entries.old.items }
    requires interface { (other : EntryValue) → place < length (slice_index_or entries.old.items at other).interfaces }
    ensures taken { (other : EntryValue) → let entry = slice_index_or entries.old.items at other in
        result ≡ slice_index_or entry.interfaces place result }
    ensures rest { (other : EntryValue) → let entry = slice_index_or entries.old.items at other in
        entries.new.items ≡ slice_set entries.old.items at (removed_at place entry) }
{
    let entry = &mut entries[at];
    entry.interfaces.remove(place)
}

/// What is answered about an interface that was at a place among a number of interfaces of its
/// handle.
pub fn removal(interface: &Interface, place: usize, count: usize) -> Removed
    requires { place < MOST_INTERFACES }
    ensures { result ≡ record {
      interface = interface.now.interface;
      owner = interface.now.owner;
      place = place;
      gone = nat_eq count 1;
    } }
{
    Removed {
        interface: interface.interface,
        owner: interface.owner,
        place: place as u32,
        gone: count == 1,
    }
}

/// Takes out the handle at a place if it has no interface. All other handles have one.
pub fn drop_at(entries: &mut Vec<HandleEntry>, at: usize)
    requires within { at < length entries.old.items }
    requires others { list_all has_any (remove entries.old.items at) ≡ true }
    ensures { entries.new.items ≡ filter has_any entries.old.items }
{
    if entries[at].interfaces.as_slice().is_empty() {
        entries.remove(at);
    }
}

/// Puts an interface at a place among those of a handle; if the handle is not there, then with the handle.
pub fn put_back(
    alloc: Global,
    entries: &mut Vec<HandleEntry>,
    handle: Handle,
    place: usize,
    interface: Interface,
) -> Result<(), OutOfMemory>
    requires rising { rise_from 1 entries.old.items ≡ true }
    requires place { place ≤ length (interfaces_in (find (is_handle handle) entries.old.items)) }
    ensures ok { let gone = not (list_any (is_handle handle) entries.old.items) in
        OnOk result (entries.new.items ≡ with_back gone handle place interface entries.old.items) }
    ensures err { OnErr result (entries.new.items ≡ entries.old.items) }
{
    match place_of(entries.as_slice(), handle.get()) {
        Some(at) => insert_at(alloc, entries, at, place, interface),
        None => insert_handle(alloc, entries, handle, interface),
    }
}

/// Puts a handle with one interface among the others, by its number, which none of them has.
fn insert_handle(
    alloc: Global,
    entries: &mut Vec<HandleEntry>,
    handle: Handle,
    interface: Interface,
) -> Result<(), OutOfMemory>
    requires rising { rise_from 1 entries.old.items ≡ true }
    requires absent { list_any (is_handle handle) entries.old.items ≡ false }
    ensures ok { OnOk result (entries.new.items ≡ with_entry (new_entry handle interface) entries.old.items) }
    ensures err { OnErr result (entries.new.items ≡ entries.old.items) }
{
    let entry = entry_with(alloc, handle, interface)?;
    let place = room_for(entries.as_slice(), handle.get());
    entries.insert(place, entry)?;
    Ok(())
}

/// A handle with one interface.
pub fn entry_with(
    alloc: Global,
    handle: Handle,
    interface: Interface,
) -> Result<HandleEntry, OutOfMemory>
    ensures { IfOk result (λ entry. entry ≡ new_entry handle interface) }
{
    let mut interfaces = Rows::of(Vec::new(alloc));
    interfaces.push(interface)?;
    Ok(HandleEntry { handle, interfaces })
}

/// Puts an interface at a place among those of the handle at a place.
fn insert_at(
    alloc: Global,
    entries: &mut Vec<HandleEntry>,
    at: usize,
    place: usize,
    interface: Interface,
) -> Result<(), OutOfMemory>
    requires handle { at < length entries.old.items }
    requires interface { (other : EntryValue) → place ≤ length (slice_index_or entries.old.items at other).interfaces }
    ensures ok { (other : EntryValue) → let entry = slice_index_or entries.old.items at other in
        OnOk result (entries.new.items ≡ slice_set entries.old.items at (inserted place interface entry)) }
    ensures err { OnErr result (entries.new.items ≡ entries.old.items) }
{
    let entry = &mut entries[at];
    insert_interface(alloc, &mut entry.interfaces, place, interface)
}

/// Puts an interface at a place among others.
fn insert_interface(
    alloc: Global,
    interfaces: &mut Rows<Interface>,
    place: usize,
    interface: Interface,
) -> Result<(), OutOfMemory>
    requires { place ≤ length interfaces.old }
    ensures ok { OnOk result (interfaces.new ≡ insert interfaces.old place interface) }
    ensures err { OnErr result (interfaces.new ≡ interfaces.old) }
{
    let mut all = std::mem::replace(interfaces, Rows::of(Vec::new(alloc))).into_vec();
    let room = all.insert(place, interface);
    *interfaces = Rows::of(all);
    room?;
    Ok(())
}
