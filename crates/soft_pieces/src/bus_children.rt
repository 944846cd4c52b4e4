//! Children of the bus, and the bus lists of the board's functions.
ghost use Rattle.std.specs.Prelude.{◌≡◌, IfOk, None, OnErr, OnOk, find, option_map, replicate, slice_get, slice_set, unwrap_or};
ghost use Rattle.std.specs.List.{position, position_or_len};
ghost use Rattle.world_model.specs.BusChildren.{children_left, first_child, function_at, function_of, is_child, pci_io_of, without_child};
ghost use Rattle.world_model.specs.Undo.{with_child};
ghost use Rattle.world_model.specs.UndoLaws.{child_gone};
ghost use Rattle.world_model.specs.declared.bus_child.BusChild.{BusChild as Child};

use fw_types::{Guid, Handle, Known, OutOfMemory, Rows};
use handle_db::Db;
use std::alloc::Global;
use std::mem;
use world_model::BusChild;

/// The images that an option ROM brought, or `None` before it is processed.
pub type BusList = Option<Rows<Handle>>;

/// The address of a handle's PCI I/O, or 0 if it has none.
pub fn pci_io_of(db: &Db, handle: Handle) -> u64
    ensures { result ≡ pci_io_of handle db.now }
{
    match db.interface(handle, Guid::known(Known::PciIo)) {
        Some((interface, _owner)) => interface,
        None => 0,
    }
}

/// The function of a handle, if it is a child of the bus.
pub fn function_of(children: &[BusChild], handle: u64) -> Option<u32>
    ensures { result ≡ function_of handle children.now }
{
    children
        .iter()
        .find(|child| child.handle.get() == handle)
        .map(|child| child.function)
}

/// The child of a function with the least handle.
pub fn first_child(children: &[BusChild], function: u32) -> Option<Handle>
    ensures { result ≡ first_child function children.now }
{
    children
        .iter()
        .filter(|child| child.function == function)
        .map(|child| child.handle)
        .min()
}

/// The function of the child whose PCI I/O is at an address.
pub fn function_at(children: &[BusChild], this: u64) -> Option<u32>
    ensures { result ≡ function_at this children.now }
{
    children
        .iter()
        .find(|child| child.pci_io == this)
        .map(|child| child.function)
}

/// A handle whose PCI I/O is removed is no child any more. Answers the child that it was, with its place.
pub fn take_child(
    children: &mut Vec<BusChild>,
    handle: Handle,
    guid: Guid,
) -> Option<(usize, BusChild)>
    ensures gone { result ≡ child_gone handle guid children.old.items }
    ensures left { children.new.items ≡ children_left handle guid children.old.items }
{
    if guid != Guid::known(Known::PciIo) {
        return None;
    }
    let gone = placed(children.as_slice(), handle.get());
    drop_handle(children, handle);
    gone
}

/// The child of a handle, with its place.
fn placed(children: &[BusChild], handle: u64) -> Option<(usize, BusChild)>
    ensures { result ≡ option_map (λ (child : Child). (position_or_len (is_child handle) children.now, child))
        (find (is_child handle) children.now) }
{
    let place = place_of(children, handle);
    children
        .iter()
        .find(|child| child.handle.get() == handle)
        .map(|child| (place, *child))
}

/// The place of the child of a handle, or how many children there are if it is none.
fn place_of(children: &[BusChild], handle: u64) -> usize
    ensures { result ≡ position_or_len (is_child handle) children.now }
{
    position_of(children, handle).unwrap_or(children.len())
}

/// The place of the child of a handle.
fn position_of(children: &[BusChild], handle: u64) -> Option<usize>
    ensures { result ≡ position (is_child handle) children.now }
{
    children
        .iter()
        .position(|child| child.handle.get() == handle)
}

/// Puts a child that was removed in its place again. There is room for it.
pub fn put_child(
    children: &mut Vec<BusChild>,
    gone: Option<(usize, BusChild)>,
) -> Result<(), OutOfMemory>
    ensures ok { OnOk result (children.new.items ≡ with_child gone children.old.items) }
    ensures err { OnErr result (children.new.items ≡ children.old.items) }
{
    if let Some((place, child)) = gone {
        let place = place.min(children.len());
        children.insert(place, child)?;
    }
    Ok(())
}

/// Without the child of a handle.
fn drop_handle(children: &mut Vec<BusChild>, handle: Handle)
    ensures { children.new.items ≡ without_child handle children.old.items }
{
    let number = handle.get();
    children.retain(|child| child.handle.get() != number);
}

/// Puts a bus list in place of that of a function, and answers the earlier one. If there is no such
/// function, nothing changes.
pub fn replace_list(lists: &mut Vec<BusList>, function: u32, list: BusList) -> BusList
    ensures before { result ≡ unwrap_or (slice_get lists.old.items function) None }
    ensures now { lists.new.items ≡ slice_set lists.old.items function list }
{
    match lists.get_mut(function as usize) {
        Some(place) => mem::replace(place, list),
        None => None,
    }
}

/// A bus list for each of so many functions, before their option ROMs are processed.
///
/// # Errors
///
/// `OutOfMemory` if there is no memory.
pub fn first_lists(alloc: Global, functions: usize) -> Result<Vec<BusList>, OutOfMemory>
    ensures { IfOk result (λ lists. lists.items ≡ replicate functions None) }
{
    let mut lists = Vec::with_capacity(alloc, functions)?;
    for _ in 0..functions {
        lists.push(None)?;
    }
    Ok(lists)
}
