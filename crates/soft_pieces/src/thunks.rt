//! The live thunks, which rise by number, and their addresses.
ghost use Rattle.std.specs.List.{list_any, position, position_or_len};
ghost use Rattle.std.specs.Prelude.{◌≡◌, false, filter, find, nat_le, option_copied, IfNone, IfOk, IfSome, OnOk};
ghost use Rattle.world_model.specs.Thunks.{enters as enters_value, is_thunk_at, thunk_address as address_value, without_thunks};
ghost use Rattle.world_model.specs.Undo.{with_thunk as with_one, with_thunks as with_all};
ghost use Rattle.world_model.specs.declared.thunk.Thunk.{Thunk as ThunkValue};
ghost use Rattle.soft_pieces.specs.Places.{DoRise, IsPlaceOf};

use fw_types::OutOfMemory;
use guest_memory::address_map::{THUNK_STEP, THUNKS};
use guest_memory::{MemRefusal, Segment};
use std::alloc::Global;
use world_model::Thunk;

/// The address of a thunk, by its number.
pub fn thunk_address(number: u32) -> u64
    ensures { result ≡ address_value number }
{
    THUNKS + THUNK_STEP * u64::from(number)
}

/// The place of the thunk of an address among thunks that rise by number.
fn place_of(thunks: &[Thunk], at: u64) -> Option<usize>
    requires { DoRise thunks.now }
    ensures found { IfSome result (IsPlaceOf at thunks.now) }
    ensures none { IfNone result (list_any (is_thunk_at at) thunks.now ≡ false) }
{
    thunks
        .binary_search_by_key(&at, |thunk| thunk_address(thunk.number))
        .ok()
}

/// The thunk of an address among thunks that rise by number.
pub fn thunk_with(thunks: &[Thunk], at: u64) -> Option<&Thunk>
    requires { DoRise thunks.now }
    ensures { option_copied result ≡ find (is_thunk_at at) thunks.now }
{
    match place_of(thunks, at) {
        Some(place) => Some(&thunks[place]),
        None => None,
    }
}

/// Removes the thunks that enter a segment, if there is one.
pub(crate) fn drop_from_segment(thunks: &mut Vec<Thunk>, segment: &Result<Segment, MemRefusal>)
    ensures { thunks.new.items ≡ without_thunks segment.now thunks.old.items }
{
    if let Ok(segment) = segment {
        thunks.retain(|thunk| !enters(segment, thunk));
    }
}

/// The thunks that enter a segment.
///
/// # Errors
///
/// `OutOfMemory` if there is no memory.
pub(crate) fn entering(
    alloc: Global,
    thunks: &[Thunk],
    segment: &Segment,
) -> Result<Vec<Thunk>, OutOfMemory>
    ensures { IfOk result (λ found. found.items ≡ filter (enters_value segment.now) thunks.now) }
{
    Ok(
        thunks
            .iter()
            .filter(|thunk| enters(segment, thunk))
            .copied()
            .collect(alloc)?,
    )
}

/// Whether a thunk enters a segment.
fn enters(segment: &Segment, thunk: &Thunk) -> bool
    ensures { result ≡ enters_value segment.now thunk.now }
{
    let size = segment.bytes.as_slice().len() as u64;
    segment.base <= thunk.entry && thunk.entry - segment.base < size
}

/// The thunks with others, each in its place by number.
///
/// # Errors
///
/// `OutOfMemory` if there is no memory.
pub(crate) fn with_thunks(
    alloc: Global,
    thunks: &[Thunk],
    gone: &[Thunk],
) -> Result<Vec<Thunk>, OutOfMemory>
    ensures { IfOk result (λ all. all.items ≡ with_all gone.now thunks.now) }
{
    let mut all = Vec::from_slice(alloc, thunks)?;
    for thunk in gone {
        put_thunk(&mut all, *thunk)?;
    }
    Ok(all)
}

/// Puts a thunk in its place by number.
fn put_thunk(thunks: &mut Vec<Thunk>, new: Thunk) -> Result<(), OutOfMemory>
    ensures { OnOk result (thunks.new.items ≡ with_one new thunks.old.items) }
{
    let place = place_by_number(thunks.as_slice(), new.number);
    thunks.insert(place, new)?;
    Ok(())
}

/// The place of the first thunk whose number is not below another, or how many thunks there are.
fn place_by_number(thunks: &[Thunk], number: u32) -> usize
    ensures { result ≡ position_or_len (λ (thunk : ThunkValue). nat_le number thunk.number) thunks.now }
{
    position_from(thunks, number).unwrap_or(thunks.len())
}

/// The place of the first thunk whose number is not below another.
fn position_from(thunks: &[Thunk], number: u32) -> Option<usize>
    ensures { result ≡ position (λ (thunk : ThunkValue). nat_le number thunk.number) thunks.now }
{
    thunks.iter().position(|thunk| number <= thunk.number)
}
