//! InstallMultipleProtocolInterfaces and UninstallMultipleProtocolInterfaces (UEFI 2.8, 7.3): the pairs after
//! their first argument, and why they are refused.
ghost use Rattle.std.specs.Prelude.{◌≡◌, ◌≤◌, ◌+◌, length, suc, IfOk};
ghost use Rattle.std.specs.List.{range_with_len};
ghost use Rattle.handle_db.specs.Database.{interfaces_of};
ghost use Rattle.service_model.specs.Many.{all_fit, first_pair, handle_for, install_multiple, interface_place, is_named, is_seen, name_readable, no_room, pair_at, pair_fits, pair_installed_on, pair_interface, pair_name, pair_place, pairs_before, uninstall_multiple};
ghost use Rattle.service_model.specs.Words.{each};

use crate::words::{
    alive, guid, handle_or_none, has_protocol, number, readable, refuse_if, writable,
};
use fw_types::{Guid, Handle, MOST_INTERFACES, Status};
use fw_world::World;
use service_model::{Change, MOST_PAIRS, Stop};

/// Where the pairs begin, after the first argument.
pub fn first_pair(sp: u64) -> u64
    ensures { result ≡ first_pair sp }
{
    sp.wrapping_add(8)
}

/// The address of a pair, counted from 0.
fn pair_place(list: u64, i: u64) -> u64
    requires { i ≤ MOST_PAIRS }
    ensures { result ≡ pair_place list i }
{
    list.wrapping_add(16 * i)
}

/// The address of the interface of a pair.
fn interface_place(list: u64, i: u64) -> u64
    requires { i ≤ MOST_PAIRS }
    ensures { result ≡ interface_place list i }
{
    list.wrapping_add(16 * i + 8)
}

/// How many pairs come before a 0, and whether a 0 follows them. `done` pairs were read before, and at most
/// `most` more are read.
#[cycle(pairs)]
#[tactic(auto, unfolding(service_model::specs::Many::pairs_before), using(crate::proofs::CountingDown::one_less))]
fn pairs_before(most: u64, done: u64, list: u64, w: &World) -> Result<(u64, bool), Stop>
    requires { most + done ≤ MOST_PAIRS }
    ensures value { result ≡ pairs_before most done list w.now.now }
    ensures few { IfOk result (λ pairs. pairs.0 ≤ MOST_PAIRS) }
{
    if most == 0 {
        let pointer = number(pair_place(list, done), w)?;
        return Ok((done, pointer == 0));
    }
    pair_before(most - 1, done, list, w)
}

/// The same, if at least one more pair may be read.
#[cycle(pairs)]
#[tactic(auto, unfolding(service_model::specs::Many::pairs_before))]
fn pair_before(less: u64, done: u64, list: u64, w: &World) -> Result<(u64, bool), Stop>
    requires { less + 1 + done ≤ MOST_PAIRS }
    ensures value { result ≡ pairs_before (suc less) done list w.now.now }
    ensures few { IfOk result (λ pairs. pairs.0 ≤ MOST_PAIRS) }
{
    let pointer = number(pair_place(list, done), w)?;
    if pointer == 0 {
        return Ok((done, true));
    }
    let _interface = number(interface_place(list, done), w)?;
    pairs_before(less, done + 1, list, w)
}

/// How many pairs the list of a service has, at most `MOST_PAIRS`, and whether it ends after them.
fn pairs_of(list: u64, w: &World) -> Result<(u64, bool), Stop>
    ensures value { result ≡ pairs_before MOST_PAIRS 0 list w.now.now }
    ensures few { IfOk result (λ pairs. pairs.0 ≤ MOST_PAIRS) }
{
    pairs_before(MOST_PAIRS, 0, list, w)
}

/// The GUID of a pair.
fn pair_name(list: u64, i: u64, w: &World) -> Result<Guid, Stop>
    requires { i ≤ MOST_PAIRS }
    ensures { result ≡ pair_name list i w.now.now }
{
    let pointer = number(pair_place(list, i), w)?;
    guid(pointer, w)
}

/// The interface of a pair.
fn pair_interface(list: u64, i: u64, w: &World) -> Result<u64, Stop>
    requires { i ≤ MOST_PAIRS }
    ensures { result ≡ pair_interface list i w.now.now }
{
    number(interface_place(list, i), w)
}

/// The GUID and the interface of a pair.
///
/// # Errors
///
/// `Trap` with `Memory` if they can't be read.
pub fn pair_at(list: u64, i: u64, w: &World) -> Result<(Guid, u64), Stop>
    requires { i ≤ MOST_PAIRS }
    ensures { result ≡ pair_at list i w.now.now }
{
    let name = pair_name(list, i, w)?;
    let interface = pair_interface(list, i, w)?;
    Ok((name, interface))
}

/// Goes on if the GUID of a pair can be read.
fn name_readable(list: u64, i: u64, w: &World) -> Result<(), Stop>
    requires { i ≤ MOST_PAIRS }
    ensures { result ≡ name_readable list w.now.now i }
{
    let pointer = number(pair_place(list, i), w)?;
    readable(16, pointer, w)
}

/// Goes on if the GUIDs of the first pairs can be read.
fn names_readable(list: u64, count: u64, w: &World) -> Result<(), Stop>
    requires { count ≤ MOST_PAIRS }
    ensures { result ≡ each (name_readable list w.now.now) (range_with_len 0 count) }
{
    for i in 0..count {
        name_readable(list, i, w)?;
    }
    Ok(())
}

/// Whether the GUID of a pair is `name`.
fn is_named(name: Guid, list: u64, i: u64, w: &World) -> bool
    requires { i ≤ MOST_PAIRS }
    ensures { result ≡ is_named name (pair_name list i w.now.now) }
{
    match pair_name(list, i, w) {
        Ok(other) => other == name,
        Err(_) => false,
    }
}

/// Whether the GUID of one of the first `seen` pairs is `name`.
fn is_seen(name: Guid, list: u64, seen: u64, w: &World) -> bool
    requires { seen ≤ MOST_PAIRS }
    ensures { result ≡ is_seen name list seen w.now.now }
{
    for i in 0..seen {
        if is_named(name, list, i, w) {
            return true;
        }
    }
    false
}

/// How many interfaces a handle has.
fn interface_count(handle: Handle, w: &World) -> usize
    ensures { result ≡ length (interfaces_of handle w.now.now.soft.database) }
{
    w.db().interface_count(handle)
}

/// Whether a limit is met if `seen` pairs are installed before.
fn no_room(handle: Option<Handle>, seen: u64, w: &World) -> bool
    requires { seen ≤ MOST_PAIRS }
    ensures { result ≡ no_room handle seen w.now.now }
{
    match handle {
        None => w.db().is_full(),
        Some(handle) => interface_count(handle, w) >= MOST_INTERFACES as usize - seen as usize,
    }
}

/// Goes on if a pair can be installed after those before it.
fn pair_fits(handle: &Option<Handle>, list: u64, i: u64, w: &World) -> Result<(), Stop>
    requires { i ≤ MOST_PAIRS }
    ensures { result ≡ pair_fits handle.now list w.now.now i }
{
    let name = pair_name(list, i, w)?;
    refuse_if(
        has_protocol(*handle, name, w) || is_seen(name, list, i, w),
        Status::INVALID_PARAMETER,
    )?;
    refuse_if(no_room(*handle, i, w), Status::OUT_OF_RESOURCES)
}

/// Goes on if the first pairs can be installed, one after the other.
fn all_fit(handle: &Option<Handle>, list: u64, count: u64, w: &World) -> Result<(), Stop>
    requires { count ≤ MOST_PAIRS }
    ensures { result ≡ all_fit handle.now list count w.now.now }
{
    for i in 0..count {
        pair_fits(handle, list, i, w)?;
    }
    Ok(())
}

/// The handle whose number is given. The number is not looked at if there are no pairs.
fn handle_for(given: u64, count: u64, w: &World) -> Result<Option<Handle>, Stop>
    ensures { result ≡ handle_for given count w.now.now }
{
    if count == 0 {
        return Ok(None);
    }
    handle_or_none(given, w)
}

/// InstallMultipleProtocolInterfaces: the handle's number is at `handle_at`, or 0 for a new handle, and the
/// pairs begin at `list`. Every refusal comes before anything changes.
///
/// # Errors
///
/// `Status` with INVALID_PARAMETER if `handle_at` is NULL, no 0 follows `MOST_PAIRS` pairs, the handle is
/// dead, or it has one of the protocols or would get it twice, or with OUT_OF_RESOURCES if a limit is met;
/// `Trap` with `Memory` if `handle_at` can't be written, or the list or a GUID can't be read.
pub fn install_multiple(owner: Handle, handle_at: u64, list: u64, w: &World) -> Result<Change, Stop>
    ensures { result ≡ install_multiple owner handle_at list w.now.now }
{
    let (count, ended) = pairs_of(list, w)?;
    refuse_if(handle_at == 0, Status::INVALID_PARAMETER)?;
    writable(8, handle_at, w)?;
    let given = number(handle_at, w)?;
    names_readable(list, count, w)?;
    refuse_if(!ended, Status::INVALID_PARAMETER)?;
    let handle = handle_for(given, count, w)?;
    all_fit(&handle, list, count, w)?;
    Ok(Change::InstallMany {
        handle,
        list,
        count,
        owner,
        out: handle_at,
    })
}

// ---- uninstalling

/// Goes on if the handle has the interface of a pair.
fn pair_installed_on(handle: Handle, list: u64, i: u64, w: &World) -> Result<(), Stop>
    requires { i ≤ MOST_PAIRS }
    ensures { result ≡ pair_installed_on handle list w.now.now i }
{
    let (guid, interface) = pair_at(list, i, w)?;
    let there = match w.db().interface(handle, guid) {
        None => false,
        Some((address, _)) => address == interface,
    };
    refuse_if(!there, Status::INVALID_PARAMETER)
}

/// Goes on if the handle has the interfaces of the first pairs.
fn all_installed_on(handle: Handle, list: u64, count: u64, w: &World) -> Result<(), Stop>
    requires { count ≤ MOST_PAIRS }
    ensures { result ≡ each (pair_installed_on handle list w.now.now) (range_with_len 0 count) }
{
    for i in 0..count {
        pair_installed_on(handle, list, i, w)?;
    }
    Ok(())
}

/// UninstallMultipleProtocolInterfaces: the pairs begin at `list`. The handle must have all of these pairs,
/// and then the service goes on with them.
///
/// # Errors
///
/// `Status` with INVALID_PARAMETER if the handle is dead, no 0 follows `MOST_PAIRS` pairs, or the handle
/// does not have one of the pairs; `Trap` with `Memory` if the list or a GUID can't be read.
pub fn uninstall_multiple(given: u64, list: u64, w: &World) -> Result<Change, Stop>
    ensures { result ≡ uninstall_multiple given list w.now.now }
{
    let (count, ended) = pairs_of(list, w)?;
    names_readable(list, count, w)?;
    let handle = alive(given, Status::INVALID_PARAMETER, w)?;
    refuse_if(!ended, Status::INVALID_PARAMETER)?;
    all_installed_on(handle, list, count, w)?;
    Ok(Change::UninstallMany {
        handle,
        list,
        count,
    })
}
