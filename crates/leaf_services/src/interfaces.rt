//! Changes of the handle database and of the open records.
ghost use Rattle.std.specs.Prelude.{◌≡◌, ◌≤◌, Ok, IfOk, OnOk, is_ok, true};
ghost use Rattle.guest_memory.specs.GuestMemory.{is_writable_range};
ghost use Rattle.world_model.specs.Interfaces.{install_answer};
ghost use Rattle.service_model.specs.Allowed.{can_install, is_allowed};
ghost use Rattle.service_model.specs.Changes.{applied, new_handle_stored, pair_added, pair_installed, pairs_installed};

use crate::storing::{store, store_if, with_status};
use fw_types::{Attr, Guid, Handle, OutOfMemory, Status};
use fw_world::World;
use handle_db::DbRefusal;
use open_records::RecFault;
use service_model::laws::pairs_are_installed;
use service_model::{Change, MOST_PAIRS, Served};
use service_rows::many::pair_at;

/// Stores the number of a handle if it is new.
fn store_new_handle(
    handle: &Option<Handle>,
    out: u64,
    new: Handle,
    w: &mut World,
) -> Result<(), OutOfMemory>
    requires { is_writable_range w.old.now.soft.memory out 8 ≡ true }
    ensures now { OnOk result (w.new.now ≡ new_handle_stored handle.now out new w.old.now) }
    ensures marks { OnOk result (w.new.marks ≡ w.old.marks) }
{
    match handle {
        None => store(out, new.get(), w),
        Some(_) => Ok(()),
    }
}

/// Installs an interface.
pub fn install(
    handle: &Option<Handle>,
    guid: Guid,
    interface: u64,
    owner: Handle,
    out: u64,
    w: &mut World,
) -> Result<Served, OutOfMemory>
    requires { is_writable_range w.old.now.soft.memory out 8 ≡ true }
    ensures now { IfOk result (λ served. applied (Change.Install handle.now guid interface owner out) w.old.now ≡ (served, w.new.now)) }
    ensures marks { OnOk result (w.new.marks ≡ w.old.marks) }
{
    match w.install(*handle, guid, interface, owner) {
        Ok(new) => {
            store_new_handle(handle, out, new, w)?;
            Ok(with_status(Status::SUCCESS))
        }
        Err(DbRefusal::OutOfMemory) => Err(OutOfMemory),
        Err(_) => Ok(with_status(Status::OUT_OF_RESOURCES)),
    }
}

/// Installs an interface on a handle or on a new one, and answers that handle. Nothing refuses the
/// interface.
fn install_on(
    handle: &Option<Handle>,
    guid: Guid,
    interface: u64,
    owner: Handle,
    w: &mut World,
) -> Result<Option<Handle>, OutOfMemory>
    requires { is_ok (install_answer handle.now guid w.old.now.soft) ≡ true }
    ensures now { IfOk result (λ new. pair_added (install_answer handle.now guid w.old.now.soft)
        handle.now (guid, interface) owner w.old.now ≡ Ok (new, w.new.now)) }
    ensures marks { OnOk result (w.new.marks ≡ w.old.marks) }
    ensures memory { OnOk result (w.new.now.soft.memory ≡ w.old.now.soft.memory) }
{
    match w.install(*handle, guid, interface, owner) {
        Ok(new) => Ok(Some(new)),
        Err(DbRefusal::OutOfMemory) => Err(OutOfMemory),
        Err(_) => unreachable!(),
    }
}

/// Installs a pair on a handle or on a new one, and answers that handle. Nothing refuses the pair.
fn install_pair(
    i: u64,
    list: u64,
    owner: Handle,
    handle: &Option<Handle>,
    w: &mut World,
) -> Result<Option<Handle>, OutOfMemory>
    requires few { i ≤ MOST_PAIRS }
    requires fits { is_ok (pair_installed i list owner (handle.now, w.old.now)) ≡ true }
    ensures now { IfOk result
        (λ new. pair_installed i list owner (handle.now, w.old.now) ≡ Ok (new, w.new.now)) }
    ensures marks { OnOk result (w.new.marks ≡ w.old.marks) }
    ensures memory { OnOk result (w.new.now.soft.memory ≡ w.old.now.soft.memory) }
{
    match pair_at(list, i, w) {
        Ok((guid, interface)) => install_on(handle, guid, interface, owner, w),
        Err(_) => unreachable!(),
    }
}

/// Installs the first pairs of a list that can be installed, and answers their handle.
fn install_pairs(
    count: u64,
    list: u64,
    owner: Handle,
    handle: Option<Handle>,
    w: &mut World,
) -> Result<Option<Handle>, OutOfMemory>
    requires few { count ≤ MOST_PAIRS }
    requires can { can_install handle list count w.old.now ≡ true }
    ensures now { IfOk result
        (λ new. pairs_installed count list owner handle w.old.now ≡ Ok (new, w.new.now)) }
    ensures marks { OnOk result (w.new.marks ≡ w.old.marks) }
    ensures memory { OnOk result (w.new.now.soft.memory ≡ w.old.now.soft.memory) }
{
    pairs_are_installed();
    w.is_kept();
    let mut on = handle;
    for i in 0..count {
        on = install_pair(i, list, owner, &on, w)?;
    }
    Ok(on)
}

/// Installs all pairs of a list that can be installed.
pub fn install_many(
    handle: &Option<Handle>,
    list: u64,
    count: u64,
    owner: Handle,
    out: u64,
    w: &mut World,
) -> Result<Served, OutOfMemory>
    requires few { count ≤ MOST_PAIRS }
    requires can { can_install handle.now list count w.old.now ≡ true }
    requires out { is_writable_range w.old.now.soft.memory out 8 ≡ true }
    ensures now { IfOk result (λ served. applied (Change.InstallMany handle.now list count owner out) w.old.now ≡ (served, w.new.now)) }
    ensures marks { OnOk result (w.new.marks ≡ w.old.marks) }
{
    if let Some(new) = install_pairs(count, list, owner, *handle, w)? {
        store_new_handle(handle, out, new, w)?;
    }
    Ok(with_status(Status::SUCCESS))
}

/// Records an open of an interface.
pub fn enter(
    handle: Handle,
    guid: Guid,
    agent: u64,
    controller: u64,
    attr: Attr,
    out: Option<u64>,
    interface: u64,
    w: &mut World,
) -> Result<Served, OutOfMemory>
    requires { is_allowed (Change.Open handle guid agent controller attr out interface) w.old.now ≡ true }
    ensures now { IfOk result (λ served. applied (Change.Open handle guid agent controller attr out interface) w.old.now ≡ (served, w.new.now)) }
    ensures marks { OnOk result (w.new.marks ≡ w.old.marks) }
{
    match w.enter(handle, guid, agent, controller, attr) {
        Ok(()) => {
            store_if(out, interface, w)?;
            Ok(with_status(Status::SUCCESS))
        }
        Err(RecFault::OutOfMemory) => Err(OutOfMemory),
        Err(RecFault::Full) => Ok(with_status(Status::OUT_OF_RESOURCES)),
    }
}

/// Closes an agent's opens of an interface for a controller.
pub fn leave(
    handle: Handle,
    guid: Guid,
    agent: u64,
    controller: u64,
    w: &mut World,
) -> Result<Served, OutOfMemory>
    ensures now { IfOk result (λ served. applied (Change.Close handle guid agent controller) w.old.now ≡ (served, w.new.now)) }
    ensures marks { OnOk result (w.new.marks ≡ w.old.marks) }
{
    w.leave(handle, guid, agent, controller)?;
    Ok(with_status(Status::SUCCESS))
}
