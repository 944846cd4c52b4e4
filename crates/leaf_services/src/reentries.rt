//! Services that enter the driver model again: what they go on with.
ghost use Rattle.std.specs.Prelude.{◌≡◌, ◌<◌, ◌≤◌, IfOk, OnOk, is_ok, true};
ghost use Rattle.service_model.specs.Allowed.{can_read_pairs};
ghost use Rattle.service_model.specs.Connecting.{context_of, handle_at};
ghost use Rattle.service_model.specs.Many.{interface_named, interfaces_named, pair_at as pair_at_value};
ghost use Rattle.service_model.specs.Changes.{applied};

use fw_types::{Handle, OutOfMemory, Rows};
use fw_world::World;
use guest_memory::GuestMem;
use service_model::{CONTEXT_SLOTS, Change, HandleInterface, MOST_PAIRS, Reentry, Served};
use service_rows::connecting::slot_at;
use service_rows::many::pair_at;

/// The handle in a slot of a list.
fn handle_at(list: u64, i: u64, w: &World) -> u64
    requires { i < CONTEXT_SLOTS }
    ensures { result ≡ handle_at list w.now.now i }
{
    w.read(slot_at(list, i), 8).unwrap_or(0)
}

/// The handles of a list, in order.
fn context_of(list: u64, count: u64, w: &World) -> Result<Rows<u64>, OutOfMemory>
    requires { count ≤ CONTEXT_SLOTS }
    ensures { IfOk result (λ handles. handles ≡ context_of list count w.now.now) }
{
    let mut handles = Vec::new(w.alloc());
    for i in 0..count {
        handles.push(handle_at(list, i, w))?;
    }
    Ok(Rows::of(handles))
}

/// What ConnectController goes on with. Nothing changes.
pub fn connect(
    controller: u64,
    list: u64,
    count: u64,
    path: u64,
    at_end: bool,
    recursive: bool,
    w: &mut World,
) -> Result<Served, OutOfMemory>
    requires { count ≤ CONTEXT_SLOTS }
    ensures now { IfOk result (λ served. applied (Change.Connect controller list count path at_end recursive) w.old.now ≡ (served, w.new.now)) }
    ensures marks { OnOk result (w.new.marks ≡ w.old.marks) }
{
    let context = context_of(list, count, w)?;
    Ok(Served::Again(Reentry::Connect {
        controller,
        context,
        path,
        at_end,
        recursive,
    }))
}

/// The interface of a handle that a pair names. The pair can be read.
fn interface_named(handle: Handle, list: u64, i: u64, w: &World) -> HandleInterface
    requires few { i ≤ MOST_PAIRS }
    requires read { is_ok (pair_at_value list i w.now.now) ≡ true }
    ensures { result ≡ interface_named handle list w.now.now i }
{
    match pair_at(list, i, w) {
        Ok((guid, interface)) => HandleInterface {
            handle,
            guid,
            interface,
        },
        Err(_) => unreachable!(),
    }
}

/// The interfaces of a handle that the first pairs name, in order.
fn interfaces_named(
    handle: Handle,
    list: u64,
    count: u64,
    w: &World,
) -> Result<Rows<HandleInterface>, OutOfMemory>
    requires { can_read_pairs list count w.now.now ≡ true }
    ensures { IfOk result (λ named. named ≡ interfaces_named handle list count w.now.now) }
{
    let mut named = Vec::new(w.alloc());
    for i in 0..count {
        named.push(interface_named(handle, list, i, w))?;
    }
    Ok(Rows::of(named))
}

/// What UninstallMultipleProtocolInterfaces goes on with. Nothing changes.
pub fn uninstall_many(
    handle: Handle,
    list: u64,
    count: u64,
    w: &mut World,
) -> Result<Served, OutOfMemory>
    requires { can_read_pairs list count w.old.now ≡ true }
    ensures now { IfOk result (λ served. applied (Change.UninstallMany handle list count) w.old.now ≡ (served, w.new.now)) }
    ensures marks { OnOk result (w.new.marks ≡ w.old.marks) }
{
    let named = interfaces_named(handle, list, count, w)?;
    Ok(Served::Again(Reentry::UninstallMany(named)))
}
