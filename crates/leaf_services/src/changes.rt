//! Changes of the world. Except for the price of a service, nothing else in this crate changes it.
ghost use Rattle.std.specs.Prelude.{◌≡◌, IfOk, OnOk, replicate, true};
ghost use Rattle.guest_memory.specs.GuestMemory.{is_writable_range};
ghost use Rattle.service_model.specs.Allowed.{can_store, is_allowed};
ghost use Rattle.service_model.specs.BootServices.{end_of_row};
ghost use Rattle.service_model.specs.Changes.{applied};

use crate::buffers::{return_block, store_handles};
use crate::devices::{read_device, set_command, store_location, write_device};
use crate::interfaces::{enter, install, install_many, leave};
use crate::reentries::{connect, uninstall_many};
use crate::storing::{allot, copy_of, store, store_if, with_status};
use fw_types::{OutOfMemory, Status};
use fw_world::{World, WorldFault};
use guest_memory::SegKind;
use service_model::{Change, Reentry, Served, Stop};
use std::alloc::Global;

/// Sets the task priority level, and answers a number.
fn set_level(tpl: u8, answer: u64, w: &mut World) -> Result<Served, OutOfMemory>
    ensures now { IfOk result (λ served. applied (Change.SetTpl tpl answer) w.old.now ≡ (served, w.new.now)) }
    ensures marks { OnOk result (w.new.marks ≡ w.old.marks) }
{
    w.set_tpl(tpl)?;
    Ok(Served::Value(answer))
}

/// A vector of `size` bytes, all 0.
fn zeros(alloc: Global, size: u64) -> Result<Vec<u8>, OutOfMemory>
    ensures { IfOk result (λ bytes. bytes.items ≡ replicate size 0) }
{
    let mut bytes = Vec::new(alloc);
    bytes.resize(size as usize, 0)?;
    Ok(bytes)
}

/// Makes a block of zeros in the pool, and stores its address in 8 bytes. Those bytes can be
/// written.
fn make_block(size: u64, out: u64, w: &mut World) -> Result<Served, OutOfMemory>
    requires { is_writable_range w.old.now.soft.memory out 8 ≡ true }
    ensures now { IfOk result (λ served. applied (Change.Allot size out) w.old.now ≡ (served, w.new.now)) }
    ensures marks { OnOk result (w.new.marks ≡ w.old.marks) }
{
    let bytes = zeros(w.alloc(), size)?;
    match allot(bytes, w)? {
        None => Ok(with_status(Status::OUT_OF_RESOURCES)),
        Some(at) => {
            store(out, at, w)?;
            Ok(with_status(Status::SUCCESS))
        }
    }
}

/// Frees the block of the pool that begins at an address, if one does.
fn free_block(at: u64, w: &mut World) -> Result<Served, OutOfMemory>
    ensures now { IfOk result (λ served. applied (Change.Free at) w.old.now ≡ (served, w.new.now)) }
    ensures marks { OnOk result (w.new.marks ≡ w.old.marks) }
{
    match w.free(at, SegKind::Pool) {
        Ok(()) => Ok(with_status(Status::SUCCESS)),
        Err(WorldFault::OutOfMemory) => Err(OutOfMemory),
        Err(_) => Ok(with_status(Status::INVALID_PARAMETER)),
    }
}

/// Copies bytes as if through a separate buffer. They can be read and written.
fn copy_bytes(to: u64, from: u64, n: u64, w: &mut World) -> Result<Served, OutOfMemory>
    requires { is_allowed (Change.Copy to from n) w.old.now ≡ true }
    ensures now { IfOk result (λ served. applied (Change.Copy to from n) w.old.now ≡ (served, w.new.now)) }
    ensures marks { OnOk result (w.new.marks ≡ w.old.marks) }
{
    let bytes = copy_of(from, n, w)?;
    w.put(to, &bytes)?;
    Ok(with_status(Status::SUCCESS))
}

/// Sets bytes all to one value. They can be written.
fn fill_bytes(to: u64, n: u64, byte: u8, w: &mut World) -> Result<Served, OutOfMemory>
    requires { is_writable_range w.old.now.soft.memory to n ≡ true }
    ensures now { IfOk result (λ served. applied (Change.Fill to n byte) w.old.now ≡ (served, w.new.now)) }
    ensures marks { OnOk result (w.new.marks ≡ w.old.marks) }
{
    w.fill(to, n, byte)?;
    Ok(with_status(Status::SUCCESS))
}

/// Stores a number if an address is given for it, and answers a status. The bytes there can be
/// written.
fn store_value(
    out: Option<u64>,
    value: u64,
    status: Status,
    w: &mut World,
) -> Result<Served, OutOfMemory>
    requires { can_store out w.old.now ≡ true }
    ensures now { IfOk result (λ served. applied (Change.Store out value status) w.old.now ≡ (served, w.new.now)) }
    ensures marks { OnOk result (w.new.marks ≡ w.old.marks) }
{
    store_if(out, value, w)?;
    Ok(with_status(status))
}

/// Applies the change that a row ends with.
///
/// # Errors
///
/// `OutOfMemory` if there is no memory.
pub fn apply(change: Change, w: &mut World) -> Result<Served, OutOfMemory>
    requires { is_allowed change w.old.now ≡ true }
    ensures now { IfOk result (λ served. applied change w.old.now ≡ (served, w.new.now)) }
    ensures marks { OnOk result (w.new.marks ≡ w.old.marks) }
{
    match change {
        Change::Value(value) => Ok(Served::Value(value)),
        Change::SetTpl { tpl, answer } => set_level(tpl, answer, w),
        Change::Allot { size, out } => make_block(size, out, w),
        Change::Free { at } => free_block(at, w),
        Change::Copy { to, from, n } => copy_bytes(to, from, n, w),
        Change::Fill { to, n, byte } => fill_bytes(to, n, byte, w),
        Change::Store { out, value, status } => store_value(out, value, status, w),
        Change::Install {
            handle,
            guid,
            interface,
            owner,
            out,
        } => install(&handle, guid, interface, owner, out, w),
        Change::InstallMany {
            handle,
            list,
            count,
            owner,
            out,
        } => install_many(&handle, list, count, owner, out, w),
        Change::Open {
            handle,
            guid,
            agent,
            controller,
            attr,
            out,
            interface,
        } => enter(handle, guid, agent, controller, attr, out, interface, w),
        Change::Close {
            handle,
            guid,
            agent,
            controller,
        } => leave(handle, guid, agent, controller, w),
        Change::Handles { guid, size, buffer } => store_handles(guid, size, buffer, w),
        Change::Block {
            contents,
            buffer,
            count,
            count_first,
        } => return_block(contents, buffer, count, count_first, w),
        Change::Connect {
            controller,
            list,
            count,
            path,
            at_end,
            recursive,
        } => connect(controller, list, count, path, at_end, recursive, w),
        Change::Disconnect {
            controller,
            driver,
            child,
        } => Ok(Served::Again(Reentry::Disconnect {
            controller,
            driver,
            child,
        })),
        Change::Remove(removal) => Ok(Served::Again(Reentry::Remove(removal))),
        Change::Uninstall(i) => Ok(Served::Again(Reentry::Uninstall(i))),
        Change::UninstallMany {
            handle,
            list,
            count,
        } => uninstall_many(handle, list, count, w),
        Change::ReadDevice(transfer) => read_device(&transfer, w),
        Change::WriteDevice(transfer) => write_device(&transfer, w),
        Change::StoreLocation {
            segment,
            bus,
            device,
            function,
            location,
        } => store_location(segment, bus, device, function, location, w),
        Change::SetCommand { function, command } => set_command(function, command, w),
    }
}

/// Applies the change that a row ends with, or changes nothing if the row stopped.
///
/// # Errors
///
/// `OutOfMemory` if there is no memory.
pub fn end_row(change: Result<Change, Stop>, w: &mut World) -> Result<Served, OutOfMemory>
    requires { IfOk change (λ change. is_allowed change w.old.now ≡ true) }
    ensures now { IfOk result (λ served. end_of_row w.old.now change ≡ (served, w.new.now)) }
    ensures marks { OnOk result (w.new.marks ≡ w.old.marks) }
{
    match change {
        Ok(change) => apply(change, w),
        Err(Stop::Status(status)) => Ok(Served::Value(status.0)),
        Err(Stop::Trap(cause)) => Ok(Served::Trap(cause)),
    }
}
