//! Changes that reach the devices of the board (UEFI 2.8, 14.4: EFI PCI I/O Protocol).
ghost use Rattle.std.specs.Prelude.{◌≡◌, ◌+◌, IfOk, OnOk, length, true};
ghost use Rattle.pci_model.specs.Spaces.{has_range, space_of};
ghost use Rattle.service_model.specs.Allowed.{is_allowed};
ghost use Rattle.service_model.specs.Changes.{applied, device_bytes};

use crate::storing::{copy_of, store, with_status};
use fw_types::{OutOfMemory, Status};
use fw_world::World;
use service_model::laws::puts_leave_writable;
use service_model::{COMMAND, Change, Served, Transfer};

/// A copy of bytes that a device has.
fn copy_of_device(transfer: &Transfer, w: &World) -> Result<Vec<u8>, OutOfMemory>
    requires { has_range (space_of w.now.now.hard.board transfer.now.function transfer.now.space) (transfer.now.at + transfer.now.n) ≡ true }
    ensures bytes { IfOk result (λ copy. copy.items ≡ device_bytes transfer.now w.now.now) }
    ensures size { IfOk result (λ copy. length copy.items ≡ transfer.now.n) }
{
    let Some(bytes) = w.board().space(transfer.function, transfer.space) else {
        unreachable!();
    };
    let bytes = &bytes[transfer.at as usize..];
    Ok(Vec::from_slice(w.alloc(), &bytes[..transfer.n as usize])?)
}

/// Reads bytes that a device has into memory that can be written.
pub fn read_device(transfer: &Transfer, w: &mut World) -> Result<Served, OutOfMemory>
    requires { is_allowed (Change.ReadDevice transfer.now) w.old.now ≡ true }
    ensures now { IfOk result (λ served. applied (Change.ReadDevice transfer.now) w.old.now ≡ (served, w.new.now)) }
    ensures marks { OnOk result (w.new.marks ≡ w.old.marks) }
{
    let bytes = copy_of_device(transfer, w)?;
    w.put(transfer.buffer, &bytes)?;
    Ok(with_status(Status::SUCCESS))
}

/// Writes bytes from memory that can be read to bytes that a device has.
pub fn write_device(transfer: &Transfer, w: &mut World) -> Result<Served, OutOfMemory>
    requires { is_allowed (Change.WriteDevice transfer.now) w.old.now ≡ true }
    ensures now { IfOk result (λ served. applied (Change.WriteDevice transfer.now) w.old.now ≡ (served, w.new.now)) }
    ensures marks { OnOk result (w.new.marks ≡ w.old.marks) }
{
    let bytes = copy_of(transfer.buffer, transfer.n, w)?;
    w.write_space(transfer.function, transfer.space, transfer.at, &bytes);
    Ok(with_status(Status::SUCCESS))
}

/// Stores the numbers of a location in the order of the arguments, each in 8 bytes that can be written.
/// The segment group is 0.
pub fn store_location(
    segment: u64,
    bus: u64,
    device: u64,
    function: u64,
    location: (u8, u8, u8),
    w: &mut World,
) -> Result<Served, OutOfMemory>
    requires { is_allowed (Change.StoreLocation segment bus device function location) w.old.now ≡ true }
    ensures now { IfOk result (λ served. applied (Change.StoreLocation segment bus device function location) w.old.now ≡ (served, w.new.now)) }
    ensures marks { OnOk result (w.new.marks ≡ w.old.marks) }
{
    puts_leave_writable();
    store(segment, 0, w)?;
    store(bus, u64::from(location.0), w)?;
    store(device, u64::from(location.1), w)?;
    store(function, u64::from(location.2), w)?;
    Ok(with_status(Status::SUCCESS))
}

/// Writes the command register of a function that the board has.
pub fn set_command(function: u32, command: u64, w: &mut World) -> Result<Served, OutOfMemory>
    requires { is_allowed (Change.SetCommand function command) w.old.now ≡ true }
    ensures now { IfOk result (λ served. applied (Change.SetCommand function command) w.old.now ≡ (served, w.new.now)) }
    ensures marks { OnOk result (w.new.marks ≡ w.old.marks) }
{
    match w.write_config(function, COMMAND, 2, command) {
        Ok(()) => Ok(with_status(Status::SUCCESS)),
        Err(_) => unreachable!(),
    }
}
