//! What the functions of PCI I/O do with their arguments.
ghost use Rattle.std.specs.Prelude.{◌≡◌, ◌+◌, ◌*◌, ◌^◌, ◌≤◌, nat_lt, Ok};
ghost use Rattle.service_model.specs.PciIo.{attributes, attributes_after, attributes_in, attributes_now, attributes_of, change_attributes, command, element_size, function_at, get_location, in_device, location, read_device, store_attributes, with_attributes, write_device};
ghost use Rattle.pci_io.specs.Elements.{readable_bytes, writable_bytes};

use fw_types::{Cause, Status};
use fw_world::World;
use pci_model::Space;
use service_model::{
    ALL_ATTRIBUTES, ATTRIBUTES_ENABLE, ATTRIBUTES_GET, ATTRIBUTES_SET, ATTRIBUTES_SUPPORTED,
    COMMAND, Change, LAST_BUILT_WIDTH, LAST_WIDTH, Stop, Transfer,
};
use service_rows::words::{readable, refuse_if, writable};
use world_model::laws::ranges_are_small;

/// The function of the child of the bus whose PCI I/O is at `this`.
///
/// # Errors
///
/// `Status` with INVALID_PARAMETER if there is none.
fn function_at(this: u64, w: &World) -> Result<u32, Stop>
    ensures { result ≡ function_at this w.now.now }
{
    w.pci_at(this)
        .ok_or(Stop::Status(Status::INVALID_PARAMETER))
}

// ---- Mem.Read, Mem.Write, Pci.Read and Pci.Write

/// How many bytes an element has, by its width.
///
/// # Errors
///
/// `Status` with INVALID_PARAMETER for a width over 11, and with UNSUPPORTED for a width from 4 to 11.
fn element_size(width: u32) -> Result<u64, Stop>
    ensures { result ≡ element_size width }
{
    refuse_if(width > LAST_WIDTH, Status::INVALID_PARAMETER)?;
    refuse_if(width > LAST_BUILT_WIDTH, Status::UNSUPPORTED)?;
    Ok(size_of(width))
}

/// How many bytes an element has, for a width that is built.
fn size_of(width: u32) -> u64
    requires { width ≤ 3 }
    ensures { result ≡ 2 ^ width }
{
    match width {
        0 => 1,
        1 => 2,
        2 => 4,
        _ => 8,
    }
}

/// How many bytes `count` elements have. They must be writable from an address on.
///
/// # Errors
///
/// `Trap` with `Memory` if they can't be written.
fn writable_bytes(count: u64, size: u64, at: u64, w: &World) -> Result<u64, Stop>
    ensures { result ≡ writable_bytes count size at w.now.now }
{
    ranges_are_small();
    w.is_kept();
    let Some(n) = count.checked_mul(size) else {
        return Err(Stop::Trap(Cause::Memory));
    };
    writable(n, at, w)?;
    Ok(n)
}

/// How many bytes `count` elements have. They must be readable from an address on.
///
/// # Errors
///
/// `Trap` with `Memory` if they can't be read.
fn readable_bytes(count: u64, size: u64, at: u64, w: &World) -> Result<u64, Stop>
    ensures { result ≡ readable_bytes count size at w.now.now }
{
    ranges_are_small();
    w.is_kept();
    let Some(n) = count.checked_mul(size) else {
        return Err(Stop::Trap(Cause::Memory));
    };
    readable(n, at, w)?;
    Ok(n)
}

/// Whether `n` bytes from an offset on pass the end of `size` bytes.
fn is_past(size: u64, at: u64, n: u64) -> bool
    ensures { result ≡ nat_lt size (at + n) }
{
    at > size || n > size - at
}

/// Goes on if `n` bytes from an offset on lie in configuration space of a function, or in one of its
/// BARs.
///
/// # Errors
///
/// `Status` with UNSUPPORTED if there is no such BAR, or if a byte lies past its end.
fn in_device(function: u32, space: Space, at: u64, n: u64, w: &World) -> Result<(), Stop>
    ensures { result ≡ in_device function space at n w.now.now }
{
    match w.board().space(function, space) {
        Some(bytes) => refuse_if(is_past(bytes.len() as u64, at, n), Status::UNSUPPORTED),
        None => Err(Stop::Status(Status::UNSUPPORTED)),
    }
}

/// Mem.Read and Pci.Read: `count` elements of a device from the offset `at` on are read into a buffer.
///
/// # Errors
///
/// In this order: `Status` with INVALID_PARAMETER if `this` is not the PCI I/O of a child of the bus, if
/// the buffer is NULL, or if the width is over 11, and with UNSUPPORTED if it is over 3; `Trap` with
/// `Memory` if the buffer can't be written; `Status` with UNSUPPORTED if there is no such BAR, or if an
/// element lies past its end.
pub fn read_device(
    this: u64,
    width: u32,
    space: Space,
    at: u64,
    count: u64,
    buffer: u64,
    w: &World,
) -> Result<Change, Stop>
    ensures { result ≡ read_device this width space at count buffer w.now.now }
{
    let source = function_at(this, w)?;
    refuse_if(buffer == 0, Status::INVALID_PARAMETER)?;
    let size = element_size(width)?;
    let n = writable_bytes(count, size, buffer, w)?;
    in_device(source, space, at, n, w)?;
    Ok(Change::ReadDevice(Transfer {
        function: source,
        space,
        at,
        n,
        buffer,
    }))
}

/// Mem.Write and Pci.Write: `count` elements of a device from the offset `at` on are written from a
/// buffer.
///
/// # Errors
///
/// Those of `read_device`, except that the buffer must be readable.
pub fn write_device(
    this: u64,
    width: u32,
    space: Space,
    at: u64,
    count: u64,
    buffer: u64,
    w: &World,
) -> Result<Change, Stop>
    ensures { result ≡ write_device this width space at count buffer w.now.now }
{
    let target = function_at(this, w)?;
    refuse_if(buffer == 0, Status::INVALID_PARAMETER)?;
    let size = element_size(width)?;
    let n = readable_bytes(count, size, buffer, w)?;
    in_device(target, space, at, n, w)?;
    Ok(Change::WriteDevice(Transfer {
        function: target,
        space,
        at,
        n,
        buffer,
    }))
}

// ---- GetLocation

/// Where a function is: its bus, its device and its function number.
///
/// # Errors
///
/// `Status` with UNSUPPORTED if the board has no such function.
fn location(function: u32, w: &World) -> Result<(u8, u8, u8), Stop>
    ensures { result ≡ location function w.now.now }
{
    w.board()
        .location(function)
        .ok_or(Stop::Status(Status::UNSUPPORTED))
}

/// GetLocation: the segment group, which is 0, the bus, the device and the function number are stored.
///
/// # Errors
///
/// In this order: `Status` with INVALID_PARAMETER if `this` is not the PCI I/O of a child of the bus, or
/// if a place is NULL; `Trap` with `Memory` if one can't be written.
pub fn get_location(
    this: u64,
    segment: u64,
    bus: u64,
    device: u64,
    function: u64,
    w: &World,
) -> Result<Change, Stop>
    ensures { result ≡ get_location this segment bus device function w.now.now }
{
    let number = function_at(this, w)?;
    let any_null = segment == 0 || bus == 0 || device == 0 || function == 0;
    refuse_if(any_null, Status::INVALID_PARAMETER)?;
    writable(8, segment, w)?;
    writable(8, bus, w)?;
    writable(8, device, w)?;
    writable(8, function, w)?;
    let location = location(number, w)?;
    Ok(Change::StoreLocation {
        segment,
        bus,
        device,
        function,
        location,
    })
}

// ---- Attributes

/// The command register of a function (PCI Local Bus 3.0, 6.2.2).
///
/// # Errors
///
/// `Status` with UNSUPPORTED if the board has no such function.
fn command(function: u32, w: &World) -> Result<u64, Stop>
    ensures { result ≡ command function w.now.now }
{
    match w.board().config_read(function, COMMAND, 2) {
        Ok(value) => Ok(value),
        Err(_) => Err(Stop::Status(Status::UNSUPPORTED)),
    }
}

/// The attributes that a command register enables.
fn attributes_in(value: u64) -> u64
    ensures { result ≡ attributes_in value }
{
    0x100 * (value % 8)
}

/// A command register with its attributes replaced by these.
fn with_attributes(bits: u64, value: u64) -> u64
    ensures { result ≡ with_attributes bits value }
{
    8 * (value / 8) + bits / 0x100 % 8
}

/// The attributes after an operation: the given ones are set, added to those of now, or removed from them.
fn attributes_after(operation: u32, bits: u64, now: u64) -> u64
    requires { bits ≤ 0x700 }
    ensures { result ≡ attributes_after operation bits now }
{
    match operation {
        ATTRIBUTES_SET => bits,
        ATTRIBUTES_ENABLE => now | bits,
        _ => now & (ALL_ATTRIBUTES - bits),
    }
}

/// Stores attributes.
fn store_attributes(out: u64, bits: Result<u64, Stop>, w: &World) -> Result<Change, Stop>
    ensures { result ≡ store_attributes out bits w.now.now }
{
    refuse_if(out == 0, Status::INVALID_PARAMETER)?;
    writable(8, out, w)?;
    let value = bits?;
    Ok(Change::Store {
        out: Some(out),
        value,
        status: Status::SUCCESS,
    })
}

/// The attributes that are enabled now.
///
/// # Errors
///
/// `Status` with UNSUPPORTED if the board has no such function.
fn attributes_now(function: u32, w: &World) -> Result<u64, Stop>
    ensures { result ≡ attributes_now function w.now.now }
{
    let value = command(function, w)?;
    Ok(attributes_in(value))
}

/// Changes attributes.
fn change_attributes(function: u32, operation: u32, bits: u64, w: &World) -> Result<Change, Stop>
    ensures { result ≡ change_attributes function operation bits w.now.now }
{
    refuse_if(bits & ALL_ATTRIBUTES != bits, Status::UNSUPPORTED)?;
    let value = command(function, w)?;
    let after = attributes_after(operation, bits, attributes_in(value));
    Ok(Change::SetCommand {
        function,
        command: with_attributes(after, value),
    })
}

/// Stores or changes the attributes of a function.
fn attributes_of(
    function: u32,
    operation: u32,
    bits: u64,
    out: u64,
    w: &World,
) -> Result<Change, Stop>
    ensures { result ≡ attributes_of function operation bits out w.now.now }
{
    match operation {
        ATTRIBUTES_GET => store_attributes(out, attributes_now(function, w), w),
        ATTRIBUTES_SUPPORTED => store_attributes(out, Ok(ALL_ATTRIBUTES), w),
        _ => change_attributes(function, operation, bits, w),
    }
}

/// Attributes: the attributes of a function, of which 0x100 is I/O, 0x200 memory and 0x400 bus master, are
/// stored (operation 0), set (1), added (2) or removed (3), or the supported attributes are stored (4).
/// Operations 1 to 3 do not look at `out`, and 0 and 4 do not look at `bits`.
///
/// # Errors
///
/// In this order: `Status` with INVALID_PARAMETER if `this` is not the PCI I/O of a child of the bus, if
/// the operation is over 4, or if `out` is NULL; `Trap` with `Memory` if `out` can't be written; `Status`
/// with UNSUPPORTED if an attribute is not supported.
pub fn attributes(this: u64, operation: u32, bits: u64, out: u64, w: &World) -> Result<Change, Stop>
    ensures { result ≡ attributes this operation bits out w.now.now }
{
    let function = function_at(this, w)?;
    refuse_if(operation > ATTRIBUTES_SUPPORTED, Status::INVALID_PARAMETER)?;
    attributes_of(function, operation, bits, out, w)
}
