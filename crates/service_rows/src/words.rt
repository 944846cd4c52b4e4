//! The words that rows are written in. Each looks at the arguments and at the world, and stops the row if
//! it finds a reason.
ghost use Rattle.std.specs.Prelude.{◌≡◌, ◌≤◌};
ghost use Rattle.service_thunks.specs.Arguments.{most_arguments};
ghost use Rattle.service_model.specs.Words.{alive, dead, guid, has_protocol, legal, handle_or_none, number, readable, refuse_if, slots, installed_interface, writable};

use fw_types::{Attr, Cause, Guid, Handle, Status};
use fw_world::World;
use guest_memory::GuestMem;
use service_model::Stop;
use service_thunks::args;

/// Goes on, or stops if a test holds: the service answers the status.
///
/// # Errors
///
/// `Status` with the status if the test holds.
pub fn refuse_if(test: bool, status: Status) -> Result<(), Stop>
    ensures { result ≡ refuse_if test status }
{
    if test {
        Err(Stop::Status(status))
    } else {
        Ok(())
    }
}

/// Goes on if `n` bytes from an address on can be read.
///
/// # Errors
///
/// `Trap` with `Memory` if they can't be read.
pub fn readable(n: u64, at: u64, w: &World) -> Result<(), Stop>
    ensures { result ≡ readable n at w.now.now }
{
    if w.can_read(at, n) {
        Ok(())
    } else {
        Err(Stop::Trap(Cause::Memory))
    }
}

/// Goes on if `n` bytes from an address on can be written.
///
/// # Errors
///
/// `Trap` with `Memory` if they can't be written.
pub fn writable(n: u64, at: u64, w: &World) -> Result<(), Stop>
    ensures { result ≡ writable n at w.now.now }
{
    if w.can_write(at, n) {
        Ok(())
    } else {
        Err(Stop::Trap(Cause::Memory))
    }
}

/// The first `n` arguments of a caller whose R0 is `sp`, at most 16, and 0 for the others.
///
/// # Errors
///
/// `Trap` with `Memory` if one of them can't be read.
pub fn slots(n: u8, sp: u64, w: &World) -> Result<[u64; 16], Stop>
    requires { n ≤ most_arguments }
    ensures { result ≡ slots n sp w.now.now }
{
    args(w, sp, n).ok_or(Stop::Trap(Cause::Memory))
}

/// The number in the 8 bytes at an address.
///
/// # Errors
///
/// `Trap` with `Memory` if they can't be read.
pub fn number(at: u64, w: &World) -> Result<u64, Stop>
    ensures { result ≡ number at w.now.now }
{
    w.read(at, 8).ok_or(Stop::Trap(Cause::Memory))
}

/// The GUID in the 16 bytes at an address.
///
/// # Errors
///
/// `Trap` with `Memory` if they can't be read.
pub fn guid(at: u64, w: &World) -> Result<Guid, Stop>
    ensures { result ≡ guid at w.now.now }
{
    readable(16, at, w)?;
    let mut bytes = [0; 16];
    bytes.copy_from_slice(w.bytes(at, 16));
    Ok(Guid::from_guest(&bytes))
}

/// Whether no live handle has a number.
pub fn dead(handle: u64, w: &World) -> bool
    ensures { result ≡ dead handle w.now.now }
{
    handle == 0 || !w.db().is_live(handle)
}

/// The live handle with a number.
///
/// # Errors
///
/// `Status` with the given status if no live handle has the number.
pub fn alive(handle: u64, status: Status, w: &World) -> Result<Handle, Stop>
    ensures { result ≡ alive handle status w.now.now }
{
    match Handle::new(handle) {
        Some(live) if w.db().is_live(handle) => Ok(live),
        _ => Err(Stop::Status(status)),
    }
}

/// The live handle with a number, or none for 0.
///
/// # Errors
///
/// `Status` with INVALID_PARAMETER if the number is not 0 and no live handle has it.
pub fn handle_or_none(handle: u64, w: &World) -> Result<Option<Handle>, Stop>
    ensures { result ≡ handle_or_none handle w.now.now }
{
    if handle == 0 {
        return Ok(None);
    }
    let live = alive(handle, Status::INVALID_PARAMETER, w)?;
    Ok(Some(live))
}

/// A handle's interface of a protocol, and its owner.
///
/// # Errors
///
/// `Status` with NOT_FOUND if the handle does not have the protocol.
pub fn installed_interface(handle: Handle, name: Guid, w: &World) -> Result<(u64, Handle), Stop>
    ensures { result ≡ installed_interface handle name w.now.now }
{
    w.db()
        .interface(handle, name)
        .ok_or(Stop::Status(Status::NOT_FOUND))
}

/// Whether a handle has a protocol. A new handle, `None`, has none.
pub fn has_protocol(handle: Option<Handle>, name: Guid, w: &World) -> bool
    ensures { result ≡ has_protocol handle name w.now.now }
{
    match handle {
        None => false,
        Some(handle) => w.db().interface(handle, name).is_some(),
    }
}

/// The attribute with these bits.
///
/// # Errors
///
/// `Status` with INVALID_PARAMETER if an interface can't be opened with them.
pub fn legal(bits: u32) -> Result<Attr, Stop>
    ensures { result ≡ legal bits }
{
    Attr::legal(bits).ok_or(Stop::Status(Status::INVALID_PARAMETER))
}
