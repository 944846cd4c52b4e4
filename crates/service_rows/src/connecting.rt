//! ConnectController and DisconnectController (UEFI 2.8, 7.3), up to where they enter the driver model.
ghost use Rattle.std.specs.Prelude.{◌≡◌, ◌<◌, ◌≤◌, true};
ghost use Rattle.service_thunks.specs.Arguments.{slot_at};
ghost use Rattle.service_model.specs.Connecting.{connect_controller, context_length, disconnect_controller, first_without, is_at_end, length_by, path_readable};

use crate::words::{number, readable};
use fw_types::Status;
use fw_world::World;
use guest_memory::GuestMem;
use service_model::{CONTEXT_SLOTS, Change, END_NODE, Stop};

/// The address of a slot of a list, counted from 0.
pub fn slot_at(list: u64, i: u64) -> u64
    requires { i < CONTEXT_SLOTS }
    ensures { result ≡ slot_at list i }
{
    list.wrapping_add(8 * i)
}

/// How many handles come before the 0 that ends a list, or `None` if none of the first `slots` slots has
/// a 0.
#[tactic(auto, unfolding(service_model::specs::Connecting::first_without))]
fn length_within(slots: u64, list: u64, w: &World) -> Result<Option<u64>, Stop>
    requires { slots ≤ CONTEXT_SLOTS }
    ensures { result ≡ length_by (first_without slots list w.now.now) list w.now.now }
{
    for i in 0..slots {
        let handle = number(slot_at(list, i), w)?;
        if handle == 0 {
            return Ok(Some(i));
        }
    }
    Ok(None)
}

/// How many handles a list has, or `None` if it does not end. A list that is NULL has none.
fn context_length(list: u64, w: &World) -> Result<Option<u64>, Stop>
    ensures { result ≡ context_length list w.now.now }
{
    if list == 0 {
        return Ok(Some(0));
    }
    length_within(CONTEXT_SLOTS, list, w)
}

/// Goes on if the first node of a device path can be read, or the path is NULL.
fn path_readable(path: u64, w: &World) -> Result<(), Stop>
    ensures { result ≡ path_readable path w.now.now }
{
    if path == 0 {
        return Ok(());
    }
    readable(4, path, w)
}

/// Whether a device path begins with the node that ends one.
fn is_at_end(path: u64, w: &World) -> bool
    ensures { result ≡ is_at_end path w.now.now }
{
    path != 0 && w.read(path, 2) == Some(END_NODE)
}

/// ConnectController: the list of driver handles begins at `list`, has 8 bytes for each, and ends at a 0.
/// `path` is the remaining device path. The service goes on with these handles and this path.
///
/// # Errors
///
/// `Trap` with `Memory` if the list can't be read up to its 0, or the first 4 bytes of the path can't be
/// read; `Status` with INVALID_PARAMETER if none of the first `CONTEXT_SLOTS` slots of the list has a 0.
pub fn connect_controller(
    controller: u64,
    list: u64,
    path: u64,
    recursive: u8,
    w: &World,
) -> Result<Change, Stop>
    ensures { result ≡ connect_controller controller list path recursive w.now.now }
{
    let length = context_length(list, w)?;
    path_readable(path, w)?;
    let count = length.ok_or(Stop::Status(Status::INVALID_PARAMETER))?;
    Ok(Change::Connect {
        controller,
        list,
        count,
        path,
        at_end: is_at_end(path, w),
        recursive: recursive != 0,
    })
}

/// DisconnectController: the service goes on with its arguments.
///
/// # Errors
///
/// None.
pub fn disconnect_controller(
    controller: u64,
    driver: u64,
    child: u64,
    w: &World,
) -> Result<Change, Stop>
    ensures { result ≡ disconnect_controller controller driver child w.now.now }
{
    Ok(Change::Disconnect {
        controller,
        driver,
        child,
    })
}
