//! The second look of an OpenProtocol for which a driver was disconnected (UEFI 2.8, 7.3).
ghost use Rattle.std.specs.Prelude.{◌≡◌};
ghost use Rattle.service_model.specs.SecondLook.{open_after_removal, second_look};

use crate::protocols::{has_record, live_or_zero, out_of, out_size};
use crate::words::{alive, dead, legal, refuse_if, writable};
use fw_types::{Attr, Handle, Status};
use fw_world::World;
use service_model::{Change, Opening, Stop};

/// What the open ends with, by the interface that was found now.
fn open_after_removal(found: Option<(u64, Handle)>, o: &Opening, w: &World) -> Result<Change, Stop>
    ensures { result ≡ open_after_removal found o.now w.now.now }
{
    let out = out_of(o.attr.bits(), o.out);
    let Some((interface, _)) = found else {
        return Ok(Change::Store {
            out,
            value: 0,
            status: Status::UNSUPPORTED,
        });
    };
    refuse_if(
        has_record(o.handle, o.guid, None, None, Attr::HOLDING_BITS, w),
        Status::ACCESS_DENIED,
    )?;
    Ok(Change::Open {
        handle: o.handle,
        guid: o.guid,
        agent: o.agent,
        controller: live_or_zero(o.controller, w),
        attr: o.attr,
        out,
        interface,
    })
}

/// Looks at an open again, with the arguments as they were first read, after the driver in its way was
/// disconnected.
///
/// # Errors
///
/// `Status` with INVALID_PARAMETER if the handle or the agent is dead, or the controller is dead with
/// attributes that need it; with ACCESS_DENIED if an agent has the interface open with BY_DRIVER or
/// EXCLUSIVE. `Trap` with `Memory` if `out` can't be written.
pub fn second_look(o: &Opening, w: &World) -> Result<Change, Stop>
    ensures { result ≡ second_look o.now w.now.now }
{
    let handle = alive(o.handle.get(), Status::INVALID_PARAMETER, w)?;
    writable(out_size(o.attr.bits()), o.out, w)?;
    let attr = legal(o.attr.bits())?;
    refuse_if(dead(o.agent, w), Status::INVALID_PARAMETER)?;
    refuse_if(
        attr.has_bit_of(Attr::CONTROLLER_BITS) && dead(o.controller, w),
        Status::INVALID_PARAMETER,
    )?;
    refuse_if(
        attr.bits() == Attr::BY_CHILD_CONTROLLER && handle.get() == o.controller,
        Status::INVALID_PARAMETER,
    )?;
    open_after_removal(w.db().interface(o.handle, o.guid), o, w)
}
