//! The protocol handler services (UEFI 2.8, 7.3), except InstallMultipleProtocolInterfaces and
//! UninstallMultipleProtocolInterfaces, which are in `many`, and ConnectController and
//! DisconnectController, which are in `connecting`.
ghost use Rattle.std.specs.Prelude.{◌≡◌, ◌*◌, ◌^◌, ◌<◌};
ghost use Rattle.service_model.specs.Protocols.{close, live_or_zero, handle_protocol, has_record, how_many, install, locate_handle, locate_handle_buffer, locate_protocol, change_for_found, open_protocol, open_protocol_information, open_by_interface, out_of, out_size, protocols_per_handle, refuse_search, change_for_verdict, open_by_records, search_protocol, handles_in_buffer, uninstall};

use crate::words::{
    alive, dead, guid, handle_or_none, has_protocol, installed_interface, legal, number, refuse_if,
    writable,
};
use fw_types::{Attr, Guid, Handle, Status};
use fw_world::World;
use open_records::Verdict;
use service_model::{
    ALL_HANDLES, BY_PROTOCOL, Change, Contents, HandleInterface, NATIVE_INTERFACE, Opening,
    Removal, Stop,
};

// ---- installing and uninstalling

/// InstallProtocolInterface: the handle's number is at `handle_at`, or 0 for a new handle.
///
/// # Errors
///
/// `Status` with INVALID_PARAMETER if a pointer is NULL, the type is not the native one, or the handle is
/// dead or has the protocol; `Trap` with `Memory` if `handle_at` can't be written or the GUID can't be read.
pub fn install(
    owner: Handle,
    handle_at: u64,
    guid_at: u64,
    kind: u32,
    interface: u64,
    w: &World,
) -> Result<Change, Stop>
    ensures { result ≡ install owner handle_at guid_at kind interface w.now.now }
{
    refuse_if(handle_at == 0 || guid_at == 0, Status::INVALID_PARAMETER)?;
    writable(8, handle_at, w)?;
    let guid = guid(guid_at, w)?;
    let given = number(handle_at, w)?;
    refuse_if(kind != NATIVE_INTERFACE, Status::INVALID_PARAMETER)?;
    let handle = handle_or_none(given, w)?;
    refuse_if(has_protocol(handle, guid, w), Status::INVALID_PARAMETER)?;
    Ok(Change::Install {
        handle,
        guid,
        interface,
        owner,
        out: handle_at,
    })
}

/// Whether an interface has an open record with one of these attribute bits. If an agent or a controller is
/// given, the record must also be of that agent and for that controller.
pub fn has_record(
    handle: Handle,
    name: Guid,
    agent: Option<u64>,
    controller: Option<u64>,
    bits: u32,
    w: &World,
) -> bool
    ensures { result ≡ has_record handle name agent controller bits w.now.now }
{
    w.entries().has_meant(handle, name, agent, controller, bits)
}

/// UninstallProtocolInterface: the handle must have the interface, and then the service goes on with it.
///
/// # Errors
///
/// `Status` with INVALID_PARAMETER if the GUID is NULL or the handle is dead, or with NOT_FOUND if the
/// handle does not have the protocol with this interface; `Trap` with `Memory` if the GUID can't be read.
pub fn uninstall(given: u64, guid_at: u64, interface: u64, w: &World) -> Result<Change, Stop>
    ensures { result ≡ uninstall given guid_at interface w.now.now }
{
    refuse_if(guid_at == 0, Status::INVALID_PARAMETER)?;
    let guid = guid(guid_at, w)?;
    let handle = alive(given, Status::INVALID_PARAMETER, w)?;
    let (address, _) = installed_interface(handle, guid, w)?;
    refuse_if(address != interface, Status::NOT_FOUND)?;
    Ok(Change::Uninstall(HandleInterface {
        handle,
        guid,
        interface,
    }))
}

// ---- opening and closing

/// A handle's number, or 0 if it is not live.
pub fn live_or_zero(handle: u64, w: &World) -> u64
    ensures { result ≡ live_or_zero handle w.now.now }
{
    if dead(handle, w) { 0 } else { handle }
}

/// The address at which the interface is stored: none with TEST_PROTOCOL.
pub fn out_of(attr: u32, out: u64) -> Option<u64>
    ensures { result ≡ out_of attr out }
{
    if attr == Attr::TEST_PROTOCOL {
        None
    } else {
        Some(out)
    }
}

/// How many bytes the interface takes there: none with TEST_PROTOCOL.
pub fn out_size(bits: u32) -> u64
    ensures { result ≡ out_size bits }
{
    if bits == Attr::TEST_PROTOCOL { 0 } else { 8 }
}

/// What an open ends with, by the verdict of the interface's records. The agent and the controller are live
/// or 0.
fn change_for_verdict(
    verdict: Verdict,
    o: &Opening,
    agent: u64,
    controller: u64,
    interface: u64,
) -> Result<Change, Stop>
    ensures { result ≡ change_for_verdict verdict o.now agent controller interface }
{
    let out = out_of(o.attr.bits(), o.out);
    match verdict {
        Verdict::Add | Verdict::Count => Ok(Change::Open {
            handle: o.handle,
            guid: o.guid,
            agent,
            controller,
            attr: o.attr,
            out,
            interface,
        }),
        Verdict::Already => Ok(Change::Store {
            out,
            value: interface,
            status: Status::ALREADY_STARTED,
        }),
        Verdict::Denied => Err(Stop::Status(Status::ACCESS_DENIED)),
        Verdict::MustDisconnect(holder) => Ok(Change::Remove(Removal {
            opening: *o,
            victim: holder,
        })),
    }
}

/// What an open of an installed interface ends with. The agent and the controller are live or 0.
fn open_by_records(
    o: &Opening,
    agent: u64,
    controller: u64,
    interface: u64,
    w: &World,
) -> Result<Change, Stop>
    ensures { result ≡ open_by_records o.now agent controller interface w.now.now }
{
    if agent == 0 {
        return Ok(Change::Store {
            out: out_of(o.attr.bits(), o.out),
            value: interface,
            status: Status::SUCCESS,
        });
    }
    let verdict = w
        .entries()
        .judged(o.handle, o.guid, agent, controller, o.attr);
    change_for_verdict(verdict, o, agent, controller, interface)
}

/// What an open ends with, by the interface that was found.
fn open_by_interface(found: Option<(u64, Handle)>, o: &Opening, w: &World) -> Result<Change, Stop>
    ensures { result ≡ open_by_interface found o.now w.now.now }
{
    let Some((interface, _)) = found else {
        return Ok(Change::Store {
            out: out_of(o.attr.bits(), o.out),
            value: 0,
            status: Status::UNSUPPORTED,
        });
    };
    let agent = live_or_zero(o.agent, w);
    let controller = live_or_zero(o.controller, w);
    open_by_records(o, agent, controller, interface, w)
}

/// OpenProtocol. If a driver is in the way, the service goes on to disconnect it.
///
/// # Errors
///
/// `Status` with INVALID_PARAMETER if a pointer that is needed is NULL, the handle is dead, the attributes
/// are not legal, the agent or the controller is dead with attributes that need it, or a handle is opened for
/// itself as a child; with ACCESS_DENIED if an open record forbids the open. `Trap` with `Memory` if the GUID
/// can't be read or `out` can't be written.
pub fn open_protocol(
    given: u64,
    guid_at: u64,
    out: u64,
    agent: u64,
    controller: u64,
    bits: u32,
    w: &World,
) -> Result<Change, Stop>
    ensures { result ≡ open_protocol given guid_at out agent controller bits w.now.now }
{
    refuse_if(guid_at == 0, Status::INVALID_PARAMETER)?;
    let handle = alive(given, Status::INVALID_PARAMETER, w)?;
    refuse_if(
        out == 0 && bits != Attr::TEST_PROTOCOL,
        Status::INVALID_PARAMETER,
    )?;
    let guid = guid(guid_at, w)?;
    writable(out_size(bits), out, w)?;
    let attr = legal(bits)?;
    refuse_if(
        attr.has_bit_of(Attr::AGENT_BITS) && dead(agent, w),
        Status::INVALID_PARAMETER,
    )?;
    refuse_if(
        attr.has_bit_of(Attr::CONTROLLER_BITS) && dead(controller, w),
        Status::INVALID_PARAMETER,
    )?;
    refuse_if(
        bits == Attr::BY_CHILD_CONTROLLER && given == controller,
        Status::INVALID_PARAMETER,
    )?;
    let o = Opening {
        handle,
        guid,
        out,
        agent,
        controller,
        attr,
    };
    open_by_interface(w.db().interface(handle, guid), &o, w)
}

/// HandleProtocol: opens the interface with the firmware as the agent, and for no controller.
///
/// # Errors
///
/// Those of `open_protocol` with BY_HANDLE_PROTOCOL.
pub fn handle_protocol(given: u64, guid_at: u64, out: u64, w: &World) -> Result<Change, Stop>
    ensures { result ≡ handle_protocol given guid_at out w.now.now }
{
    open_protocol(
        given,
        guid_at,
        out,
        Handle::firmware().get(),
        0,
        Attr::BY_HANDLE_PROTOCOL,
        w,
    )
}

/// CloseProtocol.
///
/// # Errors
///
/// `Status` with INVALID_PARAMETER if the GUID is NULL, or the handle, the agent or the controller is dead,
/// or with NOT_FOUND if there is no such interface or no such record; `Trap` with `Memory` if the GUID can't
/// be read.
pub fn close(
    given: u64,
    guid_at: u64,
    agent: u64,
    controller: u64,
    w: &World,
) -> Result<Change, Stop>
    ensures { result ≡ close given guid_at agent controller w.now.now }
{
    refuse_if(guid_at == 0, Status::INVALID_PARAMETER)?;
    let guid = guid(guid_at, w)?;
    let handle = alive(given, Status::INVALID_PARAMETER, w)?;
    refuse_if(dead(agent, w), Status::INVALID_PARAMETER)?;
    refuse_if(
        controller != 0 && dead(controller, w),
        Status::INVALID_PARAMETER,
    )?;
    let _interface = installed_interface(handle, guid, w)?;
    refuse_if(
        !has_record(
            handle,
            guid,
            Some(agent),
            Some(controller),
            Attr::ALL_BITS,
            w,
        ),
        Status::NOT_FOUND,
    )?;
    Ok(Change::Close {
        handle,
        guid,
        agent,
        controller,
    })
}

// ---- what is there

/// OpenProtocolInformation.
///
/// # Errors
///
/// `Status` with INVALID_PARAMETER if a pointer is NULL, or with NOT_FOUND if the handle is dead or does not
/// have the protocol; `Trap` with `Memory` if the GUID can't be read or a place can't be written.
pub fn open_protocol_information(
    given: u64,
    guid_at: u64,
    buffer: u64,
    count: u64,
    w: &World,
) -> Result<Change, Stop>
    ensures { result ≡ open_protocol_information given guid_at buffer count w.now.now }
{
    refuse_if(
        guid_at == 0 || buffer == 0 || count == 0,
        Status::INVALID_PARAMETER,
    )?;
    let guid = guid(guid_at, w)?;
    writable(8, buffer, w)?;
    writable(8, count, w)?;
    let handle = alive(given, Status::NOT_FOUND, w)?;
    let _interface = installed_interface(handle, guid, w)?;
    Ok(Change::Block {
        contents: Contents::Opens { handle, guid },
        buffer,
        count,
        count_first: false,
    })
}

/// ProtocolsPerHandle.
///
/// # Errors
///
/// `Status` with INVALID_PARAMETER if a pointer is NULL or the handle is dead; `Trap` with `Memory` if a
/// place can't be written.
pub fn protocols_per_handle(given: u64, buffer: u64, count: u64, w: &World) -> Result<Change, Stop>
    ensures { result ≡ protocols_per_handle given buffer count w.now.now }
{
    refuse_if(buffer == 0 || count == 0, Status::INVALID_PARAMETER)?;
    writable(8, buffer, w)?;
    writable(8, count, w)?;
    let handle = alive(given, Status::INVALID_PARAMETER, w)?;
    Ok(Change::Block {
        contents: Contents::Protocols(handle),
        buffer,
        count,
        count_first: false,
    })
}

// ---- which handles have a protocol

/// Refuses a search that is neither for all handles nor by a protocol, and one by a protocol whose GUID is
/// NULL.
fn refuse_search(search: u32, guid_at: u64) -> Result<(), Stop>
    ensures { result ≡ refuse_search search guid_at }
{
    refuse_if(
        search != ALL_HANDLES && search != BY_PROTOCOL,
        Status::INVALID_PARAMETER,
    )?;
    refuse_if(
        search == BY_PROTOCOL && guid_at == 0,
        Status::INVALID_PARAMETER,
    )
}

/// The protocol of a search, or none for all handles.
fn search_protocol(search: u32, guid_at: u64, w: &World) -> Result<Option<Guid>, Stop>
    ensures { result ≡ search_protocol search guid_at w.now.now }
{
    if search == BY_PROTOCOL {
        let name = guid(guid_at, w)?;
        return Ok(Some(name));
    }
    Ok(None)
}

/// How many handles a search finds.
fn how_many(name: &Option<Guid>, w: &World) -> u64
    ensures value { result ≡ how_many name.now w.now.now }
    ensures small { result < 2 ^ 32 }
{
    u64::from(w.db().count_with(*name))
}

/// The handles if the buffer that is given has room for the bytes that they need; otherwise that size.
fn handles_in_buffer(
    given: u64,
    name: Option<Guid>,
    size: u64,
    buffer: u64,
    needed: u64,
    w: &World,
) -> Result<Change, Stop>
    ensures { result ≡ handles_in_buffer given name size buffer needed w.now.now }
{
    if given < needed {
        return Ok(Change::Store {
            out: Some(size),
            value: needed,
            status: Status::BUFFER_TOO_SMALL,
        });
    }
    refuse_if(buffer == 0, Status::INVALID_PARAMETER)?;
    writable(needed, buffer, w)?;
    Ok(Change::Handles {
        guid: name,
        size,
        buffer,
    })
}

/// LocateHandle.
///
/// # Errors
///
/// `Status` with INVALID_PARAMETER for another search, a pointer that is NULL, or a buffer that is NULL and
/// would be used, or with NOT_FOUND if there is no such handle; `Trap` with `Memory` if the GUID can't be
/// read or a place can't be written.
pub fn locate_handle(
    search: u32,
    guid_at: u64,
    size: u64,
    buffer: u64,
    w: &World,
) -> Result<Change, Stop>
    ensures { result ≡ locate_handle search guid_at size buffer w.now.now }
{
    refuse_search(search, guid_at)?;
    refuse_if(size == 0, Status::INVALID_PARAMETER)?;
    let name = search_protocol(search, guid_at, w)?;
    writable(8, size, w)?;
    let given = number(size, w)?;
    let count = how_many(&name, w);
    refuse_if(count == 0, Status::NOT_FOUND)?;
    handles_in_buffer(given, name, size, buffer, 8 * count, w)
}

/// LocateHandleBuffer.
///
/// # Errors
///
/// `Status` with INVALID_PARAMETER for another search or a pointer that is NULL, or with NOT_FOUND if there
/// is no such handle; `Trap` with `Memory` if the GUID can't be read or a place can't be written.
pub fn locate_handle_buffer(
    search: u32,
    guid_at: u64,
    count: u64,
    buffer: u64,
    w: &World,
) -> Result<Change, Stop>
    ensures { result ≡ locate_handle_buffer search guid_at count buffer w.now.now }
{
    refuse_search(search, guid_at)?;
    refuse_if(count == 0 || buffer == 0, Status::INVALID_PARAMETER)?;
    let name = search_protocol(search, guid_at, w)?;
    writable(8, count, w)?;
    writable(8, buffer, w)?;
    refuse_if(how_many(&name, w) == 0, Status::NOT_FOUND)?;
    Ok(Change::Block {
        contents: Contents::Handles(name),
        buffer,
        count,
        count_first: true,
    })
}

/// What LocateProtocol ends with, by the interface that was found.
fn change_for_found(found: Option<(u64, Handle)>, out: u64) -> Result<Change, Stop>
    ensures { result ≡ change_for_found found out }
{
    match found {
        None => Ok(Change::Store {
            out: Some(out),
            value: 0,
            status: Status::NOT_FOUND,
        }),
        Some((interface, _)) => Ok(Change::Store {
            out: Some(out),
            value: interface,
            status: Status::SUCCESS,
        }),
    }
}

/// LocateProtocol: the interface of the least handle that has the protocol.
///
/// # Errors
///
/// `Status` with INVALID_PARAMETER if a pointer is NULL; `Trap` with `Memory` if the GUID can't be read or
/// `out` can't be written.
pub fn locate_protocol(guid_at: u64, out: u64, w: &World) -> Result<Change, Stop>
    ensures { result ≡ locate_protocol guid_at out w.now.now }
{
    refuse_if(guid_at == 0 || out == 0, Status::INVALID_PARAMETER)?;
    let name = guid(guid_at, w)?;
    writable(8, out, w)?;
    change_for_found(w.db().first_with(name), out)
}
