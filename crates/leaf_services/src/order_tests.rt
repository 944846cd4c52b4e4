//! If two things are wrong with a call, the earlier check answers. For each two refusals or traps of a
//! service that answer differently and can hold at once, there is a call in which both hold.

use crate::steps::{
    BAD, Call, DENIED, DONE, FIRST, GOES_ON, INVALID, LOADED, MISSING, NAME, NOWHERE, OTHER,
    SECOND, SMALL, STACK_END, STARTED, Step, TABLE, TRAPPED, UNKNOWN, from_protocol,
};
use service_thunks::Service;
use std::test::Fail;

/// A place in a table whose 8 bytes are 1, the firmware's handle, and a place whose 8 bytes are 0.
const TABLE_ONE: u64 = TABLE + 32;

pub(crate) const TABLE_ZERO: u64 = TABLE + 40;

/// InstallProtocolInterface, with the number of a dead handle at `SECOND`.
const INSTALLS: &[Call] = &[
    // a pointer that is NULL is found before the other is read
    ([0, BAD, 0, 5, 0, 0], INVALID),
    ([BAD, 0, 0, 5, 0, 0], INVALID),
    // pointers are checked before the type
    ([TABLE_ZERO, NAME, 1, 5, 0, 0], TRAPPED),
    ([FIRST, BAD, 1, 5, 0, 0], TRAPPED),
    // pointers are checked before a dead handle is found
    ([TABLE, NAME, 0, 5, 0, 0], TRAPPED),
    ([SECOND, BAD, 0, 5, 0, 0], TRAPPED),
    // and before a protocol that is already installed
    ([TABLE_ONE, LOADED, 0, 5, 0, 0], TRAPPED),
    // each alone
    ([FIRST, OTHER, 1, 5, 0, 0], INVALID),
    ([SECOND, OTHER, 0, 5, 0, 0], INVALID),
    ([FIRST, NAME, 0, 5, 0, 0], INVALID),
    // the type's upper half is not looked at
    ([FIRST, OTHER, 1 << 32, 5, 0, 0], DONE),
];

#[test]
fn installs(rt: HostRuntime) -> Result<(), Fail> {
    let steps = [
        Step::Writes(SECOND, 99),
        Step::CallsAll(Service::Install, INSTALLS),
    ];
    from_protocol(&rt, &steps)
}

/// UninstallProtocolInterface, while a driver uses protocol 1 of handle 4.
const UNINSTALLS: &[Call] = &[
    ([4, 0, 5, 0, 0, 0], INVALID),
    ([99, BAD, 5, 0, 0, 0], TRAPPED),
    ([99, NAME, 5, 0, 0, 0], INVALID),
    // the handle does not have an interface at another address
    ([1, LOADED, 5, 0, 0, 0], MISSING),
    ([4, NAME, 6, 0, 0, 0], MISSING),
    // each alone
    ([4, NOWHERE, 5, 0, 0, 0], MISSING),
    // it is not checked yet who owns the interface or who uses it
    ([1, LOADED, 0x1_4000, 0, 0, 0], GOES_ON),
    ([4, NAME, 5, 0, 0, 0], GOES_ON),
];

#[test]
fn uninstalls(rt: HostRuntime) -> Result<(), Fail> {
    let steps = [
        Step::Calls(Service::OpenProtocol, &[4, NAME, SECOND, 3, 2, 0x10], DONE),
        Step::CallsAll(Service::Uninstall, UNINSTALLS),
    ];
    from_protocol(&rt, &steps)
}

/// HandleProtocol.
const HANDLE_PROTOCOLS: &[Call] = &[
    ([4, 0, BAD, 0, 0, 0], INVALID),
    ([99, BAD, SECOND, 0, 0, 0], INVALID),
    ([99, NAME, BAD, 0, 0, 0], INVALID),
    ([99, NAME, SECOND, 0, 0, 0], INVALID),
    ([4, BAD, 0, 0, 0, 0], INVALID),
    ([4, NOWHERE, 0, 0, 0, 0], INVALID),
    ([4, NOWHERE, TABLE, 0, 0, 0], TRAPPED),
    ([4, NOWHERE, SECOND, 0, 0, 0], UNKNOWN),
];

#[test]
fn handle_protocols(rt: HostRuntime) -> Result<(), Fail> {
    from_protocol(
        &rt,
        &[Step::CallsAll(Service::HandleProtocol, HANDLE_PROTOCOLS)],
    )
}

/// OpenProtocol while nothing is open.
const OPENS: &[Call] = &[
    ([4, 0, BAD, 3, 2, 0x10], INVALID),
    ([99, BAD, SECOND, 3, 2, 0x10], INVALID),
    ([99, NAME, BAD, 3, 2, 0x10], INVALID),
    ([99, NAME, SECOND, 3, 2, 0x10], INVALID),
    ([4, BAD, 0, 3, 2, 0x10], INVALID),
    ([4, NOWHERE, 0, 3, 2, 0x10], INVALID),
    // pointers are checked before the attribute, the agent and the controller
    ([4, BAD, SECOND, 3, 2, 0x03], TRAPPED),
    ([4, BAD, SECOND, 99, 2, 0x10], TRAPPED),
    ([4, BAD, SECOND, 3, 99, 0x10], TRAPPED),
    ([4, BAD, SECOND, 3, 4, 0x08], TRAPPED),
    ([4, NAME, TABLE, 3, 2, 0x03], TRAPPED),
    ([4, NAME, TABLE, 99, 2, 0x10], TRAPPED),
    ([4, NAME, TABLE, 3, 99, 0x10], TRAPPED),
    ([4, NAME, TABLE, 3, 4, 0x08], TRAPPED),
    ([4, NOWHERE, BAD, 3, 2, 0x01], TRAPPED),
    // these are checked before it is asked whether the handle has the protocol
    ([4, NOWHERE, SECOND, 3, 2, 0x03], INVALID),
    ([4, NOWHERE, SECOND, 99, 2, 0x20], INVALID),
    ([4, NOWHERE, SECOND, 0, 2, 0x20], INVALID),
    ([4, NOWHERE, SECOND, 3, 99, 0x10], INVALID),
    ([4, NOWHERE, SECOND, 3, 4, 0x08], INVALID),
    ([4, NOWHERE, SECOND, 3, 2, 0x10], UNKNOWN),
];

/// OpenProtocol while image 3 has protocol 1 of handle 4 open as a driver.
const SECOND_OPENS: &[Call] = &[
    ([4, NAME, 0, 3, 2, 0x10], INVALID),
    ([4, NAME, 0, 1, 2, 0x10], INVALID),
    ([4, NAME, BAD, 3, 2, 0x10], TRAPPED),
    ([4, NAME, BAD, 1, 2, 0x10], TRAPPED),
    ([4, NAME, SECOND, 3, 99, 0x10], INVALID),
    ([4, NAME, SECOND, 1, 99, 0x10], INVALID),
    ([4, NAME, SECOND, 99, 2, 0x20], INVALID),
    ([4, NAME, SECOND, 3, 2, 0x10], STARTED),
    ([4, NAME, SECOND, 1, 2, 0x10], DENIED),
];

#[test]
fn opens(rt: HostRuntime) -> Result<(), Fail> {
    let steps = [
        Step::CallsAll(Service::OpenProtocol, OPENS),
        Step::Records(0),
        Step::Calls(Service::OpenProtocol, &[4, NAME, SECOND, 3, 2, 0x10], DONE),
        Step::CallsAll(Service::OpenProtocol, SECOND_OPENS),
        Step::Records(1),
    ];
    from_protocol(&rt, &steps)
}

/// CloseProtocol.
const CLOSES: &[Call] = &[
    ([4, 0, 3, 2, 0, 0], INVALID),
    ([99, BAD, 3, 2, 0, 0], TRAPPED),
    ([4, BAD, 99, 2, 0, 0], TRAPPED),
    ([4, BAD, 3, 99, 0, 0], TRAPPED),
    ([99, NAME, 3, 2, 0, 0], INVALID),
    // dead handles are found before a protocol or a record that is not there
    ([4, NOWHERE, 99, 2, 0, 0], INVALID),
    ([4, NOWHERE, 3, 99, 0, 0], INVALID),
    ([4, NAME, 99, 2, 0, 0], INVALID),
    ([4, NAME, 3, 99, 0, 0], INVALID),
    // each alone
    ([4, NOWHERE, 3, 2, 0, 0], MISSING),
    ([4, NAME, 3, 2, 0, 0], MISSING),
];

#[test]
fn closes(rt: HostRuntime) -> Result<(), Fail> {
    from_protocol(&rt, &[Step::CallsAll(Service::CloseProtocol, CLOSES)])
}

/// OpenProtocolInformation.
const INFORMATIONS: &[Call] = &[
    ([4, 0, BAD, SECOND, 0, 0], INVALID),
    ([4, 0, FIRST, BAD, 0, 0], INVALID),
    ([4, BAD, 0, SECOND, 0, 0], INVALID),
    ([4, NAME, 0, BAD, 0, 0], INVALID),
    ([4, BAD, FIRST, 0, 0, 0], INVALID),
    ([4, NAME, BAD, 0, 0, 0], INVALID),
    // NULL is found before a dead handle and before a protocol that is not there
    ([99, 0, FIRST, SECOND, 0, 0], INVALID),
    ([99, NAME, 0, SECOND, 0, 0], INVALID),
    ([4, NOWHERE, FIRST, 0, 0, 0], INVALID),
    // and so are the other pointers
    ([99, BAD, FIRST, SECOND, 0, 0], TRAPPED),
    ([99, NAME, TABLE, SECOND, 0, 0], TRAPPED),
    ([99, NAME, FIRST, TABLE, 0, 0], TRAPPED),
    ([4, NOWHERE, TABLE, SECOND, 0, 0], TRAPPED),
    ([4, NOWHERE, FIRST, TABLE, 0, 0], TRAPPED),
    // each alone
    ([99, NAME, FIRST, SECOND, 0, 0], MISSING),
    ([0, NAME, FIRST, SECOND, 0, 0], MISSING),
    ([4, NOWHERE, FIRST, SECOND, 0, 0], MISSING),
];

#[test]
fn informations(rt: HostRuntime) -> Result<(), Fail> {
    let steps = [
        Step::CallsAll(Service::OpenProtocolInformation, INFORMATIONS),
        Step::Words(FIRST, &[4]),
    ];
    from_protocol(&rt, &steps)
}

/// ProtocolsPerHandle.
const PROTOCOLS: &[Call] = &[
    ([4, 0, BAD, 0, 0, 0], INVALID),
    ([4, BAD, 0, 0, 0, 0], INVALID),
    ([99, BAD, SECOND, 0, 0, 0], TRAPPED),
    ([99, FIRST, TABLE, 0, 0, 0], TRAPPED),
    ([99, FIRST, SECOND, 0, 0, 0], INVALID),
];

#[test]
fn protocols(rt: HostRuntime) -> Result<(), Fail> {
    from_protocol(
        &rt,
        &[Step::CallsAll(Service::ProtocolsPerHandle, PROTOCOLS)],
    )
}

/// LocateHandle, with a size at `FIRST` that is enough for one handle, and one at `SECOND` that is not.
const SEARCHES: &[Call] = &[
    ([1, NAME, 0, BAD, SECOND, 0], INVALID),
    ([1, NAME, 0, FIRST, BAD, 0], INVALID),
    ([2, BAD, 0, 0, SECOND, 0], INVALID),
    ([2, NOWHERE, 0, 0, SECOND, 0], INVALID),
    ([2, NAME, 0, 0, BAD, 0], INVALID),
    ([2, 0, 0, BAD, SECOND, 0], INVALID),
    // the first pointers are checked before a buffer that is NULL, and before the search
    ([2, BAD, 0, FIRST, 0, 0], TRAPPED),
    ([2, NAME, 0, TABLE, 0, 0], TRAPPED),
    ([2, NOWHERE, 0, TABLE, SECOND, 0], TRAPPED),
    ([2, NAME, 0, TABLE_ZERO, SECOND, 0], TRAPPED),
    ([2, NOWHERE, 0, FIRST, 0, 0], MISSING),
    // each alone
    ([2, NOWHERE, 0, FIRST, SECOND, 0], MISSING),
    ([2, NAME, 0, FIRST, 0, 0], INVALID),
    ([2, NAME, 0, FIRST, BAD, 0], TRAPPED),
];

#[test]
fn searches(rt: HostRuntime) -> Result<(), Fail> {
    let s = Service::LocateHandle;
    let steps = [
        Step::Writes(FIRST, 8),
        Step::CallsAll(s, SEARCHES),
        // a size that is not enough answers before the buffer is checked; the size that is needed is stored
        Step::Writes(FIRST, 7),
        Step::Calls(s, &[2, NAME, 0, FIRST, 0, 0], SMALL),
        Step::Words(FIRST, &[8]),
        Step::Writes(FIRST, 7),
        Step::Calls(s, &[2, NAME, 0, FIRST, BAD, 0], SMALL),
        Step::Words(FIRST, &[8]),
    ];
    from_protocol(&rt, &steps)
}

/// LocateHandleBuffer.
const BUFFERS: &[Call] = &[
    ([1, NAME, 0, BAD, SECOND, 0], INVALID),
    ([1, NAME, 0, FIRST, BAD, 0], INVALID),
    ([2, 0, 0, BAD, SECOND, 0], INVALID),
    ([2, 0, 0, FIRST, BAD, 0], INVALID),
    ([2, BAD, 0, 0, SECOND, 0], INVALID),
    ([2, NAME, 0, 0, BAD, 0], INVALID),
    ([2, NOWHERE, 0, 0, SECOND, 0], INVALID),
    ([2, BAD, 0, FIRST, 0, 0], INVALID),
    ([2, NAME, 0, BAD, 0, 0], INVALID),
    ([2, NOWHERE, 0, FIRST, 0, 0], INVALID),
    ([2, BAD, 0, FIRST, SECOND, 0], TRAPPED),
    ([2, NOWHERE, 0, TABLE, SECOND, 0], TRAPPED),
    ([2, NOWHERE, 0, FIRST, TABLE, 0], TRAPPED),
    ([2, NOWHERE, 0, FIRST, SECOND, 0], MISSING),
];

#[test]
fn buffers(rt: HostRuntime) -> Result<(), Fail> {
    from_protocol(&rt, &[Step::CallsAll(Service::LocateHandleBuffer, BUFFERS)])
}

/// LocateProtocol.
const FINDS: &[Call] = &[
    ([0, 0, BAD, 0, 0, 0], INVALID),
    ([BAD, 0, 0, 0, 0, 0], INVALID),
    ([NOWHERE, 0, 0, 0, 0, 0], INVALID),
    ([BAD, 0, SECOND, 0, 0, 0], TRAPPED),
    ([NOWHERE, 0, TABLE, 0, 0, 0], TRAPPED),
    ([NOWHERE, 0, SECOND, 0, 0, 0], MISSING),
];

#[test]
fn finds(rt: HostRuntime) -> Result<(), Fail> {
    from_protocol(&rt, &[Step::CallsAll(Service::LocateProtocol, FINDS)])
}

/// InstallMultipleProtocolInterfaces: the first argument and the list after it, with the number of handle 4 at
/// `FIRST` and that of a dead handle at `SECOND`.
#[test]
fn lists(rt: HostRuntime) -> Result<(), Fail> {
    let s = Service::InstallMultiple;
    let steps = [
        Step::Writes(SECOND, 99),
        Step::CallsList(s, &[0, BAD, 6, 0, 0, 0], INVALID),
        Step::CallsList(s, &[TABLE, OTHER, 6, 0, 0, 0], TRAPPED),
        Step::CallsList(s, &[TABLE_ONE, LOADED, 6, 0, 0, 0], TRAPPED),
        // each GUID is read before a pair is judged
        Step::CallsList(s, &[FIRST, NAME, 6, BAD, 7, 0], TRAPPED),
        Step::CallsList(s, &[SECOND, OTHER, 6, BAD, 7, 0], TRAPPED),
        // each alone
        Step::CallsList(s, &[FIRST, NAME, 6, 0, 0, 0], INVALID),
        Step::CallsList(s, &[FIRST, OTHER, 6, OTHER, 7, 0], INVALID),
        Step::CallsList(s, &[SECOND, OTHER, 6, 0, 0, 0], INVALID),
        // a list of no pairs: the handle's value is not looked at, but it must be writable
        Step::CallsList(s, &[TABLE, 0, 0, 0, 0, 0], TRAPPED),
        Step::CallsList(s, &[SECOND, 0, 0, 0, 0, 0], DONE),
        // the list is read before anything else
        Step::Writes(STACK_END - 8, 0),
        Step::CallsAt(s, STACK_END - 8, TRAPPED),
        Step::Words(FIRST, &[4, 99]),
    ];
    from_protocol(&rt, &steps)
}
