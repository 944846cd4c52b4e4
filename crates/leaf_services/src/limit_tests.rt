//! Services when a limit is met: anything else that is wrong with a call answers before the limit.

use crate::fillings::Filling;
use crate::order_tests::TABLE_ZERO;
use crate::steps::{
    BAD, Call, DENIED, DONE, FIRST, FULL, INVALID, LIST, MISSING, NAME, NOWHERE, OTHER, SECOND,
    STARTED, Step, TRAPPED, UNKNOWN, from_protocol,
};
use service_thunks::Service;
use std::test::Fail;

// ---- 64 interfaces of a handle

/// InstallProtocolInterface on a handle that has as many interfaces as it may.
const INSTALLS: &[Call] = &[
    ([FIRST, 0, 0, 5, 0, 0], INVALID),
    ([FIRST, BAD, 0, 5, 0, 0], TRAPPED),
    ([FIRST, OTHER, 1, 5, 0, 0], INVALID),
    ([FIRST, NAME, 0, 5, 0, 0], INVALID),
    ([FIRST, OTHER, 0, 5, 0, 0], FULL),
];

#[test]
fn many_interfaces(rt: HostRuntime) -> Result<(), Fail> {
    let steps = [
        Step::Fills(Filling::Interfaces(100, 163)),
        Step::CallsAll(Service::Install, INSTALLS),
    ];
    from_protocol(&rt, &steps)
}

/// InstallMultipleProtocolInterfaces on a handle that may have one more interface.
#[test]
fn pairs_past_the_limit(rt: HostRuntime) -> Result<(), Fail> {
    let s = Service::InstallMultiple;
    let steps = [
        Step::Fills(Filling::Interfaces(100, 162)),
        Step::CallsList(s, &[FIRST, OTHER, 6, NOWHERE, 7, 0], FULL),
        Step::CallsList(s, &[FIRST, OTHER, 6, OTHER, 7, 0], INVALID),
        Step::CallsList(s, &[FIRST, OTHER, 6, NOWHERE, 7, OTHER, 8, 0], FULL),
        Step::CallsList(s, &[FIRST, NAME, 6, OTHER, 7, NOWHERE, 8, 0], INVALID),
        Step::CallsList(s, &[FIRST, OTHER, 6, NOWHERE, 7, BAD, 8, 0], TRAPPED),
        Step::Interfaces(4, 63),
    ];
    from_protocol(&rt, &steps)
}

// ---- 32 pairs

/// 33 pairs, of which the last one's GUID is not read, and then 32.
#[test]
fn most_pairs(rt: HostRuntime) -> Result<(), Fail> {
    let s = Service::InstallMultiple;
    let steps = [
        Step::Fills(Filling::Pairs(BAD)),
        Step::Writes(FIRST, 0),
        Step::CallsAt(s, LIST, INVALID),
        // an address for the handle that can't be written answers first, and so does one of the first 32
        // GUIDs that can't be read
        Step::Writes(LIST, TABLE_ZERO),
        Step::CallsAt(s, LIST, TRAPPED),
        Step::Writes(LIST, FIRST),
        Step::Writes(LIST + 504, BAD),
        Step::CallsAt(s, LIST, TRAPPED),
        Step::Fills(Filling::Pairs(0)),
        Step::CallsAt(s, LIST, DONE),
        Step::Words(FIRST, &[5]),
        Step::Interfaces(5, 32),
    ];
    from_protocol(&rt, &steps)
}

/// 33 pairs are refused before the limit on interfaces is looked at, which 32 pairs meet.
#[test]
fn most_pairs_past_the_limit(rt: HostRuntime) -> Result<(), Fail> {
    let s = Service::InstallMultiple;
    let steps = [
        Step::Fills(Filling::Interfaces(100, 132)),
        Step::Fills(Filling::Pairs(BAD)),
        Step::CallsAt(s, LIST, INVALID),
        Step::Fills(Filling::Pairs(0)),
        Step::CallsAt(s, LIST, FULL),
        Step::Interfaces(4, 33),
    ];
    from_protocol(&rt, &steps)
}

// ---- a full pool

/// Services that return a block, when the pool has no byte left and protocol 1 of handle 4 has an open
/// record.
const PROTOCOLS: &[Call] = &[
    ([4, 0, SECOND, 0, 0, 0], INVALID),
    ([4, BAD, SECOND, 0, 0, 0], TRAPPED),
    ([4, FIRST, SECOND, 0, 0, 0], FULL),
];

const BUFFERS: &[Call] = &[
    ([2, NAME, 0, 0, FIRST, 0], INVALID),
    ([2, NAME, 0, SECOND, BAD, 0], TRAPPED),
    ([2, NAME, 0, SECOND, FIRST, 0], FULL),
];

const INFORMATIONS: &[Call] = &[
    ([4, NAME, 0, SECOND, 0, 0], INVALID),
    ([4, NAME, BAD, SECOND, 0, 0], TRAPPED),
    ([4, NAME, FIRST, SECOND, 0, 0], FULL),
];

#[test]
fn full_pool(rt: HostRuntime) -> Result<(), Fail> {
    let steps = [
        Step::Calls(Service::HandleProtocol, &[4, NAME, SECOND], DONE),
        // all that the 96 bytes of the loaded image block leave
        Step::Calls(Service::AllocatePool, &[0, 67_108_768, SECOND], DONE),
        Step::Writes(SECOND, 7),
        Step::CallsAll(Service::ProtocolsPerHandle, PROTOCOLS),
        Step::CallsAll(Service::LocateHandleBuffer, BUFFERS),
        Step::CallsAll(Service::OpenProtocolInformation, INFORMATIONS),
        Step::Words(FIRST, &[4, 7]),
        // a block of no bytes still has room
        Step::Calls(Service::CloseProtocol, &[4, NAME, 1, 0], DONE),
        Step::Calls(
            Service::OpenProtocolInformation,
            &[4, NAME, FIRST, SECOND],
            DONE,
        ),
    ];
    from_protocol(&rt, &steps)
}

/// Services that make a block, when there are as many blocks as there may be: there is no room even for a
/// block of no bytes.
const MORE_BLOCKS: &[Call] = &[
    ([0, 0, 0, 0, 0, 0], INVALID),
    ([0, 0, BAD, 0, 0, 0], TRAPPED),
    ([0, 0, SECOND, 0, 0, 0], FULL),
];

const MORE_PROTOCOLS: &[Call] = &[
    ([99, FIRST, SECOND, 0, 0, 0], INVALID),
    ([4, FIRST, SECOND, 0, 0, 0], FULL),
];

const MORE_BUFFERS: &[Call] = &[
    ([2, NOWHERE, 0, FIRST, SECOND, 0], MISSING),
    ([2, NAME, 0, FIRST, SECOND, 0], FULL),
    ([0, 0, 0, FIRST, SECOND, 0], FULL),
];

const MORE_INFORMATIONS: &[Call] = &[
    ([99, NAME, FIRST, SECOND, 0, 0], MISSING),
    ([4, NOWHERE, FIRST, SECOND, 0, 0], MISSING),
    ([4, NAME, FIRST, SECOND, 0, 0], FULL),
];

#[test]
fn most_blocks(rt: HostRuntime) -> Result<(), Fail> {
    let steps = [
        Step::Fills(Filling::Blocks),
        Step::CallsAll(Service::AllocatePool, MORE_BLOCKS),
        Step::CallsAll(Service::ProtocolsPerHandle, MORE_PROTOCOLS),
        Step::CallsAll(Service::LocateHandleBuffer, MORE_BUFFERS),
        Step::CallsAll(Service::OpenProtocolInformation, MORE_INFORMATIONS),
        Step::Words(FIRST, &[4]),
    ];
    from_protocol(&rt, &steps)
}

// ---- a full database

/// InstallProtocolInterface when 4,096 handles are live: `FIRST` has 0, the number of no handle, and `SECOND`
/// has that of handle 4.
const NEW_HANDLES: &[Call] = &[
    ([FIRST, 0, 0, 5, 0, 0], INVALID),
    ([TABLE_ZERO, OTHER, 0, 5, 0, 0], TRAPPED),
    ([FIRST, BAD, 0, 5, 0, 0], TRAPPED),
    ([FIRST, OTHER, 1, 5, 0, 0], INVALID),
    ([FIRST, OTHER, 0, 5, 0, 0], FULL),
    ([SECOND, OTHER, 0, 5, 0, 0], DONE),
];

#[test]
fn full_database(rt: HostRuntime) -> Result<(), Fail> {
    let s = Service::InstallMultiple;
    let steps = [
        Step::Fills(Filling::Handles(4092)),
        Step::Words(FIRST, &[4096]),
        Step::Writes(FIRST, 0),
        Step::Writes(SECOND, 4),
        Step::CallsAll(Service::Install, NEW_HANDLES),
        Step::CallsList(s, &[TABLE_ZERO, OTHER, 6, 0, 0, 0], TRAPPED),
        Step::CallsList(s, &[FIRST, OTHER, 6, BAD, 7, 0], TRAPPED),
        Step::CallsList(s, &[FIRST, OTHER, 6, OTHER, 7, 0], FULL),
        Step::CallsList(s, &[SECOND, NOWHERE, 6, 0, 0, 0], DONE),
        Step::Words(FIRST, &[0, 4]),
    ];
    from_protocol(&rt, &steps)
}

// ---- a full table of records

/// OpenProtocol when there are 65,536 records.
const OPENS: &[Call] = &[
    ([4, 0, SECOND, 3, 2, 0x10], INVALID),
    ([99, OTHER, SECOND, 3, 2, 0x10], INVALID),
    ([4, OTHER, 0, 3, 2, 0x10], INVALID),
    ([4, BAD, SECOND, 3, 2, 0x10], TRAPPED),
    ([4, OTHER, BAD, 3, 2, 0x10], TRAPPED),
    ([4, OTHER, SECOND, 3, 2, 0x03], INVALID),
    ([4, OTHER, SECOND, 99, 2, 0x10], INVALID),
    ([4, OTHER, SECOND, 3, 99, 0x10], INVALID),
    ([4, OTHER, SECOND, 3, 4, 0x08], INVALID),
    ([4, NOWHERE, SECOND, 3, 2, 0x10], UNKNOWN),
    ([4, OTHER, SECOND, 3, 2, 0x10], FULL),
    ([4, OTHER, SECOND, 1, 0, 0x02], FULL),
    // no new record is needed: the open is counted, or not recorded, or answered by the records
    ([4, OTHER, BAD, 19, 19, 0x04], DONE),
    ([4, OTHER, SECOND, 99, 1, 0x01], DONE),
    ([4, NAME, SECOND, 3, 2, 0x10], STARTED),
    ([4, NAME, SECOND, 1, 2, 0x10], DENIED),
];

/// HandleProtocol when there are 65,536 records.
const HANDLE_PROTOCOLS: &[Call] = &[
    ([4, OTHER, 0, 0, 0, 0], INVALID),
    ([4, OTHER, BAD, 0, 0, 0], TRAPPED),
    ([4, NOWHERE, SECOND, 0, 0, 0], UNKNOWN),
    ([4, OTHER, SECOND, 0, 0, 0], FULL),
];

#[test]
fn full_table(rt: HostRuntime) -> Result<(), Fail> {
    let steps = [
        Step::Fills(Filling::Handles(15)),
        Step::Writes(FIRST, 4),
        Step::Calls(Service::OpenProtocol, &[4, NAME, SECOND, 3, 2, 0x10], DONE),
        Step::Fills(Filling::Records),
        Step::Records(65_536),
        Step::Writes(SECOND, 7),
        Step::CallsAll(Service::OpenProtocol, OPENS),
        Step::CallsAll(Service::HandleProtocol, HANDLE_PROTOCOLS),
        Step::Records(65_536),
        Step::Calls(Service::CloseProtocol, &[4, OTHER, 1, 1], DONE),
        Step::Calls(Service::OpenProtocol, &[4, OTHER, SECOND, 3, 2, 0x10], DONE),
    ];
    from_protocol(&rt, &steps)
}
