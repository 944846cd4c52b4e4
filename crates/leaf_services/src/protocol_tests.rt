//! The protocol handler services, as drivers call them.

ghost use Rattle.std.specs.Prelude.{◌≡◌, false};
ghost use Rattle.world_model.specs.Stacks.{has_stack};

use crate::reopen;
use crate::steps::{
    Answer, BAD, DENIED, DONE, FIRST, GOES_ON, INVALID, MISSING, NAME, NOWHERE, OTHER, Protocol,
    SECOND, SMALL, STARTED, Step, TRAPPED, UNKNOWN, answer_of, empty_world, from_protocol,
    from_start, handle_of, numbered, prepare, take_all,
};
use fw_types::{Attr, Known};
use fw_world::World;
use guest_memory::GuestMem;
use service_model::Opening;
use service_thunks::Service;
use std::process::Abort;
use std::test::Fail;

// ---- installing and uninstalling

/// The number of a new handle is stored, its interface is opened twice, and its protocol is not installed
/// again.
#[test]
fn first_interface(rt: HostRuntime) -> Result<(), Fail> {
    let steps = [
        // 00 b2 f5 4c b8 68 a5 4c 9e ec b2 3e 3f 50 02 9a
        Step::Writes(NAME, 0x4ca5_68b8_4cf5_b200),
        Step::Writes(NAME + 8, 0x9a02_503f_3eb2_ec9e),
        Step::Calls(Service::Install, &[FIRST, NAME, 0, 5], DONE),
        Step::Words(FIRST, &[4, 0]),
        Step::Writes(SECOND, 7),
        Step::Calls(Service::HandleProtocol, &[4, NAME, SECOND], DONE),
        Step::Words(FIRST, &[4, 5]),
        Step::OnlyRecord(Protocol::Known(Known::PciIo), (1, 0, 0x01, 1)),
        Step::Writes(SECOND, 7),
        Step::Calls(Service::HandleProtocol, &[4, NAME, SECOND], DONE),
        Step::Words(FIRST, &[4, 5]),
        Step::OnlyRecord(Protocol::Known(Known::PciIo), (1, 0, 0x01, 2)),
        Step::Calls(Service::Install, &[FIRST, NAME, 0, 5], INVALID),
        Step::Words(FIRST, &[4, 5]),
        Step::Left(68),
    ];
    from_start(&rt, &steps)
}

/// The arguments of an uninstallation, and of a CloseProtocol.
const UNINSTALL: &[u64] = &[4, NAME, 5];

const CLOSE: &[u64] = &[4, NAME, 3, 2];

/// The service goes on with an interface that the handle has, whoever has it open. Nothing changes before
/// that.
#[test]
fn interfaces_to_uninstall(rt: HostRuntime) -> Result<(), Fail> {
    let steps = [
        Step::Calls(Service::HandleProtocol, &[4, NAME, SECOND], DONE),
        Step::Calls(Service::OpenProtocol, &[4, NAME, SECOND, 3, 2, 0x08], DONE),
        Step::Calls(Service::Uninstall, UNINSTALL, GOES_ON),
        Step::Calls(Service::CloseProtocol, CLOSE, DONE),
        Step::Calls(Service::CloseProtocol, CLOSE, MISSING),
        Step::Calls(Service::OpenProtocol, &[4, NAME, SECOND, 3, 2, 0x10], DONE),
        Step::Calls(Service::Uninstall, UNINSTALL, GOES_ON),
        Step::Calls(Service::CloseProtocol, CLOSE, DONE),
        Step::Calls(Service::CloseProtocol, CLOSE, MISSING),
        Step::Calls(Service::OpenProtocol, &[4, NAME, SECOND, 3, 2, 0x20], DONE),
        Step::Calls(Service::Uninstall, UNINSTALL, GOES_ON),
        Step::Calls(Service::CloseProtocol, CLOSE, DONE),
        Step::Calls(Service::CloseProtocol, CLOSE, MISSING),
        Step::Calls(Service::OpenProtocol, &[4, NAME, SECOND, 3, 2, 0x30], DONE),
        Step::Calls(Service::Uninstall, UNINSTALL, GOES_ON),
        Step::Calls(Service::CloseProtocol, CLOSE, DONE),
        Step::Calls(Service::CloseProtocol, CLOSE, MISSING),
        Step::Records(1),
        Step::Live(4, true),
    ];
    from_protocol(&rt, &steps)
}

/// The service goes on with pairs that the handle has. It refuses a list with a pair that the handle does not
/// have, and a dead handle.
#[test]
fn pairs_to_uninstall(rt: HostRuntime) -> Result<(), Fail> {
    let s = Service::UninstallMultiple;
    let steps = [
        Step::CallsList(s, &[4, NAME, 5, NAME, 5, 0], GOES_ON),
        Step::CallsList(s, &[4, NAME, 5, NAME, 6, 0], INVALID),
        Step::CallsList(s, &[4, NAME, 5, OTHER, 5, 0], INVALID),
        Step::CallsList(s, &[4, 0], GOES_ON),
        Step::CallsList(s, &[99, 0], INVALID),
        // pointers are checked before the handle
        Step::CallsList(s, &[99, BAD, 5, 0], TRAPPED),
    ];
    from_protocol(&rt, &steps)
}

/// Pairs, of which handle 4 has the last.
const LIST_OF_PAIRS: &[u64] = &[FIRST, OTHER, 6, NOWHERE, 7, NAME, 8, 0];

/// Pairs are installed on one new handle; a third pair that is refused leaves nothing.
#[test]
fn pairs(rt: HostRuntime) -> Result<(), Fail> {
    let s = Service::InstallMultiple;
    let steps = [
        Step::Writes(FIRST, 0),
        Step::CallsList(s, &[FIRST, OTHER, 6, NOWHERE, 7, OTHER, 8, 0], INVALID),
        Step::Words(FIRST, &[0]),
        Step::Live(5, false),
        // and on a handle that has the third
        Step::Writes(FIRST, 4),
        Step::CallsList(s, LIST_OF_PAIRS, INVALID),
        Step::Interfaces(4, 1),
        Step::Writes(FIRST, 0),
        Step::CallsList(s, LIST_OF_PAIRS, DONE),
        Step::Words(FIRST, &[5]),
        Step::Interface(5, Protocol::Numbered(2), 6),
        Step::Interface(5, Protocol::Numbered(9), 7),
        Step::Interface(5, Protocol::Numbered(1), 8),
    ];
    from_protocol(&rt, &steps)
}

// ---- opening

/// Opens, one after the other.
#[test]
fn opens(rt: HostRuntime) -> Result<(), Fail> {
    let steps = [
        // no such protocol: 0 is stored, but never with TEST_PROTOCOL
        Step::Opens(&[4, NOWHERE, SECOND, 3, 2, 0x10], UNKNOWN, 0, 0),
        Step::Opens(&[4, NOWHERE, SECOND, 3, 2, 0x04], UNKNOWN, 7, 0),
        Step::Opens(&[4, NOWHERE, 0, 3, 2, 0x04], UNKNOWN, 7, 0),
        Step::Opens(&[4, NAME, BAD, 3, 2, 0x04], DONE, 7, 1),
        // an agent that is dead counts as 0, and no record is kept
        Step::Opens(&[4, NAME, SECOND, 99, 2, 0x02], DONE, 5, 1),
        Step::Opens(&[4, NAME, SECOND, 0, 2, 0x01], DONE, 5, 1),
        Step::Opens(&[4, NAME, SECOND, 99, 2, 0x04], DONE, 7, 1),
        // a controller that is dead counts as 0 too
        Step::Opens(&[4, NAME, SECOND, 3, 99, 0x02], DONE, 5, 2),
        Step::Opens(&[4, NAME, SECOND, 3, 0, 0x02], DONE, 5, 2),
        Step::Opens(&[4, NAME, SECOND, 3, 2, 0x10], DONE, 5, 3),
        Step::Opens(&[4, NAME, SECOND, 3, 1, 0x10], STARTED, 5, 3),
        Step::Opens(&[4, NAME, SECOND, 1, 2, 0x10], DENIED, 7, 3),
        // the driver is disconnected first, and nothing changes before that
        Step::Opens(&[4, NAME, SECOND, 1, 2, 0x20], GOES_ON, 7, 3),
        // the attribute's upper half is not looked at
        Step::Opens(&[4, NAME, SECOND, 1, 2, 0x1_0000_0002], DONE, 5, 4),
    ];
    from_protocol(&rt, &steps)
}

/// A dead controller counts as 0 with EXCLUSIVE, although a dead agent is refused.
#[test]
fn exclusive_for_a_dead_controller(rt: HostRuntime) -> Result<(), Fail> {
    let steps = [
        Step::Calls(Service::OpenProtocol, &[4, NAME, SECOND, 3, 99, 0x20], DONE),
        Step::OnlyRecord(Protocol::Numbered(1), (3, 0, 0x20, 1)),
    ];
    from_protocol(&rt, &steps)
}

/// A second look of an open of protocol 1: its agent, its controller and its attributes, what it answers, and
/// what is then stored in place of 7.
type Look = (u64, u64, u32, Answer, u64);

/// Second looks, one after the other.
const LOOKS: [Look; 4] = [
    (99, 2, 0x20, INVALID, 7),
    (3, 99, 0x30, INVALID, 7),
    // a controller that is dead counts as 0
    (3, 99, 0x20, DONE, 5),
    // that open keeps out each later one, even of the same agent
    (3, 2, 0x30, DENIED, 7),
];

#[test]
fn second_looks(rt: HostRuntime) -> Result<(), Fail> {
    let mut world = empty_world(&rt)?;
    second_looks_in(&rt, &mut world)
}

fn second_looks_in(rt: &(impl AllocGlobal + Abort), world: &mut World) -> Result<(), Fail>
    requires { has_stack 1 world.old.now.soft.memory ≡ false }
{
    prepare(rt, world)?;
    for (agent, controller, bits, answer, stored) in LOOKS {
        take_all(rt, world, &[Step::Writes(SECOND, 7)])?;
        let served = second_look(rt, world, agent, controller, bits)?;
        assert_eq!(rt; (served, world.read(SECOND, 8)), (answer, Some(stored)));
    }
    let record = (3, 0, 0x20, 1);
    take_all(
        rt,
        world,
        &[Step::OnlyRecord(Protocol::Numbered(1), record)],
    )
}

fn second_look(
    rt: &impl Abort,
    world: &mut World,
    agent: u64,
    controller: u64,
    bits: u32,
) -> Result<Answer, Fail> {
    let opening = Opening {
        handle: handle_of(rt, 4),
        guid: numbered(1),
        out: SECOND,
        agent,
        controller,
        attr: Attr::legal(bits).expect(rt, "legal attributes"),
    };
    Ok(answer_of(reopen(world, &opening)?))
}

// ---- what is there

/// The block of OpenProtocolInformation, and one of no records.
#[test]
fn information(rt: HostRuntime) -> Result<(), Fail> {
    let s = Service::OpenProtocolInformation;
    let steps = [
        Step::Calls(s, &[4, NAME, FIRST, SECOND], DONE),
        Step::Words(FIRST, &[0x1_0000_0060, 0]),
        Step::NoByte(0x1_0000_0060),
        Step::Calls(Service::OpenProtocol, &[4, NAME, SECOND, 3, 2, 0x10], DONE),
        Step::Calls(Service::HandleProtocol, &[4, NAME, SECOND], DONE),
        Step::Calls(Service::HandleProtocol, &[4, NAME, SECOND], DONE),
        Step::Calls(s, &[4, NAME, FIRST, SECOND], DONE),
        Step::Words(FIRST, &[0x1_0000_0070, 2]),
        Step::Words(0x1_0000_0070, &[3, 2, 0x1_0000_0010]),
        Step::Words(0x1_0000_0088, &[1, 0, 0x2_0000_0001]),
        Step::NoByte(0x1_0000_00a0),
    ];
    from_protocol(&rt, &steps)
}

/// The block of ProtocolsPerHandle.
#[test]
fn protocols(rt: HostRuntime) -> Result<(), Fail> {
    let steps = [
        Step::Calls(Service::Install, &[FIRST, OTHER, 0, 6], DONE),
        Step::Calls(Service::ProtocolsPerHandle, &[4, FIRST, SECOND], DONE),
        Step::Words(FIRST, &[0x1_0000_0060, 2]),
        Step::Words(0x1_0000_0060, &[0x1_0000_0070, 0x1_0000_0080]),
        Step::Words(0x1_0000_0070, &[0, 1, 0, 2]),
        Step::NoByte(0x1_0000_0090),
    ];
    from_protocol(&rt, &steps)
}

// ---- which handles have a protocol

/// Handle 5 gets protocol 2, and then handle 2 gets it too.
fn from_two_handles(rt: &(impl AllocGlobal + Abort), steps: &[Step]) -> Result<(), Fail> {
    let mut world = empty_world(rt)?;
    take_after_two(rt, &mut world, steps)
}

const TWO_INSTALLS: &[Step] = &[
    Step::Writes(FIRST, 0),
    Step::Calls(Service::Install, &[FIRST, OTHER, 0, 6], DONE),
    Step::Writes(FIRST, 2),
    Step::Calls(Service::Install, &[FIRST, OTHER, 0, 8], DONE),
];

fn take_after_two(
    rt: &(impl AllocGlobal + Abort),
    world: &mut World,
    steps: &[Step],
) -> Result<(), Fail>
    requires { has_stack 1 world.old.now.soft.memory ≡ false }
{
    prepare(rt, world)?;
    take_all(rt, world, TWO_INSTALLS)?;
    take_all(rt, world, steps)
}

/// LocateHandle: handles by rising number, and how many bytes they take.
#[test]
fn rising_handles(rt: HostRuntime) -> Result<(), Fail> {
    let s = Service::LocateHandle;
    let steps = [
        Step::Writes(FIRST, 99),
        // neither the key nor the upper half of the type of search is looked at
        Step::Calls(s, &[0x1_0000_0002, OTHER, BAD, FIRST, SECOND], DONE),
        Step::Words(FIRST, &[16, 2, 5]),
        // in a search for all handles the GUID is not looked at
        Step::Calls(s, &[0, BAD, BAD, FIRST, SECOND], SMALL),
        Step::Words(FIRST, &[40, 2, 5]),
        Step::Calls(s, &[0, BAD, BAD, FIRST, SECOND], DONE),
        Step::Words(FIRST, &[40, 1, 2, 3, 4, 5]),
    ];
    from_two_handles(&rt, &steps)
}

/// LocateHandleBuffer, whose number is stored before its address.
#[test]
fn handles_in_a_block(rt: HostRuntime) -> Result<(), Fail> {
    let s = Service::LocateHandleBuffer;
    let steps = [
        Step::Calls(s, &[0, BAD, BAD, FIRST, SECOND], DONE),
        Step::Words(FIRST, &[5, 0x1_0000_0060]),
        Step::Words(0x1_0000_0060, &[1, 2, 3, 4, 5]),
        Step::Calls(s, &[2, OTHER, BAD, FIRST, FIRST], DONE),
        Step::Words(FIRST, &[0x1_0000_0090]),
        Step::Words(0x1_0000_0090, &[2, 5]),
    ];
    from_two_handles(&rt, &steps)
}

/// LocateProtocol: the interface of the least handle, and 0 if there is none.
#[test]
fn least_handle(rt: HostRuntime) -> Result<(), Fail> {
    let steps = [
        Step::Calls(Service::LocateProtocol, &[OTHER, BAD, FIRST], DONE),
        Step::Words(FIRST, &[8]),
        Step::Calls(Service::LocateProtocol, &[NOWHERE, BAD, FIRST], MISSING),
        Step::Words(FIRST, &[0]),
    ];
    from_two_handles(&rt, &steps)
}
