//! What tests do to a world, and what they then find in it: a test is a list of steps.

ghost use Rattle.std.specs.Prelude.{◌≡◌, IfOk, false};
ghost use Rattle.service_model.specs.BootServices.{is_boot_service};
ghost use Rattle.world_model.specs.Stacks.{has_stack};

use crate::fillings::{Filling, fill};
use crate::{Caller, Served, serve};
use fw_types::{Cause, Guid, Handle, Known, Status};
use fw_world::World;
use guest_memory::GuestMem;
use pci_model::Board;
use service_thunks::Service;
use std::process::Abort;
use std::test::Fail;

// ---- the places of arguments, and what services answer

/// The beginning of the sixteen slots of the stack of level 1, and the end of the stack.
const SLOTS: u64 = 0x81_ff80;

pub(crate) const STACK_END: u64 = 0x82_0000;

/// A place on the stack of level 1 far from its frame.
pub(crate) const PLACE: u64 = 0x81_8000;

/// The place of a list of arguments.
pub(crate) const LIST: u64 = PLACE + 0x1000;

/// Places of the GUIDs of protocols 1 and 2, of one that no handle has, and of the loaded image protocol.
pub(crate) const NAME: u64 = PLACE + 0x100;

pub(crate) const OTHER: u64 = PLACE + 0x110;

pub(crate) const NOWHERE: u64 = PLACE + 0x120;

pub(crate) const LOADED: u64 = PLACE + 0x130;

/// Places at which handles, interfaces and sizes are stored.
pub(crate) const FIRST: u64 = PLACE;

pub(crate) const SECOND: u64 = PLACE + 8;

/// A place in no segment, and a table, which can't be written.
pub(crate) const BAD: u64 = 0x1000;

pub(crate) const TABLE: u64 = 0x1_0000;

/// What a service answers.
#[derive(Clone, Copy, Debug, PartialEq, Eq)]
pub(crate) enum Answer {
    Value(u64),
    Trap(Cause),
    GoesOn,
}

pub(crate) const TRAPPED: Answer = Answer::Trap(Cause::Memory);

pub(crate) const DONE: Answer = Answer::Value(Status::SUCCESS.0);

pub(crate) const INVALID: Answer = Answer::Value(Status::INVALID_PARAMETER.0);

pub(crate) const UNKNOWN: Answer = Answer::Value(Status::UNSUPPORTED.0);

pub(crate) const MISSING: Answer = Answer::Value(Status::NOT_FOUND.0);

pub(crate) const SMALL: Answer = Answer::Value(Status::BUFFER_TOO_SMALL.0);

pub(crate) const DENIED: Answer = Answer::Value(Status::ACCESS_DENIED.0);

pub(crate) const STARTED: Answer = Answer::Value(Status::ALREADY_STARTED.0);

pub(crate) const GOES_ON: Answer = Answer::GoesOn;

pub(crate) const FULL: Answer = Answer::Value(Status::OUT_OF_RESOURCES.0);

pub(crate) fn answer_of(served: Served) -> Answer {
    match served {
        Served::Value(value) => Answer::Value(value),
        Served::Trap(cause) => Answer::Trap(cause),
        Served::Again(_) => Answer::GoesOn,
    }
}

// ---- steps

/// The arguments of a call, and what it answers.
pub(crate) type Call = ([u64; 6], Answer);

/// A protocol, by its name or by the number for which `name` puts a GUID.
#[derive(Clone, Copy)]
pub(crate) enum Protocol {
    Known(Known),
    Numbered(u8),
}

/// A step of a test: what is done to the world, or what must then be found there.
#[derive(Clone, Copy)]
pub(crate) enum Step {
    /// A word of 8 bytes is written at an address.
    Writes(u64, u64),
    /// The GUID of a number is put at an address.
    Names(u64, u64),
    /// Something is used up.
    Fills(Filling),
    /// Image 3 calls a service with these arguments, and the service answers this.
    Calls(Service, &'static [u64], Answer),
    /// The same, and the service spends this many units.
    Spends(Service, &'static [u64], Answer, u64),
    /// A service answers each of these calls as given.
    CallsAll(Service, &'static [Call]),
    /// Image 3 calls a service with the arguments that lie at an address.
    CallsAt(Service, u64, Answer),
    /// The same with arguments that are first put at `LIST`.
    CallsList(Service, &'static [u64], Answer),
    /// AllocatePool of this many bytes: what it answers, what is then at `PLACE`, where 7 was, and the units
    /// that it spends.
    Allocates(u64, Answer, u64, u64),
    /// OpenProtocol: what it answers, what is then at `SECOND`, where 7 was, and how many records there are.
    Opens(&'static [u64], Answer, u64, u32),
    /// These words of 8 bytes lie one after the other from an address on.
    Words(u64, &'static [u64]),
    /// 4 bytes are read at an address.
    Half(u64, u32),
    /// A byte is read at an address.
    Byte(u64, u8),
    /// No 8 bytes can be read at an address, or not even one byte.
    NoWord(u64),
    NoByte(u64),
    /// This many units are left.
    Left(u64),
    /// The task priority level.
    Level(u8),
    /// Whether a handle is live.
    Live(u64, bool),
    /// How many interfaces a handle has.
    Interfaces(u64, usize),
    /// The interface of a protocol on a handle. Handle 3 has installed it.
    Interface(u64, Protocol, u64),
    /// How many records there are.
    Records(u32),
    /// The only record on a protocol of handle 4: its agent, controller, attributes and count.
    OnlyRecord(Protocol, (u64, u64, u32, u32)),
}

/// Takes the steps, one after the other.
pub(crate) fn take_all(rt: &impl Abort, world: &mut World, steps: &[Step]) -> Result<(), Fail> {
    for step in steps {
        take(rt, world, step)?;
    }
    Ok(())
}

fn take(rt: &impl Abort, world: &mut World, step: &Step) -> Result<(), Fail> {
    match *step {
        Step::Writes(at, word) => put_word(world, at, word),
        Step::Names(at, number) => put_name(world, at, number),
        Step::Fills(filling) => fill(world, filling),
        Step::Calls(s, arguments, answer) => calls(rt, world, s, arguments, answer),
        Step::Spends(s, arguments, answer, price) => spends(rt, world, s, arguments, answer, price),
        Step::CallsAll(s, rows) => calls_all(rt, world, s, rows),
        Step::CallsAt(s, at, answer) => calls_at(rt, world, s, at, answer),
        Step::CallsList(s, arguments, answer) => calls_list(rt, world, s, arguments, answer),
        Step::Allocates(size, answer, at, price) => allocates(rt, world, size, answer, at, price),
        Step::Opens(arguments, answer, stored, many) => {
            opens(rt, world, arguments, answer, stored, many)
        }
        _ => finds(rt, world, step),
    }
}

fn finds(rt: &impl Abort, world: &World, step: &Step) -> Result<(), Fail> {
    match *step {
        Step::OnlyRecord(protocol, wanted) => finds_record(rt, world, protocol, wanted)?,
        Step::Words(at, words) => finds_words(rt, world, at, words),
        Step::Half(at, half) => {
            assert_eq!(rt; world.read(at, 4), Some(u64::from(half)), "at {at:x}");
        }
        Step::Byte(at, byte) => {
            assert_eq!(rt; world.read(at, 1), Some(u64::from(byte)), "at {at:x}");
        }
        Step::NoWord(at) => assert_eq!(rt; world.read(at, 8), None, "at {at:x}"),
        Step::NoByte(at) => assert_eq!(rt; world.read(at, 1), None, "at {at:x}"),
        Step::Left(units) => assert_eq!(rt; world.left(), units),
        Step::Level(level) => assert_eq!(rt; world.tpl(), level),
        Step::Live(handle, live) => {
            assert_eq!(rt; world.db().is_live(handle), live, "of {handle}");
        }
        Step::Interfaces(handle, many) => {
            let handle = handle_of(rt, handle);
            assert_eq!(rt; world.db().interface_count(handle), many);
        }
        Step::Interface(handle, protocol, interface) => {
            let found = world
                .db()
                .interface(handle_of(rt, handle), guid_of(protocol));
            assert_eq!(rt; found, Some((interface, image())));
        }
        Step::Records(many) => assert_eq!(rt; world.entries().len(), many),
        _ => {}
    }
    Ok(())
}

// ---- what is done

/// Writes a word of 8 bytes.
pub(crate) fn put_word(world: &mut World, at: u64, word: u64) -> Result<(), Fail> {
    Ok(world.write(at, 8, word)?)
}

/// Puts the GUID of a number at an address.
pub(crate) fn put_name(world: &mut World, at: u64, number: u64) -> Result<(), Fail> {
    put_word(world, at, 0)?;
    put_word(world, at.wrapping_add(8), number)
}

/// Puts words from an address on, 8 bytes each.
fn put_words(world: &mut World, at: u64, words: &[u64]) -> Result<(), Fail> {
    let mut place = at;
    for word in words {
        put_word(world, place, *word)?;
        place = place.wrapping_add(8);
    }
    Ok(())
}

/// Whether a service is one of the boot services, not a function of PCI I/O.
fn is_boot(s: Service) -> bool
    ensures { result ≡ is_boot_service s }
{
    !matches!(
        s,
        Service::MemRead
            | Service::MemWrite
            | Service::PciRead
            | Service::PciWrite
            | Service::GetLocation
            | Service::Attributes
    )
}

/// A service called by image 3 with the arguments at an address.
fn called_at(world: &mut World, s: Service, sp: u64) -> Result<Answer, Fail> {
    if !is_boot(s) {
        return Err("no boot service".into());
    }
    let caller = Caller {
        image: image(),
        level: 1,
        sp,
    };
    Ok(answer_of(serve(world, s, &caller)?))
}

/// A service called by image 3 with these arguments.
pub(crate) fn call(world: &mut World, s: Service, arguments: &[u64]) -> Result<Answer, Fail> {
    put_words(world, SLOTS, arguments)?;
    called_at(world, s, SLOTS)
}

fn calls(
    rt: &impl Abort,
    world: &mut World,
    s: Service,
    arguments: &[u64],
    answer: Answer,
) -> Result<(), Fail> {
    let served = call(world, s, arguments)?;
    assert_eq!(rt; served, answer, "at {arguments:?}");
    Ok(())
}

fn spends(
    rt: &impl Abort,
    world: &mut World,
    s: Service,
    arguments: &[u64],
    answer: Answer,
    price: u64,
) -> Result<(), Fail> {
    let before = world.left();
    calls(rt, world, s, arguments, answer)?;
    assert_eq!(rt;
        before.saturating_sub(world.left()),
        price,
        "at {arguments:?}"
    );
    Ok(())
}

fn calls_all(rt: &impl Abort, world: &mut World, s: Service, rows: &[Call]) -> Result<(), Fail> {
    for (arguments, answer) in rows {
        calls(rt, world, s, arguments, *answer)?;
    }
    Ok(())
}

fn calls_at(
    rt: &impl Abort,
    world: &mut World,
    s: Service,
    at: u64,
    answer: Answer,
) -> Result<(), Fail> {
    let served = called_at(world, s, at)?;
    assert_eq!(rt; served, answer, "at {at:x}");
    Ok(())
}

fn calls_list(
    rt: &impl Abort,
    world: &mut World,
    s: Service,
    arguments: &[u64],
    answer: Answer,
) -> Result<(), Fail> {
    put_words(world, LIST, arguments)?;
    let served = called_at(world, s, LIST)?;
    assert_eq!(rt; served, answer, "at {arguments:?}");
    Ok(())
}

fn allocates(
    rt: &impl Abort,
    world: &mut World,
    size: u64,
    answer: Answer,
    at: u64,
    price: u64,
) -> Result<(), Fail> {
    put_word(world, PLACE, 7)?;
    spends(
        rt,
        world,
        Service::AllocatePool,
        &[0, size, PLACE],
        answer,
        price,
    )?;
    finds_words(rt, world, PLACE, &[at]);
    Ok(())
}

fn opens(
    rt: &impl Abort,
    world: &mut World,
    arguments: &[u64],
    answer: Answer,
    stored: u64,
    many: u32,
) -> Result<(), Fail> {
    put_word(world, SECOND, 7)?;
    calls(rt, world, Service::OpenProtocol, arguments, answer)?;
    finds_words(rt, world, SECOND, &[stored]);
    assert_eq!(rt; world.entries().len(), many, "at {arguments:?}");
    Ok(())
}

// ---- what is found

fn finds_words(rt: &impl Abort, world: &World, at: u64, words: &[u64]) {
    let mut place = at;
    for word in words {
        assert_eq!(rt; world.read(place, 8), Some(*word), "at {place:x}");
        place = place.wrapping_add(8);
    }
}

fn finds_record(
    rt: &impl Abort,
    world: &World,
    protocol: Protocol,
    wanted: (u64, u64, u32, u32),
) -> Result<(), Fail> {
    let list = world.entries().list(handle_of(rt, 4), guid_of(protocol))?;
    assert_eq!(rt; list.len(), 1);
    for one in &list {
        let found = (one.agent, one.controller, one.attr.bits(), one.count);
        assert_eq!(rt; found, wanted);
    }
    Ok(())
}

pub(crate) fn handle_of(rt: &impl Abort, number: u64) -> Handle {
    Handle::new(number).expect(rt, "the number of a handle")
}

fn guid_of(protocol: Protocol) -> Guid {
    match protocol {
        Protocol::Known(known) => Guid::known(known),
        Protocol::Numbered(number) => numbered(number),
    }
}

/// The GUID that `put_name` puts for a number.
pub(crate) fn numbered(number: u8) -> Guid {
    Guid::from_guest(&[0, 0, 0, 0, 0, 0, 0, 0, number, 0, 0, 0, 0, 0, 0, 0])
}

// ---- worlds

/// Handle 3, of the image that calls.
pub(crate) fn image() -> Handle {
    Handle::bus_driver().next()
}

/// A world with nothing on its board, and no stack.
pub(crate) fn empty_world(rt: &impl AllocGlobal) -> Result<World, Fail>
    ensures { IfOk result (λ world. has_stack 1 world.now.soft.memory ≡ false) }
{
    let world = World::new(rt.alloc(), Board::empty(rt.alloc()), Vec::new(rt.alloc()))?;
    Ok(world)
}

/// Adds a stack of level 1 and one image, whose handle is 3, and `units` units.
pub(crate) fn set_up(rt: &impl AllocGlobal, world: &mut World, units: u32) -> Result<(), Fail>
    requires { has_stack 1 world.old.now.soft.memory ≡ false }
{
    let _ = world.push_stack(1, &[0; 16], &[])?;
    let _ = world.add_image(vec![in rt.alloc(); 0x11u8, 0x22, 0x33, 0x44]?, 0, 11, 0)?;
    world.begin_command(units);
    Ok(())
}

/// Takes the steps, beginning from a world with 100 units.
pub(crate) fn from_start(rt: &(impl AllocGlobal + Abort), steps: &[Step]) -> Result<(), Fail> {
    from_units(rt, 100, steps)
}

/// Takes the steps, beginning from a world with `units` units.
pub(crate) fn from_units(
    rt: &(impl AllocGlobal + Abort),
    units: u32,
    steps: &[Step],
) -> Result<(), Fail> {
    let mut world = empty_world(rt)?;
    set_up_and_take(rt, &mut world, units, steps)
}

fn set_up_and_take(
    rt: &(impl AllocGlobal + Abort),
    world: &mut World,
    units: u32,
    steps: &[Step],
) -> Result<(), Fail>
    requires { has_stack 1 world.old.now.soft.memory ≡ false }
{
    set_up(rt, world, units)?;
    take_all(rt, world, steps)
}

/// Image 3 installs protocol 1 with interface 5 on handle 4, whose number is then at `FIRST`. Of protocols 2
/// and 9 only the GUIDs are there.
const PREPARES: &[Step] = &[
    Step::Names(NAME, 1),
    Step::Names(OTHER, 2),
    Step::Names(NOWHERE, 9),
    // 5b1b31a1-9562-11d2-8e3f-00a0c969723b
    Step::Writes(LOADED, 0x11d2_9562_5b1b_31a1),
    Step::Writes(LOADED + 8, 0x3b72_69c9_a000_3f8e),
    Step::Calls(Service::Install, &[FIRST, NAME, 0, 5], DONE),
];

/// Makes an empty world into one with protocol 1 on handle 4.
pub(crate) fn prepare(rt: &(impl AllocGlobal + Abort), world: &mut World) -> Result<(), Fail>
    requires { has_stack 1 world.old.now.soft.memory ≡ false }
{
    set_up_and_take(rt, world, 4_000_000, PREPARES)
}

/// Takes the steps, beginning from a world with protocol 1 on handle 4.
pub(crate) fn from_protocol(rt: &(impl AllocGlobal + Abort), steps: &[Step]) -> Result<(), Fail> {
    let mut world = empty_world(rt)?;
    prepare_and_take(rt, &mut world, steps)
}

fn prepare_and_take(
    rt: &(impl AllocGlobal + Abort),
    world: &mut World,
    steps: &[Step],
) -> Result<(), Fail>
    requires { has_stack 1 world.old.now.soft.memory ≡ false }
{
    prepare(rt, world)?;
    take_all(rt, world, steps)
}
