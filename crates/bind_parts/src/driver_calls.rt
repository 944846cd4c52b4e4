//! What a driver call enters, what it may spend and how it ends.
ghost use Rattle.std.specs.Prelude.{◌≡◌, None};
ghost use Rattle.world_model.specs.Thunks.{thunk_at};
ghost use Rattle.driver_model.specs.Activations.{is_success};
ghost use Rattle.driver_model.specs.DriverCall.{allowance, bus_code, code_by, code_of as code_value, commits, event_kind, is_bus_driver_call, outcome_of};

use driver_model::{Call, CallKind, Code, RunEnd, Settings};
use fw_types::{EventKind, Handle, Outcome, Status};
use fw_world::World;
use guest_memory::address_map::{BUS_BINDING, BUS_START, BUS_STOP, BUS_SUPPORTED};

/// How many of the units that its caller has left a driver call may spend.
pub fn allowance(world: &World, settings: &Settings) -> u64
    ensures { result ≡ allowance settings.now world.now.now }
{
    world.left().min(u64::from(settings.call_budget))
}

/// The kind of a call's event.
pub fn event_kind(kind: CallKind) -> EventKind
    ensures { result ≡ event_kind kind }
{
    match kind {
        CallKind::Entry => EventKind::Entry,
        CallKind::Supported => EventKind::Supported,
        CallKind::Start => EventKind::Start,
        CallKind::Stop => EventKind::Stop,
        CallKind::Unload => EventKind::Unload,
    }
}

/// The function of the bus driver at an address, if there is one.
fn bus_code(at: u64) -> Option<Code>
    ensures { result ≡ bus_code at }
{
    match at {
        BUS_SUPPORTED => Some(Code::BusSupported),
        BUS_START => Some(Code::BusStart),
        BUS_STOP => Some(Code::BusStop),
        _ => None,
    }
}

/// Whether the bus driver is called by its own binding.
fn is_bus_driver_call(call: &Call) -> bool
    ensures { result ≡ is_bus_driver_call call.now }
{
    call.driver == Handle::bus_driver().get() && call.binding == BUS_BINDING
}

/// What is entered at an address that is not a thunk's. A function of the bus driver counts as
/// such only if it is called by the bus driver's own binding.
fn native_code(call: &Call) -> Code
    ensures { result ≡ code_by None call.now }
{
    let Some(code) = bus_code(call.address) else {
        return Code::NoCode;
    };
    if is_bus_driver_call(call) {
        code
    } else if call.binding == 0 {
        Code::NoCode
    } else {
        Code::Foreign
    }
}

/// What is entered through the thunk at the address, or as native code if there is no thunk.
fn code_behind(world: &World, call: &Call) -> Code
    ensures { result ≡ code_by (thunk_at call.now.address world.now.now.soft) call.now }
{
    match world.thunk_at(call.address) {
        Some(entry) => Code::Ebc(entry),
        None => native_code(call),
    }
}

/// What a driver call enters. An entry point is called at its address, and anything else through
/// a thunk or as native code.
#[tactic(auto, unfolding(driver_model::specs::DriverCall::code_of))]
pub fn code_of(world: &World, call: &Call) -> Code
    ensures { result ≡ code_value call.now world.now.now.soft }
{
    match call.kind {
        CallKind::Entry => Code::Ebc(call.address),
        CallKind::Supported | CallKind::Start | CallKind::Stop | CallKind::Unload => {
            code_behind(world, call)
        }
    }
}

/// How a call ends if its run ends like this.
pub fn outcome_of(end: RunEnd) -> Outcome
    ensures { result ≡ outcome_of end }
{
    match end {
        RunEnd::Returned(value) => Outcome::Value(Status(value)),
        RunEnd::Over(outcome) => outcome,
    }
}

/// Whether a driver call succeeded: its value has bit 63 clear.
pub fn is_success(outcome: Outcome) -> bool
    ensures { result ≡ is_success outcome }
{
    match outcome {
        Outcome::Value(status) => !status.is_error(),
        Outcome::Trapped(_) => false,
    }
}

/// Whether a call of this kind that ended like this commits. Supported never does.
pub fn commits(kind: CallKind, outcome: Outcome) -> bool
    ensures { result ≡ commits kind outcome }
{
    match kind {
        CallKind::Supported => false,
        CallKind::Entry | CallKind::Start | CallKind::Stop | CallKind::Unload => {
            is_success(outcome)
        }
    }
}
