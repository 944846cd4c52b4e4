//! What native calls go to, what their arguments are, and how they return.
ghost use Rattle.std.specs.Prelude.{◌≡◌, ◌<◌, ◌≤◌, IfOk, OnOk, length, map, true, unwrap_or};
ghost use Rattle.guest_memory.specs.GuestMemory.{number_of};
ghost use Rattle.ebc_machine.specs.Operands.{register};
ghost use Rattle.service_thunks.specs.Arguments.{slot_at as slot_at_value};
ghost use Rattle.world_model.specs.World.{State};
ghost use Rattle.world_model.specs.Marks.{stacks};
ghost use Rattle.service_model.specs.BootServices.{is_boot_service, served};
ghost use Rattle.driver_model.specs.Moves.{plain};
ghost use Rattle.driver_model.specs.Levels.{level_with};
ghost use Rattle.driver_model.specs.NativeCalls.{callee as callee_value, caller as caller_value, is_bus_function, passed_slots, returned, thunk_or_nothing, thunk_returned};
ghost use Rattle.bind_parts.specs.Events.{NoFewerEvents};

use crate::run_end::trapped;
use driver_model::{Callee, RunEnd};
use ebc_machine::Cpu;
use fw_types::{Handle, MOST_LEVELS, OutOfMemory};
use fw_world::World;
use guest_memory::GuestMem;
use guest_memory::address_map::{BUS_GET_DRIVER, BUS_START, BUS_STOP, BUS_SUPPORTED};
use leaf_services::serve;
use pci_io::pci_serve;
use service_model::laws::{services_keep, services_leave};
use service_model::{Caller, Served};
use service_thunks::{Service, service_at};

/// Whether a function of the bus driver is at an address.
fn is_bus_function(at: u64) -> bool
    ensures { result ≡ is_bus_function at }
{
    matches!(at, BUS_SUPPORTED | BUS_START | BUS_STOP | BUS_GET_DRIVER)
}

/// The code of a thunk, or nothing.
fn thunk_or_nothing(entry: Option<u64>) -> Callee
    ensures { result ≡ thunk_or_nothing entry }
{
    match entry {
        Some(entry) => Callee::AThunk(entry),
        None => Callee::Nothing,
    }
}

/// What is at the target of a native call (UEFI 2.8, chapter 22, 'CALL').
#[tactic(auto, unfolding(driver_model::specs::NativeCalls::callee))]
pub fn callee(world: &World, target: u64) -> Callee
    ensures { result ≡ callee_value target world.now.now.soft }
{
    match service_at(target) {
        Some(service) => Callee::AService(service),
        None if is_bus_function(target) => Callee::AService(Service::Unbuilt),
        None => thunk_or_nothing(world.thunk_at(target)),
    }
}

/// The caller of a service: an image, at the level with this room.
pub fn caller(image: Handle, room: u8, cpu: &Cpu) -> Caller
    requires { room ≤ MOST_LEVELS }
    ensures { result ≡ caller_value image (level_with room) cpu.now }
{
    Caller {
        image,
        level: MOST_LEVELS - room,
        sp: cpu.r[0],
    }
}

/// Whether a service is one of the boot services, not a function of PCI I/O.
fn is_boot_service(service: Service) -> bool
    ensures { result ≡ is_boot_service service }
{
    !matches!(
        service,
        Service::MemRead
            | Service::MemWrite
            | Service::PciRead
            | Service::PciWrite
            | Service::GetLocation
            | Service::Attributes
    )
}

/// Serves a call of a boot service or of PCI I/O, up to where it goes on at the caller's level.
///
/// # Errors
///
/// `OutOfMemory` if there is no memory for what the service does.
pub fn serve_caller(
    world: &mut World,
    service: Service,
    caller: &Caller,
) -> Result<Served, OutOfMemory>
    ensures now { IfOk result (λ answer.
        served service caller.now world.old.now ≡ (answer, world.new.now)) }
    ensures marks { OnOk result (world.new.marks ≡ world.old.marks) }
    ensures stacks { OnOk result (stacks world.new.now.soft ≡ stacks world.old.now.soft) }
    ensures units { OnOk result (world.new.now.hard.units ≤ world.old.now.hard.units) }
    ensures events { OnOk result (NoFewerEvents world.old.now world.new.now) }
{
    services_keep();
    services_leave();
    world.is_kept();
    if is_boot_service(service) {
        serve(world, service, caller)
    } else {
        pci_serve(world, service, caller)
    }
}

/// Puts the value of a service into R7. If the service traps, the answer is how the run ends.
pub fn take_answer(answer: Served, cpu: &mut Cpu) -> Option<RunEnd>
    ensures { (w : State) → returned plain cpu.old (answer, w)
        ≡ record { end = result; cpu = cpu.new; world = w } }
{
    match answer {
        Served::Value(value) => {
            cpu.r[7] = value;
            None
        }
        Served::Trap(cause) => Some(trapped(cause)),
        Served::Again(_) => None,
    }
}

/// Puts the value of a thunk's code into R7. If that code ended the driver call, the answer is how
/// the caller's run ends.
pub fn take_end(end: RunEnd, cpu: &mut Cpu) -> Option<RunEnd>
    ensures { (w : State) → thunk_returned plain cpu.old (end, w)
        ≡ record { end = result; cpu = cpu.new; world = w } }
{
    match end {
        RunEnd::Returned(value) => {
            cpu.r[7] = value;
            None
        }
        RunEnd::Over(outcome) => Some(RunEnd::Over(outcome)),
    }
}

/// The caller's argument with this number, from 0, or 0 if it can't be read.
fn slot(world: &World, sp: u64, i: u8) -> u64
    requires { i < 16 }
    ensures { result ≡ unwrap_or (number_of world.now.now.soft.memory (slot_at_value sp i) 8) 0 }
{
    world
        .read(sp.wrapping_add(8 * u64::from(i)), 8)
        .unwrap_or(0)
}

/// The caller's 16 arguments, as a thunk gets them.
pub fn passed_slots(world: &World, cpu: &Cpu) -> [u64; 16]
    ensures { result ≡ passed_slots cpu.now world.now.now }
{
    let sp = cpu.r[0];
    let mut slots = [0; 16];
    for i in 0..16 {
        slots[usize::from(i)] = slot(world, sp, i);
    }
    slots
}
