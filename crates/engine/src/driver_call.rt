//! Driver calls: of an image's entry point (UEFI 2.8, 4.1: EFI_IMAGE_ENTRY_POINT) or Unload (9.1:
//! EFI Loaded Image Protocol), or of a driver's Supported, Start or Stop (11.1: EFI Driver Binding
//! Protocol).
ghost use Rattle.std.specs.Prelude.{◌≡◌, ◌<◌, ◌≤◌, ◌+◌, IfOk, OnOk, length, true};
ghost use Rattle.fw_types.specs.declared.limits.TheConstants.{MOST_LEVELS as most_levels, MOST_LISTED as most_listed};
ghost use Rattle.world_model.specs.Levels.{has_marks, is_free};
ghost use Rattle.world_model.specs.Marks.{stacks};
ghost use Rattle.driver_model.specs.Moves.{plain};
ghost use Rattle.driver_model.specs.DriverCall.{called, entered, ran_on_stack};
ghost use Rattle.driver_model.specs.Levels.{level_with};
ghost use Rattle.engine.specs.AtLevel.{level_below};
ghost use Rattle.bind_parts.specs.Events.{NoFewerEvents};

use crate::bus_driver::{start_bus, stop_bus};
use crate::guest_run::run_code;
use bind_parts::{allowance, bus_support, code_of, event_kind, outcome_of, path_of, settle};
use driver_model::{Call, Code, RunEnd, Scope, Settings};
use ebc_machine::Cpu;
use fw_types::{CALL_PRICE, Cause, MOST_LEVELS, OutOfMemory, Outcome, Status};
use fw_world::World;
use world_model::laws::{levels_are_free, marks_suffice, stacks_stand};

/// Makes a driver call at the level with this room, with the children that a Stop is given, and
/// answers how it ended. If it may spend fewer units than its price, it traps with `Budget`, and no
/// event is made. While it lasts, no more than the call budget is left to it. If it does not
/// commit, the soft part is as before, whatever the call and everything that it called did.
///
/// # Errors
///
/// `OutOfMemory` if there is no memory for what the driver does.
#[cycle(engine)]
#[tactic(auto, unfolding(driver_model::specs::DriverCall::called))]
pub fn call_driver(
    world: &mut World,
    settings: &Settings,
    room: u8,
    scope: Scope,
    call: &Call,
    children: &[u64],
) -> Result<Outcome, OutOfMemory>
    requires room { room < most_levels }
    requires free { is_free (room + 1) (stacks world.old.now.soft) world.old.marks ≡ true }
    requires marks { has_marks 0 (room + 1) world.old.marks ≡ true }
    requires few { length children.now ≤ most_listed }
    ensures now { IfOk result (λ outcome.
        called plain settings.now (level_below settings.now room) (level_with room) scope call.now
        children.now world.old.now
        ≡ (outcome, world.new.now)) }
    ensures marks { OnOk result (world.new.marks ≡ world.old.marks) }
    ensures stacks { OnOk result (stacks world.new.now.soft ≡ stacks world.old.now.soft) }
    ensures units { OnOk result (world.new.now.hard.units ≤ world.old.now.hard.units) }
    ensures events { OnOk result (NoFewerEvents world.old.now world.new.now) }
{
    if allowance(world, settings) < CALL_PRICE {
        return Ok(Outcome::Trapped(Cause::Budget));
    }
    levels_are_free();
    marks_suffice();
    let tpl = world.tpl();
    let mark = world.mark();
    let cap = world.cap(u64::from(settings.call_budget));
    world.spend(CALL_PRICE);
    let kind = event_kind(call.kind);
    let serial = world.begin_event(scope.event, kind, call.driver, call.controller, call.extra)?;
    let inside = Scope { event: serial };
    let outcome = enter(world, settings, room, inside, call, children)?;
    world.set_tpl(tpl)?;
    world.end_event(serial, outcome);
    world.uncap(cap);
    settle(world, mark, call.kind, outcome)
}

/// Enters what a driver call calls, and answers how that ended.
#[cycle(engine)]
#[tactic(auto, unfolding(driver_model::specs::DriverCall::entered))]
fn enter(
    world: &mut World,
    settings: &Settings,
    room: u8,
    scope: Scope,
    call: &Call,
    children: &[u64],
) -> Result<Outcome, OutOfMemory>
    requires room { room < most_levels }
    requires free { is_free (room + 1) (stacks world.old.now.soft) world.old.marks ≡ true }
    requires marks { has_marks 2 room world.old.marks ≡ true }
    requires few { length children.now ≤ most_listed }
    ensures now { IfOk result (λ outcome.
        entered plain settings.now (level_below settings.now room) scope (level_with room) call.now
        children.now world.old.now
        ≡ (outcome, world.new.now)) }
    ensures marks { OnOk result (world.new.marks ≡ world.old.marks) }
    ensures stacks { OnOk result (stacks world.new.now.soft ≡ stacks world.old.now.soft) }
    ensures units { OnOk result (world.new.now.hard.units ≤ world.old.now.hard.units) }
    ensures events { OnOk result (NoFewerEvents world.old.now world.new.now) }
{
    levels_are_free();
    marks_suffice();
    match code_of(world, call) {
        Code::Ebc(entry) => {
            let end = run_on_stack(world, settings, room, scope, entry, &call.slots, children)?;
            Ok(outcome_of(end))
        }
        Code::BusSupported => {
            let status = bus_support(world, call.controller, path_of(call));
            Ok(Outcome::Value(status))
        }
        Code::BusStart => {
            let path = path_of(call);
            start_bus(world, settings, room, scope, call.controller, path)
        }
        Code::BusStop => stop_bus(world, settings, room, scope, call.controller, children),
        Code::Foreign => Ok(Outcome::Value(Status::UNSUPPORTED)),
        Code::NoCode => Ok(Outcome::Trapped(Cause::BadCall)),
    }
}

/// Runs code at the level with this room, on a stack of its own that exists while the code runs.
#[cycle(engine)]
#[tactic(auto, unfolding(driver_model::specs::DriverCall::ran_on_stack))]
pub fn run_on_stack(
    world: &mut World,
    settings: &Settings,
    room: u8,
    scope: Scope,
    entry: u64,
    slots: &[u64; 16],
    children: &[u64],
) -> Result<RunEnd, OutOfMemory>
    requires room { room < most_levels }
    requires free { is_free (room + 1) (stacks world.old.now.soft) world.old.marks ≡ true }
    requires marks { has_marks 2 room world.old.marks ≡ true }
    requires few { length children.now ≤ most_listed }
    ensures now { IfOk result (λ end.
        ran_on_stack plain settings.now (level_below settings.now room) scope (level_with room)
        entry
        slots.now children.now world.old.now
        ≡ (end, world.new.now)) }
    ensures marks { OnOk result (world.new.marks ≡ world.old.marks) }
    ensures stacks { OnOk result (stacks world.new.now.soft ≡ stacks world.old.now.soft) }
    ensures units { OnOk result (world.new.now.hard.units ≤ world.old.now.hard.units) }
    ensures events { OnOk result (NoFewerEvents world.old.now world.new.now) }
{
    stacks_stand();
    levels_are_free();
    world.is_kept();
    let level = MOST_LEVELS - room;
    let cpu = world.push_stack(level, slots, children)?;
    world.is_kept();
    let start = Cpu { ip: entry, ..cpu };
    let end = run_code(world, settings, room, scope, start)?;
    world.is_kept();
    world.pop_stack(level)?;
    Ok(end)
}
