//! Native calls of a driver's code: services, and what they go on with.
ghost use Rattle.std.specs.Prelude.{◌≡◌, ◌≤◌, IfOk, OnOk, length, true};
ghost use Rattle.fw_types.specs.declared.limits.TheConstants.{MOST_LEVELS as most_levels};
ghost use Rattle.world_model.specs.Images.{image_at};
ghost use Rattle.world_model.specs.Levels.{has_marks, is_free};
ghost use Rattle.world_model.specs.Marks.{stacks};
ghost use Rattle.driver_model.specs.Moves.{plain};
ghost use Rattle.driver_model.specs.GoingOn.{gone_on, reentered};
ghost use Rattle.driver_model.specs.Levels.{level_with};
ghost use Rattle.driver_model.specs.NativeCalls.{callee as callee_value, native_called, service_called};
ghost use Rattle.engine.specs.AtLevel.{level_below};
ghost use Rattle.bind_parts.specs.Events.{NoFewerEvents};

use crate::connection::connect;
use crate::disconnection::disconnect;
use crate::removal::remove;
use crate::thunk_call::call_thunk;
use crate::uninstallation::{uninstall, uninstall_many};
use bind_parts::{callee, caller, serve_caller, take_answer, trapped};
use driver_model::{Callee, Connection, Disconnection, Remover, RunEnd, Scope, Settings};
use ebc_machine::Cpu;
use fw_types::{Cause, Handle, OutOfMemory};
use fw_world::World;
use service_model::{Reentry, Served};
use service_thunks::Service;
use world_model::laws::marks_suffice;

/// Makes a native call by the code at `at` (UEFI 2.8, chapter 22, 'CALL'). If the call ends the
/// run, the answer is how: it traps with `BadCall` if there is neither a function of the firmware
/// nor a thunk at the target, or it ends as a service or a thunk ends it.
#[cycle(engine)]
pub fn call_native(
    world: &mut World,
    settings: &Settings,
    room: u8,
    scope: Scope,
    at: u64,
    target: u64,
    cpu: &mut Cpu,
) -> Result<Option<RunEnd>, OutOfMemory>
    requires room { room ≤ most_levels }
    requires free { is_free room (stacks world.old.now.soft) world.old.marks ≡ true }
    requires marks { has_marks 2 room world.old.marks ≡ true }
    ensures turn { IfOk result (λ end.
        native_called plain settings.now (level_below settings.now room) scope (level_with room)
        (callee_value target world.old.now.soft) (image_at at world.old.now.soft) cpu.old
        world.old.now
        ≡ record { end = end; cpu = cpu.new; world = world.new.now }) }
    ensures marks { OnOk result (world.new.marks ≡ world.old.marks) }
    ensures stacks { OnOk result (stacks world.new.now.soft ≡ stacks world.old.now.soft) }
    ensures units { OnOk result (world.new.now.hard.units ≤ world.old.now.hard.units) }
    ensures events { OnOk result (NoFewerEvents world.old.now world.new.now) }
{
    match callee(world, target) {
        Callee::AService(service) => {
            let image = world.image_at(at);
            call_service(world, settings, room, scope, service, image, cpu)
        }
        Callee::AThunk(entry) => call_thunk(world, settings, room, scope, entry, cpu),
        Callee::Nothing => Ok(Some(trapped(Cause::BadCall))),
    }
}

/// Calls a service, for the image that holds the instruction. If no image holds it, the code traps
/// with `Fetch`.
#[cycle(engine)]
fn call_service(
    world: &mut World,
    settings: &Settings,
    room: u8,
    scope: Scope,
    service: Service,
    image: Option<Handle>,
    cpu: &mut Cpu,
) -> Result<Option<RunEnd>, OutOfMemory>
    requires room { room ≤ most_levels }
    requires free { is_free room (stacks world.old.now.soft) world.old.marks ≡ true }
    requires marks { has_marks 2 room world.old.marks ≡ true }
    ensures turn { IfOk result (λ end.
        service_called plain settings.now (level_below settings.now room) scope (level_with room)
        service image cpu.old world.old.now
        ≡ record { end = end; cpu = cpu.new; world = world.new.now }) }
    ensures marks { OnOk result (world.new.marks ≡ world.old.marks) }
    ensures stacks { OnOk result (stacks world.new.now.soft ≡ stacks world.old.now.soft) }
    ensures units { OnOk result (world.new.now.hard.units ≤ world.old.now.hard.units) }
    ensures events { OnOk result (NoFewerEvents world.old.now world.new.now) }
{
    let Some(image) = image else {
        return Ok(Some(trapped(Cause::Fetch)));
    };
    let caller = caller(image, room, cpu);
    let answer = serve_caller(world, service, &caller)?;
    let answer = go_on(world, settings, room, scope, answer)?;
    Ok(take_answer(answer, cpu))
}

/// Does what a service goes on with, if it goes on, and answers what the service answers in the
/// end.
#[cycle(engine)]
fn go_on(
    world: &mut World,
    settings: &Settings,
    room: u8,
    scope: Scope,
    answer: Served,
) -> Result<Served, OutOfMemory>
    requires room { room ≤ most_levels }
    requires free { is_free room (stacks world.old.now.soft) world.old.marks ≡ true }
    requires marks { has_marks 2 room world.old.marks ≡ true }
    ensures now { IfOk result (λ last.
        gone_on plain settings.now (level_below settings.now room) scope (answer, world.old.now)
        ≡ (last, world.new.now)) }
    ensures marks { OnOk result (world.new.marks ≡ world.old.marks) }
    ensures stacks { OnOk result (stacks world.new.now.soft ≡ stacks world.old.now.soft) }
    ensures units { OnOk result (world.new.now.hard.units ≤ world.old.now.hard.units) }
    ensures events { OnOk result (NoFewerEvents world.old.now world.new.now) }
{
    match answer {
        Served::Again(reentry) => reenter(world, settings, room, scope, reentry),
        last => Ok(last),
    }
}

/// Enters the driver model again, at the level of the caller.
#[cycle(engine)]
#[tactic(auto, unfolding(driver_model::specs::GoingOn::reentered))]
fn reenter(
    world: &mut World,
    settings: &Settings,
    room: u8,
    scope: Scope,
    reentry: Reentry,
) -> Result<Served, OutOfMemory>
    requires room { room ≤ most_levels }
    requires free { is_free room (stacks world.old.now.soft) world.old.marks ≡ true }
    requires marks { has_marks 2 room world.old.marks ≡ true }
    ensures now { IfOk result (λ last.
        reentered plain settings.now (level_below settings.now room) scope reentry world.old.now
        ≡ (last, world.new.now)) }
    ensures marks { OnOk result (world.new.marks ≡ world.old.marks) }
    ensures stacks { OnOk result (stacks world.new.now.soft ≡ stacks world.old.now.soft) }
    ensures units { OnOk result (world.new.now.hard.units ≤ world.old.now.hard.units) }
    ensures events { OnOk result (NoFewerEvents world.old.now world.new.now) }
{
    marks_suffice();
    match reentry {
        Reentry::Connect {
            controller,
            context,
            path,
            at_end,
            recursive,
        } => {
            let c = Connection {
                controller,
                path,
                at_end,
                recursive,
            };
            let status = connect(world, settings, room, scope, &c, context.as_slice())?;
            Ok(Served::Value(status.0))
        }
        Reentry::Disconnect {
            controller,
            driver,
            child,
        } => {
            let d = Disconnection {
                controller,
                driver,
                child,
            };
            let status = disconnect(world, settings, room, scope, &d)?;
            Ok(Served::Value(status.0))
        }
        Reentry::Remove(removal) => remove(world, settings, room, scope, &removal),
        Reentry::Uninstall(i) => {
            let status = uninstall(world, settings, room, scope, Remover::ADriver, &i)?;
            Ok(Served::Value(status.0))
        }
        Reentry::UninstallMany(interfaces) => {
            let status = uninstall_many(world, settings, room, scope, interfaces.as_slice())?;
            Ok(Served::Value(status.0))
        }
    }
}
