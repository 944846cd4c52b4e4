//! The turn of a driver in a disconnect: its children are stopped, and then the driver itself (UEFI
//! 2.8, 11.1: EFI_DRIVER_BINDING_PROTOCOL.Stop()).
ghost use Rattle.std.specs.Prelude.{◌≡◌, ◌<◌, ◌≤◌, ◌+◌, IfOk, OnOk, Some, length, true};
ghost use Rattle.fw_types.specs.declared.limits.TheConstants.{MOST_LEVELS as most_levels, MOST_LISTED as most_listed};
ghost use Rattle.world_model.specs.Levels.{has_marks, is_free};
ghost use Rattle.world_model.specs.Marks.{stacks};
ghost use Rattle.driver_model.specs.Moves.{plain};
ghost use Rattle.driver_model.specs.Bindings.{binding as binding_value};
ghost use Rattle.driver_model.specs.Disconnect.{children_stopped, itself_stopped, stop_turn, turn_by};
ghost use Rattle.engine.specs.AtLevel.{level_at};
ghost use Rattle.bind_parts.specs.Events.{NoFewerEvents};

use crate::driver_call::call_driver;
use bind_parts::{
    are_all, children_of, children_to_stop, close_children, is_of_another, is_success, manages,
    stop_call,
};
use bind_plan::{binding, numbers_of};
use driver_model::{BindingBlock, Disconnection, Scope, Settings, StopTurn};
use fw_types::{Handle, OutOfMemory};
use fw_world::World;

/// Takes a driver's turn. The driver is passed over if the controller is not live, if the driver no
/// longer manages the controller, or if a child is given that is not one of the driver's. It fails
/// if it has no binding.
#[cycle(engine)]
#[tactic(auto, unfolding(driver_model::specs::Disconnect::stop_turn))]
pub fn take_stop_turn(
    world: &mut World,
    settings: &Settings,
    room: u8,
    scope: Scope,
    d: &Disconnection,
    controller: Handle,
    agent: u64,
) -> Result<StopTurn, OutOfMemory>
    requires room { room < most_levels }
    requires free { is_free (room + 1) (stacks world.old.now.soft) world.old.marks ≡ true }
    requires marks { has_marks 0 (room + 1) world.old.marks ≡ true }
    requires same { d.now.controller ≡ controller }
    ensures now { IfOk result (λ turn.
        stop_turn plain (level_at settings.now room) scope d.now agent world.old.now
        ≡ (turn, world.new.now)) }
    ensures marks { OnOk result (world.new.marks ≡ world.old.marks) }
    ensures stacks { OnOk result (stacks world.new.now.soft ≡ stacks world.old.now.soft) }
    ensures units { OnOk result (world.new.now.hard.units ≤ world.old.now.hard.units) }
    ensures events { OnOk result (NoFewerEvents world.old.now world.new.now) }
{
    if !world.db().is_live(d.controller) {
        return Ok(StopTurn::Passed);
    }
    if !manages(world, controller, agent)? {
        return Ok(StopTurn::Passed);
    }
    let children = children_of(world, controller, Some(agent))?;
    if is_of_another(d.child, &children) {
        return Ok(StopTurn::Passed);
    }
    let Some(block) = binding(world, agent) else {
        return Ok(StopTurn::Failed);
    };
    stop_driver(
        world, settings, room, scope, d, controller, agent, &block, &children,
    )
}

/// Stops the children of a driver that are meant, and then the driver itself, if it has no child
/// left and the controller is live.
#[cycle(engine)]
fn stop_driver(
    world: &mut World,
    settings: &Settings,
    room: u8,
    scope: Scope,
    d: &Disconnection,
    controller: Handle,
    agent: u64,
    block: &BindingBlock,
    children: &[Handle],
) -> Result<StopTurn, OutOfMemory>
    requires room { room < most_levels }
    requires free { is_free (room + 1) (stacks world.old.now.soft) world.old.marks ≡ true }
    requires marks { has_marks 0 (room + 1) world.old.marks ≡ true }
    requires same { d.now.controller ≡ controller }
    requires few { length children.now ≤ most_listed }
    ensures now { IfOk result (λ turn.
        turn_by plain (level_at settings.now room) scope agent d.now children.now (Some block.now)
        world.old.now
        ≡ (turn, world.new.now)) }
    ensures marks { OnOk result (world.new.marks ≡ world.old.marks) }
    ensures stacks { OnOk result (stacks world.new.now.soft ≡ stacks world.old.now.soft) }
    ensures units { OnOk result (world.new.now.hard.units ≤ world.old.now.hard.units) }
    ensures events { OnOk result (NoFewerEvents world.old.now world.new.now) }
{
    let stopped = children_to_stop(world.alloc(), d.child, children)?;
    if !stop_children(world, settings, room, scope, controller, block, &stopped)? {
        return Ok(StopTurn::Failed);
    }
    if !are_all(d.child, children) || !world.db().is_live(d.controller) {
        return Ok(StopTurn::Passed);
    }
    stop_itself(world, settings, room, scope, controller, agent)
}

/// Calls Stop with children, if there are any, and closes their records if it succeeds. The answer
/// is whether the driver did not fail.
#[cycle(engine)]
fn stop_children(
    world: &mut World,
    settings: &Settings,
    room: u8,
    scope: Scope,
    controller: Handle,
    block: &BindingBlock,
    children: &[Handle],
) -> Result<bool, OutOfMemory>
    requires room { room < most_levels }
    requires free { is_free (room + 1) (stacks world.old.now.soft) world.old.marks ≡ true }
    requires marks { has_marks 0 (room + 1) world.old.marks ≡ true }
    requires few { length children.now ≤ most_listed }
    ensures now { IfOk result (λ fine.
        children_stopped plain (level_at settings.now room) scope block.now controller children.now
        world.old.now
        ≡ (fine, world.new.now)) }
    ensures marks { OnOk result (world.new.marks ≡ world.old.marks) }
    ensures stacks { OnOk result (stacks world.new.now.soft ≡ stacks world.old.now.soft) }
    ensures units { OnOk result (world.new.now.hard.units ≤ world.old.now.hard.units) }
    ensures events { OnOk result (NoFewerEvents world.old.now world.new.now) }
{
    if children.is_empty() {
        return Ok(true);
    }
    let list = numbers_of(world.alloc(), children)?;
    let call = stop_call(room, block, controller, &list);
    let outcome = call_driver(world, settings, room, scope, &call, &list)?;
    if !is_success(outcome) {
        return Ok(false);
    }
    close_children(world, controller, block.handle, children)?;
    Ok(true)
}

/// Calls Stop with no children, by the binding that the driver has now, and closes all the driver's
/// records on the controller if Stop succeeds.
#[cycle(engine)]
fn stop_itself(
    world: &mut World,
    settings: &Settings,
    room: u8,
    scope: Scope,
    controller: Handle,
    agent: u64,
) -> Result<StopTurn, OutOfMemory>
    requires room { room < most_levels }
    requires free { is_free (room + 1) (stacks world.old.now.soft) world.old.marks ≡ true }
    requires marks { has_marks 0 (room + 1) world.old.marks ≡ true }
    ensures now { IfOk result (λ turn.
        itself_stopped plain (level_at settings.now room) scope controller
        (binding_value agent world.old.now.soft) world.old.now
        ≡ (turn, world.new.now)) }
    ensures marks { OnOk result (world.new.marks ≡ world.old.marks) }
    ensures stacks { OnOk result (stacks world.new.now.soft ≡ stacks world.old.now.soft) }
    ensures units { OnOk result (world.new.now.hard.units ≤ world.old.now.hard.units) }
    ensures events { OnOk result (NoFewerEvents world.old.now world.new.now) }
{
    let Some(block) = binding(world, agent) else {
        return Ok(StopTurn::Failed);
    };
    let call = stop_call(room, &block, controller, &[]);
    let outcome = call_driver(world, settings, room, scope, &call, &[])?;
    if !is_success(outcome) {
        return Ok(StopTurn::Failed);
    }
    world.leave_all(controller, block.handle.get())?;
    Ok(StopTurn::Stopped)
}
