//! DisconnectController (UEFI 2.8, 7.3).
ghost use Rattle.std.specs.Prelude.{◌≡◌, ◌<◌, ◌≤◌, ◌+◌, IfOk, OnOk, Some, length, true};
ghost use Rattle.fw_types.specs.declared.limits.TheConstants.{MOST_LEVELS as most_levels};
ghost use Rattle.world_model.specs.Levels.{has_marks, is_free};
ghost use Rattle.world_model.specs.Marks.{stacks};
ghost use Rattle.driver_model.specs.Moves.{plain};
ghost use Rattle.driver_model.specs.Disconnect.{disconnect, disconnected, stopped_by};
ghost use Rattle.engine.specs.AtLevel.{level_at, level_below};
ghost use Rattle.bind_parts.specs.Events.{NoFewerEvents};

use crate::stop_turn::take_stop_turn;
use bind_parts::{conclude, controller_of, note};
use bind_plan::stop_list;
use driver_model::{Disconnection, Scope, Settings};
use fw_types::{CALL_PRICE, EventKind, Handle, OutOfMemory, Outcome, Status};
use fw_world::World;

/// Disconnects drivers from a controller, at the level with this room. The answer is the first of
/// these that applies: ABORTED, with no event, if fewer units are left than the price;
/// OUT_OF_RESOURCES at the last level; INVALID_PARAMETER if the controller is not live, the given
/// driver has no binding, or the given child is not live; NOT_FOUND if none of the drivers has
/// that child; SUCCESS if no driver failed, and no driver that was stopped has a record on the
/// controller after it; and otherwise DEVICE_ERROR.
///
/// # Errors
///
/// `OutOfMemory` if there is no memory for what the drivers do, or for lists of them.
#[cycle(engine)]
#[tactic(auto, unfolding(driver_model::specs::Disconnect::disconnect))]
pub fn disconnect(
    world: &mut World,
    settings: &Settings,
    room: u8,
    scope: Scope,
    d: &Disconnection,
) -> Result<Status, OutOfMemory>
    requires room { room ≤ most_levels }
    requires free { is_free room (stacks world.old.now.soft) world.old.marks ≡ true }
    requires marks { has_marks 0 room world.old.marks ≡ true }
    ensures now { IfOk result (λ status.
        disconnect plain (level_below settings.now room) scope d.now world.old.now
        ≡ (status, world.new.now)) }
    ensures marks { OnOk result (world.new.marks ≡ world.old.marks) }
    ensures stacks { OnOk result (stacks world.new.now.soft ≡ stacks world.old.now.soft) }
    ensures units { OnOk result (world.new.now.hard.units ≤ world.old.now.hard.units) }
    ensures events { OnOk result (NoFewerEvents world.old.now world.new.now) }
{
    if world.left() < CALL_PRICE {
        return Ok(Status::ABORTED);
    }
    world.spend(CALL_PRICE);
    let kind = EventKind::Disconnect;
    let serial = world.begin_event(scope.event, kind, d.driver, d.controller, d.child)?;
    let inside = Scope { event: serial };
    let status = disconnect_in_event(world, settings, room, inside, d)?;
    world.end_event(serial, Outcome::Value(status));
    Ok(status)
}

/// What DisconnectController does after it is paid for, inside its event. Nothing is done at the
/// last level, for a handle that means nothing, or if none of the drivers has the given child.
/// Otherwise the drivers take their turns.
#[cycle(engine)]
#[tactic(auto, unfolding(driver_model::specs::Disconnect::disconnected, driver_model::specs::Levels::below))]
fn disconnect_in_event(
    world: &mut World,
    settings: &Settings,
    room: u8,
    scope: Scope,
    d: &Disconnection,
) -> Result<Status, OutOfMemory>
    requires room { room ≤ most_levels }
    requires free { is_free room (stacks world.old.now.soft) world.old.marks ≡ true }
    requires marks { has_marks 0 room world.old.marks ≡ true }
    ensures now { IfOk result (λ status.
        disconnected plain (level_below settings.now room) scope d.now world.old.now
        ≡ (status, world.new.now)) }
    ensures marks { OnOk result (world.new.marks ≡ world.old.marks) }
    ensures stacks { OnOk result (stacks world.new.now.soft ≡ stacks world.old.now.soft) }
    ensures units { OnOk result (world.new.now.hard.units ≤ world.old.now.hard.units) }
    ensures events { OnOk result (NoFewerEvents world.old.now world.new.now) }
{
    if room == 0 {
        return Ok(Status::OUT_OF_RESOURCES);
    }
    let Some(controller) = controller_of(world, d) else {
        return Ok(Status::INVALID_PARAMETER);
    };
    let Some(agents) = stop_list(world, controller, d.driver, d.child)? else {
        return Ok(Status::NOT_FOUND);
    };
    stop_drivers(world, settings, room - 1, scope, d, controller, &agents)
}

/// Lets each of these drivers take its turn. The answer is SUCCESS if no driver failed and no
/// driver that was stopped has a record on the controller after it, and otherwise DEVICE_ERROR.
#[cycle(engine)]
fn stop_drivers(
    world: &mut World,
    settings: &Settings,
    room: u8,
    scope: Scope,
    d: &Disconnection,
    controller: Handle,
    agents: &[u64],
) -> Result<Status, OutOfMemory>
    requires room { room < most_levels }
    requires free { is_free (room + 1) (stacks world.old.now.soft) world.old.marks ≡ true }
    requires marks { has_marks 0 (room + 1) world.old.marks ≡ true }
    requires same { d.now.controller ≡ controller }
    ensures now { IfOk result (λ status.
        stopped_by plain (level_at settings.now room) scope d.now (Some agents.now) world.old.now
        ≡ (status, world.new.now)) }
    ensures marks { OnOk result (world.new.marks ≡ world.old.marks) }
    ensures stacks { OnOk result (stacks world.new.now.soft ≡ stacks world.old.now.soft) }
    ensures units { OnOk result (world.new.now.hard.units ≤ world.old.now.hard.units) }
    ensures events { OnOk result (NoFewerEvents world.old.now world.new.now) }
{
    let mut failed = false;
    let mut stopped = Vec::new(world.alloc());
    for agent in agents {
        let turn = take_stop_turn(world, settings, room, scope, d, controller, *agent)?;
        note(turn, *agent, &mut failed, &mut stopped)?;
    }
    conclude(world, d, controller, failed, &stopped)
}
