//! ConnectController (UEFI 2.8, 7.3).
ghost use Rattle.std.specs.Prelude.{◌≡◌, ◌<◌, ◌≤◌, ◌+◌, IfOk, OnOk, length, true};
ghost use Rattle.fw_types.specs.declared.limits.TheConstants.{MOST_LEVELS as most_levels};
ghost use Rattle.world_model.specs.Levels.{has_marks, is_free};
ghost use Rattle.world_model.specs.Marks.{stacks};
ghost use Rattle.driver_model.specs.Moves.{plain};
ghost use Rattle.driver_model.specs.Connect.{child_visited, children_visited, connect, connected, with_children};
ghost use Rattle.engine.specs.AtLevel.{level_at, level_below};
ghost use Rattle.bind_parts.specs.Events.{NoFewerEvents};

use crate::search::search;
use bind_parts::{child_connection, children_of, connect_status, live_handle};
use driver_model::{Connection, Scope, Settings};
use fw_types::{CALL_PRICE, EventKind, Handle, OutOfMemory, Outcome, Status};
use fw_world::World;
use world_model::laws::{levels_are_free, marks_suffice};

/// Connects drivers to a controller, at the level with this room. The handles of `context` are
/// asked first. The answer is the first of these that applies: ABORTED, with no event, if fewer
/// units are left than the price; OUT_OF_RESOURCES at the last level; INVALID_PARAMETER if the
/// controller is not live; SUCCESS if a Start succeeded or the path is an End node; and otherwise
/// NOT_FOUND.
///
/// # Errors
///
/// `OutOfMemory` if there is no memory for what the drivers do, or for lists of them.
#[cycle(engine)]
#[tactic(auto, unfolding(driver_model::specs::Connect::connect))]
pub fn connect(
    world: &mut World,
    settings: &Settings,
    room: u8,
    scope: Scope,
    c: &Connection,
    context: &[u64],
) -> Result<Status, OutOfMemory>
    requires room { room ≤ most_levels }
    requires free { is_free room (stacks world.old.now.soft) world.old.marks ≡ true }
    requires marks { has_marks 0 room world.old.marks ≡ true }
    ensures now { IfOk result (λ status.
        connect plain settings.now (level_below settings.now room) scope c.now context.now
        world.old.now
        ≡ (status, world.new.now)) }
    ensures marks { OnOk result (world.new.marks ≡ world.old.marks) }
    ensures stacks { OnOk result (stacks world.new.now.soft ≡ stacks world.old.now.soft) }
    ensures units { OnOk result (world.new.now.hard.units ≤ world.old.now.hard.units) }
    ensures events { OnOk result (NoFewerEvents world.old.now world.new.now) }
{
    if world.left() < CALL_PRICE {
        return Ok(Status::ABORTED);
    }
    world.spend(CALL_PRICE);
    let extra = u64::from(c.recursive);
    let serial = world.begin_event(scope.event, EventKind::Connect, 0, c.controller, extra)?;
    let inside = Scope { event: serial };
    let status = connect_in_event(world, settings, room, inside, c, context)?;
    world.end_event(serial, Outcome::Value(status));
    Ok(status)
}

/// What ConnectController does after it is paid for, inside its event. At the last level, and if
/// the controller is not live, nothing is done. Otherwise drivers are searched and started, and
/// then the children are connected.
#[cycle(engine)]
#[tactic(auto, unfolding(driver_model::specs::Connect::connected, driver_model::specs::Levels::below))]
fn connect_in_event(
    world: &mut World,
    settings: &Settings,
    room: u8,
    scope: Scope,
    c: &Connection,
    context: &[u64],
) -> Result<Status, OutOfMemory>
    requires room { room ≤ most_levels }
    requires free { is_free room (stacks world.old.now.soft) world.old.marks ≡ true }
    requires marks { has_marks 0 room world.old.marks ≡ true }
    ensures now { IfOk result (λ status.
        connected plain settings.now (level_below settings.now room) scope c.now context.now
        world.old.now
        ≡ (status, world.new.now)) }
    ensures marks { OnOk result (world.new.marks ≡ world.old.marks) }
    ensures stacks { OnOk result (stacks world.new.now.soft ≡ stacks world.old.now.soft) }
    ensures units { OnOk result (world.new.now.hard.units ≤ world.old.now.hard.units) }
    ensures events { OnOk result (NoFewerEvents world.old.now world.new.now) }
{
    if room == 0 {
        return Ok(Status::OUT_OF_RESOURCES);
    }
    let Some(controller) = live_handle(world, c.controller) else {
        return Ok(Status::INVALID_PARAMETER);
    };
    let any = search(world, settings, room - 1, scope, c, controller, context)?;
    connect_children(world, settings, room - 1, scope, c, controller)?;
    Ok(connect_status(c, any))
}

/// Connects the children of a controller, if that is asked for and the controller is live.
#[cycle(engine)]
fn connect_children(
    world: &mut World,
    settings: &Settings,
    room: u8,
    scope: Scope,
    c: &Connection,
    controller: Handle,
) -> Result<(), OutOfMemory>
    requires room { room < most_levels }
    requires free { is_free (room + 1) (stacks world.old.now.soft) world.old.marks ≡ true }
    requires marks { has_marks 0 (room + 1) world.old.marks ≡ true }
    requires same { c.now.controller ≡ controller }
    ensures now { OnOk result (
        with_children plain (level_at settings.now room) scope c.now world.old.now
        ≡ world.new.now) }
    ensures marks { OnOk result (world.new.marks ≡ world.old.marks) }
    ensures stacks { OnOk result (stacks world.new.now.soft ≡ stacks world.old.now.soft) }
    ensures units { OnOk result (world.new.now.hard.units ≤ world.old.now.hard.units) }
    ensures events { OnOk result (NoFewerEvents world.old.now world.new.now) }
{
    if c.recursive && world.db().is_live(c.controller) {
        let children = children_of(world, controller, None)?;
        return visit_children(world, settings, room, scope, &children);
    }
    Ok(())
}

/// Connects each of these children that is live at its turn, whatever the others answer.
#[cycle(engine)]
fn visit_children(
    world: &mut World,
    settings: &Settings,
    room: u8,
    scope: Scope,
    children: &[Handle],
) -> Result<(), OutOfMemory>
    requires room { room < most_levels }
    requires free { is_free (room + 1) (stacks world.old.now.soft) world.old.marks ≡ true }
    requires marks { has_marks 0 (room + 1) world.old.marks ≡ true }
    ensures now { OnOk result (
        children_visited plain (level_at settings.now room) scope children.now world.old.now
        ≡ world.new.now) }
    ensures marks { OnOk result (world.new.marks ≡ world.old.marks) }
    ensures stacks { OnOk result (stacks world.new.now.soft ≡ stacks world.old.now.soft) }
    ensures units { OnOk result (world.new.now.hard.units ≤ world.old.now.hard.units) }
    ensures events { OnOk result (NoFewerEvents world.old.now world.new.now) }
{
    for child in children {
        visit_child(world, settings, room, scope, *child)?;
    }
    Ok(())
}

/// Connects a child if it is live.
#[cycle(engine)]
fn visit_child(
    world: &mut World,
    settings: &Settings,
    room: u8,
    scope: Scope,
    child: Handle,
) -> Result<(), OutOfMemory>
    requires room { room < most_levels }
    requires free { is_free (room + 1) (stacks world.old.now.soft) world.old.marks ≡ true }
    requires marks { has_marks 0 (room + 1) world.old.marks ≡ true }
    ensures now { OnOk result (
        child_visited plain (level_at settings.now room) scope child world.old.now
        ≡ world.new.now) }
    ensures marks { OnOk result (world.new.marks ≡ world.old.marks) }
    ensures stacks { OnOk result (stacks world.new.now.soft ≡ stacks world.old.now.soft) }
    ensures units { OnOk result (world.new.now.hard.units ≤ world.old.now.hard.units) }
    ensures events { OnOk result (NoFewerEvents world.old.now world.new.now) }
{
    levels_are_free();
    marks_suffice();
    if world.db().is_live(child.get()) {
        let c = child_connection(child.get());
        let _status = connect(world, settings, room, scope, &c, &[])?;
    }
    Ok(())
}
