//! The searches of ConnectController (UEFI 2.8, 7.3): drivers are asked by Supported, and the
//! driver that is found is started.
ghost use Rattle.std.specs.Prelude.{◌≡◌, ◌<◌, ◌≤◌, ◌+◌, ◌||◌, [], IfOk, OnOk, false, length, true};
ghost use Rattle.fw_types.specs.declared.limits.TheConstants.{MOST_LEVELS as most_levels};
ghost use Rattle.world_model.specs.Levels.{has_marks, is_free};
ghost use Rattle.world_model.specs.Marks.{stacks};
ghost use Rattle.driver_model.specs.Moves.{plain};
ghost use Rattle.driver_model.specs.Connect.{asked, found, search};
ghost use Rattle.engine.specs.AtLevel.{level_at};
ghost use Rattle.bind_parts.specs.Events.{NoFewerEvents};

use crate::driver_call::call_driver;
use bind_parts::{driver_call, drivers_to_ask, is_success};
use bind_plan::StartedDrivers;
use driver_model::order_laws::searches_go_on;
use driver_model::{BindingBlock, CallKind, Connection, Scope, Settings};
use fw_types::{Handle, OutOfMemory};
use fw_world::World;

/// Searches drivers for a controller and starts them, until a search finds none or the controller
/// is no longer live. The answer is whether a Start succeeded. Each search goes down a new list,
/// without the drivers that were started before, whatever their Start answered.
#[cycle(engine)]
pub fn search(
    world: &mut World,
    settings: &Settings,
    room: u8,
    scope: Scope,
    c: &Connection,
    controller: Handle,
    context: &[u64],
) -> Result<bool, OutOfMemory>
    requires room { room < most_levels }
    requires free { is_free (room + 1) (stacks world.old.now.soft) world.old.marks ≡ true }
    requires marks { has_marks 0 (room + 1) world.old.marks ≡ true }
    requires same { c.now.controller ≡ controller }
    ensures now { IfOk result (λ any.
        search plain settings.now (level_at settings.now room) scope c.now context.now [] false
        world.old.now
        ≡ (any, world.new.now)) }
    ensures marks { OnOk result (world.new.marks ≡ world.old.marks) }
    ensures stacks { OnOk result (stacks world.new.now.soft ≡ stacks world.old.now.soft) }
    ensures units { OnOk result (world.new.now.hard.units ≤ world.old.now.hard.units) }
    ensures events { OnOk result (NoFewerEvents world.old.now world.new.now) }
{
    searches_go_on();
    let mut marked = StartedDrivers::new(world.alloc());
    let mut any = false;
    'searches: loop {
        let found = find(
            world, settings, room, scope, c, controller, context, &marked,
        )?;
        let Some(block) = found else {
            return Ok(any);
        };
        marked.add(block.handle.get())?;
        let call = driver_call(CallKind::Start, &block, c);
        let outcome = call_driver(world, settings, room, scope, &call, &[])?;
        any = either(any, is_success(outcome));
        if !world.db().is_live(c.controller) {
            return Ok(any);
        }
    }
}

/// Whether at least one of the two is true.
fn either(one: bool, other: bool) -> bool
    ensures { result ≡ one || other }
{
    one || other
}

/// Makes the order, and asks the drivers in it that are not marked. The answer is the first driver
/// that supports the controller.
#[cycle(engine)]
fn find(
    world: &mut World,
    settings: &Settings,
    room: u8,
    scope: Scope,
    c: &Connection,
    controller: Handle,
    context: &[u64],
    marked: &StartedDrivers,
) -> Result<Option<BindingBlock>, OutOfMemory>
    requires room { room < most_levels }
    requires free { is_free (room + 1) (stacks world.old.now.soft) world.old.marks ≡ true }
    requires marks { has_marks 0 (room + 1) world.old.marks ≡ true }
    requires same { c.now.controller ≡ controller }
    ensures now { IfOk result (λ block.
        found plain settings.now (level_at settings.now room) scope c.now context.now marked.now
        world.old.now
        ≡ (block, world.new.now)) }
    ensures marks { OnOk result (world.new.marks ≡ world.old.marks) }
    ensures stacks { OnOk result (stacks world.new.now.soft ≡ stacks world.old.now.soft) }
    ensures units { OnOk result (world.new.now.hard.units ≤ world.old.now.hard.units) }
    ensures events { OnOk result (NoFewerEvents world.old.now world.new.now) }
{
    let blocks = drivers_to_ask(world, settings, controller, context, marked)?;
    ask(world, settings, room, scope, c, &blocks)
}

/// Asks drivers by Supported, from the first on, until one succeeds.
#[cycle(engine)]
fn ask(
    world: &mut World,
    settings: &Settings,
    room: u8,
    scope: Scope,
    c: &Connection,
    blocks: &[BindingBlock],
) -> Result<Option<BindingBlock>, OutOfMemory>
    requires room { room < most_levels }
    requires free { is_free (room + 1) (stacks world.old.now.soft) world.old.marks ≡ true }
    requires marks { has_marks 0 (room + 1) world.old.marks ≡ true }
    ensures now { IfOk result (λ block.
        asked plain (level_at settings.now room) scope c.now blocks.now world.old.now
        ≡ (block, world.new.now)) }
    ensures marks { OnOk result (world.new.marks ≡ world.old.marks) }
    ensures stacks { OnOk result (stacks world.new.now.soft ≡ stacks world.old.now.soft) }
    ensures units { OnOk result (world.new.now.hard.units ≤ world.old.now.hard.units) }
    ensures events { OnOk result (NoFewerEvents world.old.now world.new.now) }
{
    for block in blocks {
        let call = driver_call(CallKind::Supported, block, c);
        let outcome = call_driver(world, settings, room, scope, &call, &[])?;
        if is_success(outcome) {
            return Ok(Some(*block));
        }
    }
    Ok(None)
}
