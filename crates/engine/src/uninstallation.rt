//! UninstallProtocolInterface and UninstallMultipleProtocolInterfaces of interfaces that may be in use
//! (UEFI 2.8, 7.3).
ghost use Rattle.std.specs.Prelude.{◌≡◌, ◌<◌, ◌≤◌, IfOk, OnOk, is_ok, length, true, false};
ghost use Rattle.std.specs.List.{list_all};
ghost use Rattle.fw_types.specs.declared.limits.TheConstants.{MOST_LEVELS as most_levels};
ghost use Rattle.world_model.specs.Interfaces.{is_lasting, uninstall_answer};
ghost use Rattle.world_model.specs.Levels.{has_marks, is_free};
ghost use Rattle.world_model.specs.Marks.{stacks};
ghost use Rattle.driver_model.specs.Moves.{plain};
ghost use Rattle.driver_model.specs.Allowed.{may_go};
ghost use Rattle.driver_model.specs.UninstallWithReconnection.{after_release, each_uninstalled, many_uninstalled, manager_on as manager_value, released, taken_away, uninstalled};
ghost use Rattle.driver_model.specs.declared.request.Remover.TheVariants.{ADriver};
ghost use Rattle.engine.specs.AtLevel.{level_below};
ghost use Rattle.engine.specs.Outcomes.{IsFirstStep, IsOutcome};
ghost use Rattle.bind_parts.specs.Events.{NoFewerEvents};

use crate::connection::connect;
use crate::disconnection::disconnect;
use bind_parts::{
    handle_to_clear, is_first_there, is_kept_from, is_passed_on, is_refused_early, manager_on,
    remove_interface, settle_all,
};
use driver_model::bus_laws::drivers_may_uninstall;
use driver_model::uninstall_laws::{
    early_refusals_change_nothing, late_refusals_change_the_soft_part_alone,
};
use driver_model::{Connection, Disconnection, Remover, Scope, Settings};
use fw_types::{Handle, OutOfMemory, Status};
use fw_world::World;
use service_model::HandleInterface;
use world_model::laws::{levels_are_free, marks_suffice};

/// Uninstalls an interface. The answer is the first of these that applies:
/// - NOT_FOUND if the handle does not have the interface, or if the firmware asks and another owns it.
/// - ACCESS_DENIED if a driver asks and the firmware owns it.
/// - OUT_OF_RESOURCES or ABORTED if the disconnect of the driver that manages the handle through it answers
///   that.
/// - NOT_FOUND if the handle no longer has the interface after that disconnect.
/// - ACCESS_DENIED if the interface is still open. The handle is then connected again.
/// - SUCCESS otherwise.
///
/// # Errors
///
/// `OutOfMemory` if there is no memory for what the drivers do, or for a list of records.
#[cycle(engine)]
#[tactic(auto, unfolding(driver_model::specs::UninstallWithReconnection::uninstalled))]
pub fn uninstall(
    world: &mut World,
    settings: &Settings,
    room: u8,
    scope: Scope,
    remover: Remover,
    i: &HandleInterface,
) -> Result<Status, OutOfMemory>
    requires room { room ≤ most_levels }
    requires free { is_free room (stacks world.old.now.soft) world.old.marks ≡ true }
    requires marks { has_marks 0 room world.old.marks ≡ true }
    requires may_go { may_go remover i.now ≡ true }
    ensures now { IfOk result (λ status.
        uninstalled plain settings.now (level_below settings.now room) scope remover i.now
        world.old.now
        ≡ (status, world.new.now)) }
    ensures marks { OnOk result (world.new.marks ≡ world.old.marks) }
    ensures stacks { OnOk result (stacks world.new.now.soft ≡ stacks world.old.now.soft) }
    ensures units { OnOk result (world.new.now.hard.units ≤ world.old.now.hard.units) }
    ensures events { OnOk result (NoFewerEvents world.old.now world.new.now) }
{
    if !is_first_there(world, remover, i) {
        return Ok(Status::NOT_FOUND);
    }
    if is_kept_from(world, remover, i) {
        return Ok(Status::ACCESS_DENIED);
    }
    let status = release(world, settings, room, scope, i)?;
    uninstall_released(world, settings, room, scope, remover, i, status)
}

/// Disconnects the driver that manages the handle through an interface, if there is one.
#[cycle(engine)]
fn release(
    world: &mut World,
    settings: &Settings,
    room: u8,
    scope: Scope,
    i: &HandleInterface,
) -> Result<Status, OutOfMemory>
    requires room { room ≤ most_levels }
    requires free { is_free room (stacks world.old.now.soft) world.old.marks ≡ true }
    requires marks { has_marks 0 room world.old.marks ≡ true }
    ensures now { IfOk result (λ status.
        released plain (level_below settings.now room) scope i.now
        (manager_value i.now world.old.now.soft) world.old.now
        ≡ (status, world.new.now)) }
    ensures marks { OnOk result (world.new.marks ≡ world.old.marks) }
    ensures stacks { OnOk result (stacks world.new.now.soft ≡ stacks world.old.now.soft) }
    ensures units { OnOk result (world.new.now.hard.units ≤ world.old.now.hard.units) }
    ensures events { OnOk result (NoFewerEvents world.old.now world.new.now) }
{
    let Some(agent) = manager_on(world, i) else {
        return Ok(Status::SUCCESS);
    };
    let d = Disconnection {
        controller: i.handle.get(),
        driver: agent,
        child: 0,
    };
    disconnect(world, settings, room, scope, &d)
}

/// Uninstalls an interface, if the handle still has it, after the disconnect of its driver answered a status.
#[cycle(engine)]
#[tactic(auto, unfolding(driver_model::specs::UninstallWithReconnection::after_release))]
fn uninstall_released(
    world: &mut World,
    settings: &Settings,
    room: u8,
    scope: Scope,
    remover: Remover,
    i: &HandleInterface,
    status: Status,
) -> Result<Status, OutOfMemory>
    requires room { room ≤ most_levels }
    requires free { is_free room (stacks world.old.now.soft) world.old.marks ≡ true }
    requires marks { has_marks 0 room world.old.marks ≡ true }
    requires may_go { may_go remover i.now ≡ true }
    ensures now { IfOk result (λ last.
        after_release plain settings.now (level_below settings.now room) scope remover i.now
        (status, world.old.now)
        ≡ (last, world.new.now)) }
    ensures marks { OnOk result (world.new.marks ≡ world.old.marks) }
    ensures stacks { OnOk result (stacks world.new.now.soft ≡ stacks world.old.now.soft) }
    ensures units { OnOk result (world.new.now.hard.units ≤ world.old.now.hard.units) }
    ensures events { OnOk result (NoFewerEvents world.old.now world.new.now) }
{
    if is_passed_on(status) {
        return Ok(status);
    }
    let Some(handle) = handle_to_clear(world, remover, i) else {
        return Ok(Status::NOT_FOUND);
    };
    world.drop_weak(handle, i.guid)?;
    world.make_ready(handle, i.guid);
    take_away(world, settings, room, scope, handle, i)
}

/// Removes an interface if no record of it is left. If one is left, the handle is connected again.
#[cycle(engine)]
#[tactic(auto, unfolding(driver_model::specs::UninstallWithReconnection::taken_away))]
fn take_away(
    world: &mut World,
    settings: &Settings,
    room: u8,
    scope: Scope,
    handle: Handle,
    i: &HandleInterface,
) -> Result<Status, OutOfMemory>
    requires room { room ≤ most_levels }
    requires free { is_free room (stacks world.old.now.soft) world.old.marks ≡ true }
    requires marks { has_marks 0 room world.old.marks ≡ true }
    requires same { i.now.handle ≡ handle }
    requires lasting { is_lasting handle i.now.guid world.old.now.soft ≡ false }
    requires answer { is_ok (uninstall_answer handle i.now.guid world.old.now.soft) ≡ true }
    ensures now { IfOk result (λ status.
        taken_away plain settings.now (level_below settings.now room) scope i.now world.old.now
        ≡ (status, world.new.now)) }
    ensures marks { OnOk result (world.new.marks ≡ world.old.marks) }
    ensures stacks { OnOk result (stacks world.new.now.soft ≡ stacks world.old.now.soft) }
    ensures units { OnOk result (world.new.now.hard.units ≤ world.old.now.hard.units) }
    ensures events { OnOk result (NoFewerEvents world.old.now world.new.now) }
{
    if world.entries().count_on(handle, i.guid) == 0 {
        remove_interface(world, handle, i.guid)?;
        return Ok(Status::SUCCESS);
    }
    let c = Connection {
        controller: handle.get(),
        path: 0,
        at_end: false,
        recursive: true,
    };
    connect(world, settings, room, scope, &c, &[])?;
    Ok(Status::ACCESS_DENIED)
}

/// Uninstalls interfaces one after the other, as long as each succeeds. The answer is whether all did.
#[cycle(engine)]
pub fn uninstall_each(
    world: &mut World,
    settings: &Settings,
    room: u8,
    scope: Scope,
    remover: Remover,
    interfaces: &[HandleInterface],
) -> Result<bool, OutOfMemory>
    requires room { room ≤ most_levels }
    requires free { is_free room (stacks world.old.now.soft) world.old.marks ≡ true }
    requires marks { has_marks 0 room world.old.marks ≡ true }
    requires may_go { list_all (may_go remover) interfaces.now ≡ true }
    ensures now { IfOk result (λ all.
        each_uninstalled plain settings.now (level_below settings.now room) scope remover
        interfaces.now world.old.now
        ≡ (all, world.new.now)) }
    ensures marks { OnOk result (world.new.marks ≡ world.old.marks) }
    ensures stacks { OnOk result (stacks world.new.now.soft ≡ stacks world.old.now.soft) }
    ensures units { OnOk result (world.new.now.hard.units ≤ world.old.now.hard.units) }
    ensures events { OnOk result (NoFewerEvents world.old.now world.new.now) }
{
    for i in interfaces {
        let status = uninstall(world, settings, room, scope, remover, i)?;
        if status != Status::SUCCESS {
            return Ok(false);
        }
    }
    Ok(true)
}

/// Uninstalls the first of some interfaces for a driver, as `uninstall` does, and answers whether it did. If a
/// driver was disconnected for that, and one of the interfaces is then refused for certain, the first one stays,
/// and the answer is `false`. So no handle goes with all records that name it, only to come back.
#[cycle(engine)]
fn uninstall_first(
    world: &mut World,
    settings: &Settings,
    room: u8,
    scope: Scope,
    interfaces: &[HandleInterface],
) -> Result<bool, OutOfMemory>
    requires some { 0 < length interfaces.now }
    requires room { room ≤ most_levels }
    requires free { is_free room (stacks world.old.now.soft) world.old.marks ≡ true }
    requires marks { has_marks 0 room world.old.marks ≡ true }
    ensures now { IfOk result (λ gone.
        IsFirstStep gone world.new.now
        (each_uninstalled plain settings.now (level_below settings.now room) scope ADriver)
        interfaces.now world.old.now) }
    ensures marks { OnOk result (world.new.marks ≡ world.old.marks) }
    ensures stacks { OnOk result (stacks world.new.now.soft ≡ stacks world.old.now.soft) }
    ensures units { OnOk result (world.new.now.hard.units ≤ world.old.now.hard.units) }
    ensures events { OnOk result (NoFewerEvents world.old.now world.new.now) }
{
    let remover = Remover::ADriver;
    let i = &interfaces[0];
    if !is_first_there(world, remover, i) || is_kept_from(world, remover, i) {
        return Ok(false);
    }
    let is_managed = manager_on(world, i).is_some();
    let status = release(world, settings, room, scope, i)?;
    if is_managed && is_refused_early(world, interfaces) {
        late_refusals_change_the_soft_part_alone();
        world.is_kept();
        return Ok(false);
    }
    drivers_may_uninstall();
    let last = uninstall_released(world, settings, room, scope, remover, i, status)?;
    Ok(last == Status::SUCCESS)
}

/// Uninstalls interfaces for a driver one after the other, and answers whether all are uninstalled. If one is
/// refused, the soft part is to be put back by the caller, whatever has changed in it.
#[cycle(engine)]
fn uninstall_all(
    world: &mut World,
    settings: &Settings,
    room: u8,
    scope: Scope,
    interfaces: &[HandleInterface],
) -> Result<bool, OutOfMemory>
    requires room { room ≤ most_levels }
    requires free { is_free room (stacks world.old.now.soft) world.old.marks ≡ true }
    requires marks { has_marks 0 room world.old.marks ≡ true }
    ensures now { IfOk result (λ all.
        IsOutcome all world.new.now
        (each_uninstalled plain settings.now (level_below settings.now room) scope ADriver
        interfaces.now world.old.now)) }
    ensures marks { OnOk result (world.new.marks ≡ world.old.marks) }
    ensures stacks { OnOk result (stacks world.new.now.soft ≡ stacks world.old.now.soft) }
    ensures units { OnOk result (world.new.now.hard.units ≤ world.old.now.hard.units) }
    ensures events { OnOk result (NoFewerEvents world.old.now world.new.now) }
{
    for at in 0..interfaces.len() {
        if !uninstall_first(world, settings, room, scope, &interfaces[at..])? {
            return Ok(false);
        }
    }
    Ok(true)
}

/// Uninstalls all interfaces of a list, for a driver, and answers SUCCESS; or leaves the soft part as it was,
/// and answers INVALID_PARAMETER. A list that comes to a refused pair before any driver would be called is
/// refused at once, so that no interface is removed and put back.
///
/// # Errors
///
/// `OutOfMemory` if there is no memory for what the drivers do, or for a copy of the soft part.
#[cycle(engine)]
#[tactic(auto, unfolding(driver_model::specs::UninstallWithReconnection::many_uninstalled))]
pub fn uninstall_many(
    world: &mut World,
    settings: &Settings,
    room: u8,
    scope: Scope,
    interfaces: &[HandleInterface],
) -> Result<Status, OutOfMemory>
    requires room { room ≤ most_levels }
    requires free { is_free room (stacks world.old.now.soft) world.old.marks ≡ true }
    requires marks { has_marks 2 room world.old.marks ≡ true }
    ensures now { IfOk result (λ status.
        many_uninstalled plain settings.now (level_below settings.now room) scope interfaces.now
        world.old.now
        ≡ (status, world.new.now)) }
    ensures marks { OnOk result (world.new.marks ≡ world.old.marks) }
    ensures stacks { OnOk result (stacks world.new.now.soft ≡ stacks world.old.now.soft) }
    ensures units { OnOk result (world.new.now.hard.units ≤ world.old.now.hard.units) }
    ensures events { OnOk result (NoFewerEvents world.old.now world.new.now) }
{
    if is_refused_early(world, interfaces) {
        early_refusals_change_nothing();
        world.is_kept();
        return Ok(Status::INVALID_PARAMETER);
    }
    levels_are_free();
    marks_suffice();
    let mark = world.mark();
    let all = uninstall_all(world, settings, room, scope, interfaces)?;
    settle_all(world, mark, all)
}
