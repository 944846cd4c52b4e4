//! What DisconnectController looks at and closes (UEFI 2.8, 7.3).
ghost use Rattle.std.specs.Prelude.{◌≡◌, ◌≤◌, IfOk, None, OnOk, Some, if◌then◌else◌, length};
ghost use Rattle.std.specs.List.{list_any};
ghost use Rattle.fw_types.specs.declared.limits.TheConstants.{MOST_LISTED as most_listed};
ghost use Rattle.world_model.specs.Marks.{stacks};
ghost use Rattle.driver_model.specs.Moves.{plain};
ghost use Rattle.driver_model.specs.Disconnect.{are_all, children_closed, children_to_stop, disconnect_concluded, has_any_record, has_record_of, is_meaningless, is_of_another, is_only, list_address, manages, noted, stop_call};
ghost use Rattle.driver_model.specs.Levels.{level_with};

use bind_plan::{binding, has_record_on};
use driver_model::{BindingBlock, Call, CallKind, Disconnection, StopTurn};
use fw_types::{Attr, Handle, MOST_LEVELS, OutOfMemory, Status};
use fw_world::World;
use guest_memory::address_map::{CHILD_LISTS, LIST_ROOM};
use std::alloc::Global;

/// Whether a handle that is given means nothing: the controller is not live, the driver has no
/// binding, or the child is not live.
fn is_meaningless(world: &World, d: &Disconnection) -> bool
    ensures { result ≡ is_meaningless d.now world.now.now.soft }
{
    !world.db().is_live(d.controller)
        || !(d.driver == 0 || binding(world, d.driver).is_some())
        || !(d.child == 0 || world.db().is_live(d.child))
}

/// The controller of a disconnect, unless a handle that is given means nothing.
pub fn controller_of(world: &World, d: &Disconnection) -> Option<Handle>
    ensures { result ≡
        (if is_meaningless d.now world.now.now.soft then None else Some d.now.controller) }
{
    world.is_kept();
    if is_meaningless(world, d) {
        return None;
    }
    Handle::new(d.controller)
}

/// Whether an agent has a record on a controller with one of these bits.
fn has_record_of(
    world: &World,
    controller: Handle,
    agent: u64,
    bits: u32,
) -> Result<bool, OutOfMemory>
    ensures { IfOk result (λ has. has_record_of controller agent bits world.now.now.soft ≡ has) }
{
    has_record_on(world, controller, agent, None, bits)
}

/// Whether a driver manages a controller: it has it open by BY_DRIVER.
///
/// # Errors
///
/// `OutOfMemory` if there is no memory for the list of the protocols.
pub fn manages(world: &World, controller: Handle, agent: u64) -> Result<bool, OutOfMemory>
    ensures { IfOk result (λ is. manages controller agent world.now.now.soft ≡ is) }
{
    has_record_of(world, controller, agent, Attr::BY_DRIVER)
}

/// Whether a driver has any record on a controller.
fn has_any_record(world: &World, controller: Handle, agent: u64) -> Result<bool, OutOfMemory>
    ensures { IfOk result (λ has. has_any_record controller agent world.now.now.soft ≡ has) }
{
    has_record_of(world, controller, agent, Attr::ALL_BITS)
}

/// Whether the given child, if there is one, is not among a driver's children.
pub fn is_of_another(child: u64, children: &[Handle]) -> bool
    ensures { is_of_another child children.now ≡ result }
{
    match Handle::new(child) {
        None => false,
        Some(child) => !children.contains(&child),
    }
}

/// Whether a driver has no child left after the children that are meant are stopped.
pub fn are_all(child: u64, children: &[Handle]) -> bool
    ensures { are_all child children.now ≡ result }
{
    child == 0 || (children.len() == 1 && children[0].get() == child)
}

/// The children that are stopped: the given child, or all children of the driver.
///
/// # Errors
///
/// `OutOfMemory` if there is no memory for the list.
pub fn children_to_stop(
    alloc: Global,
    child: u64,
    children: &[Handle],
) -> Result<Vec<Handle>, OutOfMemory>
    requires few { length children.now ≤ most_listed }
    ensures stopped { IfOk result (λ stopped. children_to_stop child children.now ≡ stopped.items) }
    ensures few { IfOk result (λ stopped. length stopped.items ≤ most_listed) }
{
    let Some(child) = Handle::new(child) else {
        return Ok(Vec::from_slice(alloc, children)?);
    };
    let mut stopped = Vec::new(alloc);
    if !children.is_empty() {
        stopped.push(child)?;
    }
    Ok(stopped)
}

/// Where a call at the level with this room finds its list of children, or NULL if there are none.
fn list_address(room: u8, children: &[u64]) -> u64
    requires { room ≤ MOST_LEVELS }
    ensures { result ≡ list_address (level_with room) children.now }
{
    if children.is_empty() {
        0
    } else {
        CHILD_LISTS + LIST_ROOM * u64::from(MOST_LEVELS - room)
    }
}

/// The call of Stop at the level with this room: its arguments are the binding, the controller, the
/// number of children and their list.
pub fn stop_call(room: u8, block: &BindingBlock, controller: Handle, children: &[u64]) -> Call
    requires { room ≤ MOST_LEVELS }
    ensures { result ≡ stop_call (level_with room) block.now controller children.now }
{
    let count = children.len() as u64;
    let mut slots = [0; 16];
    slots[0] = block.at;
    slots[1] = controller.get();
    slots[2] = count;
    slots[3] = list_address(room, children);
    Call {
        kind: CallKind::Stop,
        driver: block.handle.get(),
        controller: controller.get(),
        extra: count,
        address: block.stop,
        binding: block.at,
        slots,
    }
}

/// Closes the records of a driver for these children on a controller.
///
/// # Errors
///
/// `OutOfMemory` if there is no memory for what is left.
pub fn close_children(
    world: &mut World,
    controller: Handle,
    agent: Handle,
    children: &[Handle],
) -> Result<(), OutOfMemory>
    ensures now { OnOk result (
        children_closed plain controller agent children.now world.old.now ≡ world.new.now) }
    ensures marks { OnOk result (world.new.marks ≡ world.old.marks) }
    ensures stacks { OnOk result (stacks world.new.now.soft ≡ stacks world.old.now.soft) }
    ensures hard { OnOk result (world.new.now.hard ≡ world.old.now.hard) }
{
    for child in children {
        world.leave_child(controller, agent.get(), *child)?;
    }
    Ok(())
}

/// Notes the result of a driver's turn.
///
/// # Errors
///
/// `OutOfMemory` if there is no memory for the list.
pub fn note(
    turn: StopTurn,
    agent: u64,
    failed: &mut bool,
    stopped: &mut Vec<u64>,
) -> Result<(), OutOfMemory>
    ensures { OnOk result (noted agent turn (failed.old, stopped.old.items)
        ≡ (failed.new, stopped.new.items)) }
{
    match turn {
        StopTurn::Passed => {}
        StopTurn::Failed => *failed = true,
        StopTurn::Stopped => stopped.insert(0, agent)?,
    }
    Ok(())
}

/// Whether one of these drivers has a record on a controller.
fn any_has_record(world: &World, controller: Handle, agents: &[u64]) -> Result<bool, OutOfMemory>
    ensures { IfOk result (λ has.
        list_any (λ agent. has_any_record controller agent world.now.now.soft) agents.now ≡ has) }
{
    for agent in agents {
        if has_any_record(world, controller, *agent)? {
            return Ok(true);
        }
    }
    Ok(false)
}

/// What DisconnectController answers after all turns: DEVICE_ERROR if a driver failed, or if a
/// driver that was stopped has a record on the controller now.
///
/// # Errors
///
/// `OutOfMemory` if there is no memory for the list of the protocols.
pub fn conclude(
    world: &World,
    d: &Disconnection,
    controller: Handle,
    failed: bool,
    stopped: &[u64],
) -> Result<Status, OutOfMemory>
    requires { d.now.controller ≡ controller }
    ensures { IfOk result (λ status.
        disconnect_concluded plain d.now ((failed, stopped.now), world.now.now)
        ≡ (status, world.now.now)) }
{
    if failed {
        return Ok(Status::DEVICE_ERROR);
    }
    if any_has_record(world, controller, stopped)? {
        return Ok(Status::DEVICE_ERROR);
    }
    Ok(Status::SUCCESS)
}
